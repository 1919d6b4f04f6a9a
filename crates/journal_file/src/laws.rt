//! What is read of a journal after a kill.

ghost use Rattle.journal_file.specs.Kills.{EachKillIsRead};

use journal_text::laws::each_cut_is_read;

/// A journal that was whole, and then was written to, is read at each cut behind what it was: all that it told is told, and a first part
/// of what was written, at least as much as stands whole before the cut.
pub fn each_kill_is_read()
    ensures { EachKillIsRead }
{
    each_cut_is_read();
}
