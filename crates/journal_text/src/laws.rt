//! What is read of a journal that a kill has cut.

ghost use Rattle.journal_text.specs.Cuts.{EachCutIsRead, EachIsReadBack, FirstIsReadBack, WholeIsRead};

/// Of each front of a journal some first entries are read, at least all whose lines are whole in it, and nothing is refused. Of the
/// whole all is read.
pub fn each_cut_is_read()
    ensures cut { EachCutIsRead }
    ensures whole { WholeIsRead }
{}

/// A journal's first line, and the line of each entry, are read as what they say.
pub fn each_is_read_back()
    ensures entry { EachIsReadBack }
    ensures first { FirstIsReadBack }
{}
