//! The lines of a run beside those of a report: what became of each letter, how many each channel of a lane has taken, and why a lane is
//! closed.

ghost use Rattle.std.specs.Prelude.{◌≡◌, [], ◌∷◌, ◌++◌, OnOk};
ghost use Rattle.command_output.specs.claims.RunLine.{channel_line, closed_line, letter_line, why_name};

use crate::fields::{push_contact, push_field, push_lane, push_number, push_object};
use due_model::config::{Config, LaneId};
use due_model::notice::Notice;
use std::alloc::AllocError;
use undelivered::Why;

/// Why a lane is closed, as a program prints it.
fn why_name(why: Why) -> &'static str
    ensures { result.now ≡ why_name why }
{
    match why {
        Why::FeedOver => "FeedOver",
        Why::Asked => "Asked",
        Why::Failed => "Failed",
        Why::NoMemory => "NoMemory",
        Why::NoChannel => "NoChannel",
    }
}

/// Adds a line that begins with this letter and tells of a notice of a lane.
pub(crate) fn push_letter(
    line: &mut Vec<u8>,
    config: &Config,
    letter: u8,
    lane: LaneId,
    notice: &Notice,
) -> Result<(), AllocError>
    ensures { OnOk result
        (line.new.items ≡ line.old.items ++ letter_line letter config.now lane.0 notice.now) }
{
    line.push(letter)?;
    push_lane(line, config, lane)?;
    push_number(line, notice.event)?;
    push_object(line, config, notice.object)?;
    push_contact(line, config, notice.contact)?;
    line.extend_from_slice(b"\n")
}

/// Adds the line of why a lane is closed.
pub(crate) fn push_closed(
    line: &mut Vec<u8>,
    config: &Config,
    lane: LaneId,
    why: Why,
) -> Result<(), AllocError>
    ensures { OnOk result
        (line.new.items ≡ line.old.items ++ closed_line config.now lane.0 why) }
{
    line.extend_from_slice(b"Z")?;
    push_lane(line, config, lane)?;
    push_field(line, why_name(why).as_bytes())?;
    line.extend_from_slice(b"\n")
}

/// Adds the line of how many notices a channel of a lane has taken, by its number among the lane's.
pub(crate) fn push_channel(
    line: &mut Vec<u8>,
    config: &Config,
    lane: LaneId,
    number: u64,
    count: u64,
) -> Result<(), AllocError>
    ensures { OnOk result
        (line.new.items ≡ line.old.items ++ channel_line config.now lane.0 number count) }
{
    line.extend_from_slice(b"G")?;
    push_lane(line, config, lane)?;
    push_number(line, number)?;
    push_number(line, count)?;
    line.extend_from_slice(b"\n")
}
