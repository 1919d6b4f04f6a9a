//! The lines of what the feed of a run gave: its lines that were refused, and what its events suppressed.

ghost use Rattle.std.specs.Prelude.{◌≡◌, ◌++◌, IfErr, OnOk};
ghost use Rattle.command_output.specs.claims.Outcome.{IsWriteFault};
ghost use Rattle.written.specs.claims.Written.{Leaves, WritesFront};
ghost use Rattle.run_command.specs.claims.Report.{log_text, refused_text};

use command_output::{CommandFault, Lines, OutputLine, Sink};
use due_model::config::Config;
use due_model::notice::Suppression;
use event_feed::RefusedLine;

/// Makes the lines of refused lines of the feed.
pub(crate) fn write_refused<W: Sink>(
    lines: &mut Lines,
    writer: &mut W,
    config: &Config,
    refused: &[RefusedLine],
) -> Result<(), CommandFault>
    ensures ok { OnOk result (Leaves (W.contents writer.old) (W.contents writer.new)
        (lines.old ++ refused_text refused.now) lines.new) }
    ensures front { WritesFront (W.contents writer.old) (W.contents writer.new)
        (lines.old ++ refused_text refused.now) }
    ensures fault { IfErr result (λ fault. IsWriteFault W.can_fail fault) }
{
    for refusal in refused {
        let line = OutputLine::Refused {
            line: refusal.line,
            fault: refusal.fault,
        };
        lines.write(writer, config, &line)?;
    }
    Ok(())
}

/// Makes the lines of suppressions.
pub(crate) fn write_log<W: Sink>(
    lines: &mut Lines,
    writer: &mut W,
    config: &Config,
    log: &[Suppression],
) -> Result<(), CommandFault>
    ensures ok { OnOk result (Leaves (W.contents writer.old) (W.contents writer.new)
        (lines.old ++ log_text config.now log.now) lines.new) }
    ensures front { WritesFront (W.contents writer.old) (W.contents writer.new)
        (lines.old ++ log_text config.now log.now) }
    ensures fault { IfErr result (λ fault. IsWriteFault W.can_fail fault) }
{
    for suppression in log {
        lines.write(writer, config, &OutputLine::Suppression(*suppression))?;
    }
    Ok(())
}
