//! The line of a step line that does nothing.

ghost use Rattle.std.specs.Prelude.{◌++◌, IfErr, OnOk};
ghost use Rattle.command_output.specs.claims.Outcome.{IsWriteFault};
ghost use Rattle.written.specs.claims.Written.{Leaves, WritesFront};
ghost use Rattle.command_output.specs.claims.TraceLine.{refused_step_line};

use command_output::{CommandFault, Lines, OutputLine, Sink, StepRefusal};
use due_model::config::Config;

/// Writes the line of a refused step line.
pub(crate) fn refuse<W: Sink>(
    lines: &mut Lines,
    writer: &mut W,
    config: &Config,
    number: u64,
    refusal: StepRefusal,
) -> Result<(), CommandFault>
    ensures ok { OnOk result (Leaves (W.contents writer.old) (W.contents writer.new)
        (lines.old ++ refused_step_line number refusal) lines.new) }
    ensures front { WritesFront (W.contents writer.old) (W.contents writer.new)
        (lines.old ++ refused_step_line number refusal) }
    ensures fault { IfErr result (λ fault. IsWriteFault W.can_fail fault) }
{
    let line = OutputLine::RefusedStep {
        line: number,
        refusal,
    };
    lines.write(writer, config, &line)
}
