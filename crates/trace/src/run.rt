//! A run of steps in a world.

ghost use Rattle.std.specs.Prelude.{◌≡◌, ◌↔◌, List, ℕ, ◌++◌, IfErr, IsErrOf, OnErr, OnOk};
ghost use Rattle.command_output.specs.claims.Outcome.{IsWriteFault};
ghost use Rattle.written.specs.claims.Written.{Leaves};
ghost use Rattle.world_steps.specs.claims.Views.{world_setup, world_state};
ghost use Rattle.trace.specs.StepLine.{Spells};
ghost use Rattle.trace.specs.Run.{Does, DoesSaid, Fits, IsEnabledIn, IsProperLine};
ghost use Rattle.trace.specs.Run.{SaidFront, run_state};

use crate::refusal::refuse;
use crate::step_line::{StepLine, read_step};
use command_output::{CommandFault, Lines, Sink, StepRefusal};
use due_model::config::Config;
use due_model::event::Event;
use world_steps::{Step, StepFault, World};

/// A world, and the events that are posted to it in turn.
#[derive(Drop)]
pub(crate) struct Run<'a> {
    pub(crate) config: &'a Config,
    pub(crate) deciders: u8,
    pub(crate) world: World<'a>,
    /// The events of the feed, in order.
    pub(crate) events: Vec<Event>,
    /// How many of them are posted.
    pub(crate) posted: usize,
    /// Whether the feed has more events than can be numbered.
    pub(crate) is_over: bool,
}

/// Does the step of a step line, or writes the line of its refusal.
pub(crate) fn do_line<W: Sink>(
    lines: &mut Lines,
    writer: &mut W,
    run: &mut Run<'_>,
    number: u64,
    line: &[u8],
) -> Result<(), CommandFault>
    requires fits { Fits run.old }
    ensures fits { Fits run.new }
    // What the line says is done, or its refusal is written, and nothing else.
    ensures ok { OnOk result ((text : List ℕ)
        × DoesSaid (world_setup run.old.world) number
        (λ said. Spells run.old.config.now run.old.deciders said line.now)
        (run_state run.old) (run_state run.new) text
        × Leaves (W.contents writer.old) (W.contents writer.new) (lines.old ++ text) lines.new) }
    ensures front { OnErr result (SaidFront (world_setup run.old.world) number
        (λ said. Spells run.old.config.now run.old.deciders said line.now) (run_state run.old)
        (W.contents writer.old) (W.contents writer.new) lines.old) }
    ensures fault { IfErr result (λ fault. IsWriteFault W.can_fail fault) }
    ensures setup { world_setup run.new.world ≡ world_setup run.old.world }
    ensures config { run.new.config ≡ run.old.config }
    ensures deciders { run.new.deciders ≡ run.old.deciders }
    ensures over { run.new.is_over ≡ run.old.is_over }
{
    let Some(said) = read_step(run.config, run.deciders, line) else {
        return refuse(lines, writer, run.config, number, StepRefusal::BadStep);
    };
    match do_step(run, said) {
        Ok(()) => Ok(()),
        Err(StepFault::NotEnabled) => {
            refuse(lines, writer, run.config, number, StepRefusal::NotEnabled)
        }
        Err(StepFault::NoMemory) => Err(lines.out_of_memory(writer)),
    }
}

/// Does what a step line says. A post of an event that isn't there isn't enabled.
fn do_step(run: &mut Run<'_>, said: StepLine) -> Result<(), StepFault>
    requires fits { Fits run.old }
    requires proper { IsProperLine run.old.config.now said }
    ensures fits { Fits run.new }
    ensures refused { IsErrOf result StepFault.NotEnabled
        ↔ ¬ IsEnabledIn (world_setup run.old.world) (run_state run.old) said }
    ensures ok { OnOk result
        (Does (world_setup run.old.world) (run_state run.old) said (run_state run.new)) }
    ensures err { OnErr result (run_state run.new ≡ run_state run.old) }
    ensures setup { world_setup run.new.world ≡ world_setup run.old.world }
    ensures config { run.new.config ≡ run.old.config }
    ensures deciders { run.new.deciders ≡ run.old.deciders }
    ensures over { run.new.is_over ≡ run.old.is_over }
{
    match said {
        StepLine::PostNext => {
            let Some(event) = run.events.get(run.posted) else {
                return Err(StepFault::NotEnabled);
            };
            match run.world.apply(Step::Post(*event)) {
                Ok(()) => {
                    run.posted += 1;
                    Ok(())
                }
                Err(fault) => Err(fault),
            }
        }
        StepLine::Do(step) => run.world.apply(step),
    }
}
