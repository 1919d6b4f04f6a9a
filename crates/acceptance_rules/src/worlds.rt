//! A world at its limits. The worked examples are rows of `tests/traces`.

ghost use Rattle.std.specs.Prelude.{◌≡◌, ◌<◌, All, IsTrue, length};
ghost use Rattle.due_model.specs.claims.Accepted.{IsAccepted};
ghost use Rattle.world_steps.specs.claims.Steps.{IsProperStep};
ghost use Rattle.world_steps.specs.claims.Views.{world_setup};

use acceptance_inputs::accepted::is_accepted;
use acceptance_inputs::configs::wide;
use acceptance_inputs::events::hard;
use due_model::config::{Config, LaneId, ObjectId};
use due_model::notice::Notice;
use due_model::proper::is_proper;
use due_model::state::State;
use due_model::zone::Zone;
use std::alloc::{AllocError, Global};
use std::process::Abort;
use world_steps::{MAX_CHANNELS, Settings, Step, StepFault, World};

/// Whether the step posts what may be posted, if it posts.
fn is_proper_step(config: &Config, step: Step) -> bool
    ensures { IsTrue result → IsProperStep config.now step }
{
    match step {
        Step::Post(event) => is_proper(config, &event),
        _ => true,
    }
}

/// Whether each step is.
fn are_proper_steps(config: &Config, steps: &[Step]) -> bool
    ensures { IsTrue result → All (IsProperStep config.now) steps.now }
{
    for step in steps {
        if !is_proper_step(config, *step) {
            return false;
        }
    }
    true
}

/// Applies a step that isn't enabled.
fn refuses(rt: &impl Abort, config: &Config, world: &mut World, step: Step)
    requires { (world_setup world.old).config ≡ config.now }
    ensures { world_setup world.new ≡ world_setup world.old }
{
    assert!(rt; is_proper_step(config, step));
    assert!(rt; world.apply(step) == Err(StepFault::NotEnabled), "{step:?}");
}

/// As many deciders and tries as there can be.
const MOST: Settings = Settings {
    deciders: 8,
    queue: 1,
    tries: 10,
};

/// The last of sixteen lanes.
const LAST: LaneId = LaneId(15);

/// Whether notices are of these events.
fn are_of(notices: &[Notice], events: &[u64]) -> bool {
    if notices.len() != events.len() {
        return false;
    }
    for (notice, event) in notices.iter().zip(events) {
        if notice.event != *event {
            return false;
        }
    }
    true
}

/// Runs steps that are enabled.
fn runs(rt: &impl Abort, config: &Config, world: &mut World, steps: &[Step])
    requires { (world_setup world.old).config ≡ config.now }
    ensures { world_setup world.new ≡ world_setup world.old }
{
    assert!(rt; are_proper_steps(config, steps));
    assert!(rt; world.run(steps).is_ok());
}

/// Each of eight hosts is down, and each decider has decided it; each queue has a notice of the first decider.
fn crowd(alloc: Global) -> Result<Vec<Step>, AllocError> {
    let mut steps = Vec::new(alloc);
    for object in 0..8u16 {
        steps.push(Step::Post(hard(0, object, State::Down)))?;
    }
    for turn in 0..64u8 {
        steps.push(Step::Decide(turn % 8))?;
    }
    for lane in 0..16u8 {
        steps.push(Step::Put(0, LaneId(lane)))?;
    }
    Ok(steps)
}

/// What waits on the last lane of a world about an object, in the queue and in the outbox, is of these events.
fn has_waiting(
    rt: &impl Abort,
    alloc: Global,
    world: &World<'_>,
    object: ObjectId,
    queue: &[u64],
    outbox: &[u64],
) -> Result<(), AllocError>
    requires lane { 15 < length (world_setup world.now).config.lanes }
    requires object { object.0 < length (world_setup world.now).config.objects }
{
    let parts = world.line(alloc, LAST, object)?;
    assert!(rt; are_of(&parts.queue, queue) && are_of(&parts.outbox, outbox));
    Ok(())
}

/// A world of many deciders and lanes, after the crowd of steps: the last lane has a notice of the first decider in its
/// queue, and one of the last in the outbox.
fn last_lane_is_full(
    rt: &impl Abort,
    alloc: Global,
    config: &Config,
    steps: &[Step],
) -> Result<(), AllocError>
    requires accepted { IsAccepted config.now }
    requires lanes { length config.now.lanes ≡ 16 }
    requires objects { length config.now.objects ≡ 8 }
{
    let zone = Zone::Utc;
    let mut world = World::new(alloc, config, &zone, MOST, &[MAX_CHANNELS; 16])?;
    runs(rt, config, &mut world, steps);
    refuses(rt, config, &mut world, Step::Put(7, LAST));
    has_waiting(rt, alloc, &world, ObjectId(0), &[0], &[])?;
    has_waiting(rt, alloc, &world, ObjectId(7), &[], &[7])
}

/// The same of a configuration that is seen to be accepted.
fn is_full(rt: &impl Abort, alloc: Global, config: &Config) -> Result<(), AllocError> {
    let steps = crowd(alloc)?;
    assert!(rt; is_accepted(config) && config.lanes.len() == 16 && config.objects.len() == 8);
    last_lane_is_full(rt, alloc, config, steps.as_slice())
}

#[test]
fn at_the_limits(rt: HostRuntime) -> Result<(), AllocError> {
    let config = wide(rt.alloc())?;
    is_full(&rt, rt.alloc(), &config)
}
