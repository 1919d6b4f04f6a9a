//! The world of steps.

ghost use Rattle.world_steps.specs.claims.Worlds.{setup_for};
ghost use Rattle.world_steps.specs.claims.Fits.{Fits, Fits-prop};

use crate::deciders::{KeptDecider, new_deciders};
use crate::line::about_in_outbox;
use decider::DecideFault;
use due_laws::laws::{stand_once, tell_of_events};
use due_model::config::{Config, LaneId, ObjectId};
use due_model::event::Event;
use due_model::limits::MAX_EVENTS;
use due_model::zone::Zone;
use std::alloc::{AllocError, Global};
use steps::{KeptLane, LaneStep, LineParts, Settings, Step, StepFault, Stopped, new_lanes};

/// The posted events, the deciders and the lanes, as one state.
#[derive(Drop)]
pub struct World<'a> {
    config: &'a Config,
    zone: &'a Zone,
    settings: Settings,
    /// The posted events.
    posted: Vec<Event>,
    /// The deciders, each with its outbox.
    deciders: Vec<KeptDecider<'a>>,
    /// The lanes.
    lanes: Vec<KeptLane>,
    ghost fits: { Fits (setup_for config.now zone.now settings)
        posted.items deciders.items lanes.items } by { Fits-prop _ _ _ _ },
}

impl<'a> World<'a> {
    ghost use Rattle.std.specs.Prelude.{◌≡◌, ◌↔◌, ◌<◌, ◌≤◌, length, All, IsTrue, IfOk, OnOk};
    ghost use Rattle.std.specs.Prelude.{OnErr, IfErr, IsErrOf};
    ghost use Rattle.due_model.specs.claims.Accepted.{IsAccepted};
    ghost use Rattle.due_model.specs.claims.Proper.{IsProper};
    ghost use Rattle.due_model.specs.claims.Due.{due};
    ghost use Rattle.world_steps.specs.claims.Worlds.{lane_at, outbox_at};
    ghost use Rattle.world_steps.specs.claims.Steps.{CanDecide, CanPut, IsEnabled, IsProperStep, after};
    ghost use Rattle.world_steps.specs.claims.Steps.{past_of};
    ghost use Rattle.steps.specs.claims.Lanes.{about, all_taken};
    ghost use Rattle.steps.specs.Settings.{max_channels};
    ghost use Rattle.world_steps.specs.claims.Lines.{decider_of, line, LinesAreDue, NoticesStandOnce};
    ghost use Rattle.world_steps.specs.claims.Runs.{LeadsTo, StopsAt};
    ghost use Rattle.world_steps.specs.Runs.{new_world};
    ghost use Rattle.world_steps.specs.claims.Runs.{ReplacedTakeNothing, ShutTakesNothing};
    ghost use Rattle.world_steps.specs.claims.Views.{world_state, world_setup};
    ghost use Rattle.world_steps.specs.Views.{joined};

    /// A world of this configuration in which nothing has happened. `served` says of each lane how many channels its
    /// channel has, up to `MAX_CHANNELS`: one serves, and the others stand by. A lane without any is shut. A refused growth
    /// is the only error.
    pub fn new(
        alloc: Global,
        config: &'a Config,
        zone: &'a Zone,
        settings: Settings,
        served: &[u8],
    ) -> Result<World<'a>, AllocError>
        requires accepted { IsAccepted config.now }
        requires served { length served.now ≡ length config.now.lanes }
        requires channels { All (λ channels. channels ≤ max_channels) served.now }
        ensures setup { IfOk result (λ world.
            world_setup world ≡ setup_for config.now zone.now settings) }
        ensures state { IfOk result (λ world.
            world_state world ≡ new_world (setup_for config.now zone.now settings) served.now) }
    {
        Ok(World {
            config,
            zone,
            settings,
            posted: Vec::new(alloc),
            deciders: new_deciders(alloc, config, zone, settings)?,
            lanes: new_lanes(alloc, served)?,
        })
    }

    /// What a lane holds of an object, part by part: joined in the order of the parts they are what is due. It costs
    /// what is in the lane and in the outbox of the object's decider for it. A refused growth is the only error.
    pub fn line(
        &self,
        alloc: Global,
        lane: LaneId,
        object: ObjectId,
    ) -> Result<LineParts, AllocError>
        requires lane { lane.0 < length (world_setup self.now).config.lanes }
        requires object { object.0 < length (world_setup self.now).config.objects }
        ensures taken { IfOk result (λ parts.
            parts.taken.items ≡ about object.0
            (all_taken (lane_at (world_state self.now) lane.0))) }
        ensures hand { IfOk result (λ parts.
            parts.hand.items ≡ about object.0 (lane_at (world_state self.now) lane.0).hand) }
        ensures undelivered { IfOk result (λ parts.
            parts.undelivered.items
            ≡ about object.0 (lane_at (world_state self.now) lane.0).undelivered) }
        ensures queue { IfOk result (λ parts.
            parts.queue.items ≡ about object.0 (lane_at (world_state self.now) lane.0).queue) }
        ensures outbox { IfOk result (λ parts.
            parts.outbox.items ≡ about object.0
            (outbox_at (world_state self.now)
            (decider_of (world_setup self.now) object.0) lane.0)) }
        // Joined they are the line, and so what is due.
        ensures line { IfOk result (λ parts.
            joined parts ≡ line (world_setup self.now) (world_state self.now) lane.0 object.0) }
        ensures due { IfOk result (λ parts.
            joined parts ≡ due (world_setup self.now).config (world_setup self.now).zone
            object.0 lane.0
            (past_of (world_state self.now) (decider_of (world_setup self.now) object.0))) }
    {
        let decider = object.0 % u16::from(self.settings.deciders);
        let owner = &self.deciders[decider as usize];
        let outbox = about_in_outbox(alloc, &owner.outbox, lane, object)?;
        let held = &self.lanes[lane.0 as usize];
        held.about(alloc, object, outbox)
    }

    /// Whether a decider has an event to decide.
    fn can_decide(&self, decider: u8) -> bool
        ensures { IsTrue result ↔ CanDecide (world_state self.now) decider }
    {
        let number = decider as usize;
        if number >= self.deciders.len() {
            return false;
        }
        let next = &self.deciders[number];
        next.decider.decided() < self.posted.len() as u64
    }

    /// Whether something of a decider waits for a lane.
    fn waits(&self, decider: u8, lane: LaneId) -> bool
        requires decider { decider < length (world_state self.now).deciders }
        requires lane { lane.0 < length (world_state self.now).lanes }
        ensures { IsTrue result ↔ (0 < length (outbox_at (world_state self.now) decider lane.0)) }
    {
        let from = &self.deciders[decider as usize];
        from.outbox.front(lane).is_some()
    }

    /// Whether the queue of a lane isn't full.
    fn has_room(&self, lane: LaneId) -> bool
        requires { lane.0 < length (world_state self.now).lanes }
        ensures { IsTrue result ↔
            (length (lane_at (world_state self.now) lane.0).queue
            < (world_setup self.now).settings.queue) }
    {
        let to = &self.lanes[lane.0 as usize];
        to.waiting() < self.settings.queue as usize
    }

    /// Whether something of a decider waits for a lane whose queue has room.
    fn can_put(&self, decider: u8, lane: LaneId) -> bool
        ensures { IsTrue result
            ↔ CanPut (world_setup self.now) (world_state self.now) decider lane.0 }
    {
        (decider as usize) < self.deciders.len()
            && (lane.0 as usize) < self.lanes.len()
            && self.waits(decider, lane)
            && self.has_room(lane)
    }

    /// Whether a step of a lane is enabled.
    fn can_change(&self, lane: LaneId, step: LaneStep) -> bool
        ensures { IsTrue result
            ↔ IsEnabled (world_setup self.now) (world_state self.now) (Step.Lane lane step) }
    {
        let number = lane.0 as usize;
        if number >= self.lanes.len() {
            return false;
        }
        let lane = &self.lanes[number];
        lane.can(step, self.settings.tries)
    }

    /// Whether a step is enabled.
    fn can(&self, step: Step) -> bool
        ensures { IsTrue result ↔ IsEnabled (world_setup self.now) (world_state self.now) step }
    {
        match step {
            Step::Post(_) => (self.posted.len() as u64) < MAX_EVENTS,
            Step::Decide(decider) => self.can_decide(decider),
            Step::Put(decider, lane) => self.can_put(decider, lane),
            Step::Lane(lane, step) => self.can_change(lane, step),
        }
    }

    /// Appends an event to the posted ones. A refused growth changes nothing.
    fn post(&mut self, event: Event) -> Result<(), AllocError>
        requires proper { IsProper (world_setup self.old).config event }
        requires enabled { IsEnabled (world_setup self.old) (world_state self.old)
            (Step.Post event) }
        ensures ok { OnOk result (world_state self.new
            ≡ after (world_setup self.old) (world_state self.old) (Step.Post event)) }
        ensures err { OnErr result (world_state self.new ≡ world_state self.old) }
        ensures setup { world_setup self.new ≡ world_setup self.old }
    {
        self.posted.push(event)?;
        Ok(())
    }

    /// Decides the next event of a decider for its objects, and forgets the suppressions. A refused growth changes
    /// nothing.
    fn decide(&mut self, decider: u8) -> Result<(), AllocError>
        requires { CanDecide (world_state self.old) decider }
        ensures ok { OnOk result (world_state self.new
            ≡ after (world_setup self.old) (world_state self.old) (Step.Decide decider)) }
        ensures err { OnErr result (world_state self.new ≡ world_state self.old) }
        ensures setup { world_setup self.new ≡ world_setup self.old }
    {
        // A law: each notice that is due is of one of the events, and of its own object.
        tell_of_events();
        let next = &mut self.deciders[decider as usize];
        let event = self.posted[next.decider.decided() as usize];
        match next.decider.decide(event, &mut next.outbox) {
            Ok(()) => {
                next.decider.clear_log();
                Ok(())
            }
            Err(DecideFault::NoMemory) => Err(AllocError),
            Err(DecideFault::Ended) => unreachable!(),
        }
    }

    /// Moves the front of a decider's outbox for a lane to the back of the lane's queue. A refused growth changes
    /// nothing.
    fn put(&mut self, decider: u8, lane: LaneId) -> Result<(), AllocError>
        requires { CanPut (world_setup self.old) (world_state self.old) decider lane.0 }
        ensures ok { OnOk result (world_state self.new
            ≡ after (world_setup self.old) (world_state self.old) (Step.Put decider lane)) }
        ensures err { OnErr result (world_state self.new ≡ world_state self.old) }
        ensures setup { world_setup self.new ≡ world_setup self.old }
    {
        let from = &mut self.deciders[decider as usize];
        if let Some(notice) = from.outbox.front(lane) {
            let to = &mut self.lanes[lane.0 as usize];
            to.enqueue(notice)?;
            from.outbox.take_front(lane);
        }
        Ok(())
    }

    /// Does a step of a lane. A refused growth changes nothing.
    fn change(&mut self, lane: LaneId, step: LaneStep) -> Result<(), AllocError>
        requires { IsEnabled (world_setup self.old) (world_state self.old) (Step.Lane lane step) }
        ensures ok { OnOk result (world_state self.new
            ≡ after (world_setup self.old) (world_state self.old) (Step.Lane lane step)) }
        ensures err { OnErr result (world_state self.new ≡ world_state self.old) }
        ensures setup { world_setup self.new ≡ world_setup self.old }
    {
        let tries = self.settings.tries;
        let lane = &mut self.lanes[lane.0 as usize];
        lane.perform(step, tries)?;
        Ok(())
    }

    /// Does an enabled step. A refused growth changes nothing.
    fn perform(&mut self, step: Step) -> Result<(), AllocError>
        requires proper { IsProperStep (world_setup self.old).config step }
        requires enabled { IsEnabled (world_setup self.old) (world_state self.old) step }
        ensures ok { OnOk result (world_state self.new
            ≡ after (world_setup self.old) (world_state self.old) step) }
        ensures err { OnErr result (world_state self.new ≡ world_state self.old) }
        ensures setup { world_setup self.new ≡ world_setup self.old }
    {
        match step {
            Step::Post(event) => self.post(event),
            Step::Decide(decider) => self.decide(decider),
            Step::Put(decider, lane) => self.put(decider, lane),
            Step::Lane(lane, step) => self.change(lane, step),
        }
    }

    /// Does a step. `NotEnabled` comes exactly where the step isn't enabled; it and `NoMemory` change nothing.
    pub fn apply(&mut self, step: Step) -> Result<(), StepFault>
        requires { IsProperStep (world_setup self.old).config step }
        // It isn't enabled: that, and nothing else, is what `NotEnabled` says.
        ensures refused { IsErrOf result StepFault.NotEnabled
            ↔ ¬ IsEnabled (world_setup self.old) (world_state self.old) step }
        ensures enabled { OnOk result
            (IsEnabled (world_setup self.old) (world_state self.old) step) }
        // The step is done, and nothing else.
        ensures ok { OnOk result (world_state self.new
            ≡ after (world_setup self.old) (world_state self.old) step) }
        ensures err { OnErr result (world_state self.new ≡ world_state self.old) }
        ensures setup { world_setup self.new ≡ world_setup self.old }
    {
        if !self.can(step) {
            return Err(StepFault::NotEnabled);
        }
        self.perform(step)?;
        Ok(())
    }

    /// Does these steps in order, up to the first that is refused, and says which that is and why.
    pub fn run(&mut self, steps: &[Step]) -> Result<(), Stopped>
        requires { All (IsProperStep (world_setup self.old).config) steps.now }
        ensures ok { OnOk result
            (LeadsTo (world_setup self.old) (world_state self.old) steps.now
            (world_state self.new)) }
        ensures err { IfErr result (λ stopped.
            StopsAt (world_setup self.old) (world_state self.old) steps.now
            (world_state self.new) stopped) }
        ensures setup { world_setup self.new ≡ world_setup self.old }
        // The headline: wherever it stopped, what each lane holds is what the rules make due,
        ensures due { LinesAreDue (world_setup self.new) (world_state self.new) }
        // each notice once;
        ensures once { NoticesStandOnce (world_setup self.new) (world_state self.new) }
        // a closed channel takes nothing.
        ensures shut { ShutTakesNothing (world_state self.old) (world_state self.new) }
        // Nor does a channel that was replaced.
        ensures replaced { ReplacedTakeNothing (world_state self.old) (world_state self.new) }
    {
        // A law: what is due has no notice twice.
        stand_once();
        for (index, step) in steps.iter().enumerate() {
            if let Err(fault) = self.apply(*step) {
                return Err(Stopped { step: index, fault });
            }
        }
        Ok(())
    }
}
