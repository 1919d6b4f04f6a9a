//! The queue of a lane: it leads from several deciders to one worker, and keeps the order of each decider's items. A pass tells
//! what its owner has put or picked.
#![tactic(auto)]

ghost use Rattle.std.specs.Prelude.{◌≡◌, ◌<◌, ℕ, [], ◌∷◌, ◌++◌};
ghost use Rattle.std.specs.Prelude.{All, IfOk, IfErr, IfSome, OnOk, slice_get, Some, vec_len};
ghost use Rattle.std.specs.Option.{option_to_list};
ghost use Rattle.due_model.specs.Items.{decider_of};
ghost use Rattle.channel_queue.specs.Rule.{IsOpen, IsPickedOf, decider_at, joined_of, picked_of, put_of};
ghost use Rattle.channel_queue.specs.Passes.{IsDecider, IsWorker};

use crossbeam_queue::RuledArrayQueue;
use crossbeam_queue::protocol::{Join, Lesson, Outcome, Protocol, Split};
use due_model::item::Item;
use std::alloc::{AllocError, Global};
use std::collections::LinkedList;

/// What a decider had put when its pass was joined to the worker's. No value of it is made.
pub struct Joined {
    pub decider: u8,
    pub put: LinkedList<Item>,
}

/// What a pass knows. No value of it is made.
pub enum Seen {
    /// It was joined to another.
    Spent,
    /// The decider, and what it has put.
    Decider(u8, LinkedList<Item>),
    /// What the worker has picked, the number of deciders, and what those had put that were joined.
    Worker(LinkedList<Item>, u8, LinkedList<Joined>),
}

/// The rule of a lane's queue.
pub struct Lane;

impl Protocol<Item, Seen> for Lane {
    ghost use Rattle.std.specs.Prelude.{[]};
    ghost use Rattle.channel_queue.specs.Rule.{Rule};
    ghost use Rattle.channel_queue.specs.declared.Seen.TheVariants.{Worker};

    ghost holds = { Rule };

    ghost first = { Worker [] 0 [] };
}

/// Makes a decider's pass, and joins one.
pub struct Deal;

impl Split<Seen> for Deal {
    ghost use Rattle.std.specs.Prelude.{[], ◌+◌};
    ghost use Rattle.channel_queue.specs.Rule.{deciders_seen, joined_seen, picked_seen};
    ghost use Rattle.channel_queue.specs.declared.Seen.TheVariants.{Decider, Worker};

    ghost left = { λ v. Worker (picked_seen v) (deciders_seen v + 1) (joined_seen v) };

    ghost right = { λ v. Decider (deciders_seen v) [] };
}

impl Join<Seen> for Deal {
    ghost use Rattle.std.specs.Prelude.{[], ◌∷◌, ◌++◌};
    ghost use Rattle.channel_queue.specs.Rule.{decider_seen, deciders_seen, joined_seen, picked_seen};
    ghost use Rattle.channel_queue.specs.Rule.{put_seen};
    ghost use Rattle.channel_queue.specs.declared.Seen.TheVariants.{Spent, Worker};

    ghost both = { λ v w. Worker (picked_seen v) (deciders_seen v)
        (joined_seen v ++ record { decider = decider_seen w; put = put_seen w } ∷ []) };

    ghost spent = { Spent };
}

/// A decider put an item.
pub struct Puts;

impl Outcome<Item, Seen> for Puts {
    ghost use Rattle.std.specs.Prelude.{◌≡◌, [], ◌∷◌, ◌++◌};
    ghost use Rattle.channel_queue.specs.Rule.{decider_seen, put_seen};
    ghost use Rattle.channel_queue.specs.declared.Seen.TheVariants.{Decider};

    ghost then = { λ v x w. w ≡ Decider (decider_seen v) (put_seen v ++ x ∷ []) };
}

/// The worker picked an item.
pub struct Picks;

impl Outcome<Item, Seen> for Picks {
    ghost use Rattle.std.specs.Prelude.{◌≡◌, ◌<◌, [], ◌∷◌, ◌++◌};
    ghost use Rattle.due_model.specs.Items.{decider_of};
    ghost use Rattle.channel_queue.specs.Rule.{deciders_seen, joined_seen, picked_seen};
    ghost use Rattle.channel_queue.specs.declared.Seen.TheVariants.{Worker};

    ghost then = { λ v x w. (w ≡ Worker (picked_seen v ++ x ∷ []) (deciders_seen v) (joined_seen v))
        × (decider_of x < deciders_seen v) };
}

/// What the worker learns of the deciders that were joined.
pub struct Compares;

impl Lesson<Item, Seen> for Compares {
    ghost use Rattle.std.specs.Prelude.{◌<◌, All};
    ghost use Rattle.due_model.specs.Items.{decider_of};
    ghost use Rattle.channel_queue.specs.Rule.{AreRead, deciders_seen, joined_seen, picked_seen};

    ghost fact = { λ v items. AreRead (picked_seen v) items (joined_seen v)
        × All (λ x. decider_of x < deciders_seen v) (picked_seen v) };
}

type Ring = RuledArrayQueue<Item, Seen, Lane>;

/// What a decider has put, or what the worker has picked and the deciders that were joined to it had put.
pub type Pass = crossbeam_queue::Pass<Item, Seen>;

/// The bounded queue of a lane.
#[derive(Drop)]
pub struct LaneQueue {
    ring: Ring,
    deciders: u8,
}

/// The queue was full, or another thread was at its back at that moment. Nothing has changed.
#[derive(Drop)]
pub struct Full {
    pub pass: Pass,
    pub item: Item,
}

impl LaneQueue {
    /// A queue for so many items, a pass for each decider by its number, and the worker's. A refused growth is the only error.
    pub fn new(
        alloc: Global,
        capacity: usize,
        deciders: u8,
    ) -> Result<(LaneQueue, Vec<Pass>, Pass), AllocError>
        requires { 0 < capacity }
        ensures deciders { IfOk result (λ r. r.0.deciders ≡ deciders) }
        ensures count { IfOk result (λ r. vec_len r.1 ≡ deciders) }
        ensures each { IfOk result (λ r. (d : ℕ) (p : _) → slice_get r.1.items d ≡ Some p
            → IsDecider r.0 d [] p) }
        ensures worker { IfOk result (λ r. IsWorker r.0 [] [] r.2) }
    {
        let (ring, mut pass) = Ring::ruled(alloc, capacity)?;
        let mut passes = Vec::with_capacity(alloc, deciders as usize)?;
        for _ in 0..deciders {
            passes.push(ring.another::<Deal>(&mut pass))?;
        }
        Ok((LaneQueue { ring, deciders }, passes, pass))
    }

    /// How many deciders it was made for.
    pub fn deciders(&self) -> u8
        ensures { result ≡ self.now.deciders }
    {
        self.deciders
    }

    /// Puts an item of the pass's decider, which hasn't put its end. An error gives the item back and changes nothing: the queue
    /// was full, or another thread was at its back at that moment. It takes no memory, and never waits.
    pub fn offer(&self, pass: &mut Pass, item: Item) -> Result<(), Item>
        requires own { IsDecider self.now (decider_of item) (put_of pass.old) pass.old }
        requires clear { IsOpen (put_of pass.old) }
        ensures ok { OnOk result
            (IsDecider self.now (decider_of item) (put_of pass.old ++ item ∷ []) pass.new) }
        ensures full { IfErr result (λ x. IsDecider self.now (decider_of item) (put_of pass.old) pass.new
            × (x ≡ item)) }
    {
        self.ring.try_push_as::<Puts>(pass, item)
    }

    /// As `offer`, with the pass by value.
    pub fn put(&self, pass: Pass, item: Item) -> Result<Pass, Full>
        requires own { IsDecider self.now (decider_of item) (put_of pass) pass }
        requires clear { IsOpen (put_of pass) }
        ensures ok { IfOk result (λ p. IsDecider self.now (decider_of item) (put_of pass ++ item ∷ []) p) }
        ensures full { IfErr result (λ e. IsDecider self.now (decider_of item) (put_of pass) e.pass
            × (e.item ≡ item)) }
    {
        let mut pass = pass;
        match self.offer(&mut pass, item) {
            Ok(()) => Ok(pass),
            Err(item) => Err(Full { pass, item }),
        }
    }

    /// Picks the oldest item. `None` changes nothing: nothing was there, or what comes next wasn't whole at that moment. It takes
    /// no memory, and never waits.
    pub fn pick(&self, pass: Pass) -> (Pass, Option<Item>)
        requires { IsWorker self.now (picked_of pass) (joined_of pass) pass }
        ensures worker { IsWorker self.now (picked_of pass ++ option_to_list result.1) (joined_of pass)
            result.0 }
        ensures decider { IfSome result.1 (λ x. decider_of x < self.now.deciders) }
    {
        let mut pass = pass;
        let item = self.ring.try_pop_as::<Picks>(&mut pass);
        (pass, item)
    }

    /// Joins a decider's pass to the worker's, beside those that were joined before: of that decider, what was picked is a first
    /// part of what it put, and all of it once its end was picked.
    pub fn absorb(&self, worker: &mut Pass, decider: Pass)
        requires worker { IsWorker self.now (picked_of worker.old) (joined_of worker.old) worker.old }
        requires decider { IsDecider self.now (decider_at decider) (put_of decider) decider }
        ensures joined { IsWorker self.now (picked_of worker.old)
            (joined_of worker.old ++ record { decider = decider_at decider; put = put_of decider } ∷ [])
            worker.new }
        ensures read { IsPickedOf (decider_at decider) (picked_of worker.old) (put_of decider) }
        ensures numbers { All (λ x. decider_of x < self.now.deciders) (picked_of worker.old) }
    {
        self.ring.absorb::<Deal>(worker, decider);
        self.ring.learn_as::<Compares>(worker);
    }

    /// As `absorb`, with the worker's pass by value.
    pub fn join(&self, worker: Pass, decider: Pass) -> Pass
        requires worker { IsWorker self.now (picked_of worker) (joined_of worker) worker }
        requires decider { IsDecider self.now (decider_at decider) (put_of decider) decider }
        ensures joined { IsWorker self.now (picked_of worker)
            (joined_of worker ++ record { decider = decider_at decider; put = put_of decider } ∷ []) result }
        ensures read { IsPickedOf (decider_at decider) (picked_of worker) (put_of decider) }
        ensures numbers { All (λ x. decider_of x < self.now.deciders) (picked_of worker) }
    {
        let mut pass = worker;
        self.absorb(&mut pass, decider);
        pass
    }
}
