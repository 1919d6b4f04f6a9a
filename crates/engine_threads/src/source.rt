//! Where a run takes its events from.

use delivery_worker::Gate;
use due_model::config::Config;
use due_model::event::Event;
use std::alloc::AllocError;

/// What a source gives when it is asked.
#[derive(Clone, Copy, Debug, PartialEq, Eq)]
pub enum Given {
    /// An event.
    Event(Event),
    /// Nothing now. It may be asked again.
    Nothing,
    /// There is no more of it.
    Over,
}

/// Where a run takes its events from. Contracts see the events that it has given, and what it becomes by giving them in a run of a
/// configuration.
pub trait Source: Drop {
    ghost use Rattle.std.specs.Prelude.{◌≡◌, ◌++◌, List, IfOk, OnErr};
    ghost use Rattle.due_model.specs.declared.config.Config.{Config};
    ghost use Rattle.due_model.specs.declared.event.Event.{Event};
    ghost use Rattle.engine_threads.specs.Given.{event_in};
    ghost use Rattle.engine_threads.specs.declared.source.Given.TheVariants.{Over};

    ghost given_so_far: { Self → List Event };

    // What it may become, by giving events or by giving none.
    ghost goes: { Config → Self → Self → Type 0 };

    ghost stays: { (config : Config) (s : Self) → goes config s s };

    // There is no more of it.
    ghost ended: { Self → Type 0 };

    ghost follows: { (config : Config) (a b c : Self) → goes config a b → goes config b c
        → goes config a c };

    /// What comes next. A refused growth is the only error, and gives no event. The gate is told of what is refused.
    fn next<G: Gate>(&mut self, config: &Config, gate: &G) -> Result<Given, AllocError>
        ensures ok { IfOk result (λ given.
            given_so_far self.new ≡ given_so_far self.old ++ event_in given) }
        ensures err { OnErr result (given_so_far self.new ≡ given_so_far self.old) }
        ensures goes { goes config.now self.old self.new }
        ensures over { IfOk result (λ given. given ≡ Over → ended self.new) };
}
