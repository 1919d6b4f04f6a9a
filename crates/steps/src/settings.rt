//! How large a world is, and how often it tries.

ghost use Rattle.steps.specs.claims.Settings.{AreSettings};

use due_model::limits::MAX_DECIDERS;

/// How many notices a lane's queue may hold.
pub const MAX_QUEUE: u16 = 1_024;

/// How often a channel may be tried with one letter.
pub const MAX_TRIES: u8 = 100;

/// How many channels a lane may have: one serves, and the others stand by.
pub const MAX_CHANNELS: u8 = 8;

/// How many deciders a world has, how many notices a queue holds, and how many tries a message has.
#[derive(Clone, Copy, Debug, PartialEq, Eq)]
pub struct Settings {
    /// How many deciders there are: from 1 to `MAX_DECIDERS`.
    pub deciders: u8,
    /// How many notices a queue holds: from 1 to `MAX_QUEUE`.
    pub queue: u16,
    /// How many tries a message has: from 1 to `MAX_TRIES`.
    pub tries: u8,
    pub ghost in_range: { AreSettings deciders queue tries },
}

impl Settings {
    ghost use Rattle.std.specs.Prelude.{◌≡◌, ◌↔◌, IsSome, IfSome};

    /// These settings, where each is in its range.
    pub fn new(deciders: u8, queue: u16, tries: u8) -> Option<Settings>
        ensures range { IsSome result ↔ AreSettings deciders queue tries }
        ensures deciders { IfSome result (λ settings. settings.deciders ≡ deciders) }
        ensures queue { IfSome result (λ settings. settings.queue ≡ queue) }
        ensures tries { IfSome result (λ settings. settings.tries ≡ tries) }
    {
        let none = deciders < 1 || queue < 1 || tries < 1;
        if none || deciders > MAX_DECIDERS || queue > MAX_QUEUE || tries > MAX_TRIES {
            return None;
        }
        Some(Settings {
            deciders,
            queue,
            tries,
        })
    }
}
