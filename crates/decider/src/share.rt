//! The share of a decider: which objects it decides.

ghost use Rattle.std.specs.Prelude.{◌≡◌, ◌<◌, ◌≤◌};
ghost use Rattle.decider.specs.claims.Share.{is_owned};

use due_model::config::ObjectId;

/// The share of one of so many deciders: the objects whose number modulo the number of deciders is
/// the decider's.
#[derive(Clone, Copy, Debug, PartialEq, Eq)]
pub struct Share {
    /// The decider, from 0.
    pub decider: u8,
    /// How many deciders there are: from 1 to `MAX_DECIDERS`.
    pub deciders: u8,
}

impl Share {
    /// Whether the object is in the share.
    pub fn owns(self, object: ObjectId) -> bool
        requires { 0 < self.deciders }
        ensures { result ≡ is_owned self object.0 }
    {
        object.0 % u16::from(self.deciders) == u16::from(self.decider)
    }
}
