//! What takes the texts of letters, and a device of one of the three kinds, for a caller that learns the kind as it runs.

ghost use Rattle.std.specs.Prelude.{◌≡◌, ◌≤◌, length};
ghost use Rattle.channel_kinds.specs.Device.{kind_of, limit_of, sends_of};

use crate::dialled::{Dialer, DialledPager};
use crate::mailbox::Mailbox;
use crate::spawned::Spawned;
use crate::stream::{Outlet, Stream};
use channel::Kind;
use std::process::{Processes, SystemProcess};
use std::time::Clock;

/// What takes the texts of letters.
pub trait TextDevice: Drop {
    ghost use Rattle.std.specs.Prelude.{ℕ, Bool, List};
    ghost use Rattle.channel.specs.declared.Kind.{Kind};

    ghost kind: { Self → Kind };

    // How many bytes a text has at most.
    ghost limit: { Self → ℕ };

    // What a text of these bytes makes of it, and whether it took the text.
    ghost sends: { Self → List ℕ → Bool → Self → Type 0 };

    /// What kind of channel it makes. It never changes.
    fn kind(&self) -> Kind
        ensures { result ≡ kind self.now };

    /// How many bytes a text has at most. It never changes.
    fn limit(&self) -> u64
        ensures { result ≡ limit self.now };

    /// Hands a text over, and tells whether it was taken.
    fn send(&mut self, text: &[u8]) -> bool
        requires { length text.now ≤ limit self.old }
        ensures sends { sends self.old text.now result self.new }
        ensures limit { limit self.new ≡ limit self.old }
        ensures kind { kind self.new ≡ kind self.old };
}

/// A mailbox over a writer, a pager over the streams of a dialer, or a program that is started for each letter. It does what the
/// device that it holds does, and nothing else.
#[derive(Drop)]
pub enum AnyDevice<
    W: Outlet,
    S: Stream,
    D: Dialer<S>,
    R: Processes<Started = SystemProcess> + Clock + Drop,
> {
    Mailbox(Mailbox<W>),
    Pager(DialledPager<S, D>),
    Spawned(Spawned<R>),
}

impl<
    W: Outlet,
    S: Stream,
    D: Dialer<S>,
    R: Processes<Started = SystemProcess> + Clock + Drop,
> TextDevice for AnyDevice<W, S, D, R> {
    ghost kind = { kind_of };

    ghost limit = { limit_of };

    ghost sends = { sends_of W.contents W.is_flushed S.contents S.remaining S.is_flushed S.reads };

    fn kind(&self) -> Kind {
        match self {
            AnyDevice::Mailbox(device) => device.kind(),
            AnyDevice::Pager(device) => device.kind(),
            AnyDevice::Spawned(device) => device.kind(),
        }
    }

    fn limit(&self) -> u64 {
        match self {
            AnyDevice::Mailbox(device) => device.limit(),
            AnyDevice::Pager(device) => device.limit(),
            AnyDevice::Spawned(device) => device.limit(),
        }
    }

    fn send(&mut self, text: &[u8]) -> bool {
        match self {
            AnyDevice::Mailbox(device) => device.send(text),
            AnyDevice::Pager(device) => device.send(text),
            AnyDevice::Spawned(device) => device.send(text),
        }
    }
}
