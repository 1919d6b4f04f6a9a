//! How late the stamp of a line may be.

ghost use Rattle.std.specs.Prelude.{◌≡◌, None, true};

/// What says how late the stamp of a line may be. One stamp far in the future would hold all later moments there, since a stamp below
/// the last moment is raised to it.
pub trait Horizon {
    ghost use Rattle.std.specs.Prelude.{◌≡◌, Bool, ℕ, Option, None, true};

    // Whether no stamp is too late for it.
    ghost is_open: { Self → Bool };

    // What it may say.
    ghost says: { Self → Option ℕ → Type 0 };

    /// The latest moment that the stamp of a line may have that was read just now; `None` where any may.
    fn latest(&self) -> Option<u64>
        ensures says { says self.now result }
        ensures no_limit { is_open self.now ≡ true → result ≡ None };
}

/// A horizon for which no stamp is too late.
#[derive(Clone, Copy, Debug)]
pub struct OpenHorizon;

impl Horizon for OpenHorizon {
    ghost use Rattle.std.specs.Prelude.{◌≡◌, None, true};

    ghost is_open = { λ s. true };

    ghost says = { λ s latest. latest ≡ None };

    fn latest(&self) -> Option<u64> {
        None
    }
}
