//! Where a decider's thread tells what it suppresses.

use due_model::notice::Suppression;

/// Where a decider's thread tells what its events suppress, as soon as each is decided. Contracts see what a log was told between two
/// states, in a relation that it says of itself, and whether it has failed: one that hasn't takes all that it is told.
pub trait DeciderLog: Send + Drop {
    ghost use Rattle.std.specs.Prelude.{◌≡◌, ◌++◌, Bool, List, [], true, false};
    ghost use Rattle.due_model.specs.declared.notice.Suppression.{Suppression};

    // It was told these between the two.
    ghost tells: { Self → List Suppression → Self → Type 0 };

    // It didn't take what it was told last, or takes nothing.
    ghost failed: { Self → Bool };

    ghost stays: { (s : Self) → tells s [] s };

    ghost follows: { (a b c : Self) (xs ys : List Suppression) → tells a xs b → tells b ys c
        → tells a (xs ++ ys) c };

    /// Tells these lines, the oldest first. True: they are told, and the decider forgets them. False: none of them is; the decider keeps
    /// them, and they come again after its next event, before what that suppresses.
    fn tell(&mut self, lines: &[Suppression]) -> bool
        ensures told { result ≡ true → tells self.old lines.now self.new }
        ensures kept { result ≡ false → tells self.old [] self.new }
        // One that hasn't failed takes them.
        ensures refused { result ≡ false → failed self.new ≡ true };
}

/// A log that tells nothing: the decider keeps all for the run's end.
#[derive(Clone, Copy, Debug)]
pub struct KeptLog;

impl DeciderLog for KeptLog {
    ghost use Rattle.std.specs.Prelude.{true};
    ghost use Rattle.decider_thread.specs.Told.{none_is_told, tells_nothing, tells_nothing_twice};

    ghost tells = { λ _ lines _. tells_nothing lines };

    ghost failed = { λ _. true };

    ghost stays = { λ _. none_is_told };

    ghost follows = { λ _ _ _ xs ys one two. tells_nothing_twice xs ys one two };

    fn tell(&mut self, _lines: &[Suppression]) -> bool {
        false
    }
}
