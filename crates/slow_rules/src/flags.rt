//! Flags by number.

ghost use Rattle.std.specs.Prelude.{◌≡◌, ℕ, ◌<◌, ◌==◌, ◌&&◌, ◌||◌, length};
ghost use Rattle.slow_rules.specs.Flags.{flag_at};

/// The flag of this number; false, if there is none.
pub(crate) fn flag_at(flags: &[bool], number: u16) -> bool
    ensures { result ≡ flag_at flags.now number }
{
    match flags.get(usize::from(number)) {
        Some(flag) => *flag,
        None => false,
    }
}

/// Sets the flag of this number, where `value` says so. It stays set where it was.
pub(crate) fn or_into(flags: &mut [bool], number: u16, value: bool)
    requires { number < length flags.old }
    ensures as_many { length flags.new ≡ length flags.old }
    ensures each { (n : ℕ) → flag_at flags.new n ≡ (flag_at flags.old n || number == n && value) }
{
    if value {
        flags[usize::from(number)] = true;
    }
}
