//! The first of two places that may be there.

ghost use Rattle.std.specs.Prelude.{◌≡◌};
ghost use Rattle.object_groups.specs.First.{lower};

/// The lower of two places that may be there.
pub fn lower(first: Option<usize>, second: Option<usize>) -> Option<usize>
    ensures { result ≡ lower first second }
{
    let Some(one) = first else {
        return second;
    };
    let Some(other) = second else {
        return first;
    };
    if one <= other { first } else { second }
}
