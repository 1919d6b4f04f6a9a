//! Which blocks are objects, and which are templates alone (chapter "Object Inheritance").

ghost use Rattle.std.specs.Prelude.{◌≡◌};
ghost use Rattle.std.specs.Option.{option_copied};
ghost use Rattle.object_inheritance.specs.claims.Registered.{registers};

use object_values::values::number_in;

/// Whether a block whose own `register` is this is an object: one that has none is, and one whose isn't the
/// number 0.
pub fn registers(text: Option<&[u8]>) -> bool
    ensures { result ≡ registers (option_copied text.entry) }
{
    match text {
        None => true,
        Some(text) => match number_in(text) {
            None => true,
            Some(number) => number != 0,
        },
    }
}
