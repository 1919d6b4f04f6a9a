//! What one filter makes of a notification.

ghost use Rattle.std.specs.Prelude.{◌≡◌, if◌then◌else◌, Some, None};
ghost use Rattle.std.specs.Result.{result_err};

use due_model::notice::Filter;

/// An error that names the filter where it fails, else Ok.
pub(crate) fn stop_if(fails: bool, filter: Filter) -> Result<(), Filter>
    ensures { result_err result ≡ (if fails then Some filter else None) }
{
    if fails { Err(filter) } else { Ok(()) }
}
