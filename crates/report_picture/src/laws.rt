//! That what a picture keeps is of the report: the contract of a function with nothing to do.

ghost use Rattle.report_picture.specs.Nights.{KeepsTheReport};

use night_marks::what_is_kept;

/// What a picture keeps and counts of a feed are the notices and suppressions of the feed's report, in order:
/// of the objects that aren't left out, from the moment on from which some are, and never more than 10,000.
pub fn what_is_drawn()
    ensures { KeepsTheReport }
{
    what_is_kept();
}
