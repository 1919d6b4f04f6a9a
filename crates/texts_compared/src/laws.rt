//! Laws of what is compared: the contracts of functions with nothing to do.

ghost use Rattle.texts_compared.specs.Reports.{EndsAsTheReports, LineNoticesAreTheReports};

/// The notices that are compared line by line of a feed are the N lines of its report, in order.
#[tactic(auto, using(crate::proofs::ReportLaws::line_notices_are_the_reports))]
pub fn line_notices_are_the_reports()
    ensures { LineNoticesAreTheReports }
{}

/// A comparison ends before its input where a report does.
#[tactic(auto, using(crate::proofs::ReportLaws::ends_as_the_reports))]
pub fn ends_as_the_reports()
    ensures { EndsAsTheReports }
{}
