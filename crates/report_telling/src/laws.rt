//! That the lines of a report, written as `replay` writes them, are its report: the contract of a function with nothing
//! to do.

ghost use Rattle.report_telling.specs.Lines.{LinesAreTheReport};

/// The report of `replay` is the text of these lines, one after another.
#[tactic(auto, using(crate::proofs::LineLaws::lines_are_the_report))]
pub fn lines_are_the_report()
    ensures { LinesAreTheReport }
{}
