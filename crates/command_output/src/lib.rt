//! What commands write, and what they can fail with. A command makes lines, a buffer holds them back, and a
//! writer takes them; at a fault it has taken a front of them. None of this knows which command it serves.
#![tactic(auto)]

mod fields;
mod line_head;
mod lines;
mod outcome;
mod output;
mod output_line;
mod report_line;
mod run_line;
mod sink;
mod trace_line;

pub use lines::Lines;
pub use outcome::{CommandFault, Ending, exit_status};
pub use output_line::OutputLine;
pub use sink::{AnyWriter, Sink};
pub use trace_line::{LaneLine, StepRefusal};
