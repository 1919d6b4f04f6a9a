//! What a picture of a feed keeps: of each object what became of its messages, and how its state, its downtimes and its
//! acknowledgement changed; of the busiest objects, where there is too much.
#![tactic(auto)]

mod conditions;
mod counts;
mod kept;
mod lists;
mod night;

pub use conditions::{Change, Condition, Conditions, same};
pub use counts::shown_objects;
pub use kept::{Kept, what_is_kept};
pub use lists::{Changes, Flags, Marks, is_of, mark_object};
pub use night::{Night, Span};
