//! The picture of a feed, as SVG: one row an object, time to the right, its state as colour, its downtimes and acknowledgements as
//! bands, and a mark for each notice and each suppression.
#![tactic(auto)]

mod frame;
mod picture;
mod rows;
mod shapes;
mod titles;

pub use picture::{left_out, push_picture};
pub use shapes::escaped_texts_have_no_markup;
