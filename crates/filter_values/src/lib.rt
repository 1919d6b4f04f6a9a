//! The filters of an object and of a contact by their places, with the values of the configuration that they go by, as text and as JSON.
#![tactic(auto)]

mod tried;
mod values;

pub use tried::push_tried;
pub use values::{
    contact_period_of, filter_count, period_of, place_of, push_contact_filter, push_decimal,
    push_filter_after, push_passed,
};
