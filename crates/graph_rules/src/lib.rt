//! Rules by which the members of some nodes of a graph depend on those of others, and the first rule that lies on a
//! loop. No function recurses. Each takes time in the nodes and edges, and want of memory is the only error.
#![tactic(auto)]

mod edges;
pub mod rules;
