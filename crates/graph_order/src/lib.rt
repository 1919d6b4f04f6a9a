//! An order of a graph's nodes in which every edge leads forward, and the first node that lies on a loop. No
//! function recurses. Each takes time in the nodes and edges, and want of memory is the only error.
#![tactic(auto)]

pub mod loops;
pub mod order;
mod walk;
