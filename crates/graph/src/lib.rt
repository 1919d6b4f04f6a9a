//! Directed graphs of numbered nodes, and what a node reaches; and the numbered lists that a graph is kept in, for
//! others too. No function recurses. Each takes time in the nodes and edges that it looks at, and want of memory
//! is the only error.
#![tactic(auto)]

pub mod edges;
pub mod lists;
pub mod reach;
