//! Loops of the notification dependencies that blocks give (chapter "Host and Service Dependencies"), by rules over a graph
//! that grows with the text and the objects: its nodes are objects, groups, lists and what stands for all hosts. No edge
//! is made for each of the objects that a group reaches; services that blocks list by hosts and descriptions have one each,
//! once for all blocks with the same lists.
#![tactic(auto)]

mod apart;
mod base;
mod described;
mod lists;
pub mod loops;
mod places;
mod roles;
mod rules;
