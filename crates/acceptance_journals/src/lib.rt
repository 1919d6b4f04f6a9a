//! Tests of journals: what is read of their lines, and what a channel with one hands over. There is no code here.
#![tactic(auto)]

#[cfg(test)]
mod given;
#[cfg(test)]
mod handing;
#[cfg(test)]
mod lines;
