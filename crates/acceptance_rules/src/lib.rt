//! Tests of the look-ups of periods and dependencies, and of a world of steps at its limits. There is no code here.
#![tactic(auto)]

#[cfg(test)]
mod lookups;
#[cfg(test)]
mod worlds;
