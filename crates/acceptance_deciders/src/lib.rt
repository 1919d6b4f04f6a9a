//! Tests of deciders: one against the slow program, and several against one, over generated configurations and feeds.
//! There is no code here.
#![tactic(auto)]

#[cfg(test)]
mod clock;
#[cfg(test)]
mod comparison;
#[cfg(test)]
mod generated;
#[cfg(test)]
mod numbers;
#[cfg(test)]
mod refused;
#[cfg(test)]
mod said;
