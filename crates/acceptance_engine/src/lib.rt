//! Tests of whole runs of the engine, with channels in memory, and of what the program can't be told: when threads meet, when a lane is
//! asked to close, how many deciders there are. There is no code here.
#![tactic(auto)]

#[cfg(test)]
mod gates;
#[cfg(test)]
mod given;
#[cfg(test)]
mod runs;
