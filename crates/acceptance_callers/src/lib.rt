//! Tests of callers' feeds: in one thread, and with each handle in a thread of its own, by themselves and beside runs of the engine.
//! There is no code here.
#![tactic(auto)]

#[cfg(test)]
mod alone;
#[cfg(test)]
mod cases;
#[cfg(test)]
mod engines;
#[cfg(test)]
mod given;
#[cfg(test)]
mod runs;
#[cfg(test)]
mod sites;
