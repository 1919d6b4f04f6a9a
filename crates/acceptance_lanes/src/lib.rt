//! Tests of a lane: its queue, in one thread and between threads, and the worker that serves it. There is no code here.
#![tactic(auto)]

#[cfg(test)]
mod crowds;
#[cfg(test)]
mod given;
#[cfg(test)]
mod pairs;
#[cfg(test)]
mod pauses;
#[cfg(test)]
mod queues;
#[cfg(test)]
mod serving;
#[cfg(test)]
mod watched;
