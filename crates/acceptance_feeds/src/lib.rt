//! Tests of lines and feeds, and of channel words: which are read and as what, and the lanes that they name; on values from outside. There
//! is no code here.
#![tactic(auto)]

#[cfg(test)]
mod feeds;
#[cfg(test)]
mod lines;
#[cfg(test)]
mod places;
#[cfg(test)]
mod words;
