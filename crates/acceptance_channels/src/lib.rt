//! Tests of channels over devices of the tests: what each kind does where a call fails, and what it says of itself. There is no code here.
#![tactic(auto)]

#[cfg(test)]
mod channels;
#[cfg(test)]
mod devices;
#[cfg(test)]
mod dialled;
#[cfg(test)]
mod given;
#[cfg(test)]
mod mailboxes;
#[cfg(test)]
mod pagers;
