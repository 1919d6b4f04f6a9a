//! Tests of object text: how it is read, what its templates give, what its lists and values say, its periods and names, and of what
//! escalations and dependencies speak; on values from outside. There is no code here.
#![tactic(auto)]

#[cfg(test)]
mod blocks;
#[cfg(test)]
mod groups;
#[cfg(test)]
mod inheritance;
#[cfg(test)]
mod of_services;
#[cfg(test)]
mod periods;
#[cfg(test)]
mod services;
#[cfg(test)]
mod shown;
#[cfg(test)]
mod spoken_of;
#[cfg(test)]
mod values;
