//! Tests of what a decision is made of: problem counts, escalations, dependencies, messages. There is no code here.
#![tactic(auto)]

#[cfg(test)]
mod books;
#[cfg(test)]
mod dependencies;
#[cfg(test)]
mod escalations;
#[cfg(test)]
mod messages_rows;
