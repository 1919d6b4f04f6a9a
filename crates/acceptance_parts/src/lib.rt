//! Tests of what the rules and the engine are built of: names, graphs, logs, records and due times; and of the filters of objects and of
//! contacts, row by row. There is no code here.
#![tactic(auto)]

#[cfg(test)]
mod filters_rows;
#[cfg(test)]
mod graphs;
#[cfg(test)]
mod kept;
#[cfg(test)]
mod looped_rules;
#[cfg(test)]
mod objects;
