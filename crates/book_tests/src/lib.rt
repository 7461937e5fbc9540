//! Tests of declarations, facts, records that are written and the graph of a design, by their public names alone.
#![tactic(auto)]

#[cfg(test)]
mod facts;
#[cfg(test)]
mod kinds;
#[cfg(test)]
mod period;
#[cfg(test)]
mod site;
