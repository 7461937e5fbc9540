//! Tests of graphs and critical values that C hands over, by their public names alone.
#![tactic(auto)]

#[cfg(test)]
mod given;
