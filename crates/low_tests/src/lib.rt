//! Tests of rows, ends, exact arithmetic and strapping tables, by their public names alone.
#![tactic(auto)]

#[cfg(test)]
mod ends;
#[cfg(test)]
mod fixed;
#[cfg(test)]
mod rows;
#[cfg(test)]
mod strap;
