//! Tests of prices, flows and bounds, of gross error tests, elimination, component balances and checks, by their public names alone.
#![tactic(auto)]

#[cfg(test)]
mod answers;
#[cfg(test)]
mod assay;
#[cfg(test)]
mod check;
#[cfg(test)]
mod common;
#[cfg(test)]
mod dual;
#[cfg(test)]
mod elim;
#[cfg(test)]
mod gap;
#[cfg(test)]
mod statistics;
