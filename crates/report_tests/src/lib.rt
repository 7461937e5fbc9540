//! Tests of reports, of reading them back and of audits, by their public names alone.
#![tactic(auto)]

#[cfg(test)]
mod audit;
#[cfg(test)]
mod readback;
#[cfg(test)]
mod report;
