//! Tests of sessions, summaries, words and the top call, by their public names alone.
#![tactic(auto)]

#[cfg(test)]
mod cli;
#[cfg(test)]
mod hand;
#[cfg(test)]
mod inputs;
#[cfg(test)]
mod program;
#[cfg(test)]
mod session;
#[cfg(test)]
mod summary;
#[cfg(test)]
mod words;
