//! Tests of the graph, its groups, its forest, its points, its advice and its windows, by their public names alone.
#![tactic(auto)]

#[cfg(test)]
mod advise;
#[cfg(test)]
mod forest;
#[cfg(test)]
mod graph;
#[cfg(test)]
mod merge;
#[cfg(test)]
mod points;
#[cfg(test)]
mod window;
