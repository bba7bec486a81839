//! Tests of `prodash_core` and `prodash_script`, which call them directly. Nothing uses this crate.
#![tactic(auto)]

#[cfg(test)]
mod adjacency;
#[cfg(test)]
mod breaks;
#[cfg(test)]
mod colors;
#[cfg(test)]
mod copies;
#[cfg(test)]
mod dashboard;
#[cfg(test)]
mod events;
#[cfg(test)]
mod fixtures;
#[cfg(test)]
mod hashed;
#[cfg(test)]
mod hashed_session;
#[cfg(test)]
mod hashed_table;
#[cfg(test)]
mod options;
#[cfg(test)]
mod runs;
#[cfg(test)]
mod script_lines;
#[cfg(test)]
mod transcripts;
#[cfg(test)]
mod trees;
