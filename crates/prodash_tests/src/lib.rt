//! Tests of the locked tree, of the recorded tree and its journals, and of the traits of progress
//! and what wraps it, which call them through `prodash` as a user does. Nothing uses this crate.
#![tactic(auto)]

#[cfg(test)]
mod caller;
#[cfg(test)]
mod child_numbers;
#[cfg(test)]
mod drawn_caller;
#[cfg(test)]
mod fixtures;
#[cfg(test)]
mod locked;
#[cfg(test)]
mod mirror;
#[cfg(test)]
mod paths;
#[cfg(test)]
mod proving;
#[cfg(test)]
mod receipts;
#[cfg(test)]
mod recorded;
#[cfg(test)]
mod reporters;
#[cfg(test)]
mod system_clock;
#[cfg(test)]
mod tasks;
#[cfg(test)]
mod traits;
#[cfg(test)]
mod views;
#[cfg(test)]
mod wrappers;
