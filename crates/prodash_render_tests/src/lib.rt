//! Tests of engines, renderers and logs, and of calls while another thread holds a lock. Nothing
//! uses this crate.
#![tactic(auto)]

#[cfg(test)]
mod crowds;
#[cfg(test)]
mod dashboard;
#[cfg(test)]
mod detection;
#[cfg(test)]
mod engine;
#[cfg(test)]
mod fixtures;
#[cfg(test)]
mod held_lock;
#[cfg(test)]
mod initial_delay;
#[cfg(test)]
mod logs;
#[cfg(test)]
mod moments;
#[cfg(test)]
mod plain;
#[cfg(test)]
mod room;
#[cfg(test)]
mod stacks;
#[cfg(test)]
mod waiting;
