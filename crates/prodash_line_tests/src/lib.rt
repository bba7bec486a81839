//! Tests of `prodash_base` and `prodash_line`, which call them directly. Nothing uses this crate.
#![tactic(auto)]

#[cfg(test)]
mod cells;
#[cfg(test)]
mod defensive;
#[cfg(test)]
mod drawings;
#[cfg(test)]
mod fixtures;
#[cfg(test)]
mod frames;
#[cfg(test)]
mod keys;
#[cfg(test)]
mod message_lines;
#[cfg(test)]
mod messages;
#[cfg(test)]
mod moments;
#[cfg(test)]
mod over_write;
#[cfg(test)]
mod pages;
#[cfg(test)]
mod preferred;
#[cfg(test)]
mod scales;
#[cfg(test)]
mod screens;
#[cfg(test)]
mod styles;
#[cfg(test)]
mod throughput;
#[cfg(test)]
mod times;
#[cfg(test)]
mod unit_rows;
#[cfg(test)]
mod units;
#[cfg(test)]
mod values;
