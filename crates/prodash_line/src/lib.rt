//! The line renderer: rows and messages drawn onto a screen of bytes.
#![tactic(auto)]

pub mod laws;
pub mod render;
