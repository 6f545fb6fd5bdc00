//! A line of a script, read into the call that it makes.
#![tactic(auto)]

pub mod calls;
mod operands;
pub mod reading;
pub mod words;
