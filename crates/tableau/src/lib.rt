//! What a tableau is: the walk, the closed tableau and the examination of a tape, with their laws.
//! The definitions are in `specs/`; here are the words that a tape is written in, and the laws as contracts.
#![tactic(auto)]

pub mod commands;
pub mod faults;
pub mod laws;
