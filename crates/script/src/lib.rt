//! A run of a rule book as text: calls are made on a book, and what they gave is said.
#![tactic(auto)]

pub mod answers;
mod digits;
pub mod playing;
pub mod saying;
