//! What the calls of a book promise: its page, the relation of each call to the page, and the refusals.
#![tactic(auto)]

pub mod refusals;
