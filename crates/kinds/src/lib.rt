//! Kinds of sets: the ways in which a set of choices is held.
#![tactic(auto)]

pub mod flag;
pub mod joined;
pub mod mask;
pub mod set_kind;
pub mod wide;
