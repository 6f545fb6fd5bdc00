//! The book of one page: its settings and the rules between them.
#![tactic(auto)]

pub mod book;
pub mod declare;
pub mod judge;
pub mod lay;
mod nodes;
mod table;
pub mod write_out;
