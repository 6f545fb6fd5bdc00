//! The logic of finite domains: settings, the nodes of formulas, and the reading of rule codes.
#![tactic(auto)]

pub mod commands;
pub mod encode;
pub mod exact;
pub mod faults;
pub mod nodes;
pub mod reader;
pub mod settings;
