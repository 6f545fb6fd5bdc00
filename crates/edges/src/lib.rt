//! Tests only: every refusal of the calls, the last place of each table, the lines of a script, and the sets of each kind.
#![tactic(auto)]

#[cfg(test)]
mod limits;
#[cfg(test)]
mod refusals;
#[cfg(test)]
mod script_lines;
#[cfg(test)]
mod set_kinds;
