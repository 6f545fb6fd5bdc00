//! The book: its tables, and what holds of them between any two calls.
ghost use Rattle.std.specs.Prelude.{◌≡◌, ◌≤◌, length};
ghost use Rattle.book.specs.declared.book.TheConstants.{MAX_SETTINGS, MAX_RULES, MAX_SUPPOSITIONS};
ghost use Rattle.book.specs.Places.{Fitting, start, Rises, Covers};

use crate::nodes::Nodes;
use crate::table::Table;
use plfd::settings::Setting;

/// How many settings a book has at most.
pub const MAX_SETTINGS: usize = 128;

/// How many nodes all its rules have at most.
pub const MAX_NODES: usize = 1024;

/// How many rules stand in it at most.
pub const MAX_RULES: usize = 256;

/// How many suppositions are open in it at most.
pub const MAX_SUPPOSITIONS: usize = 16;

/// Every rule is one complete formula over declared settings, in postfix order, one rule behind the other.
/// For each rule there is the place behind its last node, and for each open supposition how many rules stood when it opened.
// A table's invariant is closed to those who call a book, so its limits stand here too.
#[derive(Drop)]
pub struct Book {
    pub(crate) settings: Table<Setting, MAX_SETTINGS>,
    pub(crate) nodes: Nodes,
    pub(crate) ends: Table<u16, MAX_RULES>,
    pub(crate) suppositions: Table<u16, MAX_SUPPOSITIONS>,
    ghost few_settings: { length settings ≤ MAX_SETTINGS },
    ghost few_rules: { length ends ≤ MAX_RULES },
    ghost few_suppositions: { length suppositions ≤ MAX_SUPPOSITIONS },
    ghost fitting: { Fitting settings nodes.placed },
    ghost met: { start ends (length ends) ≡ length nodes.placed },
    ghost rises: { Rises ends },
    ghost covers: { Covers nodes.placed ends },
}
