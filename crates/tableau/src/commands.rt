//! The commands of a tape.

/// What is done to a branch with one of its entries.
#[derive(Clone, Copy, Debug, PartialEq, Eq, Hash)]
pub enum Move {
    /// What the entry asks for is appended.
    Append,
    /// The branch splits into two.
    Split,
    /// The set of the entry's setting is narrowed.
    Narrow,
    /// The entry can't be met, and the branch closes.
    Clash,
}

/// One command: a move that expands an entry of the branch, or a setting whose set is empty, so that the branch closes.
#[derive(Clone, Copy, Debug, PartialEq, Eq, Hash)]
pub enum Command {
    Expand(Move, u16),
    Empty(u8),
}
