//! The nodes of a formula, one for each command of its code.
ghost use Rattle.std.specs.Prelude.{◌≡◌, ◌<◌};
ghost use Rattle.plfd.specs.Formula.{named, covers, joined};
ghost use Rattle.plfd.specs.Code.{operands, arity};

/// What a rule says of one setting.
#[derive(Clone, Copy, Debug, PartialEq, Eq, Hash)]
pub enum Atom {
    /// The setting has this choice.
    Is { setting: u8, choice: u16 },
    /// The setting has a choice from `lo` to `hi`.
    // Two numbers, since a `RangeInclusive` is not `Copy`.
    Range { setting: u8, lo: u16, hi: u16 },
}

/// What joins a left and a right side; each has its command byte.
#[derive(Clone, Copy, Debug, PartialEq, Eq, Hash)]
pub enum Connective {
    And = 0x06,
    Or = 0x07,
    Implies = 0x08,
    Iff = 0x09,
}

/// A node of a formula, which takes its sides from the stack.
#[derive(Clone, Copy, Debug, PartialEq, Eq, Hash)]
pub enum Node {
    Constant(bool),
    Atomic(Atom),
    Not,
    Join(Connective),
}

impl Atom {
    /// The setting that it speaks of.
    pub fn setting(self) -> u8
        ensures value { result ≡ named self }
    {
        match self {
            Atom::Is { setting, .. } | Atom::Range { setting, .. } => setting,
        }
    }

    /// Whether it is true where its setting has this choice.
    pub fn covers(self, chosen: u16) -> bool
        ensures value { result ≡ covers self chosen }
    {
        match self {
            Atom::Is { choice, .. } => chosen == choice,
            Atom::Range { lo, hi, .. } => (lo..=hi).contains(&chosen),
        }
    }
}

impl Connective {
    /// The truth of the whole from the truth of its sides.
    pub fn joins(self, left: bool, right: bool) -> bool
        ensures value { result ≡ joined self left right }
    {
        match self {
            Connective::And => left && right,
            Connective::Or => left || right,
            Connective::Implies => !left || right,
            Connective::Iff => left == right,
        }
    }
}

impl Node {
    /// How many formulas it takes from the stack.
    pub fn arity(self) -> usize
        ensures value { result ≡ arity self }
    {
        match self {
            Node::Constant(_) | Node::Atomic(_) => 0,
            Node::Not => 1,
            Node::Join(_) => 2,
        }
    }

    /// How many bytes follow its command byte.
    pub fn operands(self) -> usize
        ensures value { result ≡ operands self }
    {
        match self {
            Node::Atomic(Atom::Is { .. }) => 3,
            Node::Atomic(Atom::Range { .. }) => 5,
            Node::Constant(_) | Node::Not | Node::Join(_) => 0,
        }
    }
}
