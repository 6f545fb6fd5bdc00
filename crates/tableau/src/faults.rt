//! What can be wrong with a tape.
ghost use Rattle.std.specs.Prelude.{◌≡◌};
ghost use Rattle.tableau.specs.Faults.{fault_number};

/// A fault of a tape; each has a number of its own.
// No words yet: no call tells these faults.
#[derive(Clone, Copy, Debug, PartialEq, Eq, Hash)]
pub enum TapeFault {
    UnknownCommand = 23,
    CutShort = 24,
    /// The branch has no such entry, or the page no such setting.
    NotThere = 25,
    /// The entry does not take this command.
    Misfit = 26,
    SetNotEmpty = 27,
    /// The branch would have too many entries or narrowings.
    BranchFull = 28,
    /// A byte follows the last close.
    TrailingByte = 29,
    /// The tape ends with a branch still open.
    BranchOpen = 30,
}

impl TapeFault {
    /// The number by which a refusal tells it.
    pub fn number(self) -> u8
        ensures value { result ≡ fault_number self }
    {
        self as u8
    }
}
