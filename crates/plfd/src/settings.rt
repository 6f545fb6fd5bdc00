//! Settings: what is chosen on a page.
ghost use Rattle.std.specs.Prelude.{◌≡◌};
ghost use Rattle.plfd.specs.Settings.{domain};

/// A setting as it was declared: its choices are 0 to `size` - 1.
#[derive(Clone, Copy, Debug, PartialEq, Eq, Hash)]
pub struct Setting {
    pub size: u16,
}

impl Setting {
    /// Whether this is one of its choices.
    pub fn has(self, choice: u16) -> bool
        ensures value { result ≡ domain self choice }
    {
        choice < self.size
    }
}
