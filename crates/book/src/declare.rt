//! New books, and the declaring of settings.
ghost use Rattle.std.specs.Prelude.{◌≡◌};
ghost use Rattle.promises.specs.Declaring.{DeclareGives};
ghost use Rattle.promises.specs.Page.{blank};
ghost use Rattle.promises.specs.Refusals.{told};
ghost use Rattle.book.specs.View.{page_of};

use crate::book::Book;
use crate::nodes::Nodes;
use crate::table::Table;
use plfd::settings::Setting;
use promises::refusals::Refusal;

impl Book {
    /// A book without settings, rules or suppositions.
    pub fn new() -> Book
        ensures page { page_of result ≡ blank }
    {
        Book {
            settings: Table::new(Setting { size: 0 }),
            nodes: Nodes::new(),
            ends: Table::new(0),
            suppositions: Table::new(0),
        }
    }

    /// Declares a setting with the choices 0 to `size` - 1, and gives its number.
    pub fn declare(&mut self, size: u16) -> Result<u8, Refusal>
        ensures gives { DeclareGives (page_of self.old) size (told result) (page_of self.new) }
    {
        let number = self.settings.len();
        if !self.suppositions.is_empty() {
            return Err(Refusal::SuppositionOpen);
        }
        if self.settings.is_full() {
            return Err(Refusal::SettingsFull);
        }
        if size == 0 {
            return Err(Refusal::SizeZero);
        }
        self.settings.push(Setting { size });
        Ok(number as u8)
    }
}

impl Default for Book {
    ghost is_default = { λ book. page_of book ≡ blank };

    fn default() -> Book {
        Book::new()
    }
}

#[cfg(test)]
mod tests {
    use super::*;

    // No call opens a supposition yet, so the table is set by hand. The other refusals are played by the script of edges.
    #[test]
    fn an_open_supposition_comes_before_every_other_fault(rt: HostRuntime) {
        let mut book = Book::new();
        book.suppositions.push(0);
        assert_eq!(rt; book.declare(2), Err(Refusal::SuppositionOpen));
        assert_eq!(rt; book.declare(0), Err(Refusal::SuppositionOpen));
    }
}
