//! Pages whose words come with their lowest byte first.

ghost use Rattle.std.specs.Prelude.{◌≡◌};
ghost use Rattle.omi_page.specs.Borrowed.{faults_counted, told_of};
ghost use Rattle.omi.specs.LowestFirst.{lowest_first};

use omi_calls::{Callbacks, Got, Place, Sizes};
use omi_outside::Files;
use omi_page::Pages;

/// Pages of a core that tell its words and symbols with the lowest byte of a word first, whatever the order of the core is.
#[derive(Drop)]
pub struct LowestFirst<'a, F: Files> {
    pub pages: Pages<'a, F>,
}

impl<'a, F: Files> Callbacks for LowestFirst<'a, F> {
    ghost told = { λ lowest. lowest_first (told_of lowest.pages) };

    ghost faults = { λ lowest. faults_counted lowest.pages };

    fn read_memory(&mut self, addr: u64, to: &mut [u8; 8]) -> Got {
        let got = self.pages.read_memory(addr, to);
        if self.pages.order() != 0 {
            to.reverse();
        }
        got
    }

    fn symbol_addr_lookup(&mut self, name: &str) -> Place {
        self.pages.symbol_addr_lookup(name)
    }

    fn sizeof_type(&self) -> Sizes {
        self.pages.sizeof_type()
    }
}
