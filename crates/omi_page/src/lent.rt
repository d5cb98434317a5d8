//! Pages that are lent, and come back with the files that they borrow.

ghost use Rattle.std.specs.Prelude.{◌≡◌, None};
ghost use Rattle.omi_calls.specs.Kept.{IsOrderOf};
ghost use Rattle.omi_page.specs.Borrowed.{faults_counted, order_of, told_of};
ghost use Rattle.omi_page.specs.Lending.{IsLent, Lending};

use crate::Pages;
use omi_calls::{Callbacks, Got, Place, Sizes};
use omi_outside::Files;
use std::marker::{Brand, PhantomData};

/// What pages borrow while they are lent. It is for proofs alone: whoever lends pages picks it.
pub trait Loan {
    /// The files that they borrow, and what no read changes of them.
    ghost lending: { Lending };
}

impl Loan for Brand {
    ghost lending = { record { reference = 0; told = λ _. None; reads = 0; writes = 0 } };
}

/// Pages that are lent, as to a session, which knows nothing of files. The type keeps that they borrow the same files, of which no read
/// changes more than the count of reads that failed.
#[derive(Drop)]
pub struct LentPages<'a, F: Files, L: Loan> {
    pub pages: Pages<'a, F>,
    pub loan: PhantomData<L>,
    pub ghost lent: { IsLent L.lending pages },
}

impl<'a, F: Files, L: Loan> LentPages<'a, F, L> {
    /// Lends pages.
    pub fn of(pages: Pages<'a, F>) -> LentPages<'a, F, L>
        requires { IsLent L.lending pages }
        ensures pages { result.pages ≡ pages.entry }
        ensures order { IsOrderOf (told_of result.pages) (order_of pages.entry) }
    {
        LentPages {
            pages,
            loan: PhantomData,
        }
    }

    /// The pages, which come back.
    pub fn into_pages(self) -> Pages<'a, F>
        ensures pages { result ≡ self.entry.pages }
        ensures lent { IsLent L.lending result }
    {
        let LentPages { pages, loan: _ } = self;
        pages
    }
}

impl<'a, F: Files, L: Loan> Callbacks for LentPages<'a, F, L> {
    ghost told = { λ lent. told_of lent.pages };

    ghost faults = { λ lent. faults_counted lent.pages };

    fn read_memory(&mut self, addr: u64, to: &mut [u8; 8]) -> Got {
        self.pages.read_memory(addr, to)
    }

    fn symbol_addr_lookup(&mut self, name: &str) -> Place {
        self.pages.symbol_addr_lookup(name)
    }

    fn sizeof_type(&self) -> Sizes {
        self.pages.sizeof_type()
    }
}
