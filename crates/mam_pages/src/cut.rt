//! A page that was found, and why there is none.
//!
//! A page of an account and nothing else is found from its anchor, and takes a look for each entry that it may have,
//! and three more. With times, or of a session, the chain of the account is walked; with times and no account, the
//! whole list, since nothing says that stamps rise.
//!
//! A page tells whether it was asked for backwards (`PageCut.backward`), so that whoever writes its end needs no
//! query: such an end has no `index`.
ghost use Rattle.std.specs.Prelude.{◌≡◌, IfOk};
ghost use Rattle.std.specs.Option.{option_copied, option_map};
ghost use Rattle.mam_archive.specs.Ids.{id_of};
ghost use Rattle.mam_pages.specs.Cuts.{fin_of};

use crate::fin::Fin;
use base_io::{NoMemory, Numbers, Text};
use mam_archive::id_of_number;
use std::alloc::Global;
use std::error::Error;
use std::fmt;
use std::marker::Model;

/// A page that was found: the numbers of its entries in ascending order, the place of the first among all entries that
/// match, from 0, how many these are, whether nothing remains in the direction of paging, and whether it was asked for
/// backwards: the entries before a place, or the last. An empty page has `first_index` 0.
#[derive(Drop)]
pub struct PageCut {
    pub numbers: Numbers,
    pub first_index: u64,
    pub count: u64,
    pub complete: bool,
    pub backward: bool,
}

impl Model for PageCut {
    ghost use Rattle.mam_pages.specs.Cuts.{CutView};

    ghost Value = { CutView };

    ghost view = { λ c. record { numbers = c.numbers.items; first_index = c.first_index; count = c.count; complete = c.complete; backward = c.backward } };
}

/// The id of the entry with a number, where there is one.
fn id_in_page(alloc: Global, number: Option<&u64>) -> Result<Option<Text>, NoMemory>
    ensures { IfOk result (λ id. id ≡ option_map id_of (option_copied number.entry)) }
{
    match number {
        Some(number) => Ok(Some(id_of_number(alloc, *number)?)),
        None => Ok(None),
    }
}

impl PageCut {
    /// What an archive reports at the end of this page: the ids are those of the page's first and last entry.
    pub fn fin(&self, alloc: Global) -> Result<Fin, NoMemory>
        ensures { IfOk result (λ fin. fin ≡ fin_of self.now) }
    {
        let numbers = self.numbers.as_slice();
        Ok(Fin {
            complete: self.complete,
            first: id_in_page(alloc, numbers.first())?,
            first_index: self.first_index,
            last: id_in_page(alloc, numbers.last())?,
            count: self.count,
        })
    }
}

/// Why there is no page.
#[derive(Clone, Copy, Debug, PartialEq, Eq)]
pub enum PageFault {
    /// The id of the place is no id of an entry of the archive (XEP-0313 section 4.3: `item-not-found`).
    NotFound,
    /// Memory ran out.
    NoMemory,
}

impl fmt::Display for PageFault {
    fn fmt<W: fmt::Write>(&self, f: &mut fmt::Formatter<W>) -> fmt::Result {
        f.write_str(match self {
            PageFault::NotFound => "no entry has this id",
            PageFault::NoMemory => "out of memory",
        })
    }
}

impl Error for PageFault {}

impl From<NoMemory> for PageFault {
    ghost use Rattle.std.specs.Prelude.{◌≡◌};
    ghost use Rattle.mam_pages.specs.declared.cut.PageFault.TheVariants.{NoMemory};

    ghost from_gives = { λ _ fault. fault ≡ NoMemory };

    fn from(_e: NoMemory) -> PageFault {
        PageFault::NoMemory
    }
}
