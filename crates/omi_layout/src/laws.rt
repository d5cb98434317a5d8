//! Laws of the definitions. Each is a function that does nothing, whose clauses hold of the words of
//! every layout.

ghost use Rattle.omi_layout.specs.Words.{AreApart, AreInside, SlotsApart, AddressesApart, NoneIsNull};
ghost use Rattle.omi_layout.specs.Memory.{Memory};
ghost use Rattle.omi_layout.specs.Given.{TablesGive};
ghost use Rattle.omi_layout.specs.OneAnswer.{OneLayout, OneCause, NotBoth};
ghost use Rattle.omi_layout.specs.Frame.{IsReplaced, AreFramed, AreLeft, AreMapped, FittedHas};

use crate::layout::Layout;

/// Two different words of the records, by field, record and element, have different places; each is in
/// an image that the layout fits, and behind the tables; and two different slots have different records and addresses, none of
/// which is 0.
pub fn words_apart(layout: &Layout)
    ensures apart { AreApart layout.now.table }
    ensures inside { AreInside layout.now.table }
    ensures slots { SlotsApart layout.now.table }
    ensures addresses { AddressesApart layout.now.table }
    ensures not_null { NoneIsNull layout.now.table }
{}

/// The laws of memory by records. A word that is written is that word read, and every other stays; an operation at the
/// address of a word of a record leaves the memory with that one word replaced; and in an image that
/// has the words of the layout each word of a record is mapped.
pub fn records_framed(layout: &Layout)
    ensures replaced { (m : Memory) → IsReplaced m }
    ensures framed { AreFramed layout.now.table }
    ensures left { AreLeft layout.now.table }
    ensures mapped { AreMapped layout.now.table }
    ensures fitted { FittedHas layout.now.table }
{}

/// An image with the tables of a layout in front gives this layout: the symbol `omi_layout` is found, and the words from its
/// address on are the layout's table.
pub fn tables_read_back(layout: &Layout)
    ensures { TablesGive layout.now.table }
{}

/// The words of a memory give at most one layout. Where they give none there is one cause, and none where they give a valid
/// layout.
pub fn one_answer()
    ensures layout { OneLayout }
    ensures cause { OneCause }
    ensures both { NotBoth }
{}
