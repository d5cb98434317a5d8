//! The header of a file: each field is judged once the file has it. What is judged is the front of the file, its first 64 bytes or all of
//! them, and how many bytes the file has.

ghost use Rattle.std.specs.Prelude.{◌≡◌, ◌≤◌, true, length, min, IfOk, OnOk, Err};
ghost use Rattle.omi_elf.specs.Header.{begins_as_elf as begins, order_of, e_phoff, e_phnum};
ghost use Rattle.omi_elf.specs.Table.{length_row, magic_row, class_row, data_row, type_row, entry_size_row, header_row, front_rows, header_rows};
ghost use Rattle.omi_elf.specs.Outcomes.{Judges};

use crate::fault::{ElfError, ElfFault};
use crate::numbers::{number16, number64};
use crate::{CORE_TYPE, ELF_MAGIC, HEADER_BYTES, PROGRAM_HEADER_BYTES};

/// What a header says: the order of the file's numbers, and where how many program headers stand.
#[derive(Clone, Copy)]
pub struct Header {
    pub order: u8,
    pub phoff: u64,
    pub phnum: u16,
}

/// The fault of a file of so many bytes that ends inside something that has to be read.
pub fn short(len: u64) -> ElfError
    ensures { result ≡ ElfError.Fault len (ElfFault.Short len) }
{
    let why = ElfFault::Short(len);
    ElfError::Fault { at: len, why }
}

/// The file begins as every ELF file does.
pub fn begins_as_elf(front: &[u8]) -> bool
    ensures { result ≡ begins front.now }
{
    front.starts_with(&ELF_MAGIC)
}

/// An ELF file has at most so many bytes.
fn judge_length(front: &[u8], len: u64, most: u64) -> Result<(), ElfError>
    ensures row { Judges result (length_row most front.now len) }
    ensures small { OnOk result (begins front.now ≡ true → len ≤ most) }
{
    if begins_as_elf(front) && most < len {
        let why = ElfFault::TooLarge(len);
        return Err(ElfError::Fault { at: 0, why });
    }
    Ok(())
}

/// The file is an ELF file.
fn judge_magic(front: &[u8]) -> Result<(), ElfError>
    ensures { Judges result (magic_row front.now) }
{
    if !begins_as_elf(front) {
        let why = ElfFault::NotElf;
        return Err(ElfError::Fault { at: 0, why });
    }
    Ok(())
}

/// The class, which is that of 64 bits.
#[tactic(auto, unfolding(crate::specs::Table::class_row))]
fn judge_class(front: &[u8], len: u64) -> Result<(), ElfError>
    requires { length front.now ≡ min HEADER_BYTES len }
    ensures { Judges result (class_row front.now len) }
{
    if len < 5 {
        return Err(short(len));
    }
    let class = front[4];
    if class != 2 {
        let why = ElfFault::Class(class);
        return Err(ElfError::Fault { at: 4, why });
    }
    Ok(())
}

/// The order of the file's numbers.
#[tactic(auto, unfolding(crate::specs::Table::data_row))]
fn judge_data(front: &[u8], len: u64) -> Result<u8, ElfError>
    requires { length front.now ≡ min HEADER_BYTES len }
    ensures row { Judges result (data_row front.now len) }
    ensures order { IfOk result (λ order. order ≡ order_of front.now) }
    ensures known { IfOk result (λ order. order ≤ 1) }
{
    if len < 6 {
        return Err(short(len));
    }
    let data = front[5];
    if data == 1 || data == 2 {
        return Ok(data - 1);
    }
    let why = ElfFault::Order(data);
    Err(ElfError::Fault { at: 5, why })
}

/// The type, which is that of a core.
#[tactic(auto, unfolding(crate::specs::Table::type_row))]
fn judge_type(front: &[u8], len: u64, order: u8) -> Result<(), ElfError>
    requires room { length front.now ≡ min HEADER_BYTES len }
    requires order { order ≡ order_of front.now }
    ensures { Judges result (type_row front.now len) }
{
    if len < 18 {
        return Err(short(len));
    }
    let e_type = number16(order, front, 16);
    if e_type != CORE_TYPE {
        let why = ElfFault::NotCore(e_type);
        return Err(ElfError::Fault { at: 16, why });
    }
    Ok(())
}

/// The size of a program header.
#[tactic(auto, unfolding(crate::specs::Table::entry_size_row))]
fn judge_entry_size(front: &[u8], len: u64, order: u8) -> Result<(), ElfError>
    requires room { length front.now ≡ min HEADER_BYTES len }
    requires order { order ≡ order_of front.now }
    ensures { Judges result (entry_size_row front.now len) }
{
    if len < 56 {
        return Err(short(len));
    }
    let size = number16(order, front, 54);
    if u64::from(size) != PROGRAM_HEADER_BYTES {
        let why = ElfFault::HeaderSize(size);
        return Err(ElfError::Fault { at: 54, why });
    }
    Ok(())
}

/// The rest of the header is there.
fn judge_rest(len: u64) -> Result<(), ElfError>
    ensures row { Judges result (header_row len) }
    ensures there { OnOk result (HEADER_BYTES ≤ len) }
{
    if len < HEADER_BYTES {
        return Err(short(len));
    }
    Ok(())
}

/// What the header says of a file of `len` bytes, at most `most`, that begins with `front`.
#[tactic(auto, unfolding(crate::specs::Table::header_rows, crate::specs::Table::front_rows))]
pub fn header_of(front: &[u8], len: u64, most: u64) -> Result<Header, ElfError>
    requires { length front.now ≡ min HEADER_BYTES len }
    ensures rows { Judges result (header_rows most front.now len) }
    ensures order { IfOk result (λ h. h.order ≡ order_of front.now) }
    ensures known { IfOk result (λ h. h.order ≤ 1) }
    ensures phoff { IfOk result (λ h. h.phoff ≡ e_phoff front.now) }
    ensures phnum { IfOk result (λ h. h.phnum ≡ e_phnum front.now) }
    ensures small { OnOk result (len ≤ most) }
{
    judge_length(front, len, most)?;
    judge_magic(front)?;
    judge_class(front, len)?;
    let order = judge_data(front, len)?;
    judge_type(front, len, order)?;
    judge_entry_size(front, len, order)?;
    judge_rest(len)?;
    let phoff = number64(order, front, 32);
    let phnum = number16(order, front, 56);
    Ok(Header {
        order,
        phoff,
        phnum,
    })
}
