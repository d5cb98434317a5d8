//! The line that a refusal prints, made in room that was taken before a file was touched.

ghost use Rattle.std.specs.Prelude.{◌≡◌, ◌+◌, ◌≤◌, ◌<◌, ◌^◌, ◌++◌, ◌∷◌, [], false, length, string_bytes, IfOk};
ghost use Rattle.std.specs.Fmt.{digit_glyph, digits_onto};
ghost use Rattle.std.specs.String.{string_len, string_capacity};
ghost use Rattle.std.specs.List.{flat_map, sum_by};
ghost use Rattle.std.specs.Option.{option_map};
ghost use Rattle.omi_layout.specs.Named.{field_text};
ghost use Rattle.omi_frame.specs.Refusal.{HasRoom, cycle_line, damaged_line, named, numbered_line, refusal_line};

use crate::limits::LINE_ROOM;
use crate::names::{Names, longest, name_of as input_name};
use crate::refusal::Refusal;
use itoa::Buffer;
use omi_layout::{FIELDS, field_name};
use std::alloc::{AllocError, Global};

/// Room for the line of any refusal of a command that gives these names.
pub fn room_for(alloc: Global, names: Names<'_>) -> Result<String, AllocError>
    ensures empty { IfOk result (λ room. string_bytes room ≡ []) }
    ensures enough { IfOk result
        (λ room. HasRoom (named names.entry) (string_capacity room)) }
{
    String::with_capacity(alloc, longest(names) + LINE_ROOM)
}

/// Adds pieces of text, for which there is room.
fn push_all(room: &mut String, pieces: &[&str])
    requires { string_len room.old + sum_by (λ piece. length piece.now) pieces.now
        ≤ string_capacity room.old }
    ensures added { string_bytes room.new ≡ string_bytes room.old
        ++ flat_map (λ piece. piece.now) pieces.now }
    ensures room { string_capacity room.old ≤ string_capacity room.new }
{
    for piece in pieces {
        room.push_str(piece).unwrap();
    }
}

/// A hexadecimal digit, by its value.
fn digit(value: u64) -> &'static str
    requires { value < 16 }
    ensures { result.now ≡ digit_glyph false value ∷ [] }
{
    match value {
        0 => "0",
        1 => "1",
        2 => "2",
        3 => "3",
        4 => "4",
        5 => "5",
        6 => "6",
        7 => "7",
        8 => "8",
        9 => "9",
        10 => "a",
        11 => "b",
        12 => "c",
        13 => "d",
        14 => "e",
        15 => "f",
        _ => unreachable!(),
    }
}

/// Adds the hexadecimal digits of a number that has at most `most` of them, for which there is room.
fn push_digits(room: &mut String, number: u64, most: u8)
    requires some { 1 ≤ most }
    requires few { number < 16 ^ most }
    requires enough { string_len room.old + most ≤ string_capacity room.old }
    ensures added { string_bytes room.new
        ≡ string_bytes room.old ++ digits_onto most 16 false number [] }
    ensures length { string_len room.new ≤ string_len room.old + most }
    ensures room { string_capacity room.old ≤ string_capacity room.new }
{
    if number < 16 {
        room.push_str(digit(number)).unwrap();
    } else {
        push_digits(room, number / 16, most - 1);
        room.push_str(digit(number % 16)).unwrap();
    }
}

/// The name of a field, `layout` for 0, and no text where no field has the number.
pub fn field_text(field: u8) -> &'static str
    ensures name { result.now ≡ field_text field }
    ensures short { length result.now ≤ 32 }
{
    if field <= FIELDS {
        field_name(field)
    } else {
        ""
    }
}

/// Adds the line on a record, a pointer or a word of the layout table that is damaged, by its byte address and the number of the field.
fn push_damaged(room: &mut String, addr: u64, field: u8)
    requires { string_len room.old + 64 ≤ string_capacity room.old }
    ensures { string_bytes room.new ≡ string_bytes room.old ++ damaged_line addr field }
{
    push_all(room, &["damaged ", "0x"]);
    push_digits(room, addr, 16);
    push_all(room, &[" ", field_text(field), "\n"]);
}

/// Adds the line on a byte address that a chain meets a second time.
fn push_cycle(room: &mut String, addr: u64)
    requires { string_len room.old + 64 ≤ string_capacity room.old }
    ensures { string_bytes room.new ≡ string_bytes room.old ++ cycle_line addr }
{
    push_all(room, &["cycle ", "0x"]);
    push_digits(room, addr, 16);
    push_all(room, &["\n"]);
}

/// Adds the line on a fault of a core, by its place, its number and its name.
fn push_fault(room: &mut String, at: u64, number: u8, name: &str)
    requires short { length name.now ≤ 32 }
    requires enough { string_len room.old + 96 ≤ string_capacity room.old }
    ensures { string_bytes room.new ≡ string_bytes room.old ++ numbered_line at number name.now }
{
    let mut place = Buffer::new();
    let mut digits = Buffer::new();
    let place = place.format(at);
    let digits = digits.format(number);
    push_all(room, &["core ", place, " ", digits, " ", name, "\n"]);
}

/// The line of a refusal of a command that gives these names, if it prints one.
pub(crate) fn line_of<'a>(
    names: Names<'_>,
    refusal: Refusal,
    room: &'a mut String,
) -> Option<&'a str>
    requires empty { string_bytes room.old ≡ [] }
    requires enough { HasRoom (named names) (string_capacity room.old) }
    ensures { option_map (λ line. line.now) result
        ≡ refusal_line (named names.entry) refusal }
{
    match refusal {
        Refusal::Usage => return Some("usage\n"),
        Refusal::Incompatible => return Some("incompatible\n"),
        Refusal::WriteFault | Refusal::OutOfMemory => return None,
        Refusal::NoFile(input) => push_all(room, &["no file ", input_name(names, input), "\n"]),
        Refusal::ReadFault(input) => {
            push_all(room, &["read fault ", input_name(names, input), "\n"]);
        }
        Refusal::Script(fault) => {
            let mut line = Buffer::new();
            let mut number = Buffer::new();
            let line = line.format(fault.line);
            let number = number.format(fault.why.number());
            push_all(
                room,
                &["script ", line, " ", number, " ", fault.why.text(), "\n"],
            );
        }
        Refusal::Damaged { addr, field } => push_damaged(room, addr, field),
        Refusal::Cycle { addr } => push_cycle(room, addr),
        Refusal::Core(at, why) => push_fault(room, at, why.number(), why.text()),
        Refusal::Elf(at, why) => push_fault(room, at, why.number(), why.text()),
    }
    Some(room.as_str())
}
