//! Words in both orders, look-ups, and calls that fail by their number.

ghost use Rattle.std.specs.Prelude.{◌≡◌, ◌==◌, ◌≤◌, ℕ, Some, None, IfOk, length, if◌then◌else◌};
ghost use Rattle.std.specs.Int.{w64, from_le_bytes, from_be_bytes};
ghost use Rattle.omi_calls.specs.Kept.{IsOrderOf, TakesAll, GivesNumbers};
ghost use Rattle.omi_calls.specs.Memory.{usual_sizes, told_of};

use omi_calls::{CallbackFailed, Callbacks, Got, MemCalls, Place, Sizes, Table, ToHost};
use omi_corefile::core_of;
use omi_word::{Image, Natives, Op, OutOfMemory};
use std::alloc::Global;
use std::test::Fail;

/// A target whose words have their highest byte first. It has one word, at 0x10000.
#[derive(Drop)]
struct OneBigWord;

impl Callbacks for OneBigWord {
    ghost told = { λ _. record {
      order = Some 1;
      words = λ _. Some (λ (addr : ℕ). if addr == 65536 then Some 72623859790382856 else None);
      symbols = None;
      fails = None;
      sizes = usual_sizes;
    } };

    ghost faults = { λ _. 0 };

    fn read_memory(&mut self, addr: u64, to: &mut [u8; 8]) -> Got {
        if addr == 0x10000 {
            *to = [1, 2, 3, 4, 5, 6, 7, 8];
            Got::Bytes
        } else {
            Got::NotMapped
        }
    }

    fn symbol_addr_lookup(&mut self, _name: &str) -> Place {
        Place::NoSuch
    }

    fn sizeof_type(&self) -> Sizes {
        Sizes {
            char_size: 1,
            short_size: 2,
            int_size: 4,
            long_size: 8,
            long_long_size: 8,
            pointer_size: 8,
        }
    }
}

/// What a table answers: the words at two addresses, and then the place of a symbol `b`.
#[derive(Clone, Copy, Debug, PartialEq, Eq)]
struct Answers {
    first: Result<Option<u64>, CallbackFailed>,
    second: Result<Option<u64>, CallbackFailed>,
    place: Place,
}

/// Asks a table over these callbacks.
fn ask<C: Callbacks + Drop, F: ToHost>(
    calls: C,
    order: u8,
    to_host: F,
    addresses: (u64, u64),
) -> Answers
    requires order { IsOrderOf (C.told calls) order }
    requires takes { TakesAll (F.takes to_host) }
    requires gives { GivesNumbers (F.gives to_host) order }
{
    let mut table = Table::new(calls, order, to_host);
    let first = table.word(addresses.0);
    let second = table.word(addresses.1);
    let place = table.symbol_addr_lookup("b");
    Answers {
        first,
        second,
        place,
    }
}

/// Callbacks over a core with these words from 0x10000 on. The calls of these numbers fail.
fn calls_over(alloc: Global, words: &[u64], failing: &[u64]) -> Result<MemCalls, OutOfMemory>
    requires { length words.now ≤ 1000 }
    ensures { IfOk result (λ calls. (told_of calls).order ≡ Some 0) }
{
    let mut image = Image::zeroed(alloc, words.len())?;
    for place in 0..words.len() {
        let at = 0x10000 + 8 * place as u64;
        if image.get(at).is_some() {
            image.apply(Op::Store {
                at,
                new: words[place],
            });
        }
    }
    let core = core_of(alloc, &image, &Natives::new(alloc), 0)?;
    Ok(MemCalls::over(core, failing.to_vec(alloc)?))
}

/// Asks a table over a core.
fn ask_core(calls: MemCalls, addresses: (u64, u64)) -> Answers
    requires { (told_of calls).order ≡ Some 0 }
{
    ask(
        calls,
        0,
        |bytes: [u8; 8]| -> u64
            ensures { result ≡ from_le_bytes w64 bytes }
        { u64::from_le_bytes(bytes) },
        addresses,
    )
}

#[test]
fn words_with_the_highest_byte_first(rt: HostRuntime) -> Result<(), Fail> {
    let answers = ask(
        OneBigWord,
        1,
        |bytes: [u8; 8]| -> u64
            ensures { result ≡ from_be_bytes w64 bytes }
        { u64::from_be_bytes(bytes) },
        (0x10000, 0x10008),
    );
    assert_eq!(rt; answers.first, Ok(Some(0x0102030405060708)));
    assert_eq!(rt; answers.second, Ok(None));
    assert_eq!(rt; answers.place, Place::NoSuch);
    Ok(())
}

#[test]
fn words_with_the_lowest_byte_first(rt: HostRuntime) -> Result<(), Fail> {
    let words = [0x0807060504030201, 5];
    let calls = calls_over(rt.alloc(), &words, &[])?;
    let answers = ask_core(calls, (0x10000, 0x10008));
    assert_eq!(rt; answers.first, Ok(Some(0x0807060504030201)));
    assert_eq!(rt; answers.second, Ok(Some(5)));
    let calls = calls_over(rt.alloc(), &words, &[])?;
    let answers = ask_core(calls, (0x10004, 0x10010));
    assert_eq!(rt; (answers.first, answers.second), (Ok(None), Ok(None)));
    let mut calls = calls_over(rt.alloc(), &words, &[])?;
    let mut bytes = [0u8; 8];
    assert_eq!(rt; calls.read_memory(0x10000, &mut bytes), Got::Bytes);
    assert_eq!(rt; bytes, [1, 2, 3, 4, 5, 6, 7, 8]);
    assert_eq!(rt; calls.read_memory(0xfff8, &mut bytes), Got::NotMapped);
    Ok(())
}

#[test]
fn a_name_that_stands_twice(rt: HostRuntime) -> Result<(), Fail> {
    let omi_layo = u64::from_le_bytes(*b"omi_layo");
    let ut = u64::from_le_bytes(*b"ut\0\0\0\0\0\0");
    let b = u64::from_le_bytes(*b"b\0\0\0\0\0\0\0");
    let table = [
        3, omi_layo, ut, 0, 0, 0x10158, omi_layo, ut, 0, 0, 0x20000, b, 0, 0, 0, 0x30000,
    ];
    let mut calls = calls_over(rt.alloc(), &table, &[])?;
    assert_eq!(rt; calls.symbol_addr_lookup("omi_layout"), Place::At(0x10158));
    assert_eq!(rt; calls.symbol_addr_lookup("b"), Place::At(0x30000));
    assert_eq!(rt; calls.symbol_addr_lookup("omi_layou"), Place::NoSuch);
    let long = "omi_layout, in a name of 33 bytes";
    assert_eq!(rt; calls.symbol_addr_lookup(long), Place::NoSuch);
    let mut hole = calls_over(rt.alloc(), &table[..15], &[])?;
    assert_eq!(rt; hole.symbol_addr_lookup("omi_layout"), Place::NoSuch);
    let mut empty = calls_over(rt.alloc(), &[], &[])?;
    assert_eq!(rt; empty.symbol_addr_lookup("omi_layout"), Place::NoSuch);
    Ok(())
}

#[test]
fn sixteen_symbols_and_seventeen(rt: HostRuntime) -> Result<(), Fail> {
    let mut table = [0u64; 86];
    table[76] = u64::from_le_bytes(*b"b\0\0\0\0\0\0\0");
    table[80] = 0x30000;
    table[0] = 16;
    let mut calls = calls_over(rt.alloc(), &table, &[])?;
    assert_eq!(rt; calls.symbol_addr_lookup("b"), Place::At(0x30000));
    table[0] = 17;
    let mut calls = calls_over(rt.alloc(), &table, &[])?;
    assert_eq!(rt; calls.symbol_addr_lookup("b"), Place::NoSuch);
    Ok(())
}

#[test]
fn calls_fail_by_their_numbers(rt: HostRuntime) -> Result<(), Fail> {
    let mut calls = calls_over(rt.alloc(), &[0], &[2, 3])?;
    let mut bytes = [0u8; 8];
    assert_eq!(rt; calls.read_memory(0x10000, &mut bytes), Got::Bytes);
    assert_eq!(rt; calls.symbol_addr_lookup("b"), Place::Failed);
    assert_eq!(rt; calls.sizeof_type().pointer_size, 8);
    assert_eq!(rt; calls.read_memory(0x10000, &mut bytes), Got::Failed);
    assert_eq!(rt; calls.symbol_addr_lookup("b"), Place::NoSuch);
    assert_eq!(rt; calls.read_memory(0x10000, &mut bytes), Got::Bytes);
    Ok(())
}

#[test]
fn a_table_makes_one_call_for_each_answer(rt: HostRuntime) -> Result<(), Fail> {
    let at = (0x10000, 0x10000);
    let word = Ok(Some(7));
    let failed = Err(CallbackFailed);
    let answers = ask_core(calls_over(rt.alloc(), &[7], &[1])?, at);
    assert_eq!(rt; (answers.first, answers.second), (failed, word));
    let answers = ask_core(calls_over(rt.alloc(), &[7], &[2])?, at);
    assert_eq!(rt; (answers.first, answers.second), (word, failed));
    let answers = ask_core(calls_over(rt.alloc(), &[7], &[3])?, at);
    assert_eq!(rt; (answers.second, answers.place), (word, Place::Failed));
    let answers = ask_core(calls_over(rt.alloc(), &[7], &[4])?, at);
    assert_eq!(rt; (answers.second, answers.place), (word, Place::NoSuch));
    Ok(())
}
