//! The operations of worked runs, step by step, in the layout of family 0. For two threads its arenas begin at the words 99, 112, 124
//! and 540, and their records have 13, 6, 13 and 32 words; for one thread at the words 99, 112, 118 and 310, with 13, 6, 12 and 32 words.

use crate::moves::follow;
use crate::scripts::{A_TEAM_AND_A_TASK, EACH_PLAIN_STATEMENT, TWO_TASKS};
use crate::trial::{Looks, Trial, Wrong};
use omi_core::Core;
use omi_fixture_rows::A_TEAM_OF_TWO;
use omi_run_lists::Made;
use omi_word::{Op, OutOfMemory};
use std::alloc::Global;
use std::test::Fail;

/// A word: the address of a word of the image by its place, as `@540`, a number of 16 bits in decimal, and any other in hexadecimal.
fn word_text(alloc: Global, word: u64) -> Result<String, OutOfMemory> {
    if word < 0x10000 {
        Ok(format!(in alloc; "{word}")?)
    } else if word < 0x30000 {
        let place = (word - 0x10000) / 8;
        Ok(format!(in alloc; "@{place}")?)
    } else {
        Ok(format!(in alloc; "{word:#x}")?)
    }
}

/// What an operation stores or adds, none of a load.
fn argument_text(alloc: Global, op: Op) -> Result<String, OutOfMemory> {
    match op {
        Op::Load { .. } => Ok(String::new(alloc)),
        Op::Store { new, .. } => {
            let new = word_text(alloc, new)?;
            Ok(format!(in alloc; " {new}")?)
        }
        Op::Cas { old, new, .. } => {
            let old = word_text(alloc, old)?;
            let new = word_text(alloc, new)?;
            Ok(format!(in alloc; " {old} to {new}")?)
        }
        Op::Add { by, .. } | Op::Sub { by, .. } => Ok(format!(in alloc; " {by}")?),
    }
}

/// The name of an operation, and the address of its word.
fn named(op: Op) -> (&'static str, u64) {
    match op {
        Op::Load { at } => ("load", at),
        Op::Store { at, .. } => ("store", at),
        Op::Cas { at, .. } => ("exchange", at),
        Op::Add { at, .. } => ("add", at),
        Op::Sub { at, .. } => ("subtract", at),
    }
}

/// A step: its operation, the address of its word, and the word that it found.
fn step_text(alloc: Global, made: Made) -> Result<String, OutOfMemory> {
    let (name, address) = named(made.op);
    let at = word_text(alloc, address)?;
    let argument = argument_text(alloc, made.op)?;
    let found = word_text(alloc, made.old)?;
    Ok(format!(in alloc; "{name} {at}{argument} found {found}")?)
}

/// Whether a thread's steps are these, one after the other.
fn makes(alloc: Global, core: &Core, thread: u8, steps: &str) -> Result<bool, OutOfMemory> {
    let made = core.made();
    let mut wanted = steps.lines();
    for at in 0..made.len() {
        let step = made.get(at);
        if step.thread != thread {
            continue;
        }
        let text = step_text(alloc, step)?;
        if wanted.next().unwrap_or("") != text.as_str() {
            return Ok(false);
        }
    }
    Ok(wanted.next().is_none())
}

/// Whether a run of these moves has these steps of thread 0.
fn runs(alloc: Global, script: &str, moves: &str, steps: &str) -> Result<bool, Wrong> {
    let mut t = Trial::opening(alloc, script, 0, Looks::EachStep)?;
    follow(&mut t, moves)?;
    Ok(makes(alloc, t.core(), 0, steps)?)
}

/// The overhead state; the levels of the region and the data environment of the task; the team wanted, and thread 1 asked; the record of
/// the region, and those of the two members; the store that forks.
const THE_FORK: &str = "\
store @549 0x7f00000fffa0 found 0
store @115 257 found 0
load @129 found 0
load @130 found 0
load @550 found 0
load @551 found 1
load @552 found 1
load @553 found 0
load @558 found 2
load @559 found 0
load @560 found 0
load @561 found 0
load @103 found 8
exchange @122 1 to 2 found 1
load @124 found 1
load @137 found 0
store @137 1 found 0
store @138 0x400000 found 0
store @139 @124 found 0
store @140 @540 found 0
store @141 2 found 0
store @142 1 found 0
store @143 1 found 0
store @144 0 found 0
store @145 0 found 0
store @146 0 found 0
store @147 0 found 0
load @540 found 1
load @572 found 0
store @572 1 found 0
store @573 1 found 0
store @574 @137 found 0
store @575 @112 found 0
store @576 0 found 0
store @577 @540 found 0
store @578 @540 found 0
store @579 0x400000 found 0
store @580 0x7f00000fff80 found 0
store @581 0 found 0
store @582 0 found 0
store @583 1 found 0
store @584 1 found 0
store @585 0 found 0
store @586 0 found 0
store @587 0 found 0
store @588 0 found 0
store @589 0 found 0
store @590 2 found 0
store @591 0 found 0
store @592 0 found 0
store @593 0 found 0
store @594 0 found 0
store @595 0 found 0
store @596 0 found 0
store @597 0 found 0
store @598 0 found 0
store @599 0 found 0
store @600 0 found 0
store @601 0 found 0
store @602 0 found 0
store @603 0 found 0
store @148 @572 found 0
load @540 found 1
load @572 found 1
load @604 found 0
store @604 1 found 0
store @605 1 found 0
store @606 @137 found 0
store @607 @118 found 0
store @608 1 found 0
store @609 @540 found 0
store @610 0 found 0
store @611 0x400000 found 0
store @612 0x7f00001fffc0 found 0
store @613 0 found 0
store @614 0 found 0
store @615 1 found 0
store @616 1 found 0
store @617 0 found 0
store @618 0 found 0
store @619 0 found 0
store @620 0 found 0
store @621 0 found 0
store @622 2 found 0
store @623 0 found 0
store @624 0 found 0
store @625 0 found 0
store @626 0 found 0
store @627 0 found 0
store @628 0 found 0
store @629 0 found 0
store @630 0 found 0
store @631 0 found 0
store @632 0 found 0
store @633 0 found 0
store @634 0 found 0
store @635 0 found 0
store @149 @604 found 0
store @114 @572 found @540";

#[test]
fn a_team_of_two_is_forked(rt: HostRuntime) -> Result<(), Fail> {
    let moves = "1 waits at thread.assign 1 0 0 0\n0 until fork";
    assert!(rt; runs(rt.alloc(), A_TEAM_OF_TWO, moves, THE_FORK)?);
    Ok(())
}

/// Five variables are set, and the tool word; a function is called, then twice by `repeat` and not by `only`; and called under a lock.
const THE_STATEMENTS: &str = "\
store @550 1 found 0
store @558 3 found 2
store @103 5 found 8
store @552 34 found 1
store @553 2 found 0
store @555 7 found 0
load @113 found 1000
load @113 found 1000
load @113 found 1000
load @113 found 1000
load @113 found 1000
load @113 found 1000
load @113 found 1000
load @113 found 1000
load @113 found 1000
load @113 found 1000
load @113 found 1000
store @549 0x7f00000fffa0 found 0
store @115 0x40042 found 0
exchange @107 0 to 1 found 0
store @115 0 found 0x40042
store @549 0 found 0x7f00000fffa0
load @113 found 1000
load @113 found 1000
load @113 found 1000
store @107 0 found 1";

#[test]
fn variables_calls_and_a_lock(rt: HostRuntime) -> Result<(), Fail> {
    let done = runs(
        rt.alloc(),
        EACH_PLAIN_STATEMENT,
        "0 until unlock 3",
        THE_STATEMENTS,
    )?;
    assert!(rt; done);
    Ok(())
}

/// A task is deferred into the first empty slot of its thread, twice: the slots, the data environment, the group of the generating task, the
/// record, the three counts, the slot. At the barrier the first is taken from its slot and starts, and finishes: its generating task, whose count
/// of children is lowered; its group, which is none; its own references, of which this was the last one, and its life word, so it is given back; the references of the generating task, which is
/// implicit; and the count of the region. Then the second starts.
const THE_TASKS: &str = "\
store @549 0x7f00000fffa0 found 0
load @562 found 0
load @550 found 0
load @551 found 1
load @552 found 1
load @553 found 0
load @558 found 2
load @559 found 0
load @560 found 0
load @561 found 0
load @566 found 0
load @540 found 1
load @572 found 0
store @572 1 found 0
store @573 0 found 0
store @574 @124 found 0
store @575 @112 found 0
store @576 0 found 0
store @577 @540 found 0
store @578 @540 found 0
store @579 0x400000 found 0
store @580 0x7f00000fff80 found 0
store @581 0 found 0
store @582 0 found 0
store @583 1 found 0
store @584 1 found 0
store @585 0 found 0
store @586 1 found 0
store @587 0 found 0
store @588 0 found 0
store @589 1 found 0
store @590 2 found 0
store @591 0 found 0
store @592 0 found 0
store @593 0 found 0
store @594 0 found 0
store @595 0 found 0
store @596 0 found 0
store @597 0 found 0
store @598 0 found 0
store @599 0 found 0
store @600 0 found 0
store @601 0 found 0
store @602 0 found 0
store @603 0 found 0
add @133 1 found 0
add @556 1 found 0
add @557 1 found 0
store @562 0x1000001 found 0
store @549 0 found 0x7f00000fffa0
store @549 0x7f00000fffa0 found 0
load @562 found 0x1000001
load @563 found 0
load @550 found 0
load @551 found 1
load @552 found 1
load @553 found 0
load @558 found 2
load @559 found 0
load @560 found 0
load @561 found 0
load @566 found 0
load @540 found 1
load @572 found 1
load @604 found 0
store @604 1 found 0
store @605 0 found 0
store @606 @124 found 0
store @607 @112 found 0
store @608 0 found 0
store @609 @540 found 0
store @610 @540 found 0
store @611 0x400000 found 0
store @612 0x7f00000fff80 found 0
store @613 0 found 0
store @614 0 found 0
store @615 1 found 0
store @616 1 found 0
store @617 0 found 0
store @618 0 found 0
store @619 0 found 0
store @620 0 found 0
store @621 1 found 0
store @622 2 found 0
store @623 0 found 0
store @624 0 found 0
store @625 0 found 0
store @626 0 found 0
store @627 0 found 0
store @628 0 found 0
store @629 0 found 0
store @630 0 found 0
store @631 0 found 0
store @632 0 found 0
store @633 0 found 0
store @634 0 found 0
store @635 0 found 0
add @133 1 found 1
add @556 1 found 1
add @557 1 found 1
store @563 0x1000002 found 0
store @549 0 found 0x7f00000fffa0
add @132 1 found 0
load @135 found @540
load @562 found 0x1000001
exchange @562 0x1000001 to 0 found 0x1000001
load @579 found 0x400000
load @586 found 1
store @575 @112 found @112
store @576 0 found 0
store @578 @540 found @540
store @580 0x7f00000fff80 found 0x7f00000fff80
store @581 0 found 0
store @114 @572 found @540
store @114 @540 found @572
load @577 found @540
subtract @556 1 found 2
load @598 found 0
subtract @589 1 found 1
store @572 2 found 1
load @541 found 1
subtract @557 1 found 2
subtract @133 1 found 2
load @135 found @540
load @562 found 0
load @563 found 0x1000002
exchange @563 0x1000002 to 0 found 0x1000002
load @611 found 0x400000
load @618 found 0
store @607 @112 found @112
store @608 0 found 0
store @610 @540 found @540
store @612 0x7f00000fff80 found 0x7f00000fff80
store @613 0 found 0
store @114 @604 found @540";

#[test]
fn two_tasks(rt: HostRuntime) -> Result<(), Fail> {
    assert!(rt; runs(rt.alloc(), TWO_TASKS, "0 until start k0.2.0", THE_TASKS)?);
    Ok(())
}

/// A team of one that is joined, and a task that starts at once. Behind the join: the task of the member and its life word, which is given back, and the
/// life word of the region, too. The task takes the record that the member's task had, whose words it finds; behind its end, the words of the counts:
/// the children of its generating task, its own references and its life word, the references of the generating task, and the tasks of the region.
const THE_RECORDS: &str = "\
store @319 0x7f00000fffa0 found 0
load @123 found 0
load @124 found 0
load @320 found 0
load @321 found 1
load @322 found 1
load @323 found 0
load @328 found 1
load @329 found 0
load @330 found 0
load @331 found 0
load @103 found 8
load @118 found 1
load @130 found 0
store @130 1 found 0
store @131 0x400000 found 0
store @132 @118 found 0
store @133 @310 found 0
store @134 1 found 0
store @135 1 found 0
store @136 0 found 0
store @137 0 found 0
store @138 0 found 0
store @139 0 found 0
store @140 0 found 0
load @310 found 1
load @342 found 0
store @342 1 found 0
store @343 1 found 0
store @344 @130 found 0
store @345 @112 found 0
store @346 0 found 0
store @347 @310 found 0
store @348 @310 found 0
store @349 0x400000 found 0
store @350 0x7f00000fff80 found 0
store @351 0 found 0
store @352 0 found 0
store @353 1 found 0
store @354 1 found 0
store @355 0 found 0
store @356 0 found 0
store @357 0 found 0
store @358 0 found 0
store @359 0 found 0
store @360 1 found 0
store @361 0 found 0
store @362 0 found 0
store @363 0 found 0
store @364 0 found 0
store @365 0 found 0
store @366 0 found 0
store @367 0 found 0
store @368 0 found 0
store @369 0 found 0
store @370 0 found 0
store @371 0 found 0
store @372 0 found 0
store @373 0 found 0
store @141 @342 found 0
store @114 @342 found @310
add @138 1 found 0
load @141 found @342
load @364 found 0
load @365 found 0
load @366 found 0
load @367 found 0
load @138 found 1
load @139 found 0
store @137 1 found 0
load @137 found 1
load @140 found 0
store @114 @310 found @342
load @141 found @342
load @342 found 1
store @342 2 found 1
store @130 2 found 1
store @319 0 found 0x7f00000fffa0
store @319 0x7f00000fffa0 found 0
load @320 found 0
load @321 found 1
load @322 found 1
load @323 found 0
load @328 found 1
load @329 found 0
load @330 found 0
load @331 found 0
load @336 found 0
load @310 found 1
load @342 found 2
store @342 3 found 2
store @343 0 found 1
store @344 @118 found @130
store @345 @112 found @112
store @346 0 found 0
store @347 @310 found @310
store @348 @310 found @310
store @349 0x400000 found 0x400000
store @350 0x7f00000fff80 found 0x7f00000fff80
store @351 0 found 0
store @352 0 found 0
store @353 1 found 1
store @354 1 found 1
store @355 0 found 0
store @356 0 found 0
store @357 0 found 0
store @358 0 found 0
store @359 1 found 0
store @360 1 found 1
store @361 0 found 0
store @362 0 found 0
store @363 0 found 0
store @364 0 found 0
store @365 0 found 0
store @366 0 found 0
store @367 0 found 0
store @368 0 found 0
store @369 0 found 0
store @370 0 found 0
store @371 0 found 0
store @372 0 found 0
store @373 0 found 0
add @127 1 found 0
add @326 1 found 0
add @327 1 found 0
store @114 @342 found @310
store @114 @310 found @342
load @347 found @310
subtract @326 1 found 1
load @368 found 0
subtract @359 1 found 1
store @342 4 found 3
load @311 found 1
subtract @327 1 found 1
subtract @127 1 found 1
store @319 0 found 0x7f00000fffa0";

#[test]
fn records_given_back(rt: HostRuntime) -> Result<(), Fail> {
    let moves = "0 until free r0.1.0\n0 until leave\n0 until leave";
    assert!(rt; runs(rt.alloc(), A_TEAM_AND_A_TASK, moves, THE_RECORDS)?);
    Ok(())
}
