//! Chains that do not end: the record that is met a second time, and which chain is followed first.

use crate::asking::{Case, Word, comes_back, first_wrong, refused};
use crate::stops::{Records, forked, nested, records_of};
use omi_fixture_targets::Words;
use omi_layout::Field;
use std::test::Fail;

const SCHEDULING: Field = Field::TaskScheduling;

const ENCLOSING: Field = Field::RegionEnclosing;

/// A task that is scheduled from another one.
fn scheduled(task: u64, from: u64) -> Word {
    (task, SCHEDULING, 0, Some(from))
}

/// A region in another one.
fn enclosed(region: u64, by: u64) -> Word {
    (region, ENCLOSING, 0, Some(by))
}

/// A record that leads to itself, and two that lead to one another: a chain that comes to them from elsewhere meets that one again to which it
/// came first. Of two chains that do not end, the one from the record which the search meets first is refused, whichever clause that is.
fn of_fork(words: &Words, r: &Records) -> [Case; 9] {
    let tasks = |changed: [Word; 2], addr: u64| -> Case {
        comes_back(words, changed, addr, SCHEDULING, 7)
    };
    let regions = |changed: [Word; 2], addr: u64| -> Case {
        comes_back(words, changed, addr, ENCLOSING, 8)
    };
    [
        tasks([scheduled(r.master, r.master); 2], r.master),
        tasks([scheduled(r.initial, r.initial); 2], r.initial),
        tasks([scheduled(r.worker, r.worker); 2], r.worker),
        regions([enclosed(r.inner, r.inner); 2], r.inner),
        regions([enclosed(r.outer, r.outer); 2], r.outer),
        tasks(
            [
                scheduled(r.initial, r.worker),
                scheduled(r.worker, r.initial),
            ],
            r.initial,
        ),
        regions([enclosed(r.outer, r.inner); 2], r.inner),
        tasks(
            [enclosed(r.inner, r.inner), scheduled(r.master, r.master)],
            r.master,
        ),
        regions(
            [scheduled(r.worker, r.worker), enclosed(r.inner, r.inner)],
            r.inner,
        ),
    ]
}

#[test]
fn chains_of_a_fork(rt: HostRuntime) -> Result<(), Fail> {
    let words = forked(rt.alloc(), 0)?;
    let records = records_of(&words)?;
    let cases = of_fork(&words, &records);
    assert_eq!(rt; first_wrong(rt.alloc(), &words, &cases)?, None);
    Ok(())
}

/// The same in a team in a task of a team: the chains of the regions of both teams come to the initial region, and that of the innermost task to
/// the members of the outer team.
fn of_nested(words: &Words, r: &Records) -> [Case; 9] {
    let tasks = |changed: Word, addr: u64| -> Case {
        comes_back(words, [changed; 2], addr, SCHEDULING, 7)
    };
    let regions = |changed: Word, addr: u64| -> Case {
        comes_back(words, [changed; 2], addr, ENCLOSING, 8)
    };
    [
        tasks(scheduled(r.generated, r.alone), r.alone),
        tasks(scheduled(r.worker, r.generated), r.generated),
        tasks(scheduled(r.worker, r.worker), r.worker),
        tasks(scheduled(r.initial, r.master), r.master),
        regions(enclosed(r.inner, r.innermost), r.inner),
        regions(enclosed(r.innermost, r.innermost), r.innermost),
        regions(enclosed(r.outer, r.outer), r.outer),
        regions(enclosed(r.outer, r.innermost), r.inner),
        regions(enclosed(r.outer, r.inner), r.inner),
    ]
}

#[test]
fn chains_of_a_nested_chain(rt: HostRuntime) -> Result<(), Fail> {
    let words = nested(rt.alloc(), 0)?;
    let records = records_of(&words)?;
    let cases = of_nested(&words, &records);
    assert_eq!(rt; first_wrong(rt.alloc(), &words, &cases)?, None);
    Ok(())
}

/// A word that fails a clause comes before a chain that does not end, whether it is met before the chain's records or behind them.
#[test]
fn a_chain_and_a_word(rt: HostRuntime) -> Result<(), Fail> {
    let words = nested(rt.alloc(), 0)?;
    let r = records_of(&words)?;
    let tasks = scheduled(r.generated, r.alone);
    let regions = enclosed(r.outer, r.innermost);
    let first = (r.runtime, Field::RuntimeDebug, 0, Some(2));
    let last = (r.worker, Field::TaskDevice, 0, Some(256));
    let hole = (r.worker, Field::TaskNthreads, 0, None);
    let cases = [
        comes_back(&words, [tasks; 2], r.alone, SCHEDULING, 7),
        comes_back(&words, [tasks, regions], r.alone, SCHEDULING, 7),
        refused(&words, first, tasks, 2),
        refused(&words, first, regions, 2),
        refused(&words, last, tasks, 6),
        refused(&words, last, regions, 6),
        refused(&words, hole, tasks, 1),
        refused(&words, hole, regions, 1),
    ];
    assert_eq!(rt; first_wrong(rt.alloc(), &words, &cases)?, None);
    Ok(())
}
