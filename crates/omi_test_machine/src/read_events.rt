//! Events read from the texts in which they are printed.
use omi_model::{Event, Id, Rid, Team, Tid};

/// An id behind its letter.
fn id(word: &str, letter: char) -> Option<Id> {
    let mut parts = word.strip_prefix(letter)?.split('.');
    Some(Id {
        creator: parts.next()?.parse::<u8>().ok()?,
        slot: parts.next()?.parse::<u16>().ok()?,
        generation: parts.next()?.parse::<u32>().ok()?,
    })
}

fn task(word: &str) -> Option<Tid> {
    Some(Tid(id(word, 'k')?))
}

fn region(word: &str) -> Option<Rid> {
    Some(Rid(id(word, 'r')?))
}

/// What stands behind a name in a table.
fn find<T: Copy>(rows: &[(&str, T)], name: &str) -> Option<T> {
    for (row, found) in rows {
        if *row == name {
            return Some(*found);
        }
    }
    None
}

/// The states by their names.
const STATES: [(&str, u32); 9] = [
    ("work_serial", 0x000),
    ("work_parallel", 0x001),
    ("wait_barrier_implicit_parallel", 0x011),
    ("wait_barrier_explicit", 0x014),
    ("wait_taskwait", 0x020),
    ("wait_taskgroup", 0x021),
    ("wait_critical", 0x042),
    ("idle", 0x100),
    ("overhead", 0x101),
];

/// The variables by their names.
const VARIABLES: [(&str, u32); 2] = [("dyn-var", 1), ("nthreads-var", 2)];

/// A team of members, each a task and a thread.
fn team(members: &str) -> Option<Team> {
    let mut team = Team::new();
    for member in members.split_whitespace() {
        let (k, i) = member.split_once('@')?;
        if team.len() == 64 {
            return None;
        }
        team.push(task(k)?, i.parse::<u8>().ok()?);
    }
    Some(team)
}

/// The events that are one word.
const PLAIN: [(&str, Event); 15] = [
    ("begin", Event::Begin),
    ("offer", Event::Offer),
    ("enter", Event::Enter),
    ("leave", Event::Leave),
    ("arrive", Event::Arrive),
    ("release", Event::Release),
    ("pass", Event::Pass),
    ("work", Event::Work),
    ("skip", Event::Skip),
    ("ret", Event::Ret),
    ("done", Event::Done),
    ("wait_done", Event::WaitDone),
    ("group_begin", Event::GroupBegin),
    ("group_end", Event::GroupEnd),
    ("yield", Event::Yield),
];

/// The events of a task, by numbers.
const OF_TASK: [(&str, u8); 6] = [
    ("implicit_begin", 0),
    ("implicit_end", 1),
    ("defer", 2),
    ("start_now", 3),
    ("start", 4),
    ("finish", 5),
];

/// An event of a task.
fn of_task(name: &str, task: Tid) -> Option<Event> {
    match find(&OF_TASK, name)? {
        0 => Some(Event::ImplicitBegin { task }),
        1 => Some(Event::ImplicitEnd { task }),
        2 => Some(Event::Defer { task }),
        3 => Some(Event::StartNow { task }),
        4 => Some(Event::Start { task }),
        _ => Some(Event::Finish { task }),
    }
}

/// The events of a small number, by numbers.
const OF_NUMBER: [(&str, u8); 5] = [
    ("want", 0),
    ("seen", 1),
    ("call", 2),
    ("lock", 3),
    ("unlock", 4),
];

/// An event of a small number.
fn of_number(name: &str, number: u8) -> Option<Event> {
    match find(&OF_NUMBER, name)? {
        0 => Some(Event::Want { n: number }),
        1 => Some(Event::Seen { j: number }),
        2 => Some(Event::Call { f: number }),
        3 => Some(Event::Lock { k: number }),
        _ => Some(Event::Unlock { k: number }),
    }
}

/// What gives the record of a task or a region back.
fn freed(word: &str) -> Option<Event> {
    if let Some(region) = region(word) {
        return Some(Event::FreeRegion { region });
    }
    let task = task(word)?;
    Some(Event::FreeTask { task })
}

/// An event with one word behind its name.
fn with_word(name: &str, word: &str) -> Option<Event> {
    if name == "tool" {
        let x = word.parse::<u64>().ok()?;
        return Some(Event::SetTool { x });
    }
    if name == "join" {
        let region = region(word)?;
        return Some(Event::Join { region });
    }
    if name == "free" {
        return freed(word);
    }
    match word.parse::<u8>() {
        Ok(number) => of_number(name, number),
        Err(_) => of_task(name, task(word)?),
    }
}

/// An event with two words behind its name.
fn with_words(name: &str, first: &str, second: &str) -> Option<Event> {
    if name == "ask" {
        return Some(Event::Ask {
            w: first.parse::<u8>().ok()?,
            got: second == "got",
        });
    }
    let value = second.parse::<u64>().ok()?;
    if name == "state" {
        let state = find(&STATES, first)?;
        return Some(Event::State { state, wait: value });
    }
    if name == "set" {
        let icv = find(&VARIABLES, first)?;
        return Some(Event::Set { icv, value });
    }
    None
}

/// A thread and its event, as `t0 want 2`.
pub fn event(line: &str) -> Option<(u8, Event)> {
    if let Some((head, members)) = line.split_once(" team ") {
        let mut words = head.split_whitespace();
        let thread = words.next()?.strip_prefix('t')?.parse::<u8>().ok()?;
        let region = region(words.nth(1)?)?;
        return Some((
            thread,
            Event::Fork {
                region,
                team: team(members)?,
            },
        ));
    }
    let mut words = line.split_whitespace();
    let thread = words.next()?.strip_prefix('t')?.parse::<u8>().ok()?;
    let name = words.next()?;
    let e = match (words.next(), words.next()) {
        (Some(first), Some(second)) => with_words(name, first, second)?,
        (Some(word), None) => with_word(name, word)?,
        _ => find(&PLAIN, name)?,
    };
    Some((thread, e))
}
