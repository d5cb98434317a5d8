//! Worked command lines, at each rule.

use omi_line::{Line, LineError, OutOfMemory, Text, TextList, number, split};
use std::alloc::Global;
use std::fmt::Write;
use std::process::Abort;
use std::test::Fail;

/// A line as text: its words and its options, each before a `|`.
fn shown(alloc: Global, line: &Line) -> Result<String, Fail> {
    let mut text = String::new(alloc);
    for at in 0..line.words.len() {
        show(&mut text, "", line.words.get(at))?;
    }
    let options = [
        ("seed=", &line.seed),
        ("break=", &line.on),
        ("count=", &line.count),
        ("layout=", &line.layout),
    ];
    for (name, value) in options {
        if let Some(value) = value {
            show(&mut text, name, value)?;
        }
    }
    Ok(text)
}

fn show(text: &mut String, name: &str, value: &Text) -> Result<(), Fail> {
    text.push_str(name)?;
    text.push_str(str::from_utf8(value.bytes()).ok().ok_or("no text")?)?;
    text.push('|')?;
    Ok(())
}

/// The words of a text, each before a `|`.
fn words_of(alloc: Global, text: &str) -> Result<Vec<String>, OutOfMemory> {
    let mut words = Vec::new(alloc);
    for word in text.split_terminator('|') {
        words.push(String::from_str(alloc, word)?)?;
    }
    Ok(words)
}

/// Lines, and what they split into. A line that is refused has `usage`.
const LINES: [(&str, &str); 42] = [
    ("", ""),
    ("stop|1000001|s|c|", "stop|1000001|s|c|"),
    ("show|", "show|"),
    ("stop|5|s|c|--count|2|", "stop|5|s|c|count=2|"),
    ("fly|c|", "fly|c|"),
    ("stop|--seed=5|5|s|c|", "stop|5|s|c|seed=5|"),
    ("stop|--seed|5|5|s|c|", "stop|5|s|c|seed=5|"),
    ("--seed=|", "seed=|"),
    ("--seed||", "seed=|"),
    ("--seed|-|", "usage"),
    ("--seed=-|", "seed=-|"),
    ("--seed=-5|", "seed=-5|"),
    ("--seed|-5|", "usage"),
    ("--seed=5=6|", "seed=5=6|"),
    ("--seed|", "usage"),
    ("--seed|--|5|", "usage"),
    ("--seed|--seed|5|", "usage"),
    ("--see|5|", "usage"),
    ("--see=5|", "usage"),
    ("-seed|5|", "usage"),
    ("-s|5|", "usage"),
    ("-5|", "usage"),
    ("-é|", "usage"),
    ("--=5|", "usage"),
    ("---|", "usage"),
    ("--seed|5|--seed|6|", "usage"),
    ("--seed=5|a|--seed=5|", "usage"),
    ("--count=1|stop|5|s|c|", "stop|5|s|c|count=1|"),
    (
        "run|--break|tp|--layout=2|5|s|--count|1|c|",
        "run|5|s|c|break=tp|count=1|layout=2|",
    ),
    ("show|--|--seed|5|", "show|--seed|5|"),
    ("show|--|--|-x|", "show|--|-x|"),
    ("--seed|5|--|--seed|6|", "--seed|6|seed=5|"),
    ("show||", "show||"),
    ("|", "|"),
    ("--|", ""),
    ("-|", "-|"),
    ("-|--seed|5|-|", "-|-|seed=5|"),
    ("--help|", "usage"),
    ("--version|", "usage"),
    ("-h|", "usage"),
    ("help|", "help|"),
    (
        "1|2|3|4|5|6|7|8|9|10|11|12|13|14|15|16|17|18|19|20|",
        "1|2|3|4|5|6|7|8|9|10|11|12|13|14|15|16|17|18|19|20|",
    ),
];

/// What a line splits into, as text.
fn split_text(alloc: Global, line: &str) -> Result<String, Fail> {
    let words = words_of(alloc, line)?;
    match split(alloc, &words) {
        Ok(split) => shown(alloc, &split),
        Err(LineError::Usage) => Ok(String::from_str(alloc, "usage")?),
        Err(LineError::OutOfMemory) => Err(Fail::from("no memory")),
    }
}

/// Each line splits into its text.
fn split_all(rt: &impl Abort, alloc: Global, rows: &[(&str, &str)]) -> Result<(), Fail> {
    for (line, want) in rows {
        let text = split_text(alloc, line)?;
        assert_eq!(rt; text.as_str(), *want, "at {line}");
    }
    Ok(())
}

#[test]
fn lines(rt: HostRuntime) -> Result<(), Fail> {
    split_all(&rt, rt.alloc(), &LINES)
}

const NUMBERS: [(&str, u64, u64, Option<u64>); 18] = [
    ("0", 0, 1000000, Some(0)),
    ("0", 1, 1000000, None),
    ("00", 0, 1000000, None),
    ("01", 0, 1000000, None),
    ("+1", 0, 1000000, None),
    ("-1", 0, 1000000, None),
    ("1", 0, 1000000, Some(1)),
    ("10", 0, 1000000, Some(10)),
    ("1000000", 0, 1000000, Some(1000000)),
    ("1000001", 0, 1000000, None),
    ("18446744073709551615", 0, u64::MAX, Some(u64::MAX)),
    ("18446744073709551616", 0, u64::MAX, None),
    ("", 0, u64::MAX, None),
    ("1a", 0, u64::MAX, None),
    (" 1", 0, u64::MAX, None),
    ("1 ", 0, u64::MAX, None),
    ("é", 0, u64::MAX, None),
    ("5", 6, 4, None),
];

/// A text as one of the crate.
fn text_of(alloc: Global, from: &str) -> Result<Text, OutOfMemory> {
    let mut text = Text::new(alloc);
    for byte in from.as_bytes() {
        text.push(*byte)?;
    }
    Ok(text)
}

/// Each text is this number of its range, or none.
fn number_all(
    rt: &impl Abort,
    alloc: Global,
    rows: &[(&str, u64, u64, Option<u64>)],
) -> Result<(), OutOfMemory> {
    for (word, least, most, want) in rows {
        let text = text_of(alloc, word)?;
        assert_eq!(rt; number(&text, *least, *most), *want, "{word}");
    }
    Ok(())
}

#[test]
fn numbers(rt: HostRuntime) -> Result<(), Fail> {
    number_all(&rt, rt.alloc(), &NUMBERS)?;
    Ok(())
}

#[test]
fn texts(rt: HostRuntime) -> Result<(), Fail> {
    let mut text = Text::new(rt.alloc());
    text.push(b'a')?;
    text.push(255)?;
    let mut list = TextList::new(rt.alloc());
    list.push(text)?;
    assert_eq!(rt; (list.len(), list.get(0).len()), (1, 2));
    assert_eq!(rt; list.get(0).bytes(), [97u8, 255].as_slice());
    Ok(())
}
