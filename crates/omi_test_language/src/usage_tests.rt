//! Which word is refused first, and why, by the forms of a program that has an option and a word of each kind.

use omi_usage::{
    Cause, Complaint, Form, LineOption, Program, Wanted, complaint_of, complaint_of_one, help,
};
use std::alloc::{AllocError, Global};
use std::process::Abort;
use std::test::Fail;

/// A number from 1 to 20.
const N: Wanted = Wanted::Number {
    name: "N",
    least: 1,
    most: 20,
};

/// `go N COLOR SCRIPT`, with `--seed N` and `--break COLOR --count N`.
fn go() -> Form {
    let color = Wanted::OneOf {
        name: "COLOR",
        names: &["red", "blue"],
    };
    Form {
        words: &[
            Wanted::Verb("go"),
            Wanted::Number {
                name: "N",
                least: 1,
                most: 20,
            },
            Wanted::OneOf {
                name: "COLOR",
                names: &["red", "blue"],
            },
            Wanted::File("SCRIPT"),
        ],
        seed: Some(N),
        on: Some(color),
        count: Some(N),
        layout: None,
    }
}

/// `at N,N,..`, without options.
fn at() -> Form {
    Form::bare(&[
        Wanted::Verb("at"),
        Wanted::Numbers {
            name: "N,N,..",
            many: 3,
            most: 20,
        },
    ])
}

/// The words of a text, which single spaces part.
fn words_of(alloc: Global, text: &str) -> Result<Vec<String>, AllocError> {
    let mut words = Vec::new(alloc);
    for word in text.split(' ') {
        words.push(String::from_str(alloc, word)?)?;
    }
    Ok(words)
}

/// What is said of the words of a text.
fn said(alloc: Global, text: &str) -> Result<Option<Complaint>, AllocError> {
    let words = words_of(alloc, text)?;
    Ok(complaint_of(&[go(), at()], &words))
}

/// Each text with the place and the cause of its complaint.
const REFUSED: [(&str, usize, Cause); 30] = [
    ("fly 1 red s", 1, Cause::UnknownVerb),
    ("--seed 5 fly", 3, Cause::UnknownVerb),
    (" ", 1, Cause::UnknownVerb),
    ("go 1 red s --speed", 5, Cause::UnknownOption),
    ("-x go 1 red s", 1, Cause::UnknownOption),
    (
        "go 1 red s --layout 2",
        5,
        Cause::Foreign(LineOption::Layout),
    ),
    ("at 1 --seed=2", 3, Cause::Foreign(LineOption::Seed)),
    ("at 1 --count", 3, Cause::Foreign(LineOption::Count)),
    (
        "go --seed 5 1 red s --seed=6",
        7,
        Cause::Twice(LineOption::Seed),
    ),
    (
        "go --seed 5 --seed 6 1 red s",
        4,
        Cause::Twice(LineOption::Seed),
    ),
    ("go 1 red s --seed", 5, Cause::NoValue(LineOption::Seed)),
    (
        "go --seed --count 1 red s",
        2,
        Cause::NoValue(LineOption::Seed),
    ),
    (
        "go 1 red s --break blue",
        5,
        Cause::Alone(LineOption::Break),
    ),
    ("go --count 3 1 red s", 2, Cause::Alone(LineOption::Count)),
    ("go 1 red", 4, Cause::TooFew),
    ("go", 2, Cause::TooFew),
    ("--seed 5", 3, Cause::TooFew),
    ("go 1 red s t", 5, Cause::TooMany),
    ("at 1 -- -x", 4, Cause::TooMany),
    ("go 0 red s", 2, Cause::NoNumber { least: 1, most: 20 }),
    ("go 21 red s", 2, Cause::NoNumber { least: 1, most: 20 }),
    ("go 01 red s", 2, Cause::NoNumber { least: 1, most: 20 }),
    (
        "go 1 red s --seed=0",
        5,
        Cause::NoNumber { least: 1, most: 20 },
    ),
    (
        "go 1 red s --seed 0",
        6,
        Cause::NoNumber { least: 1, most: 20 },
    ),
    (
        "go x green s --speed",
        2,
        Cause::NoNumber { least: 1, most: 20 },
    ),
    ("go 1 green s", 3, Cause::NoName),
    ("go 1 red s --break rot --count 1", 6, Cause::NoName),
    ("at 1,2,3,4", 2, Cause::NoNumbers { many: 3, most: 20 }),
    ("at 1,,3", 2, Cause::NoNumbers { many: 3, most: 20 }),
    ("at 1,21", 2, Cause::NoNumbers { many: 3, most: 20 }),
];

#[test]
fn each_cause_comes_at_its_word(rt: HostRuntime) -> Result<(), Fail> {
    for (text, place, cause) in REFUSED {
        let found = said(rt.alloc(), text)?;
        assert_eq!(&rt; found, Some(Complaint { place, cause }));
    }
    Ok(())
}

#[test]
fn nothing_is_said_of_commands(rt: HostRuntime) -> Result<(), Fail> {
    for text in [
        "go 1 red s",
        "go 20 blue --break red --count=20 s --seed 1",
        "--count 3 --break blue go 1 red -",
        "go 1 red -- --seed",
        "at 0",
        "at 20,0,7",
        "-- at 1",
    ] {
        assert_eq!(&rt; said(rt.alloc(), text)?, None);
    }
    Ok(())
}

#[test]
fn a_command_without_a_verb(rt: HostRuntime) -> Result<(), Fail> {
    let form = Form::bare(&[Wanted::File("SCRIPT")]);
    assert_eq!(&rt; complaint_of_one(&form, &words_of(rt.alloc(), "s")?), None);
    let none = Vec::new(rt.alloc());
    let missing = Complaint {
        place: 1,
        cause: Cause::TooFew,
    };
    assert_eq!(&rt; complaint_of_one(&form, &none), Some(missing));
    Ok(())
}

#[test]
fn the_text_of_help(rt: HostRuntime) -> Result<(), Fail> {
    let words = words_of(rt.alloc(), "go 1\u{1b}[2J red s")?;
    let forms = [go(), at()];
    let program = Program {
        name: "ompd",
        forms: &forms,
    };
    let text = help(rt.alloc(), program, &words, complaint_of(&forms, &words))?;
    assert_eq!(&rt;
        text.as_str(),
        "ompd: word 2 `1\\x1b[2J`: not a number from 1 to 20
commands:
  ompd go N COLOR SCRIPT [--seed N] [--break COLOR --count N]
      N: a number from 1 to 20
      COLOR: red blue
      --seed N: a number from 1 to 20
      --break COLOR: red blue
      --count N: a number from 1 to 20
  ompd at N,N,..
      N,N,..: 1 to 3 numbers from 0 to 20
ompd, version 1.0
"
    );
    Ok(())
}
