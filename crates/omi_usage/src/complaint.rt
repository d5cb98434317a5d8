//! What is wrong with the words of a command line.

/// An option of a command line.
#[derive(Clone, Copy, Debug, PartialEq, Eq)]
pub enum LineOption {
    Seed,
    Break,
    Count,
    Layout,
}

/// Why a word of a command line is refused.
#[derive(Clone, Copy, Debug, PartialEq, Eq)]
pub enum Cause {
    /// The word is no verb of the program.
    UnknownVerb,
    /// The word begins with `-` and is no option.
    UnknownOption,
    /// The command has no such option.
    Foreign(LineOption),
    /// The option was there before.
    Twice(LineOption),
    /// The option is without its value.
    NoValue(LineOption),
    /// `--break` is without `--count`, or the other way round.
    Alone(LineOption),
    /// A word is missing.
    TooFew,
    /// The command has no word more.
    TooMany,
    /// The word is no number from `least` to `most`.
    NoNumber { least: u64, most: u64 },
    /// The word is not one number or more, up to `many`, from 0 to `most`, with a comma between two.
    NoNumbers { many: usize, most: u64 },
    /// The word is none of the names that it may be.
    NoName,
}

/// Which word of a command line is refused, and why.
#[derive(Clone, Copy, Debug, PartialEq, Eq)]
pub struct Complaint {
    /// The place of the word, counted from 1; where a word is missing, one more than the number of words.
    pub place: usize,
    pub cause: Cause,
}
