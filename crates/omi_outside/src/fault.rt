//! Why the system refused a write: what a person needs beside the status.

use std::fmt::{Display, Formatter, Write};
use std::{fmt, io};

/// What was written.
#[derive(Drop)]
pub enum Place {
    /// Standard output.
    Output,
    /// The file of this name.
    File(String),
    /// A file, for whose name no memory was found.
    Unnamed,
}

/// A write that the system refused, with its reason.
#[derive(Drop)]
pub struct Fault {
    pub place: Place,
    pub reason: io::Error,
}

impl Display for Fault {
    fn fmt<W: Write>(&self, f: &mut Formatter<W>) -> fmt::Result {
        match &self.place {
            Place::Output => write!(f, "standard output: {}", self.reason),
            Place::File(name) => write!(f, "{name:?}: {}", self.reason),
            Place::Unnamed => write!(f, "a file: {}", self.reason),
        }
    }
}
