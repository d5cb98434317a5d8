//! The words of a line.

use std::alloc::{AllocError, Global};

/// These words.
pub fn words(alloc: Global, line: &[&str]) -> Result<Vec<String>, AllocError> {
    let mut words = Vec::new(alloc);
    for word in line {
        words.push(String::from_str(alloc, word)?)?;
    }
    Ok(words)
}

/// The words of a line, which blanks separate.
pub fn split(alloc: Global, line: &str) -> Result<Vec<String>, AllocError> {
    let mut words = Vec::new(alloc);
    for word in line.split(' ') {
        words.push(String::from_str(alloc, word)?)?;
    }
    Ok(words)
}
