//! The texts of what is listed.

ghost use Rattle.std.specs.Prelude.{◌≡◌, ◌++◌, IfOk, OnOk, string_bytes};
ghost use Rattle.omi_ps.specs.Text.{body_text, head_text, listing_text, others_line};

use crate::Listing;
use omi_listing::threads_text;
use omi_model::View;
use omi_text::{OutOfMemory, push_decimal, report_text};
use std::alloc::Global;

/// A form in which what is listed is printed.
#[derive(Clone, Copy, Debug, PartialEq, Eq)]
pub enum Form {
    /// A table with a line for each thread of OpenMP.
    Threads,
    /// The lines of a report, as `show` prints them.
    Report,
}

/// Adds the line that counts threads which are none of OpenMP.
fn push_others(text: &mut String, others: Option<u64>) -> Result<(), OutOfMemory>
    ensures { OnOk result (string_bytes text.new ≡ string_bytes text.old ++ others_line others) }
{
    if let Some(others) = others {
        text.push_str("others ")?;
        push_decimal(text, others)?;
        text.push_str("\n")?;
    }
    Ok(())
}

/// The lines in front of all others: that the file is cut off, and how many threads are none of OpenMP.
fn head_text(alloc: Global, cut_off: bool, others: Option<u64>) -> Result<String, OutOfMemory>
    ensures { IfOk result (λ text. string_bytes text ≡ head_text cut_off others) }
{
    let mut text = String::new(alloc);
    if cut_off {
        text.push_str("cut off\n")?;
    }
    push_others(&mut text, others)?;
    Ok(text)
}

/// The lines behind them.
fn body_text(alloc: Global, form: Form, view: &View) -> Result<Vec<u8>, OutOfMemory>
    ensures { IfOk result (λ text. text.items ≡ body_text form view.now) }
{
    match form {
        Form::Threads => threads_text(alloc, view),
        Form::Report => report_text(alloc, view),
    }
}

/// What is listed, in a form, of a file that is cut off or isn't. Each line is ended by a line feed.
pub fn listing_text(
    alloc: Global,
    form: Form,
    listing: &Listing,
    cut_off: bool,
) -> Result<Vec<u8>, OutOfMemory>
    ensures { IfOk result (λ text. text.items ≡ listing_text form listing.now cut_off) }
{
    let mut text = head_text(alloc, cut_off, listing.others)?.into_bytes();
    let body = body_text(alloc, form, &listing.view)?;
    text.extend_from_slice(&body)?;
    Ok(text)
}
