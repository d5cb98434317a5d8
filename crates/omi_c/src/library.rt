//! What is asked of the library itself, and of the layout of a target.

ghost use Rattle.std.specs.Prelude.{◌≡◌, Ok, [], codes, length};
ghost use Rattle.omi_calls.specs.Kept.{TakesAll, GivesNumbers};
ghost use Rattle.omi_layout.specs.declared.field.Field.TheVariants.{RuntimeVersion};
ghost use Rattle.omi_layout.specs.declared.limits.TheConstants.{TABLE_WORDS};
ghost use Rattle.omi_numbers.specs.declared.words.TheConstants.{OPENMP_VERSION};
ghost use Rattle.omi_rep.specs.Records.{runtime_address};
ghost use Rattle.omi_session.specs.Inquiry.{word_of};
ghost use Rattle.omi_session.specs.Reads.{Answer};
ghost use Rattle.omi_c.specs.Answers.{number_of};
ghost use Rattle.omi_c.specs.Replies.{asked_in};
ghost use Rattle.omi_c.specs.Texts.{put_over, text_in};

use crate::answers::{Number, OK, Text};
use crate::causes::{Cause, replied};
use crate::judged::Judged;
use crate::known::Known;
use crate::opening::{lowest_first, open};
use crate::texts::put;
use omi_calls::ToHost;
use omi_layout::TABLE_WORDS;
use omi_session::{get_api_version, get_version_string};

/// How many words a layout table has.
#[unsafe(no_mangle)]
pub extern "C" fn omi_table_words() -> u64
    ensures { result ≡ TABLE_WORDS }
{
    TABLE_WORDS as u64
}

/// The version of the API.
#[unsafe(no_mangle)]
pub extern "C" fn omi_api_version() -> u64
    ensures { result ≡ OPENMP_VERSION }
{
    get_api_version()
}

/// The name and the version of the library. The answer is the length of the text.
#[unsafe(no_mangle)]
pub extern "C" fn omi_version_text(to: &mut [u8]) -> u64
    ensures length { result ≡ length (codes "omi ompd 1") }
    ensures put { to.new ≡ put_over (codes "omi ompd 1") to.old }
{
    put(to, get_version_string().as_bytes())
}

/// The version of OpenMP that the target's runtime has, as year and month. By a conversion of a word's bytes.
fn openmp_version<H: ToHost>(table: &Judged, known: &[Known], to_host: H) -> Result<u64, Cause>
    requires takes { TakesAll (H.takes to_host) }
    requires gives { GivesNumbers (H.gives to_host) 0 }
    ensures { result ≡ asked_in table.now known.now
        (λ w. word_of w (runtime_address w) RuntimeVersion 0) }
{
    let mut s = open(table, known, to_host)?;
    let version = s.get_omp_version();
    replied(s, version)
}

/// The version of OpenMP that the target's runtime has, as year and month.
#[unsafe(no_mangle)]
pub extern "C" fn omi_openmp_version(table: &Judged, known: &[Known]) -> Number
    ensures { result ≡ number_of (asked_in table.now known.now
        (λ w. word_of w (runtime_address w) RuntimeVersion 0)) }
{
    Number::of(openmp_version(table, known, lowest_first))
}

/// The version of OpenMP of this library, as text. By a conversion of a word's bytes.
fn openmp_text<H: ToHost>(table: &Judged, to: &mut [u8], to_host: H) -> Text
    requires takes { TakesAll (H.takes to_host) }
    requires gives { GivesNumbers (H.gives to_host) 0 }
    ensures { (result, to.new) ≡ text_in to.old
        (asked_in table.now [] (λ _. Answer (Ok (codes "OpenMP 5.0 host")))) }
{
    match open(table, &[], to_host) {
        Ok(s) => Text {
            code: OK,
            place: 0,
            length: put(to, s.get_omp_version_string().as_bytes()),
        },
        Err(cause) => Text::refused(cause),
    }
}

/// The version of OpenMP of this library, as text.
#[unsafe(no_mangle)]
pub extern "C" fn omi_openmp_text(table: &Judged, to: &mut [u8]) -> Text
    ensures { (result, to.new) ≡ text_in to.old
        (asked_in table.now [] (λ _. Answer (Ok (codes "OpenMP 5.0 host")))) }
{
    openmp_text(table, to, lowest_first)
}
