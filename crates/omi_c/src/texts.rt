//! Texts that are put at the front of bytes which C lends.

ghost use Rattle.std.specs.Prelude.{◌≡◌, Err, length};
ghost use Rattle.omi_c.specs.Answers.{text_of};
ghost use Rattle.omi_c.specs.Texts.{put_over, text_in};

use crate::answers::{OK, Text};
use crate::causes::Cause;
use omi_text::ShortText;

/// Puts a text at the front, as far as there is room, and answers its length.
pub fn put(to: &mut [u8], text: &[u8]) -> u64
    ensures length { result ≡ length text.now }
    ensures put { to.new ≡ put_over text.now to.old }
{
    let count = text.len().min(to.len());
    to[..count].copy_from_slice(&text[..count]);
    text.len() as u64
}

impl Text {
    /// No text.
    pub fn refused(cause: Cause) -> Text
        ensures { result ≡ text_of (Err cause) }
    {
        let refusal = cause.refusal();
        Text {
            code: refusal.code,
            place: refusal.place,
            length: 0,
        }
    }

    /// The text that was made.
    pub fn of(reply: Result<ShortText, Cause>, to: &mut [u8]) -> Text
        ensures { (result, to.new) ≡ text_in to.old reply }
    {
        match reply {
            Ok(text) => Text {
                code: OK,
                place: 0,
                length: put(to, text.as_str().as_bytes()),
            },
            Err(cause) => Text::refused(cause),
        }
    }
}
