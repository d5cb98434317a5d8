//! Core files: what a core holds, and the one spelling of it in bytes.
#![tactic(auto)]

mod byte_order;
mod core_image;
pub mod decoding;
mod encoding;
mod fault;
pub mod fields;
pub mod judging;
mod laws;
mod limits;
mod making;
mod segment;

pub use byte_order::{number_of, word_bytes};
pub use core_image::CoreImage;
pub use decoding::decode;
pub use encoding::{core_bytes_of, encode, put_front, put_image};
pub use fault::{CoreError, CoreFault};
pub use laws::{bad_fields, front_enough, fronts_and_tails, one_answer, one_spelling};
pub use limits::{MOST_BYTES, MOST_CONTEXTS, MOST_SEGMENT_WORDS, MOST_SEGMENTS};
pub use making::{core_of, image_makes_a_core};
pub use omi_list::OutOfMemory;
pub use segment::{SegList, Segment};
