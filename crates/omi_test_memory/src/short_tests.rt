//! Short texts: filled to the last byte, and the schedule whose chunk has the most digits.

use omi_text::{SHORT_TEXT, ShortText, schedule_text};
use std::test::*;

#[test]
fn a_text_that_is_full(rt: HostRuntime) -> Result<(), Fail> {
    let mut text = ShortText::new();
    text.push_decimal(u64::MAX);
    text.push_decimal(u64::MAX);
    text.push_decimal(u64::MAX);
    text.push_decimal(u64::MAX);
    text.push_decimal(u64::MAX);
    text.push_decimal(u64::MAX);
    text.push_decimal(u64::MAX);
    text.push_decimal(u64::MAX);
    text.push_str("12345678");
    assert_eq!(rt; text.as_str().len(), SHORT_TEXT);
    assert!(rt;
        text.as_str()
            .starts_with("1844674407370955161518446744073709551615")
    );
    assert!(rt; text.as_str().ends_with("1844674407370955161512345678"));
    Ok(())
}

#[test]
fn schedules(rt: HostRuntime) -> Result<(), Fail> {
    let none = schedule_text(0);
    let named = schedule_text(8 * 16 + 2);
    let longest = schedule_text(u64::MAX);
    assert_eq!(rt; none.as_str(), "0,0");
    assert_eq!(rt; named.as_str(), "dynamic,16");
    assert_eq!(rt; longest.as_str(), "7,2305843009213693951");
    Ok(())
}
