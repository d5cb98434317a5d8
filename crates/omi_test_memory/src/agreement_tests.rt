//! Tests of omi_rep: layouts that suit a program.

ghost use Rattle.std.specs.Prelude.{◌<◌};

use omi_layout::Layout;
use omi_rep::suits;
use omi_script::parse;
use omi_word::MOST_WORDS;
use std::test::Fail;

/// The layout of a family in which a word of the table is another one.
fn moved(layout: &Layout, at: usize, word: u64) -> Option<Layout>
    requires { at < 56 }
{
    let mut table = layout.table;
    table[at] = word;
    Layout::of_words(&table).ok()
}

#[test]
fn layouts_that_suit(rt: HostRuntime) -> Result<(), Fail> {
    let p = parse(rt.alloc(), b"threads 2\nfunc main\nend\n")?;
    for k in 0..16u8 {
        let fitting = suits(&p, &Layout::family(k, 2));
        assert!(rt; fitting);
        let other = suits(&p, &Layout::family(k, 3));
        assert!(rt; !other);
    }
    let layout = Layout::family(0, 2);
    // the runtime record over the tables, and the tasks behind the greatest image
    for (at, word) in [(1, 0x10000), (9, 0x10000 + 8 * MOST_WORDS)] {
        let layout = moved(&layout, at, word).ok_or("a valid layout")?;
        let fitting = suits(&p, &layout);
        assert!(rt; !fitting);
    }
    Ok(())
}
