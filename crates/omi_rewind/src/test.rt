//! Tests of the words of an image, and the closure that answers one.

ghost use Rattle.std.specs.Prelude.{◌≡◌, ◌<◌, Bool, IsTrue, ℕ, List, length};
ghost use Rattle.omi_layout.specs.Place.{fits};
ghost use Rattle.omi_layout.specs.Table.{thread_count};
ghost use Rattle.omi_rewind.specs.Tests.{AnswersTest, TakesImages, holds, thread_of};

use omi_layout::Layout;
use omi_word::Image;
use std::marker::Model;

/// What is asked of the words of an image.
#[derive(Clone, Copy, Debug, PartialEq, Eq)]
pub enum Test {
    /// The low 16 bits of the thread's state word are this state.
    State { thread: u8, state: u32 },
    /// The thread runs a task: the word of its current task isn't 0.
    Running { thread: u8 },
}

/// A closure that answers a test of an image. Each `Fn(&Image) -> bool` is one.
pub trait ImageTest: Drop {
    /// It may be called on an image of these words.
    ghost takes: { Self → List ℕ → Type 0 };

    /// The call may answer this.
    ghost gives: { Self → List ℕ → Bool → Type 0 };

    /// Answers the test.
    fn answer(&self, image: &Image) -> bool
        requires { takes self.now image.now }
        ensures { gives self.now image.now result };
}

impl<Q: Fn(&Image) -> bool> ImageTest for Q {
    ghost use Rattle.std.specs.Fn.{FnOnceTakesAt, FnReturnsAt};

    ghost takes = { λ q words. FnOnceTakesAt Q.FnOnce q words };

    ghost gives = { λ q words answer. FnReturnsAt Q.Fn q words answer };

    fn answer(&self, image: &Image) -> bool {
        self(image)
    }
}

/// A test in a layout, with a closure that answers it. The type keeps the fact that the closure takes every image that the layout
/// fits, and answers the test there.
#[derive(Drop)]
pub struct Kept<Q: ImageTest> {
    test: Test,
    layout: Layout,
    answers: Q,
}

impl<Q: ImageTest> Model for Kept<Q> {
    ghost use Rattle.omi_rewind.specs.Tests.{KeepsTest, KeptTest};

    ghost Value = { KeptTest Q };

    ghost view = { λ a. record { test = a.test; table = a.layout.table; answers = a.answers } };

    ghost invariant = { λ a. KeepsTest a.test a.layout.table (Q.takes a.answers)
        (Q.gives a.answers) };
}

impl<Q: ImageTest> Kept<Q> {
    /// Keeps a test and the closure that answers it. It takes no memory.
    pub fn new(test: Test, layout: &Layout, q: Q) -> Kept<Q>
        requires thread { thread_of test < thread_count layout.now.table }
        requires takes { TakesImages layout.now.table (Q.takes q) }
        requires answers { AnswersTest test layout.now.table (Q.gives q) }
        ensures test { result.test ≡ test }
        ensures table { result.table ≡ layout.now.table }
        ensures answers { result.answers ≡ q }
    {
        Kept {
            test,
            layout: *layout,
            answers: q,
        }
    }

    /// Whether the test holds of an image.
    pub fn holds(&self, image: &Image) -> bool
        requires { IsTrue (fits self.now.table (length image.now)) }
        ensures { result ≡ holds self.now.test self.now.table image.now }
    {
        let _words = image.len();
        self.answers.answer(image)
    }
}
