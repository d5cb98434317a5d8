//! A run that goes back and forward.

ghost use Rattle.std.specs.Prelude.{◌≡◌, ◌≤◌, ◌<◌, ◌+◌, ◌*◌, ◌⊎◌, ℕ, None, Some, IfOk, IfSome, OnOk, OnErr, IsTrue, length};
ghost use Rattle.omi_layout.specs.Place.{fits};
ghost use Rattle.omi_rep.specs.Suits.{Suits};
ghost use Rattle.omi_word.specs.Memory.{IsWordOf, address_of, words_after};
ghost use Rattle.omi_core.specs.Runs.{IsSameRun, spare_in};
ghost use Rattle.omi_core.specs.Schedules.{IsListed};
ghost use Rattle.omi_rewind.specs.Keeps.{commits_done};
ghost use Rattle.omi_rewind.specs.Answers.{HoldsNowhere, IsFirst, IsReached, IsSearched, IsWithin};
ghost use Rattle.omi_rewind.specs.Rewound.{IsLater, IsOpened, IsRewound, IsSame, ShowsReached, done_in, image_of, steps_in, words_at};
ghost use Rattle.omi_rewind.specs.declared.limits.TheConstants.{COPY_EVERY, LAST_STEP};

use crate::{COPY_EVERY, ImageTest, Kept, OutOfMemory};
use omi_core::{Core, Schedule, first_draw, next_draw, thread_at};
use omi_layout::Layout;
use omi_model::Event;
use omi_rep::Outcome;
use omi_run_lists::EventList;
use omi_script::Program;
use omi_word::{Image, Op};
use std::alloc::Global;
use std::marker::Model;

/// For so many steps room is taken at a time.
const PORTION: usize = 1024;

/// Where the image stands when it was to stand behind so many steps.
#[derive(Clone, Copy, Debug, PartialEq, Eq)]
pub enum At {
    /// Behind these steps.
    Here,
    /// Behind this earlier step, which committed `done`.
    Done(u64),
}

/// A run of a program in a layout that goes back and forward. It keeps the furthest run, with all of its steps, a copy of the words behind
/// every 65,536th step, and an image of the words that were reached last.
pub struct Rewind {
    core: Core,
    how: Schedule,
    /// The first one is of the opening words.
    copies: Vec<Image>,
    image: Image,
    /// The image stands behind so many steps.
    at: u64,
    /// What is drawn for the next step.
    draw: u64,
    /// The step that committed `done`.
    done: Option<u64>,
}

// Written out: docs/DECISIONS.md, "A drop written out".
impl Drop for Rewind {
    fn drop(self) {
        let Rewind {
            core: _core,
            how: _how,
            copies: _copies,
            image: _image,
            at: _at,
            draw: _draw,
            done: _done,
        } = self;
    }
}

impl Model for Rewind {
    ghost use Rattle.std.specs.Prelude.{[], length, slice_index_or};
    ghost use Rattle.omi_rewind.specs.Keeps.{KeepsRewind};
    ghost use Rattle.omi_rewind.specs.Rewound.{Rewound};

    ghost Value = { Rewound };

    ghost view = { λ a. record {
      run = a.core;
      how = a.how;
      first = slice_index_or a.copies.items 0 [];
      at = a.at;
      copies = length a.copies.items;
    } };

    ghost invariant = { λ a. KeepsRewind (record {
      run = a.core;
      how = a.how;
      first = slice_index_or a.copies.items 0 [];
      at = a.at;
      copies = length a.copies.items;
    }) a.copies.items a.image a.draw a.done };
}

/// Whether a step committed `done`.
fn is_done(outcome: &Outcome) -> bool
    ensures { result ≡ commits_done outcome.now }
{
    matches!(outcome, Outcome::Event(Event::Done))
}

impl Rewind {
    /// A rewind of a program in a layout that suits it, before its first step. The image is of the opening words.
    pub fn opening(
        alloc: Global,
        p: Program,
        l: Layout,
        how: Schedule,
    ) -> Result<Rewind, OutOfMemory>
        requires suits { Suits p l.table }
        requires named { IsListed how p.threads 0 }
        ensures { IfOk result (λ rewind. IsOpened p l.table how rewind) }
    {
        let core = Core::opening(alloc, p, l)?;
        let mut copies = Vec::new(alloc);
        copies.push(core.image().same(alloc)?)?;
        let image = core.image().same(alloc)?;
        let _made = core.made();
        let draw = first_draw(&how);
        Ok(Rewind {
            core,
            how,
            copies,
            image,
            at: 0,
            draw,
            done: None,
        })
    }

    /// The words that were reached last. They show the state that the events of the steps before them reach.
    pub fn image(&self) -> &Image
        ensures words { result.now ≡ image_of self.now }
        ensures shown { ShowsReached self.now self.now.at }
    {
        &self.image
    }

    /// The events of the furthest run: step, thread and event, in order.
    pub fn events(&self) -> &EventList
        ensures { result.now ≡ self.now.run.events }
    {
        self.core.events()
    }

    /// The number of steps of the furthest run. They are those of a run from the opening words on, by the schedule's threads, and behind
    /// each number of them the words show the state that the events so far reach.
    pub fn made(&self) -> u64
        ensures count { result ≡ steps_in self.now }
        ensures run { IsRewound self.now }
    {
        self.core.made().len() as u64
    }

    /// A copy of the furthest run, which may go on with another schedule. What it does leaves the rewind as it was.
    pub fn split(&self, alloc: Global) -> Result<Core, OutOfMemory>
        ensures { IfOk result (λ core. IsSameRun self.now.run core) }
    {
        self.core.same(alloc)
    }

    /// Keeps a copy of the furthest words, where so many steps were made since the last copy.
    fn keep_copy(&mut self, alloc: Global) -> Result<(), OutOfMemory>
        ensures same { IsSame self.old self.new }
        ensures copied { OnOk result (steps_in self.new < self.new.copies * COPY_EVERY) }
    {
        if self.core.steps() == COPY_EVERY * self.copies.len() as u64 {
            self.copies.push(self.core.image().same(alloc)?)?;
        }
        Ok(())
    }

    /// Makes room for a step.
    fn make_room(&mut self) -> Result<(), OutOfMemory>
        ensures same { IsSame self.old self.new }
        ensures copies { self.new.copies ≡ self.old.copies }
        ensures spare { OnOk result (1 ≤ spare_in self.new.run) }
    {
        if self.core.spare() == 0 {
            self.core.reserve(PORTION)?;
        }
        Ok(())
    }

    /// Makes the next step of the furthest run, for which there is room.
    fn make_step(&mut self)
        requires going { done_in self.old.run.events.items ≡ None }
        requires few { steps_in self.old < LAST_STEP }
        requires listed { IsListed self.old.how self.old.run.program.threads (steps_in self.old + 1) }
        requires spare { 1 ≤ spare_in self.old.run }
        requires copied { steps_in self.old < self.old.copies * COPY_EVERY }
        ensures later { IsLater self.old self.new }
        ensures one { steps_in self.new ≡ steps_in self.old + 1 }
        ensures at { self.new.at ≡ self.old.at }
    {
        let threads = self.core.threads();
        let thread = thread_at(&self.how, threads, self.core.steps(), self.draw);
        let entry = self.core.step(thread);
        let step = self.core.made().len() as u64;
        self.draw = next_draw(&self.how, threads, self.draw);
        if is_done(&entry.outcome) {
            self.done = Some(step);
        }
    }

    /// The step that committed `done`, which is the last one then.
    fn done(&self) -> Option<u64>
        ensures done { result ≡ done_in self.now.run.events.items }
        ensures last { IfSome result (λ d. d ≡ steps_in self.now) }
    {
        self.done
    }

    /// The words behind all steps.
    fn furthest(&self) -> &Image
        ensures { result.now ≡ words_at self.now (steps_in self.now) }
    {
        self.core.image()
    }

    /// The operation of the step behind so many steps.
    fn op_at(&self, made: u64) -> Op
        requires { made < steps_in self.now }
        ensures after { words_at self.now (made + 1) ≡ words_after (words_at self.now made) result }
        ensures inside { (n : ℕ) → IsWordOf (words_at self.now n) (address_of result) }
    {
        self.core.made().get(made as usize).op
    }

    /// A copy of the nearest words that are kept behind so many steps or before, and the number of steps before them.
    fn nearest(&self, alloc: Global, step: u64) -> Result<(u64, Image), OutOfMemory>
        requires { step ≤ steps_in self.now }
        ensures before { IfOk result (λ near. near.0 ≤ step) }
        ensures words { IfOk result (λ near. near.1 ≡ words_at self.now near.0) }
    {
        let copy = (step / COPY_EVERY).min(self.copies.len() as u64 - 1);
        let image = self.copies[copy as usize].same(alloc)?;
        Ok((COPY_EVERY * copy, image))
    }

    /// Puts an image of the words behind so many steps in the place of the image.
    fn put_image(&mut self, image: Image, at: u64)
        requires within { at ≤ steps_in self.old }
        requires words { image ≡ words_at self.old at }
        ensures { self.new ≡ record self.old { at = at } }
    {
        self.image = image;
        self.at = at;
    }

    /// One step more, where `done` wasn't committed.
    fn advance(&mut self, alloc: Global) -> Result<(), OutOfMemory>
        requires going { done_in self.old.run.events.items ≡ None }
        requires few { steps_in self.old < LAST_STEP }
        requires listed { IsListed self.old.how self.old.run.program.threads (steps_in self.old + 1) }
        ensures later { IsLater self.old self.new }
        ensures one { OnOk result (steps_in self.new ≡ steps_in self.old + 1) }
        ensures none { OnErr result (self.new.run.made.items ≡ self.old.run.made.items) }
        ensures at { self.new.at ≡ self.old.at }
    {
        self.keep_copy(alloc)?;
        self.make_room()?;
        self.make_step();
        Ok(())
    }

    /// Makes the steps that are missing up to this one, or up to the one that commits `done`.
    fn make_until(&mut self, alloc: Global, step: u64) -> Result<(), OutOfMemory>
        requires few { step ≤ LAST_STEP }
        requires listed { IsListed self.old.how self.old.run.program.threads step }
        ensures later { IsLater self.old self.new }
        ensures within { IsWithin self.old self.new step }
        ensures at { self.new.at ≡ self.old.at }
        ensures made { OnOk result (IsSearched self.new step) }
    {
        'more: while self.made() < step {
            if self.done().is_some() {
                return Ok(());
            }
            self.advance(alloc)?;
        }
        Ok(())
    }

    /// The words behind so many steps, by the nearest copy before them and the operations from there.
    fn words_at(&self, alloc: Global, step: u64) -> Result<Image, OutOfMemory>
        requires { step ≤ steps_in self.now }
        ensures { IfOk result (λ image. image ≡ words_at self.now step) }
    {
        let (before, mut image) = self.nearest(alloc, step)?;
        for made in before..step {
            image.apply(self.op_at(made));
        }
        Ok(image)
    }

    /// Puts the image behind so many steps, or behind the earlier one that committed `done`. The steps that are missing are made before.
    /// Where memory is wanting the image stays, and steps may have been made.
    pub fn to(&mut self, alloc: Global, step: u64) -> Result<At, OutOfMemory>
        requires few { step ≤ LAST_STEP }
        requires listed { IsListed self.old.how self.old.run.program.threads step }
        ensures later { IsLater self.old self.new }
        ensures within { IsWithin self.old self.new step }
        ensures reached { IfOk result (λ at. IsReached self.new step at) }
        ensures place { OnErr result (self.new.at ≡ self.old.at) }
        ensures image { OnErr result (image_of self.new ≡ image_of self.old) }
    {
        let _made = self.made();
        self.make_until(alloc, step)?;
        let (place, at) = match self.done() {
            Some(done) if done < step => (done, At::Done(done)),
            _ => (step, At::Here),
        };
        let image = self.words_at(alloc, place)?;
        self.put_image(image, place);
        Ok(at)
    }

    /// The first of the steps that were made, 0 to a last one, behind which a test holds.
    fn first_made<Q: ImageTest>(
        &self,
        alloc: Global,
        q: &Kept<Q>,
        last: u64,
    ) -> Result<Option<u64>, OutOfMemory>
        requires last { last ≤ steps_in self.now }
        requires fits { IsTrue (fits q.now.table (length (image_of self.now))) }
        ensures { IfOk result (IsFirst self.now q.now.test q.now.table last) }
    {
        let mut image = self.words_at(alloc, 0)?;
        for step in 0..last {
            if q.holds(&image) {
                return Ok(Some(step));
            }
            image.apply(self.op_at(step));
        }
        if q.holds(&image) {
            return Ok(Some(last));
        }
        Ok(None)
    }

    /// The first of the steps that are made now, up to a last one or to the one that commits `done`, behind which a test holds.
    fn first_new<Q: ImageTest>(
        &mut self,
        alloc: Global,
        q: &Kept<Q>,
        last: u64,
    ) -> Result<Option<u64>, OutOfMemory>
        requires few { last ≤ LAST_STEP }
        requires listed { IsListed self.old.how self.old.run.program.threads last }
        requires fits { IsTrue (fits q.now.table (length (image_of self.old))) }
        requires before { HoldsNowhere self.old q.now.test q.now.table (steps_in self.old + 1) }
        ensures later { IsLater self.old self.new }
        ensures within { IsWithin self.old self.new last }
        ensures at { self.new.at ≡ self.old.at }
        ensures first { IfOk result (IsFirst self.new q.now.test q.now.table last) }
    {
        'more: while self.made() < last {
            if self.done().is_some() {
                return Ok(None);
            }
            self.advance(alloc)?;
            if q.holds(self.furthest()) {
                return Ok(Some(self.made()));
            }
        }
        Ok(None)
    }

    /// The first step, 0 to a last one or to the one that commits `done`, behind which a test holds. None where there is none. The image
    /// stays.
    pub fn when<Q: ImageTest>(
        &mut self,
        alloc: Global,
        q: &Kept<Q>,
        upto: u64,
    ) -> Result<Option<u64>, OutOfMemory>
        requires few { upto ≤ LAST_STEP }
        requires listed { IsListed self.old.how self.old.run.program.threads upto }
        requires fits { IsTrue (fits q.now.table (length (image_of self.old))) }
        ensures later { IsLater self.old self.new }
        ensures within { IsWithin self.old self.new upto }
        ensures first { IfOk result (IsFirst self.new q.now.test q.now.table upto) }
        ensures place { self.new.at ≡ self.old.at }
        ensures image { image_of self.new ≡ image_of self.old }
    {
        let made = self.made();
        if upto <= made {
            return self.first_made(alloc, q, upto);
        }
        match self.first_made(alloc, q, made)? {
            Some(first) => Ok(Some(first)),
            None => self.first_new(alloc, q, upto),
        }
    }
}
