//! The control stack: the function bodies that are open, seen as a list from the innermost one outwards.

ghost use Rattle.std.specs.Prelude.{◌≡◌, ◌<◌, ◌∷◌, [], length, IfOk};
ghost use Rattle.omi_pc.specs.Frames.{top_of, without_top, with_top};

use crate::limits::STACK_ROOM;
use crate::{Frame, OutOfMemory};
use std::alloc::Global;
use std::marker::Model;

/// The bodies that are open. Room for `STACK_ROOM` of them is taken at once, so that a push within it takes no memory.
#[derive(Drop)]
pub struct Stack {
    frames: Vec<Frame>,
}

impl Model for Stack {
    ghost use Rattle.std.specs.Prelude.{List, ◌≤◌, reverse, vec_capacity};
    ghost use Rattle.omi_pc.specs.declared.frame.Frame.{Frame};
    ghost use Rattle.omi_pc.specs.declared.limits.TheConstants.{STACK_ROOM};

    ghost Value = { List Frame };

    ghost view = { λ a. reverse a.frames.items };

    ghost invariant = { λ a. STACK_ROOM ≤ vec_capacity a.frames };
}

impl Stack {
    /// No open body, with the room of a whole stack.
    pub fn with_room(alloc: Global) -> Result<Stack, OutOfMemory>
        ensures { IfOk result (λ s. s ≡ []) }
    {
        let frames = Vec::with_capacity(alloc, STACK_ROOM)?;
        Ok(Stack { frames })
    }

    /// The number of bodies.
    pub fn len(&self) -> usize
        ensures { result ≡ length self.now }
    {
        self.frames.len()
    }

    /// The innermost body. None where none is open.
    pub fn top(&self) -> Option<Frame>
        ensures { result ≡ top_of self.now }
    {
        self.frames.last().copied()
    }

    /// Opens a body. Takes no memory.
    pub fn push(&mut self, f: Frame)
        requires { length self.old < STACK_ROOM }
        ensures { self.new ≡ f ∷ self.old }
    {
        self.frames.push_reserved(f);
    }

    /// Closes the innermost body. Does nothing where none is open.
    pub fn pop(&mut self)
        ensures { self.new ≡ without_top self.old }
    {
        let _ = self.frames.pop();
    }

    /// Puts a frame in the place of the innermost one. Does nothing where none is open.
    pub fn set_top(&mut self, f: Frame)
        ensures { self.new ≡ with_top f self.old }
    {
        if self.frames.pop().is_some() {
            self.frames.push_reserved(f);
        }
    }

    /// An equal stack, with the same room.
    pub fn same(&self, alloc: Global) -> Result<Stack, OutOfMemory>
        ensures { IfOk result (λ s. s ≡ self.now) }
    {
        let mut frames = Vec::with_capacity(alloc, STACK_ROOM)?;
        frames.extend_from_slice(&self.frames)?;
        Ok(Stack { frames })
    }
}
