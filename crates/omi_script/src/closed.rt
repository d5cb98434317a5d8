//! The functions whose `end` was read, and what each of them reaches.
ghost use Rattle.std.specs.Prelude.{◌≡◌, ◌≤◌, ◌++◌, ◌∷◌, [], length, IfOk};
ghost use Rattle.std.specs.List.{list_any, position};
ghost use Rattle.omi_script.specs.ParserState.{is_called};
ghost use Rattle.omi_script.specs.Reach.{reaches};

use crate::limits::MAX_FUNCTIONS;
use crate::reach::{Reach, reach_of};
use crate::{Func, FuncList, OutOfMemory};
use std::alloc::Global;
use std::marker::Model;

/// The functions whose `end` was read, and what each reaches.
#[derive(Drop)]
pub struct Closed {
    funcs: FuncList,
    known: Vec<Reach>,
}

impl Model for Closed {
    ghost use Rattle.std.specs.Prelude.{◌≡◌, List, []};
    ghost use Rattle.omi_script.specs.declared.function.Func.{Func};
    ghost use Rattle.omi_script.specs.Reach.{reaches};

    ghost Value = { List Func };

    ghost view = { λ a. a.funcs };

    ghost invariant = { λ a. a.known.items ≡ reaches [] a.funcs };
}

impl Closed {
    pub fn new(alloc: Global) -> Closed
        ensures { result ≡ [] }
    {
        Closed {
            funcs: FuncList::new(alloc),
            known: Vec::new(alloc),
        }
    }

    pub fn len(&self) -> usize
        ensures { result ≡ length self.now }
    {
        self.funcs.len()
    }

    /// The index of the function with a name.
    fn index_of(&self, name: &[u8]) -> Option<usize>
        ensures { result ≡ position (is_called name.now) self.now }
    {
        self.funcs
            .as_slice()
            .iter()
            .position(|f| f.name.text() == name)
    }

    /// The number of the function with a name.
    #[tactic(auto, using(crate::proofs::NamingLemmas::position_within))]
    pub fn number_of(&self, name: &[u8]) -> Option<u8>
        requires { length self.now ≤ MAX_FUNCTIONS }
        ensures { result ≡ position (is_called name.now) self.now }
    {
        match self.index_of(name) {
            Some(f) => Some(f as u8),
            None => None,
        }
    }

    /// Whether a function has the name.
    pub fn has(&self, name: &[u8]) -> bool
        ensures { result ≡ list_any (is_called name.now) self.now }
    {
        self.funcs.as_slice().iter().any(|f| f.name.text() == name)
    }

    /// What each function reaches.
    pub fn reaches(&self) -> &[Reach]
        ensures { result.now ≡ reaches [] self.now }
    {
        &self.known
    }

    /// The functions with one more.
    #[tactic(auto, using(crate::proofs::ReachLemmas::known_more))]
    pub fn with(self, f: Func) -> Result<Closed, OutOfMemory>
        ensures { IfOk result (λ closed. closed ≡ self ++ f ∷ []) }
    {
        let reach = reach_of(&self.known, f.body.as_slice());
        let mut funcs = self.funcs;
        let mut known = self.known;
        known.push(reach)?;
        funcs.push(f)?;
        Ok(Closed { funcs, known })
    }

    /// The functions alone.
    pub fn into_funcs(self) -> FuncList
        ensures { result ≡ self }
    {
        self.funcs
    }
}
