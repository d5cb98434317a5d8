//! Chains of regions and of tasks, along which no record comes twice.

ghost use Rattle.std.specs.Prelude.{◌≡◌, ◌-◌, ◌^◌, ◌<◌, ℕ, false, IfErr, OnErr, OnOk};
ghost use Rattle.std.specs.Prelude as prelude;
ghost use Rattle.std.specs.FinMap.{get};
ghost use Rattle.omi_ask.specs.Regions.{enclosing_region};
ghost use Rattle.omi_asktask.specs.Tasks.{generating_task, scheduling_task};
ghost use Rattle.omi_handle.specs.Ledger.{Ledger};
ghost use Rattle.omi_handle.specs.declared.handle.Held.{Held};
ghost use Rattle.omi_handle.specs.declared.handle.Kind.{Kind};
ghost use Rattle.omi_handle.specs.declared.handle.Kind.TheVariants.{Region, Task};
ghost use Rattle.omi_outside.specs.Outside.{HasCause};
ghost use Rattle.omi_session.specs.Made.{IsMade, Makes, StandsFor, region_pair, task_pair};
ghost use Rattle.omi_session.specs.declared.rc.Rc.{Rc};
ghost use Rattle.omi_session.specs.Opened.{Stays};
ghost use Rattle.omi.specs.Chains.{ComesBy, IsCallbackError, IsStepOf, IsStepTo, MakesStep, StaysBy, StepAsks, StepComesBy, Steps, as_step, came_by};

use crate::way::{Enclosing, Generating, Scheduling, Way, handle_at, pair_made};
use omi_calls::{Callbacks, ToHost};
use omi_handle::{RegionHandle, TaskHandle};
use omi_session::{Rc, Session};
use std::alloc::Global;
use std::collections::BTreeSet;
use thiserror::Error;

/// The records by which a chain of regions or of tasks came so far. A refused step counts as one: it may be tried again, as it comes by
/// the same record.
#[derive(Drop)]
pub struct Chain {
    records: BTreeSet<u64>,
}

/// Why a chain doesn't go on.
#[derive(Clone, Copy, Debug, PartialEq, Eq, Error)]
pub enum ChainError {
    /// The chain came by the record at this byte address before.
    #[error("a chain comes to the record at {addr:#x} a second time")]
    Cycle { addr: u64 },
    /// The inquiry for the next object was refused.
    #[error("{0}")]
    Refused(Rc),
}

impl Chain {
    /// A chain that came by no record yet.
    pub fn new(alloc: Global) -> Chain
        ensures { (address : ℕ) → came_by result address ≡ false }
    {
        Chain {
            records: BTreeSet::new(alloc),
        }
    }

    /// Adds the record of a handle's object.
    fn add<C: Callbacks, F: ToHost>(
        &mut self,
        s: &Session<C, F>,
        pair: (u64, u64),
    ) -> Result<(), ChainError>
        ensures added { OnOk result (ComesBy self.old self.new (get s.now.handles.held pair)) }
        ensures kept { OnErr result (StaysBy self.old self.new) }
        ensures memory { IfErr result (λ e. e ≡ ChainError.Refused Rc.NoMem) }
    {
        let Some(held) = s.find(pair.0, pair.1) else {
            return Ok(());
        };
        match self.records.insert(held.addr) {
            Ok(_) => Ok(()),
            Err(_) => Err(ChainError::Refused(Rc::NoMem)),
        }
    }

    /// What a step along the chain makes of a new handle of the next object, by whose record it may have come before.
    fn judged<C: Callbacks, F: ToHost>(
        &self,
        s: &mut Session<C, F>,
        made: Result<(u64, u64), Rc>,
    ) -> Result<Option<(u64, u64)>, ChainError>
        ensures answer { (answer : prelude.Result Held Rc) → IsMade s.old.handles made answer
            → IsStepTo (came_by self.now) s.new.handles result answer }
        ensures step { (found : prelude.Result Held Rc) → StandsFor s.old.handles made found
            → IsStepOf (came_by self.now) s.new.handles result found }
        ensures handles { (kind : Kind) (before : Ledger) → Makes kind before s.old.handles made
            → MakesStep kind before s.new.handles result }
        ensures layout { s.new.layout ≡ s.old.layout }
        ensures table { s.new.table ≡ s.old.table }
        ensures cause { IsCallbackError result → made ≡ prelude.Err Rc.CallbackError }
    {
        let pair = match made {
            Ok(pair) => pair,
            Err(Rc::Unavailable) => return Ok(None),
            Err(rc) => return Err(ChainError::Refused(rc)),
        };
        match s.find(pair.0, pair.1) {
            Some(held) if self.records.contains(&held.addr) => {
                s.release(pair.0, pair.1);
                Err(ChainError::Cycle { addr: held.addr })
            }
            _ => Ok(Some(pair)),
        }
    }

    /// A step along a way. The chain comes by the object that is handed in.
    fn step<C: Callbacks, F: ToHost, W: Way>(
        &mut self,
        s: &mut Session<C, F>,
        handle: W::Handle,
    ) -> Result<Option<W::Handle>, ChainError>
        requires { s.old.handles.made < 2 ^ 64 - 1 }
        ensures answer { Steps (C.told s.old.table.calls) (came_by self.new) s.new.handles
            (as_step W.pair result)
            (W.reads s.old.layout (get s.old.handles.held (W.pair handle))) }
        ensures reads { StepAsks C.told C.asked (came_by self.new) s.old s.new
            (as_step W.pair result)
            (W.reads s.old.layout (get s.old.handles.held (W.pair handle))) }
        ensures records { StepComesBy self.old self.new (get s.old.handles.held (W.pair handle))
            result }
        ensures handles { MakesStep W.kind s.old.handles s.new.handles (as_step W.pair result) }
        ensures stays { Stays C.told s.old s.new }
        ensures cause { HasCause (C.faults s.old.table.calls) (C.faults s.new.table.calls)
            (IsCallbackError result) }
    {
        self.add(s, W::pair_of(handle))?;
        let made = pair_made::<W>(W::next(s, handle));
        let next = self.judged(s, made)?;
        Ok(handle_at::<W>(next))
    }

    /// The region that encloses one, where there is one. The chain comes by the region that is handed in.
    pub fn enclosing<C: Callbacks, F: ToHost>(
        &mut self,
        s: &mut Session<C, F>,
        r: RegionHandle,
    ) -> Result<Option<RegionHandle>, ChainError>
        requires { s.old.handles.made < 2 ^ 64 - 1 }
        ensures answer { Steps (C.told s.old.table.calls) (came_by self.new) s.new.handles
            (as_step region_pair result)
            (enclosing_region s.old.layout (get s.old.handles.held (region_pair r))) }
        ensures reads { StepAsks C.told C.asked (came_by self.new) s.old s.new
            (as_step region_pair result)
            (enclosing_region s.old.layout (get s.old.handles.held (region_pair r))) }
        ensures records { StepComesBy self.old self.new (get s.old.handles.held (region_pair r))
            result }
        ensures handles { MakesStep Region s.old.handles s.new.handles (as_step region_pair result) }
        ensures stays { Stays C.told s.old s.new }
        ensures cause { HasCause (C.faults s.old.table.calls) (C.faults s.new.table.calls)
            (IsCallbackError result) }
    {
        self.step::<C, F, Enclosing>(s, r)
    }

    /// The task that was left for one on its thread, where there is one. The chain comes by the task that is handed in.
    pub fn scheduling<C: Callbacks, F: ToHost>(
        &mut self,
        s: &mut Session<C, F>,
        k: TaskHandle,
    ) -> Result<Option<TaskHandle>, ChainError>
        requires { s.old.handles.made < 2 ^ 64 - 1 }
        ensures answer { Steps (C.told s.old.table.calls) (came_by self.new) s.new.handles
            (as_step task_pair result)
            (scheduling_task s.old.layout (get s.old.handles.held (task_pair k))) }
        ensures reads { StepAsks C.told C.asked (came_by self.new) s.old s.new
            (as_step task_pair result)
            (scheduling_task s.old.layout (get s.old.handles.held (task_pair k))) }
        ensures records { StepComesBy self.old self.new (get s.old.handles.held (task_pair k))
            result }
        ensures handles { MakesStep Task s.old.handles s.new.handles (as_step task_pair result) }
        ensures stays { Stays C.told s.old s.new }
        ensures cause { HasCause (C.faults s.old.table.calls) (C.faults s.new.table.calls)
            (IsCallbackError result) }
    {
        self.step::<C, F, Scheduling>(s, k)
    }

    /// The task that made one, where there is one. The chain comes by the task that is handed in.
    pub fn generating<C: Callbacks, F: ToHost>(
        &mut self,
        s: &mut Session<C, F>,
        k: TaskHandle,
    ) -> Result<Option<TaskHandle>, ChainError>
        requires { s.old.handles.made < 2 ^ 64 - 1 }
        ensures answer { Steps (C.told s.old.table.calls) (came_by self.new) s.new.handles
            (as_step task_pair result)
            (generating_task s.old.layout (get s.old.handles.held (task_pair k))) }
        ensures reads { StepAsks C.told C.asked (came_by self.new) s.old s.new
            (as_step task_pair result)
            (generating_task s.old.layout (get s.old.handles.held (task_pair k))) }
        ensures records { StepComesBy self.old self.new (get s.old.handles.held (task_pair k))
            result }
        ensures handles { MakesStep Task s.old.handles s.new.handles (as_step task_pair result) }
        ensures stays { Stays C.told s.old s.new }
        ensures cause { HasCause (C.faults s.old.table.calls) (C.faults s.new.table.calls)
            (IsCallbackError result) }
    {
        self.step::<C, F, Generating>(s, k)
    }
}
