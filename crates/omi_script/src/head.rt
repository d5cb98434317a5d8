//! The head lines of a script as far as they are read, and the head of its program.
ghost use Rattle.std.specs.Prelude.{◌≡◌, ◌∷◌, [], unwrap_or, IfOk};
ghost use Rattle.omi_script.specs.HeadLines.{has_number, stands_above, head_after};
ghost use Rattle.omi_script.specs.ParserState.{no_head};
ghost use Rattle.omi_script.specs.Grammar.{env_of, threads_of};

use crate::line::HeadLine;
use crate::{Env, NumList, OutOfMemory, Sched};
use omi_numbers::STATIC;
use std::alloc::Global;

/// What head lines say, each field by its own line.
#[derive(Drop)]
pub struct Head {
    pub threads: Option<u8>,
    pub nthreads: Option<NumList>,
    pub dynamic: Option<bool>,
    pub max_active: Option<u8>,
    pub sched: Option<Sched>,
    pub device: Option<u8>,
    pub debug: Option<bool>,
    pub procs: Option<u16>,
}

impl HeadLine {
    /// Whether the number of a head line lies in its range.
    pub fn has_number(&self) -> bool
        ensures { result ≡ has_number self.now }
    {
        match self {
            HeadLine::Threads(n) => n.is_some(),
            HeadLine::NumThreads(list) => list.is_some(),
            HeadLine::MaxActive(n) => n.is_some(),
            HeadLine::Schedule(sched) => sched.is_some(),
            HeadLine::Device(n) => n.is_some(),
            HeadLine::Procs(n) => n.is_some(),
            HeadLine::Dynamic(_) | HeadLine::Debug(_) => true,
        }
    }
}

impl Head {
    /// No head line.
    pub fn new() -> Head
        ensures { result ≡ no_head }
    {
        Head {
            threads: None,
            nthreads: None,
            dynamic: None,
            max_active: None,
            sched: None,
            device: None,
            debug: None,
            procs: None,
        }
    }

    /// Whether a line of the same kind stands above.
    pub fn has(&self, line: &HeadLine) -> bool
        ensures { result ≡ stands_above self.now line.now }
    {
        match line {
            HeadLine::Threads(_) => self.threads.is_some(),
            HeadLine::NumThreads(_) => self.nthreads.is_some(),
            HeadLine::Dynamic(_) => self.dynamic.is_some(),
            HeadLine::MaxActive(_) => self.max_active.is_some(),
            HeadLine::Schedule(_) => self.sched.is_some(),
            HeadLine::Device(_) => self.device.is_some(),
            HeadLine::Debug(_) => self.debug.is_some(),
            HeadLine::Procs(_) => self.procs.is_some(),
        }
    }

    /// The head with one more line. A number out of its range sets nothing.
    pub fn after(self, line: HeadLine) -> Head
        ensures { result ≡ head_after self line }
    {
        let mut head = self;
        match line {
            HeadLine::Threads(Some(n)) => head.threads = Some(n),
            HeadLine::NumThreads(Some(list)) => head.nthreads = Some(list),
            HeadLine::Dynamic(b) => head.dynamic = Some(b),
            HeadLine::MaxActive(Some(n)) => head.max_active = Some(n),
            HeadLine::Schedule(Some(sched)) => head.sched = Some(sched),
            HeadLine::Device(Some(n)) => head.device = Some(n),
            HeadLine::Debug(b) => head.debug = Some(b),
            HeadLine::Procs(Some(n)) => head.procs = Some(n),
            _ => (),
        }
        head
    }

    /// The number of threads.
    pub fn threads(&self) -> u8
        ensures { result ≡ threads_of self.now }
    {
        self.threads.unwrap_or(1)
    }

    /// The elements of nthreads-var.
    fn sizes(alloc: Global, threads: u8, given: Option<NumList>) -> Result<NumList, OutOfMemory>
        ensures { IfOk result (λ list. list ≡ unwrap_or given (threads ∷ [])) }
    {
        if let Some(list) = given {
            return Ok(list);
        }
        let mut list = NumList::new(alloc);
        list.push(u64::from(threads))?;
        Ok(list)
    }

    /// The head of a program.
    pub fn env(self, alloc: Global) -> Result<Env, OutOfMemory>
        ensures { IfOk result (λ env. env ≡ env_of self) }
    {
        let threads = self.threads();
        Ok(Env {
            nthreads: Head::sizes(alloc, threads, self.nthreads)?,
            dynamic: self.dynamic.unwrap_or(false),
            max_active: self.max_active.unwrap_or(8),
            sched: self.sched.unwrap_or(Sched {
                kind: STATIC,
                chunk: 0,
            }),
            device: self.device.unwrap_or(0),
            debug: self.debug.unwrap_or(true),
            procs: self.procs.unwrap_or(4),
        })
    }
}
