//! Worked rows: a workload each, the events of a whole run of it, events that a rule forbids at a place in them, versions that
//! stay lawful, and lines of reports.

/// A workload, and the events of a whole run of it.
pub struct Row {
    pub script: &'static str,
    pub events: &'static str,
    /// Behind so many events one that a rule forbids there.
    pub forbidden: &'static [(usize, &'static str)],
    /// Versions that are legal.
    pub lawful: &'static [Version],
    /// Behind so many events a line of the report.
    pub reported: &'static [(usize, &'static str)],
}

/// A version of a row: so many events as they are, and then these lines in the place of others.
pub struct Version {
    /// How many events of the row stand before the lines.
    pub at: usize,
    /// How many events the lines replace. The row goes on behind them where the last line is lawful.
    pub instead: usize,
    pub lines: &'static str,
}

/// In place of any number of events.
pub const ALL: usize = 1000;

/// A list with a changed head.
pub const A_LIST_WITH_A_CHANGED_HEAD: Row = Row {
    script: "threads 1\nenv num_threads 4,2\nfunc main\nset_num_threads 3\nset_dynamic 1\nwork\nend\n",
    events: "t0 set nthreads-var 3; t0 set dyn-var 1; t0 work; t0 state wait_barrier_implicit_parallel 0; t0 arrive; \
        t0 release; t0 pass; t0 done",
    forbidden: &[
        // work too early
        (0, "t0 work"),
        // another value, and an event left out
        (0, "t0 set nthreads-var 4"),
        (0, "t0 set dyn-var 1"),
        // a barrier is passed, and the program done, before the release; an event twice
        (5, "t0 pass"),
        (5, "t0 done"),
        (5, "t0 arrive"),
    ],
    lawful: &[],
    reported: &[(
        8,
        "icv dyn-var=1 nthreads-var=3,2 run-sched-var=static,0 default-device-var=0 final-task-var=0 implicit-task-var=1",
    )],
};

/// Too few threads.
pub const TOO_FEW_THREADS: Row = Row {
    script: "threads 3\nfunc f\nwork\nend\nfunc main\nparallel f num 4\nend\n",
    events: "t0 enter; t1 begin; t2 begin; t0 state overhead 0; t1 offer; t2 offer; t0 want 4; t0 ask 1 got; \
        t0 ask 2 got; t0 fork r0.1.0 size 3 team k0.1.0@0 k0.2.0@1 k0.3.0@2; t0 state work_parallel 0; t0 work; \
        t0 state wait_barrier_implicit_parallel 0; t0 arrive; t1 implicit_begin k0.2.0; t1 state work_parallel 0; \
        t2 implicit_begin k0.3.0; t1 work; t2 state work_parallel 0; t1 state wait_barrier_implicit_parallel 0; \
        t2 work; t1 arrive; t2 state wait_barrier_implicit_parallel 0; t2 arrive; t0 release; t0 pass; t1 pass; \
        t1 implicit_end k0.2.0; t2 pass; t2 implicit_end k0.3.0; t1 state idle 0; t1 offer; t2 state idle 0; \
        t0 join r0.1.0; t0 free k0.1.0; t0 free k0.2.0; t0 free k0.3.0; t0 free r0.1.0; t2 offer; \
        t0 state work_serial 0; t0 leave; t0 state wait_barrier_implicit_parallel 0; t0 arrive; t0 release; t0 pass; \
        t0 done",
    forbidden: &[
        // a beginning twice, an offer before it, and a state too early
        (2, "t1 begin"),
        (1, "t1 offer"),
        (0, "t0 state overhead 0"),
        // another size than the clause, or none, says
        (6, "t0 want 1"),
        (6, "t0 want 3"),
        // threads are asked in rising order, and a free one joins
        (7, "t0 ask 2 got"),
        (7, "t0 ask 1 busy"),
        (7, "t0 fork r0.1.0 size 1 team k0.1.0@0"),
        // a thread is asked once, and the team is smaller than wanted while one was not asked
        (8, "t0 ask 1 got"),
        (8, "t0 fork r0.1.0 size 2 team k0.1.0@0 k0.2.0@1"),
        // a team without a thread that joined, in another order, with a task twice, with names that aren't fresh, and with another's names
        (9, "t0 fork r0.1.0 size 2 team k0.1.0@0 k0.2.0@1"),
        (9, "t0 fork r0.1.0 size 3 team k0.1.0@0 k0.2.0@2 k0.3.0@1"),
        (9, "t0 fork r0.1.0 size 3 team k0.1.0@0 k0.1.0@1 k0.3.0@2"),
        (9, "t0 fork r0.1.0 size 3 team k0.0.0@0 k0.2.0@1 k0.3.0@2"),
        (9, "t0 fork r0.0.1 size 3 team k0.1.0@0 k0.2.0@1 k0.3.0@2"),
        (9, "t0 fork r0.1.0 size 3 team k0.1.1@0 k0.2.0@1 k0.3.0@2"),
        (9, "t0 fork r1.1.0 size 3 team k0.1.0@0 k0.2.0@1 k0.3.0@2"),
        (9, "t0 fork r0.1.0 size 3 team k0.1.0@0 k1.2.0@1 k0.3.0@2"),
        // another's task begins, or one that doesn't live
        (14, "t1 implicit_begin k0.3.0"),
        (14, "t1 implicit_begin k0.2.1"),
        (14, "t0 implicit_begin k0.2.0"),
        // a task begins twice
        (16, "t2 implicit_begin k0.2.0"),
        (16, "t1 implicit_begin k0.2.0"),
        // a release before the last arrival
        (23, "t0 release"),
        // a release by another member, and a barrier passed before it
        (24, "t1 release"),
        (24, "t1 pass"),
        // a join before a member ended, and member 0 that doesn't join
        (29, "t0 join r0.1.0"),
        (29, "t0 implicit_end k0.1.0"),
        // a joined region that is passed over, before its last member's task is given back, and after it
        (34, "t0 state work_serial 0"),
        (36, "t0 state work_serial 0"),
        (36, "t0 free r0.1.0"),
        (37, "t0 state work_serial 0"),
    ],
    lawful: &[
        // events of two threads exchanged
        Version {
            at: 1,
            instead: 2,
            lines: "t2 begin; t1 begin",
        },
        // events of two threads exchanged
        Version {
            at: 26,
            instead: 3,
            lines: "t2 pass; t1 pass; t1 implicit_end k0.2.0",
        },
        // other free slots, in any order
        Version {
            at: 9,
            instead: ALL,
            lines: "t0 fork r0.7.0 size 3 team k0.9.0@0 k0.300.0@1 k0.8.0@2; t0 state work_parallel 0; \
            t1 implicit_begin k0.300.0",
        },
    ],
    reported: &[],
};

/// A contested worker.
pub const A_CONTESTED_WORKER: Row = Row {
    script: "threads 3\nfunc leaf\nwork\nend\nfunc mid\nparallel leaf num 2\nend\nfunc main\nparallel mid num 2\nend\n",
    events: "t1 begin; t1 offer; t2 begin; t2 offer; t0 enter; t0 state overhead 0; t0 want 2; t0 ask 1 got; \
        t0 fork r0.1.0 size 2 team k0.1.0@0 k0.2.0@1; t0 state work_parallel 0; t0 enter; t0 state overhead 0; \
        t0 want 2; t0 ask 1 busy; t0 ask 2 got; t1 implicit_begin k0.2.0; t1 state work_parallel 0; t1 enter; \
        t1 state overhead 0; t1 want 2; t1 ask 0 busy; t1 ask 2 busy; t1 fork r1.0.0 size 1 team k1.0.0@1; \
        t0 fork r0.2.0 size 2 team k0.3.0@0 k0.4.0@2; t1 state work_parallel 0; t0 state work_parallel 0; t1 work; \
        t0 work; t1 state wait_barrier_implicit_parallel 0; t0 state wait_barrier_implicit_parallel 0; t1 arrive; \
        t0 arrive; t2 implicit_begin k0.4.0; t2 state work_parallel 0; t2 work; t1 release; \
        t2 state wait_barrier_implicit_parallel 0; t1 pass; t2 arrive; t1 join r1.0.0; t1 free k1.0.0; \
        t1 free r1.0.0; t1 state work_parallel 0; t1 leave; t0 release; t1 state wait_barrier_implicit_parallel 0; \
        t0 pass; t1 arrive; t2 pass; t2 implicit_end k0.4.0; t2 state idle 0; t0 join r0.2.0; t0 free k0.3.0; \
        t0 free k0.4.0; t0 free r0.2.0; t2 offer; t0 state work_parallel 0; t0 leave; \
        t0 state wait_barrier_implicit_parallel 0; t0 arrive; t0 release; t0 pass; t1 pass; t1 implicit_end k0.2.0; \
        t1 state idle 0; t0 join r0.1.0; t0 free k0.1.0; t0 free k0.2.0; t0 free r0.1.0; t1 offer; \
        t0 state work_serial 0; t0 leave; t0 state wait_barrier_implicit_parallel 0; t0 arrive; t0 release; t0 pass; \
        t0 done",
    forbidden: &[
        // a worker that is asked twice
        (13, "t0 ask 1 got"),
        (13, "t0 ask 2 got"),
        (13, "t0 fork r0.2.0 size 1 team k0.3.0@0"),
        // another's records
        (22, "t1 fork r0.3.0 size 1 team k0.5.0@1"),
        (22, "t1 fork r1.0.0 size 2 team k1.0.0@1 k1.1.0@2"),
    ],
    lawful: &[],
    reported: &[],
};

/// Limit of active levels.
pub const LIMIT_OF_ACTIVE_LEVELS: Row = Row {
    script: "threads 2\nenv max_active_levels 1\nfunc leaf\nwork\nend\nfunc mid\nparallel leaf num 2\nend\nfunc main\nparallel mid num 2\nend\n",
    events: "t1 begin; t1 offer; t0 enter; t0 state overhead 0; t0 want 2; t0 ask 1 got; \
        t0 fork r0.1.0 size 2 team k0.1.0@0 k0.2.0@1; t0 state work_parallel 0; t0 enter; t0 state overhead 0; \
        t0 want 1; t0 fork r0.2.0 size 1 team k0.3.0@0; t0 state work_parallel 0; t0 work; \
        t0 state wait_barrier_implicit_parallel 0; t0 arrive; t1 implicit_begin k0.2.0; t1 state work_parallel 0; \
        t1 enter; t0 release; t1 state overhead 0; t0 pass; t0 join r0.2.0; t0 free k0.3.0; t0 free r0.2.0; \
        t0 state work_parallel 0; t0 leave; t0 state wait_barrier_implicit_parallel 0; t0 arrive; t1 want 1; \
        t1 fork r1.0.0 size 1 team k1.0.0@1; t1 state work_parallel 0; t1 work; \
        t1 state wait_barrier_implicit_parallel 0; t1 arrive; t1 release; t1 pass; t1 join r1.0.0; t1 free k1.0.0; \
        t1 free r1.0.0; t1 state work_parallel 0; t1 leave; t1 state wait_barrier_implicit_parallel 0; t1 arrive; \
        t0 release; t0 pass; t1 pass; t1 implicit_end k0.2.0; t1 state idle 0; t0 join r0.1.0; t0 free k0.1.0; \
        t0 free k0.2.0; t0 free r0.1.0; t1 offer; t0 state work_serial 0; t0 leave; \
        t0 state wait_barrier_implicit_parallel 0; t0 arrive; t0 release; t0 pass; t0 done",
    forbidden: &[
        // more threads than the limit of active levels allows
        (10, "t0 want 2"),
        // an ask for a team of one
        (11, "t0 ask 1 busy"),
        (11, "t0 ask 1 got"),
    ],
    lawful: &[],
    reported: &[(
        12,
        "region r0.2.0 function 0x400000 levels-var=2 active-levels-var=1 team-size-var=1 enclosing r0.1.0",
    )],
};

/// An ended ancestor.
pub const AN_ENDED_ANCESTOR: Row = Row {
    script: "threads 1\nfunc b\nwork\nend\nfunc a\ntask b\nend\nfunc main\ntask a\nend\n",
    events: "t0 enter; t0 defer k0.1.0; t0 leave; t0 state wait_barrier_implicit_parallel 0; t0 arrive; \
        t0 start k0.1.0; t0 state work_serial 0; t0 enter; t0 defer k0.2.0; t0 leave; t0 finish k0.1.0; \
        t0 state wait_barrier_implicit_parallel 0; t0 start k0.2.0; t0 state work_serial 0; t0 work; \
        t0 finish k0.2.0; t0 free k0.2.0; t0 free k0.1.0; t0 state wait_barrier_implicit_parallel 0; t0 release; \
        t0 pass; t0 done",
    forbidden: &[
        // a deferred task that starts at once, and an empty place that is seen taken
        (1, "t0 start_now k0.1.0"),
        (1, "t0 seen 0"),
        // a release while a task is unfinished, and a task that was not made
        (5, "t0 release"),
        (5, "t0 start k0.2.0"),
        // a task that works before the thread shows so, and one that another finishes
        (6, "t0 enter"),
        (6, "t0 finish k0.1.0"),
        // a finished task starts again
        (12, "t0 start k0.1.0"),
        (12, "t0 finish k0.2.0"),
        // a task with a live child is given back, and one before its child
        (11, "t0 free k0.1.0"),
        (16, "t0 free k0.1.0"),
        // a task twice, and the task of a region that is not joined
        (17, "t0 free k0.2.0"),
        (18, "t0 free k0.0.0"),
    ],
    lawful: &[
        // another free slot
        Version {
            at: 1,
            instead: ALL,
            lines: "t0 defer k0.4.0; t0 leave; t0 state wait_barrier_implicit_parallel 0; t0 arrive; t0 start k0.4.0; \
            t0 state work_serial 0; t0 enter",
        },
    ],
    reported: &[(
        13,
        "task k0.2.0 thread 0 kind explicit region r0.0.0 function 0x400000 generating k0.1.0 scheduling k0.0.0 \
        exit 0x7f00000fff80 enter 0x0 tool 0",
    )],
};

/// A full row of slots.
pub const A_FULL_ROW_OF_SLOTS: Row = Row {
    script: "threads 1\nfunc t\nwork\nend\nfunc main\ntask t\ntask t\ntask t\ntask t\ntask t\ntask t\ntask t\ntask t\nend\n",
    events: "t0 enter; t0 defer k0.1.0; t0 leave; t0 enter; t0 seen 0; t0 defer k0.2.0; t0 leave; t0 enter; \
        t0 seen 0; t0 seen 1; t0 defer k0.3.0; t0 leave; t0 enter; t0 seen 0; t0 seen 1; t0 seen 2; t0 defer k0.4.0; \
        t0 leave; t0 enter; t0 seen 0; t0 seen 1; t0 seen 2; t0 seen 3; t0 start_now k0.5.0; t0 work; \
        t0 finish k0.5.0; t0 free k0.5.0; t0 leave; t0 enter; t0 seen 0; t0 seen 1; t0 seen 2; t0 seen 3; \
        t0 start_now k0.6.0; t0 work; t0 finish k0.6.0; t0 free k0.6.0; t0 leave; t0 enter; t0 seen 0; t0 seen 1; \
        t0 seen 2; t0 seen 3; t0 start_now k0.7.0; t0 work; t0 finish k0.7.0; t0 free k0.7.0; t0 leave; t0 enter; \
        t0 seen 0; t0 seen 1; t0 seen 2; t0 seen 3; t0 start_now k0.8.0; t0 work; t0 finish k0.8.0; t0 free k0.8.0; \
        t0 leave; t0 state wait_barrier_implicit_parallel 0; t0 arrive; t0 start k0.1.0; t0 state work_serial 0; \
        t0 work; t0 finish k0.1.0; t0 free k0.1.0; t0 state wait_barrier_implicit_parallel 0; t0 start k0.2.0; \
        t0 state work_serial 0; t0 work; t0 finish k0.2.0; t0 free k0.2.0; \
        t0 state wait_barrier_implicit_parallel 0; t0 start k0.3.0; t0 state work_serial 0; t0 work; \
        t0 finish k0.3.0; t0 free k0.3.0; t0 state wait_barrier_implicit_parallel 0; t0 start k0.4.0; \
        t0 state work_serial 0; t0 work; t0 finish k0.4.0; t0 free k0.4.0; \
        t0 state wait_barrier_implicit_parallel 0; t0 release; t0 pass; t0 done",
    forbidden: &[
        // a place seen again, an empty one, and a name that lives
        (5, "t0 seen 0"),
        (5, "t0 seen 1"),
        (5, "t0 defer k0.1.0"),
        // a task that starts at once while a place was not looked at
        (22, "t0 start_now k0.5.0"),
        // a task deferred past the last place
        (23, "t0 defer k0.5.0"),
        (23, "t0 seen 4"),
        // the encountering task goes on before the new one finished
        (24, "t0 leave"),
        (24, "t0 finish k0.5.0"),
        // a release, and a finished task, in place of a deferred one
        (60, "t0 release"),
        (60, "t0 start k0.5.0"),
    ],
    lawful: &[
        // deferred tasks in another order
        Version {
            at: 60,
            instead: 24,
            lines: "t0 start k0.4.0; t0 state work_serial 0; t0 work; t0 finish k0.4.0; t0 free k0.4.0; \
            t0 state wait_barrier_implicit_parallel 0; t0 start k0.2.0; t0 state work_serial 0; t0 work; \
            t0 finish k0.2.0; t0 free k0.2.0; t0 state wait_barrier_implicit_parallel 0; t0 start k0.1.0; \
            t0 state work_serial 0; t0 work; t0 finish k0.1.0; t0 free k0.1.0; t0 state wait_barrier_implicit_parallel 0; \
            t0 start k0.3.0; t0 state work_serial 0; t0 work; t0 finish k0.3.0; t0 free k0.3.0; \
            t0 state wait_barrier_implicit_parallel 0",
        },
    ],
    reported: &[],
};

/// Nested chain.
pub const NESTED_CHAIN: Row = Row {
    script: "threads 2\nfunc leaf\nwork\nend\nfunc h\nparallel leaf num 1\nend\nfunc g\ntask h\nend\nfunc f\nonly 0 g\nend\nfunc main\nparallel f num 2\nend\n",
    events: "t1 begin; t1 offer; t0 enter; t0 state overhead 0; t0 want 2; t0 ask 1 got; \
        t0 fork r0.1.0 size 2 team k0.1.0@0 k0.2.0@1; t0 state work_parallel 0; t0 call 2; t0 enter; \
        t0 defer k0.3.0; t1 implicit_begin k0.2.0; t1 state work_parallel 0; t1 skip; \
        t1 state wait_barrier_implicit_parallel 0; t1 arrive; t1 start k0.3.0; t1 state work_parallel 0; t1 enter; \
        t1 state overhead 0; t1 want 1; t1 fork r1.0.0 size 1 team k1.0.0@1; t0 leave; t1 state work_parallel 0; \
        t0 ret; t1 work; t0 state wait_barrier_implicit_parallel 0; t1 state wait_barrier_implicit_parallel 0; \
        t0 arrive; t1 arrive; t1 release; t1 pass; t1 join r1.0.0; t1 free k1.0.0; t1 free r1.0.0; \
        t1 state work_parallel 0; t1 leave; t1 finish k0.3.0; t1 free k0.3.0; \
        t1 state wait_barrier_implicit_parallel 0; t0 release; t0 pass; t1 pass; t1 implicit_end k0.2.0; \
        t1 state idle 0; t0 join r0.1.0; t0 free k0.1.0; t0 free k0.2.0; t0 free r0.1.0; t1 offer; \
        t0 state work_serial 0; t0 leave; t0 state wait_barrier_implicit_parallel 0; t0 arrive; t0 release; t0 pass; \
        t0 done",
    forbidden: &[
        // a call that is not passed over by member 0
        (8, "t0 skip"),
        (8, "t0 call 1"),
        // another's record
        (10, "t0 defer k1.0.0"),
        // a call that is passed over by member 1
        (13, "t1 call 2"),
        // a barrier that is passed before its release
        (40, "t1 pass"),
        // a release while a finished task of another thread lives
        (38, "t0 release"),
        // a release while the task of another thread is unfinished
        (29, "t0 release"),
        (29, "t1 join r1.0.0"),
    ],
    lawful: &[
        // the task of member 0 runs on member 0
        Version {
            at: 16,
            instead: ALL,
            lines: "t0 leave",
        },
    ],
    reported: &[
        (
            22,
            "task k1.0.0 thread 1 kind implicit region r1.0.0 function 0x400000 generating k0.3.0 scheduling k0.3.0 \
        exit 0x7f00001fff40 enter 0x0 tool 0",
        ),
        (
            22,
            "task k0.3.0 thread 1 kind explicit region r0.1.0 function 0x400010 generating k0.1.0 scheduling k0.2.0 \
        exit 0x7f00001fff80 enter 0x7f00001fff60 tool 0",
        ),
        (
            22,
            "task k0.2.0 thread 1 kind implicit region r0.1.0 function 0x400030 generating k0.0.0 scheduling none \
        exit 0x7f00001fffc0 enter 0x0 tool 0",
        ),
    ],
};

/// Waits, a lock and the tool word.
pub const WAITS_AND_A_LOCK: Row = Row {
    script: "threads 1\nfunc w\nwork\nend\nfunc main\ntask w\ntaskwait\ntaskyield\ncritical 3 w\ntool 77\nend\n",
    events: "t0 enter; t0 defer k0.1.0; t0 leave; t0 enter; t0 state wait_taskwait 0; t0 start k0.1.0; \
        t0 state work_serial 0; t0 work; t0 finish k0.1.0; t0 free k0.1.0; t0 state wait_taskwait 0; t0 wait_done; \
        t0 state work_serial 0; t0 leave; t0 enter; t0 yield; t0 leave; t0 enter; t0 state wait_critical 4; \
        t0 lock 3; t0 state work_serial 0; t0 leave; t0 call 0; t0 work; t0 ret; t0 unlock 3; t0 tool 77; \
        t0 state wait_barrier_implicit_parallel 0; t0 arrive; t0 release; t0 pass; t0 done",
    forbidden: &[
        // the end of a wait before the child has finished, and a yield before its task entered
        (5, "t0 wait_done"),
        (14, "t0 yield"),
        // a lock too early, and another one
        (18, "t0 lock 3"),
        (19, "t0 lock 2"),
        // a return and a giving back too early, and another lock's
        (23, "t0 ret"),
        (24, "t0 unlock 3"),
        (25, "t0 unlock 2"),
        // a tool word too early, and another one
        (25, "t0 tool 77"),
        (26, "t0 tool 78"),
    ],
    lawful: &[],
    reported: &[],
};

/// A region that is given back, and another one in its place.
pub const A_FREED_REGION: Row = Row {
    script: "threads 2\nfunc f\nwork\nend\nfunc main\nparallel f num 2\nparallel f num 1\nend\n",
    events: "t0 enter; t1 begin; t0 state overhead 0; t1 offer; t0 want 2; t0 ask 1 got; \
        t0 fork r0.1.0 size 2 team k0.1.0@0 k0.2.0@1; t0 state work_parallel 0; t0 work; \
        t0 state wait_barrier_implicit_parallel 0; t0 arrive; t1 implicit_begin k0.2.0; t1 state work_parallel 0; \
        t1 work; t1 state wait_barrier_implicit_parallel 0; t1 arrive; t0 release; t0 pass; t1 pass; \
        t1 implicit_end k0.2.0; t1 state idle 0; t0 join r0.1.0; t0 free k0.1.0; t0 free k0.2.0; t0 free r0.1.0; \
        t1 offer; t0 state work_serial 0; t0 leave; t0 enter; t0 state overhead 0; t0 want 1; \
        t0 fork r0.1.1 size 1 team k0.1.1@0; t0 state work_parallel 0; t0 work; \
        t0 state wait_barrier_implicit_parallel 0; t0 arrive; t0 release; t0 pass; t0 join r0.1.1; t0 free k0.1.1; \
        t0 free r0.1.1; t0 state work_serial 0; t0 leave; t0 state wait_barrier_implicit_parallel 0; t0 arrive; \
        t0 release; t0 pass; t0 done",
    forbidden: &[
        // members whose region is not joined: one that runs, and one that has ended
        (21, "t0 free k0.1.0"),
        (21, "t0 free k0.2.0"),
        (21, "t0 free r0.1.0"),
        // another thread's
        (22, "t1 free k0.1.0"),
        // member 1 before member 0, and a task that is no member's
        (22, "t0 free k0.2.0"),
        (22, "t0 free k0.0.0"),
        // a region before its members, and before its last one
        (22, "t0 free r0.1.0"),
        (23, "t0 free r0.1.0"),
        // a member twice, another region, and a region twice
        (23, "t0 free k0.1.0"),
        (24, "t0 free r0.0.0"),
        (25, "t0 free r0.1.0"),
        // names of an earlier generation, and of a later one
        (31, "t0 fork r0.1.0 size 1 team k0.1.1@0"),
        (31, "t0 fork r0.1.1 size 1 team k0.1.0@0"),
        (31, "t0 fork r0.1.2 size 1 team k0.1.1@0"),
        // a region that is passed over
        (22, "t0 state work_serial 0"),
        (24, "t0 state work_serial 0"),
        (39, "t0 state work_serial 0"),
    ],
    lawful: &[
        // the second region has other names
        Version {
            at: 31,
            instead: ALL,
            lines: "t0 fork r0.2.0 size 1 team k0.3.0@0; t0 state work_parallel 0; t0 work",
        },
        // another thread goes on between two members
        Version {
            at: 23,
            instead: 3,
            lines: "t1 offer; t0 free k0.2.0; t0 free r0.1.0",
        },
    ],
    reported: &[(
        32,
        "task k0.1.1 thread 0 kind implicit region r0.1.1 function 0x400000 generating k0.0.0 scheduling k0.0.0 \
        exit 0x7f00000fff80 enter 0x0 tool 0",
    )],
};

/// A finished task that is passed over lives on, and the barrier of its region is not released.
pub const A_TASK_THAT_IS_LEFT: Row = Row {
    script: "threads 1\nfunc w\nwork\nend\nfunc f\ntask w if 0\nend\nfunc main\nparallel f num 1\nend\n",
    events: "t0 enter; t0 state overhead 0; t0 want 1; t0 fork r0.1.0 size 1 team k0.1.0@0; t0 state work_parallel 0; \
        t0 enter; t0 start_now k0.2.0; t0 work; t0 finish k0.2.0; t0 leave; \
        t0 state wait_barrier_implicit_parallel 0; t0 arrive",
    forbidden: &[
        // the generating task that goes on, and the one that was passed over
        (9, "t0 free k0.1.0"),
        (10, "t0 free k0.2.0"),
        (12, "t0 free k0.2.0"),
        // a release while it lives
        (12, "t0 release"),
        (12, "t0 pass"),
    ],
    lawful: &[
        // it is given back, and the run goes on to its end
        Version {
            at: 9,
            instead: ALL,
            lines: "t0 free k0.2.0; t0 leave; t0 state wait_barrier_implicit_parallel 0; t0 arrive; t0 release; t0 pass; \
                t0 join r0.1.0; t0 free k0.1.0; t0 free r0.1.0; t0 state work_serial 0; t0 leave; \
                t0 state wait_barrier_implicit_parallel 0; t0 arrive; t0 release; t0 pass; t0 done",
        },
    ],
    reported: &[],
};

/// A region in another one: both are given back.
pub const A_REGION_IN_ANOTHER: Row = Row {
    script: "threads 1\nfunc w\nwork\nend\nfunc g\nparallel w num 1\nend\nfunc main\nparallel g num 1\nend\n",
    events: "t0 enter; t0 state overhead 0; t0 want 1; t0 fork r0.1.0 size 1 team k0.1.0@0; t0 state work_parallel 0; \
        t0 enter; t0 state overhead 0; t0 want 1; t0 fork r0.2.0 size 1 team k0.2.0@0; t0 state work_parallel 0; \
        t0 work; t0 state wait_barrier_implicit_parallel 0; t0 arrive; t0 release; t0 pass; t0 join r0.2.0; \
        t0 free k0.2.0; t0 free r0.2.0; t0 state work_parallel 0; t0 leave; \
        t0 state wait_barrier_implicit_parallel 0; t0 arrive; t0 release; t0 pass; t0 join r0.1.0; t0 free k0.1.0; \
        t0 free r0.1.0; t0 state work_serial 0; t0 leave; t0 state wait_barrier_implicit_parallel 0; t0 arrive; \
        t0 release; t0 pass; t0 done",
    forbidden: &[
        // the region is passed over, or left behind its member's task
        (16, "t0 state work_parallel 0"),
        (16, "t0 free r0.2.0"),
        (17, "t0 state work_parallel 0"),
        // the enclosing region and its member
        (17, "t0 free k0.1.0"),
        (17, "t0 free r0.1.0"),
        (25, "t0 free r0.1.0"),
        // the inner region twice
        (25, "t0 free k0.2.0"),
        (26, "t0 free r0.2.0"),
    ],
    lawful: &[],
    reported: &[],
};

/// A group's descendants.
pub const A_GROUPS_DESCENDANTS: Row = Row {
    script: "threads 1\nfunc b\nwork\nend\nfunc a\ntask b\nend\nfunc g\ntask a\nend\nfunc main\ntaskgroup g\nend\n",
    events: "t0 group_begin; t0 call 2; t0 enter; t0 defer k0.1.0; t0 leave; t0 ret; t0 enter; \
        t0 state wait_taskgroup 0; t0 start k0.1.0; t0 state work_serial 0; t0 enter; t0 defer k0.2.0; t0 leave; \
        t0 finish k0.1.0; t0 state wait_taskgroup 0; t0 start k0.2.0; t0 state work_serial 0; t0 work; \
        t0 finish k0.2.0; t0 free k0.2.0; t0 free k0.1.0; t0 state wait_taskgroup 0; t0 group_end; \
        t0 state work_serial 0; t0 leave; t0 state wait_barrier_implicit_parallel 0; t0 arrive; t0 release; t0 pass; \
        t0 done",
    forbidden: &[
        // a call before the group, a group that ends at once, and one that begins twice
        (0, "t0 call 2"),
        (0, "t0 group_end"),
        (1, "t0 group_begin"),
        // a group that ends before its task, and before the task of its task
        (8, "t0 group_end"),
        (15, "t0 group_end"),
        // no taskwait is at its end
        (22, "t0 wait_done"),
        // a group that ends twice
        (23, "t0 group_end"),
    ],
    lawful: &[],
    reported: &[],
};

/// A group in a group, and a task that is generated before both.
pub const A_GROUP_IN_A_GROUP: Row = Row {
    script: "threads 1\nfunc b\nwork\nend\nfunc h\ntask b\nend\nfunc g\ntask b\ntaskgroup h\nend\nfunc main\ntask b\n\
        taskgroup g\nend\n",
    events: "t0 enter; t0 defer k0.1.0; t0 leave; t0 group_begin; t0 call 2; t0 enter; t0 seen 0; t0 defer k0.2.0; \
        t0 leave; t0 group_begin; t0 call 1; t0 enter; t0 seen 0; t0 seen 1; t0 defer k0.3.0; t0 leave; t0 ret; \
        t0 enter; t0 state wait_taskgroup 0; t0 start k0.3.0; t0 state work_serial 0; t0 work; t0 finish k0.3.0; \
        t0 free k0.3.0; t0 state wait_taskgroup 0; t0 group_end; t0 state work_serial 0; t0 leave; t0 ret; t0 enter; \
        t0 state wait_taskgroup 0; t0 start k0.2.0; t0 state work_serial 0; t0 work; t0 finish k0.2.0; \
        t0 free k0.2.0; t0 state wait_taskgroup 0; t0 group_end; t0 state work_serial 0; t0 leave; \
        t0 state wait_barrier_implicit_parallel 0; t0 arrive; t0 start k0.1.0; t0 state work_serial 0; t0 work; \
        t0 finish k0.1.0; t0 free k0.1.0; t0 state wait_barrier_implicit_parallel 0; t0 release; t0 pass; t0 done",
    forbidden: &[
        // at the inner end a child that is a member of the outer group, and one of none
        (19, "t0 start k0.2.0"),
        (19, "t0 start k0.1.0"),
        (19, "t0 group_end"),
        // at the outer end the child that is a member of none
        (31, "t0 start k0.1.0"),
        (31, "t0 group_end"),
        (37, "t0 start k0.1.0"),
    ],
    lawful: &[],
    reported: &[],
};
