//! Workloads that take records again, each with how many records of regions and of tasks a thread has where these are few: two or three of tasks where
//! nothing is deferred, and six to eight else. With these no thread looks for a free record for ever.

/// A workload, with its few records of regions and of tasks for each thread.
pub type Workload = (&'static str, u64, u64);

/// Tasks that start at once, of a member of a team.
pub const TASKS_AT_ONCE: [Workload; 4] = [
    // One after another.
    (
        "threads 2\nfunc w\nwork\nend\nfunc t\ntask w if 0\ntask w if 0\nend\nfunc b\nonly 1 t\nend\nfunc main\nparallel b num 2\nend\n",
        2,
        3,
    ),
    // Tasks of tasks, without states.
    (
        "threads 2\nenv debug disabled\nfunc w\nwork\nend\nfunc u\ntask w if 0\nwork\ntask w if 0\nend\nfunc t\ntask u if 0\ntask u if 0 final 1\nend\nfunc b\nonly 1 t\nend\nfunc main\nparallel b num 2\nend\n",
        2,
        3,
    ),
    // A final task, whose tasks start at once, and are final too.
    (
        "threads 2\nfunc w\nwork\nend\nfunc u\ntask w\ntask w final 1\ntaskwait\ntaskyield\nend\nfunc t\ntask u if 0 final 1\nend\nfunc b\nonly 1 t\nend\nfunc main\nparallel b num 2\nend\n",
        2,
        3,
    ),
    // Between barriers.
    (
        "threads 2\nfunc w\nwork\nend\nfunc t\ntask w if 0\nend\nfunc b\nonly 1 t\nbarrier\nonly 1 t\nbarrier\nonly 1 t\nend\nfunc main\nparallel b num 2\nend\n",
        2,
        3,
    ),
];

/// Teams, one after another, without tasks that are deferred.
pub const TEAMS_AGAIN: [Workload; 5] = [
    // Of the same size.
    (
        "threads 2\nfunc w\nwork\nend\nfunc p\nparallel w num 2\nend\nfunc main\nrepeat 3 p\nend\n",
        2,
        3,
    ),
    // Of another size in the same record.
    (
        "threads 2\nfunc w\nwork\nend\nfunc main\nparallel w num 2\nparallel w num 1\nparallel w num 2\nend\n",
        2,
        3,
    ),
    // Of a member alone.
    (
        "threads 2\nfunc w\nwork\nend\nfunc q\nparallel w num 1\nend\nfunc b\nonly 1 q\nonly 1 q\nonly 1 q\nend\nfunc main\nparallel b num 2\nend\n",
        2,
        3,
    ),
    // Of one thread, at the limit of active levels, beside a worker that nobody takes.
    (
        "threads 2\nenv max_active_levels 0\nfunc w\nwork\nend\nfunc p\nparallel w num 2\nend\nfunc main\nrepeat 3 p\nend\n",
        2,
        2,
    ),
    // With a task in front of each, whose record a member's task takes.
    (
        "threads 2\nfunc w\nwork\nend\nfunc p\ntask w if 0\nparallel w num 2\nend\nfunc main\nrepeat 2 p\nend\n",
        2,
        3,
    ),
];

/// Locks, and variables that differ between the tasks and teams of one record.
pub const LOCKS_AND_SETTINGS: [Workload; 5] = [
    // Tasks that hold a lock, and one in a critical region, beside a member that waits for the lock.
    (
        "threads 2\nfunc w\nwork\nend\nfunc k\ncritical 1 w\nend\nfunc t\ntask k if 0\ntask k if 0\nend\nfunc u\ntask w if 0\nend\nfunc v\ncritical 1 u\nend\nfunc b\ncritical 1 w\nonly 1 t\nonly 1 v\nend\nfunc main\nparallel b num 2\nend\n",
        2,
        3,
    ),
    // Teams without states, with a lock, calls and a barrier.
    (
        "threads 2\nenv debug disabled\nfunc w\nwork\nend\nfunc c\nrepeat 2 w\nend\nfunc b\nonly 0 c\ncritical 2 w\nbarrier\nonly 1 w\nend\nfunc p\nparallel b num 2\nend\nfunc main\nrepeat 2 p\nend\n",
        2,
        3,
    ),
    // Tasks of one whose variables change between them.
    (
        "threads 2\nenv num_threads 2,4,3\nfunc w\nset_dynamic 0\nend\nfunc t\nset_default_device 5\ntask w if 0\nset_schedule dynamic 9\nset_dynamic 1\ntask w if 0\nset_num_threads 7\ntask w if 0\nend\nfunc b\nonly 1 t\nend\nfunc main\nset_schedule guided 3\nparallel b\nend\n",
        2,
        3,
    ),
    // The same of tasks that are deferred, while a tool stores words.
    (
        "threads 2\nenv schedule dynamic,3\nfunc w\nset_num_threads 2\ntool 8\nend\nfunc t\nset_num_threads 3\ntask w\nset_schedule static 4\ntask w\nset_default_device 9\nset_dynamic 1\ntask w\ntaskwait\nend\nfunc b\nonly 0 t\nbarrier\ntask w\nend\nfunc main\nparallel b num 2\nend\n",
        2,
        7,
    ),
    // Teams with other variables each, by lists of sizes of another length.
    (
        "threads 2\nenv num_threads 2,1\nfunc w\nset_dynamic 0\nend\nfunc b\nset_default_device 6\nonly 1 w\nend\nfunc main\nset_dynamic 1\nparallel b\nset_schedule guided 7\nset_default_device 3\nparallel w num 1\nset_num_threads 5\nset_dynamic 0\nparallel b\nend\n",
        2,
        3,
    ),
];

/// Teams that members of teams make, without tasks that are deferred.
pub const TEAMS_IN_TEAMS_AGAIN: [Workload; 4] = [
    // Each of a task that starts at once.
    (
        "threads 2\nfunc w\nwork\nend\nfunc c\nparallel w num 1\nend\nfunc t\ntask c if 0\ntask c if 0\nend\nfunc b\nonly 1 t\nend\nfunc main\nparallel b num 2\nend\n",
        2,
        3,
    ),
    // Of a member and a thread that is in no other team.
    (
        "threads 3\nfunc w\nwork\nend\nfunc q\nparallel w num 2\nend\nfunc b\nonly 1 q\nonly 1 q\nend\nfunc main\nparallel b num 2\nend\n",
        2,
        3,
    ),
    // Of a member of a team that a member of a team made.
    (
        "threads 4\nfunc w\nwork\nend\nfunc d\nparallel w num 1\nend\nfunc c\nonly 1 d\nonly 1 d\nend\nfunc q\nparallel c num 2\nend\nfunc b\nonly 1 q\nend\nfunc main\nparallel b num 2\nend\n",
        2,
        3,
    ),
    // Of one thread, below teams at the limit of active levels.
    (
        "threads 3\nenv max_active_levels 1\nfunc w\nwork\nend\nfunc q\nparallel w num 3\nend\nfunc b\nonly 1 q\nonly 1 q\nend\nfunc main\nparallel b num 2\nend\n",
        2,
        3,
    ),
];

/// Tasks that are deferred, and waits for them.
pub const TASKS_AND_WAITS: [Workload; 4] = [
    // A member makes more tasks than it has slots and records.
    (
        "threads 2\nfunc w\nwork\nend\nfunc t\ntask w\ntask w\ntask w\ntask w\ntask w\ntask w\ntask w\ntask w\nend\nfunc b\nonly 1 t\nend\nfunc main\nparallel b num 2\nend\n",
        2,
        6,
    ),
    // A member makes tasks and runs some itself, without states.
    (
        "threads 2\nenv debug disabled\nfunc w\nwork\nend\nfunc t\ntask w if 0\ntask w\ntaskyield\ntask w\ntaskwait\ntask w\nend\nfunc b\nonly 1 t\nend\nfunc main\nparallel b num 2\nend\n",
        2,
        6,
    ),
    // Each member waits for tasks of its own.
    (
        "threads 2\nfunc w\nwork\nend\nfunc t\ntask w\ntaskwait\nend\nfunc b\ncall t\nbarrier\ncall t\nend\nfunc main\nparallel b num 2\nend\n",
        2,
        6,
    ),
    // Tasks of the initial region, in front of a team and behind it.
    (
        "threads 2\nfunc w\nwork\nend\nfunc t\ntask w\ntask w\ntaskwait\nend\nfunc b\ntask w\nend\nfunc main\ncall t\nparallel b num 2\ncall t\nend\n",
        2,
        6,
    ),
];

/// The same in teams of three and four threads.
pub const TASKS_OF_LARGER_TEAMS: [Workload; 4] = [
    // On both sides of a barrier.
    (
        "threads 3\nfunc w\nwork\nend\nfunc b\ntask w\nbarrier\ntask w\nend\nfunc main\nparallel b num 3\nend\n",
        2,
        8,
    ),
    // A member yields to a task of its own, or another one runs it.
    (
        "threads 4\nfunc w\nwork\nend\nfunc t\ntask w\ntaskyield\nend\nfunc b\nonly 3 t\nbarrier\nonly 3 t\nend\nfunc main\nparallel b num 4\nend\n",
        2,
        8,
    ),
    // Tasks that hold a lock.
    (
        "threads 3\nfunc w\nwork\nend\nfunc k\ncritical 3 w\nend\nfunc t\ntask k\ntask k\nend\nfunc b\ncritical 3 w\nonly 1 t\nbarrier\nonly 1 t\nend\nfunc main\nparallel b num 3\nend\n",
        2,
        8,
    ),
    // Tasks that depend on the member that runs them, and repeat their work.
    (
        "threads 3\nfunc w\nwork\nend\nfunc r\nrepeat 2 w\ntask w\nend\nfunc g\nonly 1 r\nonly 2 w\nend\nfunc t\ntask g\ntask g\nend\nfunc b\nonly 1 t\nbarrier\nonly 1 t\nend\nfunc main\nparallel b num 3\nend\n",
        2,
        8,
    ),
];

/// Tasks of tasks: one that finishes before its children keeps its record until these are given back.
pub const CHAINS_OF_TASKS: [Workload; 5] = [
    // Three that have finished, each with a child.
    (
        "threads 2\nfunc w\nwork\nend\nfunc a\ntask w\nend\nfunc t\ntask a if 0\ntask a if 0\ntask a if 0\nend\nfunc b\nonly 1 t\nbarrier\nonly 1 a\nend\nfunc main\nparallel b num 2\nend\n",
        2,
        6,
    ),
    // A chain of three above one that is deferred, and one of two.
    (
        "threads 2\nfunc w\nwork\nend\nfunc a\ntask w\nend\nfunc c\ntask a if 0\nend\nfunc d\ntask c if 0\nend\nfunc t\ntask d if 0\ntask c\nend\nfunc b\nonly 1 t\nbarrier\nonly 1 c\nend\nfunc main\nparallel b num 2\nend\n",
        2,
        8,
    ),
    // A chain of tasks that are all deferred, without states.
    (
        "threads 2\nenv debug disabled\nfunc w\nwork\nend\nfunc a\ntask w\nend\nfunc c\ntask a\nend\nfunc t\ntask c\nend\nfunc b\nonly 1 t\nbarrier\nonly 1 t\nend\nfunc main\nparallel b num 2\nend\n",
        2,
        8,
    ),
    // Tasks that wait for their own, of both members.
    (
        "threads 2\nfunc w\nwork\nend\nfunc a\ntask w\ntaskwait\nend\nfunc b\ntask a\nbarrier\ntask a\nend\nfunc main\nparallel b num 2\nend\n",
        2,
        8,
    ),
    // Final tasks and others of the same function.
    (
        "threads 2\nfunc w\nwork\nend\nfunc u\ntask w\ntask w if 0\nend\nfunc t\ntask u final 1\ntask u\ntask u if 0 final 1\nend\nfunc b\nonly 1 t\nbarrier\nonly 1 u\nend\nfunc main\nparallel b num 2\nend\n",
        2,
        8,
    ),
];

/// Teams, one after another, whose members defer tasks.
pub const TEAMS_WITH_TASKS_AGAIN: [Workload; 4] = [
    // With a lock; a member makes tasks.
    (
        "threads 2\nfunc w\nwork\nend\nfunc t\ntask w if 0\ntask w\nend\nfunc b\ncritical 1 w\nonly 1 t\nend\nfunc p\nparallel b num 2\nend\nfunc main\nrepeat 2 p\nend\n",
        2,
        6,
    ),
    // Without states, with tasks on both sides of a barrier.
    (
        "threads 2\nenv debug disabled\nfunc w\nwork\nend\nfunc b\ntask w\nbarrier\ntask w if 0\nend\nfunc p\nparallel b num 2\nend\nfunc main\nrepeat 2 p\nend\n",
        2,
        8,
    ),
    // Of four threads, and of two in the same record.
    (
        "threads 4\nfunc w\nwork\nend\nfunc b\ntask w\nend\nfunc main\nparallel b num 4\nparallel b num 2\nend\n",
        2,
        8,
    ),
    // By a list of sizes, with tasks in front of each that are waited for behind it.
    (
        "threads 3\nenv num_threads 3,2\nfunc w\nwork\nend\nfunc b\nonly 1 w\ntask w\nend\nfunc main\ntask w\nparallel b\nset_num_threads 2\ntask w\nparallel b\ntaskwait\nend\n",
        2,
        8,
    ),
];

/// Teams in teams whose members defer tasks, and tasks that make teams.
pub const TEAMS_AND_TASKS_IN_TEAMS: [Workload; 4] = [
    // Members of inner teams defer tasks.
    (
        "threads 3\nfunc w\nwork\nend\nfunc i\ntask w\nend\nfunc q\nparallel i num 2\nend\nfunc b\ntask w\nonly 1 q\nonly 1 q\nend\nfunc main\nparallel b num 2\nend\n",
        2,
        7,
    ),
    // Tasks make teams, in turn with tasks that make none.
    (
        "threads 3\nfunc w\nwork\nend\nfunc c\nparallel w num 2\nend\nfunc t\ntask c\ntask w\ntaskwait\nend\nfunc b\nonly 0 t\nbarrier\nonly 0 t\nend\nfunc main\nparallel b num 2\nend\n",
        3,
        8,
    ),
    // The limit of active levels is changed between the teams that tasks make.
    (
        "threads 3\nenv max_active_levels 1\nfunc w\nwork\nend\nfunc c\nparallel w num 2\nend\nfunc s\nset_max_active_levels 2\nend\nfunc t\ntask c\ntask s if 0\ntask c\nend\nfunc b\nonly 1 t\nbarrier\ntask w\nend\nfunc main\nparallel b num 2\nend\n",
        3,
        8,
    ),
    // Of a member alone, which waits for its tasks.
    (
        "threads 2\nfunc w\nwork\nend\nfunc t\ntask w\ntask w\ntaskwait\nend\nfunc q\nparallel t num 1\nend\nfunc b\nonly 1 q\nonly 1 q\nend\nfunc main\nparallel b num 2\nend\n",
        2,
        6,
    ),
];

/// Task groups of a member, one after another.
pub const GROUPS_AGAIN: [Workload; 5] = [
    // Of a task that is deferred and one that starts at once.
    (
        "threads 2\nfunc w\nwork\nend\nfunc g\ntask w\ntask w if 0\nend\nfunc t\ntaskgroup g\ntaskgroup g\nend\nfunc b\nonly 1 t\nend\nfunc main\nparallel b num 2\nend\n",
        2,
        6,
    ),
    // Of a task that makes a task.
    (
        "threads 2\nfunc w\nwork\nend\nfunc u\ntask w\nend\nfunc g\ntask u\nend\nfunc t\ntaskgroup g\nend\nfunc b\nonly 0 t\nonly 0 t\nonly 0 t\nend\nfunc main\nparallel b num 2\nend\n",
        2,
        6,
    ),
    // In one another, without states.
    (
        "threads 2\nenv debug disabled\nfunc w\nwork\nend\nfunc h\ntask w\nend\nfunc g\ntask w\ntaskgroup h\ntask w\nend\nfunc s\ntaskgroup g\nend\nfunc t\nrepeat 2 s\nend\nfunc b\nonly 1 t\nend\nfunc main\nparallel b num 2\nend\n",
        2,
        8,
    ),
    // Of tasks that begin groups, between barriers.
    (
        "threads 2\nfunc w\nwork\nend\nfunc h\ntask w\nend\nfunc u\ntaskgroup h\nend\nfunc g\ntask u\ntask u\nend\nfunc t\ntaskgroup g\nend\nfunc b\nonly 1 t\nbarrier\nonly 1 t\nend\nfunc main\nparallel b num 2\nend\n",
        2,
        8,
    ),
    // Of a task that makes a team, behind a task of no group.
    (
        "threads 2\nfunc w\nwork\nend\nfunc c\nparallel w num 1\nend\nfunc g\ntask c\nend\nfunc t\ntask w\ntaskgroup g\ntaskwait\nend\nfunc b\nonly 1 t\nonly 1 t\nend\nfunc main\nparallel b num 2\nend\n",
        3,
        8,
    ),
];
