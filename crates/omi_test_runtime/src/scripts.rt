//! The workloads of the tests.

pub const TOO_FEW_THREADS: &str =
    "threads 3\nfunc f\nwork\nend\nfunc main\nparallel f num 4\nend\n";

pub const A_CONTESTED_WORKER: &str =
    "threads 3\nfunc leaf\nwork\nend\nfunc mid\nparallel leaf num 2\nend\nfunc main\nparallel mid num 2\nend\n";

pub const LIMIT_OF_ACTIVE_LEVELS: &str =
    "threads 2\nenv max_active_levels 1\nfunc leaf\nwork\nend\nfunc mid\nparallel leaf num 2\nend\nfunc main\nparallel mid num 2\nend\n";

/// The head of a list of sizes is changed, and no team is made.
pub const A_CHANGED_HEAD: &str =
    "threads 1\nenv num_threads 4,2\nfunc main\nset_num_threads 3\nset_dynamic 1\nwork\nend\n";

/// The head of a list of sizes is changed in front of a team, whose members make teams of the sizes behind it.
pub const A_CHANGED_HEAD_OF_TEAMS: &str =
    "threads 5\nenv num_threads 4,2,5\nfunc c\nwork\nend\nfunc inner\nparallel c\nend\nfunc b\nonly 0 inner\nend\nfunc main\nset_num_threads 3\nparallel b\nend\n";

/// A team of three threads at a barrier of its own, and at the one at its end.
pub const TWO_BARRIERS: &str =
    "threads 3\nfunc b\nbarrier\nend\nfunc main\nparallel b num 3\nend\n";

/// A team of two threads at one lock.
pub const ONE_LOCK: &str =
    "threads 2\nfunc w\nwork\nend\nfunc b\ncritical 3 w\nend\nfunc main\nparallel b num 2\nend\n";

/// A team of one in a team of one.
pub const A_TEAM_IN_A_TEAM: &str =
    "threads 1\nfunc w\nwork\nend\nfunc b\nparallel w num 1\nend\nfunc main\nparallel b num 1\nend\n";

/// A member of a team makes four tasks.
pub const FOUR_TASKS_OF_A_MEMBER: &str =
    "threads 2\nfunc w\nwork\nend\nfunc t\ntask w\ntask w\ntask w\ntask w\nend\nfunc b\nonly 1 t\nend\nfunc main\nparallel b num 2\nend\n";

/// A team of one, and a task that starts at once behind it, without states.
pub const A_TEAM_AND_A_TASK: &str =
    "threads 1\nenv debug disabled\nfunc w\nend\nfunc main\nparallel w num 1\ntask w if 0\nend\n";

/// Two tasks that start at once.
pub const ONE_TASK_AFTER_ANOTHER: &str =
    "threads 1\nfunc t\nwork\nend\nfunc main\ntask t if 0\ntask t if 0\nend\n";

/// Two teams of two threads.
pub const ONE_TEAM_AFTER_ANOTHER: &str =
    "threads 2\nfunc f\nwork\nend\nfunc main\nparallel f num 2\nparallel f num 2\nend\n";

/// Each statement that makes no team and no task, on thread 0 of two.
pub const EACH_PLAIN_STATEMENT: &str =
    "threads 2\nfunc inner\nwork\nend\nfunc main\nset_dynamic 1\nset_num_threads 3\nset_max_active_levels 5\nset_schedule dynamic 4\nset_default_device 2\ntool 7\ncall inner\nrepeat 2 inner\nonly 1 inner\ncritical 3 inner\nend\n";

/// Two tasks that a thread makes and runs, without states.
pub const TWO_TASKS: &str =
    "threads 2\nenv debug disabled\nfunc leaf\nend\nfunc main\ntask leaf final 1\ntask leaf\nend\n";

/// A task makes a task and finishes before that one starts.
pub const AN_ENDED_ANCESTOR: &str =
    "threads 1\nfunc b\nwork\nend\nfunc a\ntask b\nend\nfunc main\ntask a\nend\n";

/// A team in a task of a team.
pub const A_NESTED_CHAIN: &str =
    "threads 2\nfunc leaf\nwork\nend\nfunc h\nparallel leaf num 1\nend\nfunc g\ntask h\nend\nfunc f\nonly 0 g\nend\nfunc main\nparallel f num 2\nend\n";

/// Each of two members makes a task.
pub const A_TASK_OF_EACH_MEMBER: &str =
    "threads 2\nfunc w\nwork\nend\nfunc b\ntask w\nend\nfunc main\nparallel b num 2\nend\n";

/// A member's task waits for a child that the other member runs, which waits for one of its own.
pub const WAITS_FOR_TASKS: &str =
    "threads 2\nfunc w\nwork\nend\nfunc c\ntask w\ntaskwait\nend\nfunc g\ntask c\nend\nfunc b\nonly 1 g\nend\nfunc main\nparallel b num 2\nend\n";

/// As many groups in one another as a task may have open, a task in each and one in front of them.
pub const FOUR_GROUPS: &str =
    "threads 1\nfunc w\nwork\nend\nfunc g4\ntask w\nend\nfunc g3\ntask w\ntaskgroup g4\nend\nfunc g2\ntask w\ntaskgroup g3\nend\nfunc g1\ntask w\ntaskgroup g2\nend\nfunc main\ntask w\ntaskgroup g1\nend\n";

/// A member makes a task that begins a group.
pub const A_GROUP_IN_A_TASK: &str =
    "threads 2\nfunc w\nwork\nend\nfunc h\ntask w\nend\nfunc t\ntaskgroup h\nend\nfunc g\ntask t\nend\nfunc b\nonly 1 g\nend\nfunc main\nparallel b num 2\nend\n";

/// A member makes a task, and then two more in a group.
pub const A_TASK_BEFORE_A_GROUP: &str =
    "threads 2\nfunc w\nwork\nend\nfunc g\ntask w\ntask w\nend\nfunc t\ntask w\ntaskgroup g\nend\nfunc b\nonly 1 t\nend\nfunc main\nparallel b num 2\nend\n";

/// A member's group has a task that makes a task.
pub const A_GROUP_OF_A_MEMBER: &str =
    "threads 2\nfunc w\nwork\nend\nfunc a\ntask w\nend\nfunc g\ntask a\nend\nfunc t\ntaskgroup g\nend\nfunc b\nonly 1 t\nend\nfunc main\nparallel b num 2\nend\n";

/// Task groups: of tasks that make tasks, beside tasks of no group; in one another, four deep, without states; in tasks and under a lock, and of tasks that
/// make teams; and without members.
pub const GROUPS: [&str; 4] = [
    "threads 3\nfunc w\nwork\nend\nfunc t\ntask w\ntaskyield\nend\nfunc g\ntask t\ntask w if 0\nend\nfunc b\ntask w\ntaskgroup g\ntaskwait\nend\nfunc main\nparallel b num 3\nend\n",
    "threads 2\nenv debug disabled\nfunc w\nwork\nend\nfunc g4\ntask w\nend\nfunc g3\ntask w\ntaskgroup g4\nend\nfunc g2\ntaskgroup g3\ntask w final 1\nend\nfunc g1\ntask g4\ntaskgroup g2\nend\nfunc b\ntaskgroup g1\nbarrier\ntaskgroup g4\nend\nfunc main\nparallel b num 2\ntaskgroup g1\nend\n",
    "threads 4\nfunc w\nwork\nend\nfunc c\nparallel w num 2\nend\nfunc g\ntask c\ntask w\nend\nfunc t\ntaskgroup g\nend\nfunc b\ntask t\nonly 0 t\ncritical 1 t\nend\nfunc main\nparallel b num 3\nend\n",
    "threads 2\nfunc w\nwork\nend\nfunc e\nend\nfunc g\ncall w\nrepeat 2 e\ntask w\nend\nfunc t\ntaskgroup e\ntaskgroup w\ntaskgroup g\ntaskyield\nend\nfunc main\ntask t\ntask t final 1\ntaskgroup t\nend\n",
];

/// Tasks that are deferred, start at once, and make tasks; waits for children and single yields; with states and without.
pub const TASKS: [&str; 4] = [
    "threads 3\nfunc w\nwork\nend\nfunc t\ntask w\ntaskwait\ntask w\nend\nfunc b\nrepeat 3 t\ntask t\ntaskyield\ntask t if 0\nend\nfunc main\nparallel b num 3\nend\n",
    "threads 2\nenv debug disabled\nfunc w\nwork\nend\nfunc t\ntask w final 1\ntaskyield\ntaskwait\nend\nfunc u\ntask t\ntask t final 1\ntaskwait\nend\nfunc b\ntask u\nbarrier\ntask u\nend\nfunc main\nparallel b num 2\ntask u\nend\n",
    "threads 4\nfunc w\nwork\nend\nfunc c\nparallel w num 2\nend\nfunc t\ntask w\ntask c\nend\nfunc b\nonly 0 t\ntask c\ntaskwait\ncritical 1 t\nend\nfunc main\nparallel b num 3\nend\n",
    "threads 2\nfunc w\nwork\nend\nfunc t\nset_num_threads 3\ntool 5\ntask w\ntask w\ntask w\ntask w\ntask w\ntask w\ntaskyield\nend\nfunc main\ntask t\ntask t\ntask t final 1\ntaskwait\nend\n",
];

/// The workloads of the examples.
pub const EXAMPLES: [&str; 6] = [
    "func main\nend\n",
    "env num_threads 8,4,2,1\nthreads 1\nfunc main\n  set_dynamic 1\n  set_num_threads 16\n  work\n  set_dynamic 0\n  set_num_threads 64\nend\n",
    "threads 2\nfunc leaf\n  work\nend\nfunc main\n  task leaf\n  task leaf if 0\n  taskwait\nend\n",
    "threads 1\nenv dynamic true\nenv max_active_levels 2\nenv schedule guided,7\nenv device 9\nenv debug disabled\nenv procs 16\nfunc main\n  work\nend\n",
    "threads 1\nenv num_threads 4,2\nfunc main\n  set_num_threads 3\n  set_dynamic 1\n  work\nend\n",
    "func main\n  work\n  work\n\n  # a third unit\n  work\nend\n",
];

/// Teams in teams, and teams that want more threads than there are.
pub const TEAMS: [&str; 2] = [
    "threads 4\nenv num_threads 3,2\nfunc c\nwork\nend\nfunc b\nparallel c\nwork\nend\nfunc main\nparallel b\nend\n",
    "threads 3\nfunc c\nwork\nend\nfunc b\nwork\nparallel c num 64\nend\nfunc main\nparallel b num 64\nend\n",
];

/// Teams at and below the limit of active levels.
pub const LEVELS: [&str; 3] = [
    "threads 5\nenv max_active_levels 2\nfunc d\nwork\nend\nfunc c\nparallel d num 2\nend\nfunc b\nparallel c num 2\nend\nfunc main\nparallel b num 2\nend\n",
    "threads 4\nenv debug disabled\nfunc c\nwork\nend\nfunc b\nparallel c num 2\nend\nfunc main\nparallel b num 3\nend\n",
    "threads 2\nenv max_active_levels 0\nfunc c\nwork\nend\nfunc b\nparallel c num 2\nend\nfunc main\nparallel b num 2\nend\n",
];

/// Teams in teams of many threads, which ask one another.
pub const MANY_THREADS: [&str; 2] = [
    "threads 16\nfunc c\nwork\nend\nfunc b\nparallel c num 3\nend\nfunc main\nparallel b num 9\nend\n",
    "threads 12\nfunc w\nwork\nend\nfunc d\ncritical 4 w\nend\nfunc c\nparallel d num 3\nend\nfunc b\nonly 0 c\nonly 3 c\nonly 5 w\nset_num_threads 4\nend\nfunc main\nparallel b num 8\nend\n",
];

/// A team of as many threads as a program can have.
pub const SIXTY_FOUR_THREADS: &str =
    "threads 64\nfunc b\nbarrier\nend\nfunc main\nparallel b num 64\nend\n";

/// Calls and locks.
pub const CALLS: [&str; 3] = [
    "threads 4\nfunc w\nwork\nend\nfunc c\nonly 0 w\nonly 2 w\nrepeat 3 w\nrepeat 0 w\ncall w\nend\nfunc b\ncall c\nonly 1 c\nend\nfunc main\nrepeat 2 w\nparallel b num 4\nend\n",
    "threads 4\nfunc w\nwork\nwork\nend\nfunc n\ncritical 3 w\nend\nfunc b\ncritical 0 w\ncritical 7 n\ncritical 0 n\nend\nfunc main\ncritical 5 w\nparallel b num 4\nend\n",
    "threads 3\nfunc w\nwork\nend\nfunc a\ncritical 1 w\nend\nfunc z\ncritical 2 w\nend\nfunc b\nonly 0 a\ncritical 2 a\ncritical 1 z\nend\nfunc main\nparallel b num 3\nend\n",
];

/// Variables that are set, and barriers.
pub const SETTINGS: [&str; 3] = [
    "threads 4\nenv num_threads 2,4,3\nfunc c\nwork\nset_num_threads 5\nend\nfunc b\nset_dynamic 1\nset_schedule guided 9\nset_default_device 7\nset_max_active_levels 1\ntool 18446744073709551615\nparallel c\nend\nfunc main\nset_num_threads 3\nset_max_active_levels 3\ntool 12\nparallel b\nend\n",
    "threads 4\nfunc w\nwork\nend\nfunc s\nset_max_active_levels 0\nset_max_active_levels 4\nend\nfunc f\nparallel w num 2\nend\nfunc b\nonly 0 s\nonly 1 f\nonly 1 w\nend\nfunc main\nparallel b num 2\nend\n",
    "threads 3\nenv debug disabled\nfunc w\nwork\nend\nfunc b\ncritical 0 w\nbarrier\nonly 1 w\nbarrier\nend\nfunc main\nparallel b num 2\nparallel b num 3\nend\n",
];

/// Workloads of one thread that makes more tasks and teams than it has records, and waits for each before it needs its record: with how many records
/// of regions and of tasks.
pub const FEW_OF_ONE_THREAD: [(&str, u64, u64); 5] = [
    (
        "threads 1\nfunc w\nwork\nend\nfunc t\ntask w if 0\ntask w\ntaskwait\ntask w\ntaskyield\ntask w final 1\ntaskwait\nend\nfunc main\nrepeat 5 t\nend\n",
        1,
        2,
    ),
    (
        "threads 1\nfunc w\nwork\nend\nfunc u\ntask w\ntaskwait\nend\nfunc m\ntask u\nbarrier\nend\nfunc main\nrepeat 4 m\ntask u if 0\nend\n",
        1,
        3,
    ),
    (
        "threads 1\nfunc w\nwork\nend\nfunc a\ntask w\nend\nfunc m\ntask a\nbarrier\nend\nfunc main\nrepeat 5 m\nend\n",
        1,
        3,
    ),
    (
        "threads 1\nfunc w\nwork\nend\nfunc p\nparallel w num 1\ntask w if 0\nend\nfunc main\nrepeat 5 p\nend\n",
        2,
        2,
    ),
    (
        "threads 1\nenv debug disabled\nfunc w\nwork\nend\nfunc b\ntask w\nbarrier\ntask w if 0\ntask w\nend\nfunc p\nparallel b num 1\nend\nfunc main\nrepeat 4 p\nend\n",
        2,
        3,
    ),
];
