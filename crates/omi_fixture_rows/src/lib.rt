//! Worked rows that several crates of tests share: workloads, and the reports of their stops.
#![tactic(auto)]

/// No statement, and one thread.
pub const AN_EMPTY_RUN: &str = "func main
end
";

/// A team of two threads over a function that works. Where the threads step in turn, the 197th step is its fork.
pub const A_TEAM_OF_TWO: &str = "threads 2
func f
work
end
func main
parallel f num 2
end
";

/// The report of that workload one step before its fork.
pub const HALF_MADE: &str = "ompd 201811 threads 2 debug enabled
icv num-procs-var=4 max-active-levels-var=8
thread 0 native 1000 state overhead wait 0 thread-num-var=0 current k0.0.0
thread 1 native 1001 state idle wait 0 thread-num-var=none current none
region r0.0.0 function 0x400010 levels-var=0 active-levels-var=0 team-size-var=1 enclosing none
member 0 thread 0 task k0.0.0
task k0.0.0 thread 0 kind implicit region r0.0.0 function 0x400010 generating none scheduling none exit 0x7f00000fffc0 enter 0x7f00000fffa0 tool 0
icv dyn-var=0 nthreads-var=2 run-sched-var=static,0 default-device-var=0 final-task-var=0 implicit-task-var=1
";

/// Its report at the fork.
pub const FORKED: &str = "ompd 201811 threads 2 debug enabled
icv num-procs-var=4 max-active-levels-var=8
thread 0 native 1000 state overhead wait 0 thread-num-var=0 current k0.1.0
thread 1 native 1001 state idle wait 0 thread-num-var=none current none
region r0.0.0 function 0x400010 levels-var=0 active-levels-var=0 team-size-var=1 enclosing none
member 0 thread 0 task k0.0.0
region r0.1.0 function 0x400000 levels-var=1 active-levels-var=1 team-size-var=2 enclosing r0.0.0
member 0 thread 0 task k0.1.0
member 1 thread 1 task k0.2.0
task k0.1.0 thread 0 kind implicit region r0.1.0 function 0x400000 generating k0.0.0 scheduling k0.0.0 exit 0x7f00000fff80 enter 0x0 tool 0
icv dyn-var=0 nthreads-var=2 run-sched-var=static,0 default-device-var=0 final-task-var=0 implicit-task-var=1
task k0.0.0 thread 0 kind implicit region r0.0.0 function 0x400010 generating none scheduling none exit 0x7f00000fffc0 enter 0x7f00000fffa0 tool 0
icv dyn-var=0 nthreads-var=2 run-sched-var=static,0 default-device-var=0 final-task-var=0 implicit-task-var=1
";

/// One thread, and more tasks than it has slots for deferred ones.
pub const A_FULL_ROW: &str = "threads 1
func t
work
end
func main
task t
task t
task t
task t
task t
task t
task t
task t
end
";

/// A task group of a task that makes a task.
pub const A_GROUPS_DESCENDANTS: &str = "threads 1
func b
work
end
func a
task b
end
func g
task a
end
func main
taskgroup g
end
";
