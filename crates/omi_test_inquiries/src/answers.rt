//! Worked rows of what states answer. Each is a clause of a function that does nothing: the check proves it, and there is nothing to run.

ghost use Rattle.std.specs.Prelude.{◌≡◌, [], ◌∷◌, false, Ok, Err};
ghost use Rattle.omi_model.specs.Opening.{opening, opening_region, opening_task, initial_region, initial_task};
ghost use Rattle.omi_model.specs.Teams.{new_region, member_task};
ghost use Rattle.omi_model.specs.WorkedRun.{run_program, run_region, master, worker};
ghost use Rattle.omi_session.specs.Answers as answer;
ghost use Rattle.omi_icv.specs.Subjects.{Space, Thread, Task};
ghost use Rattle.omi_icv.specs.StateValues.{number_of, state_of_thread, tool_of};

use omi_session::Rc;

/// Null ends: a program of two threads starts with one region and one task, and thread 1 has not begun.
pub fn null_ends()
    ensures enclosing { answer.enclosing_region (opening_region run_program) ≡ Err Rc.Unavailable }
    ensures generating { answer.generating_task (opening_task run_program) ≡ Err Rc.Unavailable }
    ensures scheduling { answer.scheduling_task (opening_task run_program) ≡ Err Rc.Unavailable }
    ensures begun { answer.thread_with (opening run_program) 0 1000 ≡ Ok 0 }
    ensures waiting { answer.thread_with (opening run_program) 0 1001 ≡ Err Rc.Unavailable }
    ensures past { answer.thread_with (opening run_program) 0 1002 ≡ Err Rc.Unavailable }
    ensures other_kind { answer.thread_with (opening run_program) 1 1000 ≡ Err Rc.Unsupported }
    ensures task { answer.task_of_thread (opening run_program) 0 ≡ Ok initial_task }
    ensures region { answer.region_of_thread (opening run_program) 0 ≡ Ok initial_region }
    ensures no_task { answer.task_of_thread (opening run_program) 1 ≡ Err Rc.Unavailable }
    ensures no_region { answer.region_of_thread (opening run_program) 1 ≡ Err Rc.Unavailable }
{}

/// Team numbers: the initial task forks a region of two members.
pub fn team_numbers()
    ensures enclosing { answer.enclosing_region (new_region initial_task (opening_task run_program)
        (opening_region run_program) ((master, 0) ∷ (worker, 1) ∷ []) 2) ≡ Ok initial_region }
    ensures task { answer.task_of_member (new_region initial_task (opening_task run_program)
        (opening_region run_program) ((master, 0) ∷ (worker, 1) ∷ []) 2) 1 ≡ Ok worker }
    ensures thread { answer.thread_of_member (new_region initial_task (opening_task run_program)
        (opening_region run_program) ((master, 0) ∷ (worker, 1) ∷ []) 2) 1 ≡ Ok 1 }
    ensures past { answer.task_of_member (new_region initial_task (opening_task run_program)
        (opening_region run_program) ((master, 0) ∷ (worker, 1) ∷ []) 2) 2 ≡ Err Rc.BadInput }
    ensures no_thread { answer.thread_of_member (new_region initial_task (opening_task run_program)
        (opening_region run_program) ((master, 0) ∷ (worker, 1) ∷ []) 2) 2 ≡ Err Rc.BadInput }
{}

/// The commit: both members' tasks were made by the initial task, and the master's alone was scheduled from it.
pub fn forked_tasks()
    ensures region { answer.region_of_task (member_task run_program run_region initial_task
        (opening_task run_program) (opening_region run_program) 2 1 1) ≡ Ok run_region }
    ensures generating { answer.generating_task (member_task run_program run_region initial_task
        (opening_task run_program) (opening_region run_program) 2 1 1) ≡ Ok initial_task }
    ensures scheduling { answer.scheduling_task (member_task run_program run_region initial_task
        (opening_task run_program) (opening_region run_program) 2 0 0) ≡ Ok initial_task }
    ensures none { answer.scheduling_task (member_task run_program run_region initial_task
        (opening_task run_program) (opening_region run_program) 2 1 1) ≡ Err Rc.Unavailable }
    ensures function { answer.function_of_task (member_task run_program run_region initial_task
        (opening_task run_program) (opening_region run_program) 2 1 1) ≡ Ok 0x400020 }
{}

/// Control variables and states: an nthreads-var of two elements has no one number, a thread without a task has no number in a team, and a
/// state that isn't kept is asked for in vain.
pub fn variables()
    ensures one { number_of (opening run_program) (Task (opening_task run_program)) 2 ≡ Ok 2 }
    ensures several { number_of (opening run_program) (Task (record (opening_task run_program) {
      variables = record (opening_task run_program).variables { nthreads = 3 ∷ 2 ∷ [] };
    })) 2
        ≡ Err (Rc.Incomplete 3) }
    ensures member { number_of (opening run_program) (Thread 0) 13 ≡ Ok 0 }
    ensures no_member { number_of (opening run_program) (Thread 1) 13 ≡ Err Rc.Unavailable }
    ensures other_scope { number_of (opening run_program) Space 2 ≡ Err Rc.Unsupported }
    ensures no_tool { tool_of (Thread 0) ≡ Err Rc.Unsupported }
    ensures state { state_of_thread (opening run_program) 1 ≡ Ok (0x100, 0) }
    ensures untracked { state_of_thread (record (opening run_program) {
      environment = record (opening run_program).environment { debug = false };
    }) 0
        ≡ Err Rc.NeedsStateTracking }
{}
