//! What `at` prints: for each of its steps the line of the step, and the report of the words there.

ghost use Rattle.std.specs.Prelude.{◌≡◌, ◌++◌, ◌≤◌, IfOk, List, OnOk, length, ℕ, Ok};
ghost use Rattle.std.specs.List.{All};
ghost use Rattle.omi_core.specs.declared.schedule.Schedule.TheVariants.{RoundRobin};
ghost use Rattle.omi_layout.specs.Valid.{IsValid};
ghost use Rattle.omi_model.specs.declared.view.View.{View};
ghost use Rattle.omi_rep.specs.LookView.{look_view};
ghost use Rattle.omi_rewind.specs.Rewound.{IsLater, image_of};
ghost use Rattle.omi_rewind.specs.declared.limits.TheConstants.{LAST_STEP};
ghost use Rattle.omi_rewind_top.specs.Looked.{AreStepsLooked, IsInTurn, IsStepLooked};
ghost use Rattle.omi_rewind_top.specs.Turns.{IsAtText};
ghost use Rattle.omi_text.specs.Report.{report};
ghost use Rattle.omi_commands.specs.Cores.{thread_ids};
ghost use Rattle.omi_word.specs.Words.{words_of};

use crate::lines::place_line;
use crate::turns::rewind_of;
use omi_commands::{contexts_of, view_of};
use omi_layout::Layout;
use omi_rewind::Rewind;
use omi_script::Program;
use omi_text::report_text;
use omi_word::{Natives, OutOfMemory};
use std::alloc::Global;

/// The report of the words at which the image of a rewind stands, for the contexts of all threads.
fn report_at(alloc: Global, rewind: &Rewind, contexts: &Natives) -> Result<Vec<u8>, OutOfMemory>
    requires { IsInTurn rewind.now contexts.now }
    ensures { IfOk result (λ text. (v : View)
        × (look_view rewind.now.run.table (words_of (image_of rewind.now)) contexts.now ≡ Ok v)
        × (text.items ≡ report v)) }
{
    let _made = rewind.made();
    let view = view_of(alloc, rewind.image(), contexts)?;
    report_text(alloc, &view)
}

/// Goes to a step, and adds its line and the report of the words there.
fn push_step(
    alloc: Global,
    rewind: &mut Rewind,
    step: u64,
    contexts: &Natives,
    text: &mut Vec<u8>,
) -> Result<(), OutOfMemory>
    requires turns { IsInTurn rewind.old contexts.now }
    requires few { step ≤ LAST_STEP }
    ensures later { IsLater rewind.old rewind.new }
    ensures shown { OnOk result ((part : List ℕ) × (text.new.items ≡ text.old.items ++ part)
        × IsStepLooked rewind.new step part) }
{
    let at = rewind.to(alloc, step)?;
    let _made = rewind.made();
    let line = place_line(alloc, step, at)?;
    let report = report_at(alloc, rewind, contexts)?;
    text.extend_from_slice(line.as_bytes())?;
    text.extend_from_slice(&report)?;
    Ok(())
}

/// The lines and the reports of steps, in their order.
fn text_of_steps(
    alloc: Global,
    rewind: &mut Rewind,
    steps: &[u64],
    contexts: &Natives,
) -> Result<Vec<u8>, OutOfMemory>
    requires turns { IsInTurn rewind.old contexts.now }
    requires few { All (λ n. n ≤ LAST_STEP) steps.now }
    ensures later { IsLater rewind.old rewind.new }
    ensures shown { IfOk result (λ text. AreStepsLooked rewind.new steps.now text.items) }
{
    let mut text = Vec::new(alloc);
    for step in steps {
        push_step(alloc, rewind, *step, contexts, &mut text)?;
    }
    Ok(text)
}

/// All that `at` prints of a program, for these steps.
pub fn at_text(alloc: Global, p: Program, steps: &[u64]) -> Result<Vec<u8>, OutOfMemory>
    requires { All (λ n. n ≤ LAST_STEP) steps.now }
    ensures { IfOk result (λ text. IsAtText p steps.now text.items) }
{
    let contexts = contexts_of(alloc, p.threads)?;
    let layout = Layout::family(0, p.threads);
    let mut rewind = rewind_of(alloc, p, layout)?;
    let text = text_of_steps(alloc, &mut rewind, steps, &contexts)?;
    let _made = rewind.made();
    Ok(text)
}
