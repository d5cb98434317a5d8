//! The script that a command reads.

ghost use Rattle.std.specs.Prelude.{◌≡◌, ◌⊎◌, List, ℕ, Option, Some, IfOk, IfErr, IsErrAnd};
ghost use Rattle.omi_outside.specs.Outside.{HasCause};
ghost use Rattle.omi_script.specs.Grammar.{Grammar};
ghost use Rattle.omi_frame.specs.Refusal.{IsReadFault, IsUnread};
ghost use Rattle.omi_frame.specs.Scripts.{IsOfScript, IsProgramIn, IsScriptRefusal};

use crate::limits::SCRIPT_FRONT;
use crate::reading::load;
use crate::refusal::{Input, Refusal};
use omi_outside::Files;
use omi_script::{Program, parse};
use std::alloc::Global;

/// The program of a text.
fn parsed(alloc: Global, bytes: &[u8]) -> Result<Program, Refusal>
    ensures accepted { IfOk result (λ p. Grammar bytes.now p) }
    ensures refused { IfErr result
        (λ r. IsScriptRefusal (Some bytes.now) r ⊎ (r ≡ Refusal.OutOfMemory)) }
{
    Ok(parse(alloc, bytes)?)
}

/// Reads a script, and answers its program.
pub fn program_of<F: Files>(alloc: Global, script: &str, files: &mut F) -> Result<Program, Refusal>
    ensures program { (content : Option (List ℕ)) → F.told files.old script.now ≡ Some content
        → IfOk result (IsProgramIn content) }
    ensures refused { (content : Option (List ℕ)) → F.told files.old script.now ≡ Some content
        → IfErr result (λ r. IsScriptRefusal content r ⊎ IsUnread Input.Script r) }
    ensures kind { IfErr result IsOfScript }
    ensures cause { HasCause (F.reads files.old) (F.reads files.new)
        (IsErrAnd result IsReadFault) }
    ensures same { F.told files.new ≡ F.told files.old }
    ensures writes { F.writes files.new ≡ F.writes files.old }
{
    let bytes = load(alloc, Input::Script, script, SCRIPT_FRONT, files)?;
    parsed(alloc, &bytes)
}
