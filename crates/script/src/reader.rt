//! Reads scripts.

ghost use Rattle.std.specs.Prelude.{◌≡◌, Ok, Err, IfOk, IfErr, MatchResult};
ghost use Rattle.script.specs.declared.fault.ScriptRefused.{ScriptRefused};
ghost use Rattle.spelling.specs.Items.{is_comment};
ghost use Rattle.script.specs.Scripts.{Script, IsScript, IsReady};
ghost use Rattle.script.specs.Faults.{IsError};
ghost use Rattle.script.specs.Reading.{draft_of, after_line, read_of, Takes, Reads, Says, IsDraft};

use crate::draft::{Draft, Stage};
use crate::fault::{LineError, Reason, ScriptFault, ScriptRefused};
use crate::script::Script;
use spelling::{first_line, is_printable};
use std::alloc::Global;

/// How many bytes a script's file may have.
pub const MOST_BYTES: usize = 100_663_296;

fn is_comment(line: &[u8]) -> bool
    ensures { result ≡ is_comment line.now }
{
    line.is_empty() || line[0] == b'#'
}

#[tactic(auto, unfolding(crate::specs::Reading::after_line))]
fn take_line(draft: &mut Draft, line: &[u8]) -> Result<(), LineError>
    requires { IsDraft (draft_of draft.old) }
    ensures { Takes result draft.new (after_line (draft_of draft.old) line.now) }
{
    if !is_printable(line) {
        return Err(LineError::Wrong(Reason::Ascii));
    }
    if is_comment(line) && draft.takes_comments() {
        return Ok(());
    }
    draft.take(line)
}

fn fault(line: u32, reason: Reason) -> ScriptRefused
    ensures { result ≡ ScriptRefused.Fault (record { line = line; why = reason }) }
{
    ScriptRefused::Fault(ScriptFault { line, why: reason })
}

#[tactic(auto, unfolding(crate::specs::Reading::read_of))]
fn read_lines(alloc: Global, text: &[u8]) -> Result<Script, ScriptRefused>
    ensures { MatchResult result (λ s. Reads s (read_of text.now)) (Says (read_of text.now)) }
{
    if text.len() > MOST_BYTES {
        return Err(fault(0, Reason::TooLarge));
    }
    let mut draft = Draft::new(alloc)?;
    let mut rest = text;
    let mut number = 0;
    while !rest.is_empty() {
        let (line, after) = first_line(rest);
        number += 1;
        match take_line(&mut draft, line) {
            Ok(()) => {}
            Err(LineError::Memory) => return Err(ScriptRefused::Memory),
            Err(LineError::Wrong(reason)) => return Err(fault(number, reason)),
        }
        rest = after;
    }
    match draft.stage {
        Stage::Body if draft.is_free() => Ok(draft.into_script()),
        _ => Err(fault(number + 1, Reason::End)),
    }
}

/// The script that a file spells. Refused where the file is no script, or memory runs out.
pub fn read(alloc: Global, text: &[u8]) -> Result<Script, ScriptRefused>
    // What is read is the file's script, and the core can be opened with it.
    ensures found { IfOk result (λ s. IsScript text.now s) }
    ensures ready { IfOk result (λ s. IsReady s) }
    // A script is read, unless memory runs out.
    ensures only { (s : Script) → IsScript text.now s
        → MatchResult result (λ t. t ≡ s) (λ e. e ≡ ScriptRefused.Memory) }
    // Otherwise its fault is told: at the first line that has a reason, with the first reason of
    // that line.
    ensures fault { IfErr result (IsError text.now) }
{
    read_lines(alloc, text)
}
