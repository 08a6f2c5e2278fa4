//! `play FILE` and `paint FILE`: a file is read, and what its script's calls are answered is
//! written, or the painter's picture of the windows that they leave.

ghost use Rattle.std.specs.Prelude.{◌≡◌, ◌↔◌, ◌⊎◌, ◌+◌, ◌<◌, ◌≤◌, List, [], ℕ, Ok, Err, length, true};
ghost use Rattle.std.specs.List.{AllByRecursion, list_any};
ghost use Rattle.outside.specs.Logs.{FailedAt, Whole};
ghost use Rattle.outside.specs.Files.{IsFile};
ghost use Rattle.calls.specs.Actors.{is_task};
ghost use Rattle.calls.specs.Lines.{call_count, entries_of, FitsItsTask};
ghost use Rattle.calls.specs.declared.line.Act.TheVariants as Act;
ghost use Rattle.calls.specs.declared.line.Line.TheVariants.{Task, Tick};
ghost use Rattle.script.specs.Scripts.{Script, IsScript, IsReady};
ghost use Rattle.desk.specs.Desks.{is_want_of_memory};
ghost use Rattle.engine.specs.States.{state_after};
ghost use Rattle.gui_core.specs.Promises.{window_calls, is_window_call};
ghost use Rattle.mtgui_top.specs.Changes.{may_change, asks_for_device};
ghost use Rattle.gui_core.specs.Histories.{state_of, marks_in, IsLegal};
ghost use Rattle.mtgui_top.specs.Histories.{LineDone, HasRoom, IsFresh};
ghost use Rattle.mtgui_top.specs.Playing.{chronicle_of, play_text, paint_text, reason_text};
ghost use Rattle.mtgui_top.specs.Promises.{ScansShowPainter};
ghost use Rattle.mtgui_top.specs.Words.{IsCommand};
ghost use Rattle.mtgui_top.specs.Outcome.{Left, Shows, ShowsFile, CommandEnds, WritesScript, LineEnds, LinesEnd, stop_of, IsStatus, IsComplete};
ghost use Rattle.mtgui_top.specs.declared.command.Verb.{Verb};
ghost use Rattle.mtgui_top.specs.declared.play.Stop.TheVariants.{Sink, Memory};
ghost use Rattle.mtgui_top.specs.declared.play.Stop.{Stop};
ghost use Rattle.mtgui_top.specs.declared.play.Finding.{Finding};

use crate::command::{Verb, command};
use crate::player::Player;
use calls::{Act, Call, Entry, Line, Refusal, Reply, call_count};
use journal::{write_fault, write_frame, write_reply, write_summary, write_tick};
use outside::{ReadRefused, Sink, SinkFault, Store};
use scene::Stack;
use script::{MOST_BYTES, Reason, Script, ScriptRefused, read};
use std::alloc::Global;

/// Whether a reply tells that there is no memory for a device.
fn is_want_of_memory(reply: &Reply) -> bool
    ensures { result ≡ is_want_of_memory reply.now }
{
    matches!(reply, Reply::Refused(Refusal::Memory))
}

/// Makes a task's call and writes what it is answered. Without memory for a device nothing is done
/// or written.
fn perform_call<K: Sink>(
    alloc: Global,
    out: &mut K,
    gui: &mut Player,
    task: u16,
    call: &Call,
    taken: &mut Vec<u8>,
) -> Result<(), Stop>
    requires fits { is_task task ≡ true }
    requires room { HasRoom gui.old (Task task (Act.Call call.now)) }
    ensures { LineEnds result gui.old (Task task (Act.Call call.now)) gui.new (K.log out.old)
        (K.log out.new) }
{
    let reply = gui.apply(alloc, task, call, taken);
    if is_want_of_memory(&reply) {
        return Err(Stop::Memory);
    }
    write_reply(out, call, &reply, taken, gui.shown())?;
    Ok(())
}

/// Lets the display show what waits, and writes whether it showed anything.
fn tick<K: Sink>(out: &mut K, gui: &mut Player) -> Result<(), Stop>
    ensures { LineEnds result gui.old Tick gui.new (K.log out.old) (K.log out.new) }
{
    write_tick(out, gui.tick())?;
    Ok(())
}

/// Does what a line says and writes what it is answered. Without memory for a device nothing is
/// done or written.
fn perform_line<K: Sink>(
    alloc: Global,
    out: &mut K,
    gui: &mut Player,
    line: &Line,
    taken: &mut Vec<u8>,
) -> Result<(), Stop>
    requires fits { FitsItsTask line.now }
    requires room { HasRoom gui.old line.now }
    ensures { LineEnds result gui.old line.now gui.new (K.log out.old) (K.log out.new) }
{
    match line {
        Line::Task {
            task,
            act: Act::Call(call),
        } => perform_call(alloc, out, gui, *task, call, taken),
        Line::Task { .. } => Ok(()),
        Line::Tick => tick(out, gui),
    }
}

/// How many of the entries are marks of switches that were made.
fn mark_count(entries: &[Entry]) -> usize
    ensures { result ≡ marks_in entries.now }
{
    entries
        .iter()
        .filter(|entry| matches!(entry, Entry::Shown { .. }))
        .count()
}

/// Does what lines say and writes what they are answered, and the summary; but ends where there is
/// no memory for a device. The core was opened for as many calls, and made none so far.
fn perform<K: Sink>(
    alloc: Global,
    out: &mut K,
    gui: &mut Player,
    lines: &[Line],
) -> Result<(), Stop>
    requires fits { AllByRecursion FitsItsTask lines.now }
    requires fresh { IsFresh gui.old (call_count lines.now) }
    ensures { LinesEnd result gui.old.setup (state_of gui.old) lines.now (K.log out.old)
        (K.log out.new) }
{
    let mut taken = Vec::new(alloc);
    for line in lines {
        perform_line(alloc, out, gui, line, &mut taken)?;
    }
    let mut windows = Stack::new();
    gui.windows(&mut windows);
    let refused = gui.refused() as usize;
    let shown = mark_count(gui.history());
    write_summary(out, call_count(lines), refused, shown, windows.len())?;
    Ok(())
}

/// Why a command wasn't done to its end.
enum Stop {
    Store,
    Sink,
    Memory,
}

impl From<ReadRefused> for Stop {
    ghost from_gives = { λ refused stop. stop ≡ stop_of refused };

    fn from(refused: ReadRefused) -> Stop {
        match refused {
            ReadRefused::Failed => Stop::Store,
            ReadRefused::Memory => Stop::Memory,
        }
    }
}

impl From<SinkFault> for Stop {
    ghost from_gives = { λ _ stop. stop ≡ Sink };

    fn from(_: SinkFault) -> Stop {
        Stop::Sink
    }
}

impl From<gfx_base::Memory> for Stop {
    ghost from_gives = { λ _ stop. stop ≡ Memory };

    fn from(_: gfx_base::Memory) -> Stop {
        Stop::Memory
    }
}

/// What a file turned out to be.
enum Finding {
    Script,
    NoScript,
}

fn play_script<K: Sink>(alloc: Global, script: Script, out: &mut K) -> Result<(), Stop>
    requires { IsReady script }
    ensures { WritesScript Verb.Play result (K.log out.old) (K.log out.new) script }
{
    let Script {
        config,
        assets,
        lines,
    } = script;
    let mut gui = Player::open(alloc, assets, config)?;
    perform(alloc, out, &mut gui, &lines)
}

/// Whether a call may change where windows are, or what they are. The others paint, look, draw,
/// change what a task draws with, or are on devices.
fn is_window_call(call: &Call) -> bool
    ensures { result ≡ is_window_call call.now }
{
    !matches!(
        call,
        Call::Begin
            | Call::End
            | Call::Exec
            | Call::Exec1
            | Call::Scan
            | Call::Select { .. }
            | Call::Colour { .. }
            | Call::BkColour { .. }
            | Call::TextMode { .. }
            | Call::Font { .. }
            | Call::Save
            | Call::Restore
            | Call::Fill { .. }
            | Call::Frame { .. }
            | Call::Line { .. }
            | Call::Bitmap { .. }
            | Call::Text { .. }
            | Call::DevCreate { .. }
            | Call::DevDelete { .. }
            | Call::DevSelect { .. }
            | Call::DevCopy { .. }
    )
}

/// Whether a line may change where windows are, or what they are.
fn changes_windows(line: &Line) -> bool
    ensures { result ≡ may_change line.now }
{
    match line {
        Line::Task {
            act: Act::Call(call),
            ..
        } => is_window_call(call),
        _ => false,
    }
}

/// Makes a line's call, which may change windows, and so makes no device.
fn make_call(alloc: Global, gui: &mut Player, line: &Line, taken: &mut Vec<u8>)
    requires fits { FitsItsTask line.now }
    requires room { HasRoom gui.old line.now }
    requires windows { may_change line.now ≡ true }
    ensures { LineDone gui.old line.now gui.new }
{
    if let Line::Task {
        task,
        act: Act::Call(call),
    } = line
    {
        gui.apply(alloc, *task, call, taken);
    }
}

/// Makes those calls of lines that may change windows. The core was opened for as many, and made
/// none so far.
fn make_window_calls(alloc: Global, gui: &mut Player, lines: &[Line])
    requires fits { AllByRecursion FitsItsTask lines.now }
    requires fresh { IsFresh gui.old (call_count lines.now) }
    ensures setup { gui.new.setup ≡ gui.old.setup }
    ensures state { state_of gui.new
        ≡ state_after gui.old.setup (state_of gui.old) (window_calls (entries_of lines.now)) }
{
    let mut taken = Vec::new(alloc);
    for line in lines {
        if changes_windows(line) {
            make_call(alloc, gui, line, &mut taken);
        }
    }
}

fn paint_script<K: Sink>(alloc: Global, script: Script, out: &mut K) -> Result<(), Stop>
    requires { IsReady script }
    ensures { WritesScript Verb.Paint result (K.log out.old) (K.log out.new) script }
{
    let Script {
        config,
        assets,
        lines,
    } = script;
    let mut gui = Player::open(alloc, assets, config)?;
    make_window_calls(alloc, &mut gui, &lines);
    write_frame(out, &gui.into_painted())?;
    Ok(())
}

fn write_script<K: Sink>(alloc: Global, verb: Verb, script: Script, out: &mut K) -> Result<(), Stop>
    requires { IsReady script }
    ensures { WritesScript verb result (K.log out.old) (K.log out.new) script }
{
    match verb {
        Verb::Play => play_script(alloc, script, out),
        Verb::Paint => paint_script(alloc, script, out),
    }
}

fn reason_name(reason: Reason) -> &'static [u8]
    ensures value { result.now ≡ reason_text reason }
    ensures short { length result.now ≤ 20 }
{
    match reason {
        Reason::TooLarge => b"too-large",
        Reason::Ascii => b"ascii",
        Reason::Later => b"later",
        Reason::Header => b"header",
        Reason::Block => b"block",
        Reason::Late => b"late",
        Reason::Asset => b"asset",
        Reason::Call => b"call",
        Reason::Lock => b"lock",
        Reason::Many => b"many",
        Reason::End => b"end",
    }
}

/// Writes what a file's bytes say. All memory but that of devices is taken before the first byte is
/// written.
fn show<K: Sink>(alloc: Global, verb: Verb, text: &[u8], out: &mut K) -> Result<Finding, Stop>
    ensures { Shows verb result text.now (K.log out.old) (K.log out.new) }
{
    match read(alloc, text) {
        Ok(script) => {
            write_script(alloc, verb, script, out)?;
            Ok(Finding::Script)
        }
        Err(ScriptRefused::Memory) => Err(Stop::Memory),
        Err(ScriptRefused::Fault(fault)) => {
            write_fault(out, fault.line, reason_name(fault.why))?;
            Ok(Finding::NoScript)
        }
    }
}

/// Reads the file and writes what is asked for of it.
fn carry_out<S: Store, K: Sink>(
    alloc: Global,
    verb: Verb,
    name: &str,
    store: &mut S,
    out: &mut K,
) -> Result<Finding, Stop>
    ensures { CommandEnds verb result name.now (S.log store.old) (S.log store.new) (K.log out.old)
        (K.log out.new) }
{
    let text = store.read(alloc, name, MOST_BYTES + 1)?;
    show(alloc, verb, &text, out)
}

/// Does `play FILE` or `paint FILE` and answers the exit status: 0 where the file was read to its
/// end, is a script, and its text was written; 2 where the words are others; 3 where the file is no
/// script, and its fault line was written; 4 where the store failed at the file; 5 where the sink
/// failed; 9 where memory ran out. `play` ends at the first device for which there is no memory,
/// and what it wrote until then stands.
pub fn plain_words<S: Store, K: Sink>(
    alloc: Global,
    words: &[String],
    store: &mut S,
    out: &mut K,
) -> u8
    ensures words { (result ≡ 2)
        ↔ ((verb : Verb) (name : List ℕ) → IsCommand verb words.now name → ⊥) }
    // The file is a script, its history is one legal sequence of calls and marks, and its play text
    // was written. At each scan at which no window is invalid, no begin is open and no switch
    // waits, that has the painter's picture of the windows, at each point that no task drew since
    // it was painted.
    ensures played { result ≡ 0 → (name : List ℕ) → IsCommand Verb.Play words.now name
        → (file : List ℕ) × (script : Script) × IsFile (S.log store.old).files name file
        × IsScript file script × IsLegal (chronicle_of script) × ScansShowPainter script
        × Whole (K.log out.old) (K.log out.new) (play_text script) }
    // The file is a script, and the painter's picture of the windows that its calls leave was
    // written.
    ensures painted { result ≡ 0 → (name : List ℕ) → IsCommand Verb.Paint words.now name
        → (file : List ℕ) × (script : Script) × IsFile (S.log store.old).files name file
        × IsScript file script
        × Whole (K.log out.old) (K.log out.new) (paint_text script) }
    // The file is no script, and the line of its fault was written.
    ensures no_script { result ≡ 3 → (verb : Verb) × (name : List ℕ) × IsCommand verb words.now name
        × ShowsFile verb (Ok Finding.NoScript) (S.log store.old).files name (K.log out.old)
        (K.log out.new) }
    // The store failed at that name, and nothing was written.
    ensures store { result ≡ 4 → (verb : Verb) × (name : List ℕ) × IsCommand verb words.now name
        × FailedAt (S.log store.old) (S.log store.new) name
        × Whole (K.log out.old) (K.log out.new) [] }
    // The sink failed, and a prefix of the file's text was written.
    ensures sink { result ≡ 5 → (verb : Verb) × (name : List ℕ) × IsCommand verb words.now name
        × ShowsFile verb (Err Stop.Sink) (S.log store.old).files name (K.log out.old)
        (K.log out.new) }
    // At other words nothing was written.
    ensures nothing { result ≡ 2 → Whole (K.log out.old) (K.log out.new) [] }
    // Where memory ran out, nothing was written; or the file is a script that was played and makes
    // devices, and a prefix of its play text was written.
    ensures memory { result ≡ 9 → Whole (K.log out.old) (K.log out.new) []
        ⊎ ((name : List ℕ) × (file : List ℕ) × (script : Script)
        × IsCommand Verb.Play words.now name × IsFile (S.log store.old).files name file
        × IsScript file script × (list_any asks_for_device script.lines ≡ true)
        × Left (K.log out.old) (K.log out.new) (play_text script)) }
    ensures status { IsStatus result }
    // A told file is answered by what it says, unless a count rose or memory ran out.
    ensures complete { IsComplete result words.now (S.log store.old) (S.log store.new)
        (K.log out.old) (K.log out.new) }
{
    let Some((verb, name)) = command(words) else {
        return 2;
    };
    match carry_out(alloc, verb, name, store, out) {
        Ok(Finding::Script) => 0,
        Ok(Finding::NoScript) => 3,
        Err(Stop::Store) => 4,
        Err(Stop::Sink) => 5,
        Err(Stop::Memory) => 9,
    }
}
