//! Calls on what a task draws with.

ghost use Rattle.std.specs.Prelude.{◌≡◌, ◌≤◌, []};
ghost use Rattle.context.specs.Contexts.{owned_by};
ghost use Rattle.desk.specs.Changes.{context_call};
ghost use Rattle.surfaces.specs.Refusals.{Alters};
ghost use Rattle.desk.specs.Desks.{refusal_of, context_objections, context_after};

use crate::surfaces::{SCREEN, Surfaces};
use calls::Refusal;
use context::{ContextDepth, Contexts, NoContext};
use desk::{ContextChange, has_window};
use scene::Win;

/// Selects a window that lives.
fn select(contexts: &mut Contexts, task: u16, h: u32, windows: &[Win]) -> Result<(), Refusal>
    requires { (1 ≤ task) × (task ≤ 16) }
    ensures { let call = context_call (ContextChange.Select h) in
        let own = owned_by contexts.old task in
        Alters result (refusal_of (context_objections 0 windows.now [] own call))
        (context_after own call) task contexts.old contexts.new }
{
    if !has_window(windows, h) {
        return Err(Refusal::NoWindow(h));
    }
    contexts.get_mut(task).window = h;
    Ok(())
}

/// Selects a device that lives, or the screen.
fn select_device(
    contexts: &mut Contexts,
    task: u16,
    device: u32,
    surfaces: &Surfaces,
) -> Result<(), Refusal>
    requires { (1 ≤ task) × (task ≤ 16) }
    ensures { let call = context_call (ContextChange.Device device) in
        let own = owned_by contexts.old task in
        Alters result
        (refusal_of (context_objections 0 [] surfaces.now.devices.live own call))
        (context_after own call) task contexts.old contexts.new }
{
    if device != SCREEN && !surfaces.has_device(device) {
        return Err(Refusal::NoDevice(device));
    }
    contexts.get_mut(task).device = device;
    Ok(())
}

/// Gives a task's context a font, where there are so many.
fn set_font(contexts: &mut Contexts, task: u16, font: u8, fonts: usize) -> Result<(), Refusal>
    requires { (1 ≤ task) × (task ≤ 16) }
    ensures { let call = context_call (ContextChange.Font font) in
        let own = owned_by contexts.old task in
        Alters result (refusal_of (context_objections fonts [] [] own call))
        (context_after own call) task contexts.old contexts.new }
{
    if usize::from(font) >= fonts {
        return Err(Refusal::NoFont(font));
    }
    contexts.get_mut(task).font = font;
    Ok(())
}

/// Saves a task's context.
fn save(contexts: &mut Contexts, task: u16) -> Result<(), Refusal>
    requires { (1 ≤ task) × (task ≤ 16) }
    ensures { let call = context_call ContextChange.Save in
        let own = owned_by contexts.old task in
        Alters result (refusal_of (context_objections 0 [] [] own call))
        (context_after own call) task contexts.old contexts.new }
{
    match contexts.save(task) {
        Ok(()) => Ok(()),
        Err(ContextDepth) => Err(Refusal::ContextDepth),
    }
}

/// Gives the context back that a task saved last.
fn restore(contexts: &mut Contexts, task: u16) -> Result<(), Refusal>
    requires { (1 ≤ task) × (task ≤ 16) }
    ensures { let call = context_call ContextChange.Restore in
        let own = owned_by contexts.old task in
        Alters result (refusal_of (context_objections 0 [] [] own call))
        (context_after own call) task contexts.old contexts.new }
{
    match contexts.restore(task) {
        Ok(()) => Ok(()),
        Err(NoContext) => Err(Refusal::NoContext),
    }
}

/// Changes the context of a task, which is from 1 to 16, where there are so many fonts.
pub fn change_context(
    contexts: &mut Contexts,
    task: u16,
    change: ContextChange,
    windows: &[Win],
    surfaces: &Surfaces,
    fonts: usize,
) -> Result<(), Refusal>
    requires { (1 ≤ task) × (task ≤ 16) }
    ensures { let call = context_call change in
        let own = owned_by contexts.old task in
        Alters result (refusal_of
        (context_objections fonts windows.now surfaces.now.devices.live own call))
        (context_after own call) task contexts.old contexts.new }
{
    match change {
        ContextChange::Select { h } => select(contexts, task, h, windows),
        ContextChange::Device { device } => select_device(contexts, task, device, surfaces),
        ContextChange::Colour { c } => {
            contexts.get_mut(task).colour = c;
            Ok(())
        }
        ContextChange::BkColour { c } => {
            contexts.get_mut(task).bk = c;
            Ok(())
        }
        ContextChange::TextMode { trans } => {
            contexts.get_mut(task).trans_text = trans;
            Ok(())
        }
        ContextChange::Font { font } => set_font(contexts, task, font, fonts),
        ContextChange::Save => save(contexts, task),
        ContextChange::Restore => restore(contexts, task),
    }
}
