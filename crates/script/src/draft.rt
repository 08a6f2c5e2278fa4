//! A script as far as it was read.

ghost use Rattle.std.specs.Prelude.{◌≡◌, true, IfOk, Ok};
ghost use Rattle.glyph_font.specs.Reading as fonts;
ghost use Rattle.bitmap.specs.Reading as bitmaps;
ghost use Rattle.script.specs.declared.draft.Block.{Block as BlockOf};
ghost use Rattle.script.specs.declared.draft.Block.TheVariants as block;
ghost use Rattle.script.specs.declared.draft.Stage.TheVariants as stage;
ghost use Rattle.spelling.specs.Words.{left, words_of};
ghost use Rattle.script.specs.Reading.{draft_of, empty_draft, Takes, TakesBlock, IsBlock, IsDraft};
ghost use Rattle.script.specs.Reading.{MayClose, IsClosed, class_after, font_after, bitmap_after, block_after};
ghost use Rattle.script.specs.Reading.{with_block, closed, gone_on, takes_comments};
ghost use Rattle.script.specs.Reading.{after_title, after_screen, after_buffers, after_desktop};
ghost use Rattle.script.specs.Reading.{after_class, after_font, after_bitmap, after_string};
ghost use Rattle.script.specs.Reading.{after_early, after_asset, after_other, after_body, after_block};
ghost use Rattle.script.specs.Reading.{after_words, after_call_line};
ghost use Rattle.script_lines.specs.Fields.{class_in, font_in, bitmap_in, string_in, IsTasks};
ghost use Rattle.script.specs.Scripts.{are_there, plain_class, may_act_with, may_do, locks_with, are_free, script_for};

use crate::fault::{LineError, Reason};
use crate::reasons::{call_reason, drawing_reason, is_asset_word};
use crate::script::Script;
use bitmap::{BitmapDraft, BitmapLineError};
use calls::{Act, Config, Line};
use class_lines::{ClassLine, class_line};
use gfx_base::Colour;
use glyph_font::{FontDraft, FontLineError};
use paint_ops::{Assets, Class, Op};
use script_lines::{
    CallLines, bitmap_in, buffers_in, class_in, desktop_in, font_in, line_in, screen_in, string_in,
};
use spelling::word_at;
use std::alloc::{AllocError, Global};
use std::mem;

/// How many classes a script may have, with the desktop's.
const MOST_CLASSES: usize = 64;

/// How many fonts a script may have.
const MOST_FONTS: usize = 8;

/// How many bitmaps a script may have.
const MOST_BITMAPS: usize = 32;

/// How many operations a class may have.
const MOST_OPERATIONS: usize = 64;

/// How many reactions a class may have.
const MOST_REACTIONS: usize = 16;

/// How many times over a task may hold the lock.
const MOST_LOCKS: u8 = 100;

/// What is said by the lines of a block that is open.
#[derive(Drop)]
pub enum Block {
    Class(Class),
    Font(FontDraft),
    Bitmap(BitmapDraft),
}

/// Which line comes next.
#[derive(Drop)]
pub enum Stage {
    Title,
    Screen,
    Buffers,
    Desktop,
    /// The first line of an asset, or a call.
    Body,
    /// A line of a block.
    Block(Block),
}

/// What the lines so far say.
#[derive(Drop)]
pub struct Draft {
    alloc: Global,
    pub stage: Stage,
    width: u16,
    height: u16,
    buffers: u8,
    desktop: Colour,
    assets: Assets,
    lines: CallLines,
    /// How many locks of each task are open. Tasks are numbered from 1.
    locks: [u8; 17],
}

/// The class that has a back colour alone, or nothing.
fn plain_class(alloc: Global, back: Option<Colour>) -> Class
    ensures { result ≡ plain_class back }
{
    Class {
        back,
        ops: Vec::new(alloc),
        reactions: Vec::new(alloc),
    }
}

#[tactic(auto, unfolding(crate::specs::Reading::after_title))]
fn take_title(draft: &mut Draft, line: &[u8]) -> Result<(), LineError>
    ensures { Takes result draft.new (after_title (draft_of draft.old) line.now) }
{
    if line != b"mtgui 1".as_slice() {
        return Err(LineError::Wrong(Reason::Header));
    }
    draft.stage = Stage::Screen;
    Ok(())
}

#[tactic(auto, unfolding(crate::specs::Reading::after_screen))]
fn take_screen(draft: &mut Draft, line: &[u8]) -> Result<(), LineError>
    ensures { Takes result draft.new (after_screen (draft_of draft.old) line.now) }
{
    let Some((width, height)) = screen_in(line) else {
        return Err(LineError::Wrong(Reason::Header));
    };
    draft.width = width;
    draft.height = height;
    draft.stage = Stage::Buffers;
    Ok(())
}

#[tactic(auto, unfolding(crate::specs::Reading::after_buffers))]
fn take_buffers(draft: &mut Draft, line: &[u8]) -> Result<(), LineError>
    ensures { Takes result draft.new (after_buffers (draft_of draft.old) line.now) }
{
    let Some(buffers) = buffers_in(line) else {
        return Err(LineError::Wrong(Reason::Header));
    };
    draft.buffers = buffers;
    draft.stage = Stage::Desktop;
    Ok(())
}

#[tactic(auto, unfolding(crate::specs::Reading::after_desktop))]
fn take_desktop(draft: &mut Draft, line: &[u8]) -> Result<(), LineError>
    ensures { Takes result draft.new (after_desktop (draft_of draft.old) line.now) }
{
    let Some(colour) = desktop_in(line) else {
        return Err(LineError::Wrong(Reason::Header));
    };
    draft.desktop = colour;
    draft
        .assets
        .classes
        .push(plain_class(draft.alloc, Some(colour)))?;
    draft.stage = Stage::Body;
    Ok(())
}

/// Whether the font, the bitmap and the string that an operation names are there.
fn are_there(assets: &Assets, op: &Op) -> bool
    ensures { result ≡ are_there assets.now op.now }
{
    match op {
        Op::Bitmap(bitmap, ..) => usize::from(*bitmap) < assets.bitmaps.len(),
        Op::Text(font, _, _, _, string) => {
            usize::from(*font) < assets.fonts.len() && usize::from(*string) < assets.strings.len()
        }
        Op::Number(font, ..) => usize::from(*font) < assets.fonts.len(),
        _ => true,
    }
}

/// Takes a line of a class, if it is one. It is never the last.
fn take_class_line(
    class: &mut Class,
    assets: &Assets,
    line: Option<ClassLine>,
) -> Result<bool, LineError>
    ensures { TakesBlock result (block.Class class.new) (class_after assets.now class.old line) }
{
    match line {
        Some(ClassLine::Operation(op))
            if class.ops.len() < MOST_OPERATIONS && are_there(assets, &op) => {
            class.ops.push(op)?;
            Ok(false)
        }
        Some(ClassLine::Reaction(reaction)) if class.reactions.len() < MOST_REACTIONS => {
            class.reactions.push(reaction)?;
            Ok(false)
        }
        _ => Err(LineError::Wrong(Reason::Block)),
    }
}

impl Block {
    /// Takes a line, and tells whether it was the last.
    #[tactic(auto, unfolding(crate::specs::Reading::block_after))]
    fn take(&mut self, assets: &Assets, line: &[u8]) -> Result<bool, LineError>
        requires { IsBlock self.old }
        ensures { TakesBlock result self.new (block_after assets.now self.old line.now) }
    {
        match self {
            Block::Class(_) if line == b"end".as_slice() => Ok(true),
            Block::Class(class) => take_class_line(class, assets, class_line(line)),
            Block::Font(font) => match font.take(line) {
                Ok(()) => Ok(font.is_whole()),
                Err(FontLineError::Memory) => Err(LineError::Memory),
                Err(FontLineError::Wrong) => Err(LineError::Wrong(drawing_reason(line))),
            },
            Block::Bitmap(bitmap) => match bitmap.take(line) {
                Ok(()) => Ok(bitmap.is_whole()),
                Err(BitmapLineError::Memory) => Err(LineError::Memory),
                Err(BitmapLineError::Wrong) => Err(LineError::Wrong(drawing_reason(line))),
            },
        }
    }
}

/// Ends the block that is open, and keeps what it says.
fn close(draft: &mut Draft) -> Result<(), LineError>
    requires { MayClose draft.old.stage }
    ensures { (b : BlockOf) → draft.old.stage ≡ stage.Block b
        → Takes result draft.new (Ok (closed (draft_of draft.old) b)) }
{
    match mem::replace(&mut draft.stage, Stage::Body) {
        Stage::Block(Block::Class(class)) => draft.assets.classes.push(class)?,
        Stage::Block(Block::Font(font)) => draft.assets.fonts.push(font.into_font())?,
        Stage::Block(Block::Bitmap(bitmap)) => draft.assets.bitmaps.push(bitmap.into_bitmap())?,
        _ => {}
    }
    Ok(())
}

/// Takes a line, where a block is open.
fn take_block(draft: &mut Draft, line: &[u8]) -> Result<(), LineError>
    requires { IsDraft (draft_of draft.old) }
    ensures { (b : BlockOf) → draft.old.stage ≡ stage.Block b
        → Takes result draft.new (after_block b (draft_of draft.old) line.now) }
{
    if let Stage::Block(block) = &mut draft.stage
        && block.take(&draft.assets, line)?
    {
        close(draft)
    } else {
        Ok(())
    }
}

/// Takes a line that opens a class, by its words after `class`.
fn take_class(draft: &mut Draft, rest: Option<&[u8]>) -> Result<(), LineError>
    ensures { Takes result draft.new
        (after_class (draft_of draft.old) (class_in (left rest.entry))) }
{
    let Some((number, back)) = class_in(rest) else {
        return Err(LineError::Wrong(Reason::Asset));
    };
    if usize::from(number) != draft.assets.classes.len() {
        return Err(LineError::Wrong(Reason::Asset));
    }
    draft.stage = Stage::Block(Block::Class(plain_class(draft.alloc, back)));
    Ok(())
}

/// Takes a line that opens a font, by its words after `font`.
fn take_font(draft: &mut Draft, rest: Option<&[u8]>) -> Result<(), LineError>
    ensures { Takes result draft.new (after_font (draft_of draft.old) (font_in (left rest.entry))) }
{
    let Some((number, height)) = font_in(rest) else {
        return Err(LineError::Wrong(Reason::Asset));
    };
    if usize::from(number) != draft.assets.fonts.len() {
        return Err(LineError::Wrong(Reason::Asset));
    }
    draft.stage = Stage::Block(Block::Font(FontDraft::new(draft.alloc, height)?));
    Ok(())
}

/// Takes a line that opens a bitmap, by its words after `bitmap`.
fn take_bitmap(draft: &mut Draft, rest: Option<&[u8]>) -> Result<(), LineError>
    ensures { Takes result draft.new
        (after_bitmap (draft_of draft.old) (bitmap_in (left rest.entry))) }
{
    let Some((number, width, height)) = bitmap_in(rest) else {
        return Err(LineError::Wrong(Reason::Asset));
    };
    if usize::from(number) != draft.assets.bitmaps.len() {
        return Err(LineError::Wrong(Reason::Asset));
    }
    draft.stage = Stage::Block(Block::Bitmap(BitmapDraft::new(draft.alloc, width, height)?));
    Ok(())
}

/// Takes a string's line, by its words after `string`.
fn take_string(draft: &mut Draft, rest: Option<&[u8]>) -> Result<(), LineError>
    ensures { Takes result draft.new
        (after_string (draft_of draft.old) (string_in (left rest.entry))) }
{
    let Some((number, text)) = string_in(rest) else {
        return Err(LineError::Wrong(Reason::Asset));
    };
    if usize::from(number) != draft.assets.strings.len() {
        return Err(LineError::Wrong(Reason::Asset));
    }
    draft.assets.strings.push(text)?;
    Ok(())
}

/// Takes an asset's line that stands before the call lines.
fn take_early(draft: &mut Draft, first: &[u8], rest: Option<&[u8]>) -> Result<(), LineError>
    ensures { Takes result draft.new
        (after_early (draft_of draft.old) first.now (left rest.entry)) }
{
    if first == b"class".as_slice() {
        take_class(draft, rest)
    } else if first == b"font".as_slice() {
        take_font(draft, rest)
    } else if first == b"bitmap".as_slice() {
        take_bitmap(draft, rest)
    } else {
        take_string(draft, rest)
    }
}

/// Takes an asset's line, by its first word and the words after it.
#[tactic(auto, unfolding(crate::specs::Reading::after_asset))]
fn take_asset(draft: &mut Draft, first: &[u8], rest: Option<&[u8]>) -> Result<(), LineError>
    ensures { Takes result draft.new
        (after_asset (draft_of draft.old) first.now (left rest.entry)) }
{
    if !draft.lines.is_empty() {
        return Err(LineError::Wrong(Reason::Late));
    }
    take_early(draft, first, rest)
}

/// Takes a line that is no call line.
fn take_other(draft: &mut Draft, text: &[u8]) -> Result<(), LineError>
    ensures { Takes result draft.new (after_other (draft_of draft.old) (words_of text.now)) }
{
    let Some((first, rest)) = word_at(Some(text)) else {
        return Err(LineError::Wrong(Reason::Call));
    };
    if is_asset_word(first) {
        take_asset(draft, first, rest)
    } else {
        Err(LineError::Wrong(call_reason(first)))
    }
}

/// Whether a task with so many open locks may do that.
fn may_act(locks: u8, act: &Act) -> bool
    ensures { result ≡ may_act_with locks act.now }
{
    match act {
        Act::Call(_) => true,
        Act::Lock => locks < MOST_LOCKS,
        Act::Unlock => 0 < locks,
    }
}

/// Whether the open locks of tasks allow a line.
fn may_do(locks: &[u8; 17], line: &Line) -> bool
    requires { IsTasks line.now }
    ensures { result ≡ may_do locks.now line.now }
{
    match line {
        Line::Task { task, act } => may_act(locks[usize::from(*task)], act),
        Line::Tick => true,
    }
}

/// Counts the lock that a line takes or gives back.
fn count_locks(locks: &mut [u8; 17], line: &Line)
    requires task { IsTasks line.now }
    requires may { may_do locks.old line.now ≡ true }
    ensures { locks.new ≡ locks_with locks.old line.now }
{
    if let Line::Task { task, act } = line {
        let task = usize::from(*task);
        match act {
            Act::Call(_) => {}
            Act::Lock => locks[task] += 1,
            Act::Unlock => locks[task] -= 1,
        }
    }
}

/// Takes a call line.
fn take_call(draft: &mut Draft, line: Line) -> Result<(), LineError>
    requires { IsTasks line }
    ensures { Takes result draft.new (after_call_line (draft_of draft.old) line) }
{
    if !may_do(&draft.locks, &line) {
        return Err(LineError::Wrong(Reason::Lock));
    }
    if !draft.lines.have_room(&line) {
        return Err(LineError::Wrong(Reason::Many));
    }
    count_locks(&mut draft.locks, &line);
    draft.lines.push(line)?;
    Ok(())
}

/// Takes a line after the header. Most are call lines, so those come first.
#[tactic(auto, unfolding(crate::specs::Reading::after_body))]
fn take_body(draft: &mut Draft, text: &[u8]) -> Result<(), LineError>
    ensures { Takes result draft.new (after_body (draft_of draft.old) text.now) }
{
    match line_in(text) {
        Some(line) => take_call(draft, line),
        None => take_other(draft, text),
    }
}

impl Draft {
    pub fn new(alloc: Global) -> Result<Draft, AllocError>
        ensures { IfOk result (λ draft. draft_of draft ≡ empty_draft) }
    {
        let assets = Assets {
            classes: Vec::with_capacity(alloc, MOST_CLASSES)?,
            fonts: Vec::with_capacity(alloc, MOST_FONTS)?,
            bitmaps: Vec::with_capacity(alloc, MOST_BITMAPS)?,
            strings: Vec::new(alloc),
        };
        Ok(Draft {
            alloc,
            stage: Stage::Title,
            width: 0,
            height: 0,
            buffers: 0,
            desktop: Colour::default(),
            assets,
            lines: CallLines::new(alloc),
            locks: [0; 17],
        })
    }

    /// Whether comments may stand where the next line does.
    pub fn takes_comments(&self) -> bool
        ensures { result ≡ takes_comments self.now.stage }
    {
        !matches!(self.stage, Stage::Block(Block::Font(_) | Block::Bitmap(_)))
    }

    /// Takes a line that is no comment.
    pub fn take(&mut self, line: &[u8]) -> Result<(), LineError>
        requires { IsDraft (draft_of self.old) }
        ensures { Takes result self.new (after_words self.old.stage (draft_of self.old) line.now) }
    {
        match self.stage {
            Stage::Title => take_title(self, line),
            Stage::Screen => take_screen(self, line),
            Stage::Buffers => take_buffers(self, line),
            Stage::Desktop => take_desktop(self, line),
            Stage::Body => take_body(self, line),
            Stage::Block(_) => take_block(self, line),
        }
    }

    /// Whether no task holds the lock.
    #[tactic(auto, unfolding(crate::specs::Scripts::are_free))]
    pub fn is_free(&self) -> bool
        ensures { result ≡ are_free (draft_of self.now).locks }
    {
        self.locks.iter().all(|count| *count == 0)
    }

    /// The script, where all lines were read.
    pub fn into_script(self) -> Script
        ensures { result ≡ script_for (draft_of self).said }
    {
        Script {
            config: Config {
                w: self.width,
                h: self.height,
                buffers: self.buffers,
                desktop: self.desktop,
                calls: self.lines.call_count(),
            },
            assets: self.assets,
            lines: self.lines.into_lines(),
        }
    }
}
