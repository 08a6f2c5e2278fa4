//! Sequences of calls on buffers of two points, with the answers and the pictures that they lead
//! to.
ghost use Rattle.std.specs.Prelude.{◌≡◌, ◌≢◌, ◌⊎◌, ◌+◌, ◌-◌, ◌^◌, ◌<◌, ◌≤◌, length};
ghost use Rattle.multibuf.specs.Buffering.{IsEven, KeepsSides};

use gfx_base::{Colour, Memory};
use multibuf::{BeginRefused, Buffers, NotOpen};
use std::alloc::Global;
use std::process::Abort;
use std::test::*;

/// What is done: drawing is begun or ended, the first or the second point gets a colour, or the
/// display is looked at, or shows what waits.
#[derive(Clone, Copy)]
enum Act {
    Begin,
    End,
    First(u32),
    Second(u32),
    See,
    Tick,
}

#[derive(Clone, Copy, Debug, PartialEq, Eq)]
enum Answer {
    Done,
    Number(Option<u32>),
    OpenDepth,
    Waiting(u32),
    NotOpen,
}

/// Gives a point a colour.
fn dot(buffers: &mut Buffers, column: u16, value: u32)
    requires even { IsEven buffers.old }
    requires begun { (buffers.old.count ≢ 0) ⊎ (buffers.old.drawer.buffers ≡ 1) }
    requires width { buffers.old.width ≡ 2 }
    requires height { buffers.old.height ≡ 1 }
    requires inside { column < 2 }
    ensures even { IsEven buffers.new }
    ensures sides { KeepsSides buffers.old buffers.new }
    ensures drawer { buffers.new.drawer ≡ buffers.old.drawer }
    ensures switches { buffers.new.switches ≡ buffers.old.switches }
{
    buffers
        .target()
        .put(column, 0, Colour::new(value).unwrap_or_default());
}

/// Gives a point a colour, where drawing was begun or there is one buffer.
fn draw(buffers: &mut Buffers, n: u8, column: u16, value: u32) -> Answer
    requires even { IsEven buffers.old }
    requires width { buffers.old.width ≡ 2 }
    requires height { buffers.old.height ≡ 1 }
    requires count { buffers.old.drawer.buffers ≡ n }
    requires inside { column < 2 }
    ensures even { IsEven buffers.new }
    ensures sides { KeepsSides buffers.old buffers.new }
    ensures drawer { buffers.new.drawer ≡ buffers.old.drawer }
    ensures switches { buffers.new.switches ≡ buffers.old.switches }
{
    if n != 1 && buffers.count() == 0 {
        return Answer::NotOpen;
    }
    dot(buffers, column, value);
    Answer::Done
}

/// Does this, but for a tick.
fn perform(buffers: &mut Buffers, n: u8, act: Act) -> Answer
    requires even { IsEven buffers.old }
    requires width { buffers.old.width ≡ 2 }
    requires height { buffers.old.height ≡ 1 }
    requires count { buffers.old.drawer.buffers ≡ n }
    requires room { buffers.old.switches < 2 ^ 32 - 1 }
    ensures even { IsEven buffers.new }
    ensures alone { buffers.new.drawer.alone ≡ buffers.old.drawer.alone }
    ensures sides { KeepsSides buffers.old buffers.new }
    ensures count { buffers.new.drawer.buffers ≡ n }
    ensures switches { buffers.new.switches ≤ buffers.old.switches + 1 }
{
    match act {
        Act::Begin => match buffers.begin() {
            Ok(()) => Answer::Done,
            Err(BeginRefused::OpenDepth) => Answer::OpenDepth,
            Err(BeginRefused::Waiting(number)) => Answer::Waiting(number),
        },
        Act::End => match buffers.end() {
            Ok(number) => Answer::Number(number),
            Err(NotOpen) => Answer::NotOpen,
        },
        Act::First(value) => draw(buffers, n, 0, value),
        Act::Second(value) => draw(buffers, n, 1, value),
        Act::See => Answer::Number(buffers.see()),
        Act::Tick => Answer::Done,
    }
}

/// The colours of the two points of the frame that is shown.
fn shown(buffers: &Buffers) -> (u32, u32)
    requires even { IsEven buffers.now }
    requires width { buffers.now.width ≡ 2 }
    requires height { buffers.now.height ≡ 1 }
{
    let frame = buffers.shown();
    let _width = frame.width();
    (frame.get(0, 0).value(), frame.get(1, 0).value())
}

const RED: u32 = 0xFF_0000;

const GREEN: u32 = 0x00_FF00;

/// What is done, what the answer is, and which two colours are shown then.
#[derive(Clone, Copy)]
struct Row {
    act: Act,
    answer: Answer,
    shown: (u32, u32),
}

fn row_of(act: Act, answer: Answer, shown: (u32, u32)) -> Row {
    Row { act, answer, shown }
}

/// Goes through the rows on buffers that are opened alone.
fn play_alone(rt: &impl Abort, alloc: Global, n: u8, rows: &[Row]) -> Result<(), Memory>
    requires some { 1 ≤ n }
    requires few { n ≤ 3 }
    requires short { length rows.now ≤ 1000 }
{
    let mut buffers = Buffers::open_alone(alloc, 2, 1, n)?;
    for row in rows {
        let answer = match row.act {
            Act::Tick => Answer::Number(buffers.tick()),
            act => perform(&mut buffers, n, act),
        };
        assert_eq!(rt; answer, row.answer);
        assert_eq!(rt; shown(&buffers), row.shown);
    }
    Ok(())
}

/// Goes through the rows on buffers whose display has a controller. A tick answers an index.
fn play_parted(rt: &impl Abort, alloc: Global, n: u8, rows: &[Row]) -> Result<(), Memory>
    requires some { 1 ≤ n }
    requires few { n ≤ 3 }
    requires short { length rows.now ≤ 1000 }
{
    let (mut buffers, mut controller) = Buffers::open(alloc, 2, 1, n)?;
    for row in rows {
        let answer = match row.act {
            Act::Tick => Answer::Number(controller.tick().map(u32::from)),
            act => perform(&mut buffers, n, act),
        };
        assert_eq!(rt; answer, row.answer);
        assert_eq!(rt; shown(&buffers), row.shown);
    }
    Ok(())
}

#[test]
fn two_buffers_refuse_while_a_switch_waits(rt: HostRuntime) -> Result<(), Fail> {
    let rows = [
        row_of(Act::Begin, Answer::Done, (0, 0)),
        row_of(Act::First(RED), Answer::Done, (0, 0)),
        row_of(Act::End, Answer::Number(None), (0, 0)),
        row_of(Act::Begin, Answer::Waiting(1), (0, 0)),
        row_of(Act::Tick, Answer::Number(Some(1)), (RED, 0)),
        row_of(Act::Tick, Answer::Number(None), (RED, 0)),
        row_of(Act::Begin, Answer::Done, (RED, 0)),
        row_of(Act::Second(GREEN), Answer::Done, (RED, 0)),
        row_of(Act::End, Answer::Number(None), (RED, 0)),
        row_of(Act::Begin, Answer::Waiting(2), (RED, 0)),
        row_of(Act::Tick, Answer::Number(Some(2)), (RED, GREEN)),
        row_of(Act::End, Answer::NotOpen, (RED, GREEN)),
    ];
    play_alone(&rt, rt.alloc(), 2, &rows)?;
    Ok(())
}

#[test]
fn a_replaced_picture_is_drawn_on_further(rt: HostRuntime) -> Result<(), Fail> {
    let rows = [
        row_of(Act::Begin, Answer::Done, (0, 0)),
        row_of(Act::End, Answer::Number(None), (0, 0)),
        row_of(Act::Tick, Answer::Number(Some(1)), (0, 0)),
        row_of(Act::Begin, Answer::Done, (0, 0)),
        row_of(Act::First(RED), Answer::Done, (0, 0)),
        row_of(Act::End, Answer::Number(None), (0, 0)),
        row_of(Act::Begin, Answer::Done, (0, 0)),
        row_of(Act::Second(GREEN), Answer::Done, (0, 0)),
        row_of(Act::End, Answer::Number(None), (0, 0)),
        row_of(Act::Tick, Answer::Number(Some(3)), (RED, GREEN)),
        row_of(Act::Tick, Answer::Number(None), (RED, GREEN)),
    ];
    play_alone(&rt, rt.alloc(), 3, &rows)?;
    Ok(())
}

#[test]
fn only_the_outermost_end_asks_for_a_switch(rt: HostRuntime) -> Result<(), Fail> {
    let rows = [
        row_of(Act::Begin, Answer::Done, (0, 0)),
        row_of(Act::First(RED), Answer::Done, (0, 0)),
        row_of(Act::Begin, Answer::Done, (0, 0)),
        row_of(Act::End, Answer::Number(None), (0, 0)),
        row_of(Act::Tick, Answer::Number(None), (0, 0)),
        row_of(Act::Second(RED), Answer::Done, (0, 0)),
        row_of(Act::End, Answer::Number(None), (0, 0)),
        row_of(Act::End, Answer::NotOpen, (0, 0)),
        row_of(Act::Tick, Answer::Number(Some(1)), (RED, RED)),
    ];
    play_alone(&rt, rt.alloc(), 3, &rows)?;
    Ok(())
}

#[test]
fn one_buffer_is_drawn_on_as_it_is_shown(rt: HostRuntime) -> Result<(), Fail> {
    let rows = [
        row_of(Act::First(RED), Answer::Done, (RED, 0)),
        row_of(Act::Begin, Answer::Done, (RED, 0)),
        row_of(Act::Second(GREEN), Answer::Done, (RED, GREEN)),
        row_of(Act::End, Answer::Number(None), (RED, GREEN)),
        row_of(Act::Tick, Answer::Number(None), (RED, GREEN)),
        row_of(Act::End, Answer::NotOpen, (RED, GREEN)),
    ];
    play_alone(&rt, rt.alloc(), 1, &rows)?;
    Ok(())
}

#[test]
fn confirmations_are_found_by_see_and_by_end(rt: HostRuntime) -> Result<(), Fail> {
    let rows = [
        row_of(Act::Begin, Answer::Done, (0, 0)),
        row_of(Act::First(RED), Answer::Done, (0, 0)),
        row_of(Act::End, Answer::Number(None), (0, 0)),
        row_of(Act::Tick, Answer::Number(Some(1)), (0, 0)),
        row_of(Act::See, Answer::Number(Some(1)), (RED, 0)),
        row_of(Act::See, Answer::Number(None), (RED, 0)),
        row_of(Act::Begin, Answer::Done, (RED, 0)),
        row_of(Act::Second(GREEN), Answer::Done, (RED, 0)),
        row_of(Act::End, Answer::Number(None), (RED, 0)),
        row_of(Act::Begin, Answer::Done, (RED, 0)),
        row_of(Act::Tick, Answer::Number(Some(0)), (RED, 0)),
        row_of(Act::End, Answer::Number(Some(2)), (RED, GREEN)),
        row_of(Act::Tick, Answer::Number(Some(2)), (RED, GREEN)),
        row_of(Act::See, Answer::Number(Some(3)), (RED, GREEN)),
    ];
    play_parted(&rt, rt.alloc(), 3, &rows)?;
    Ok(())
}

#[test]
fn a_begin_does_not_look_at_the_display(rt: HostRuntime) -> Result<(), Fail> {
    let rows = [
        row_of(Act::Begin, Answer::Done, (0, 0)),
        row_of(Act::End, Answer::Number(None), (0, 0)),
        row_of(Act::Tick, Answer::Number(Some(1)), (0, 0)),
        row_of(Act::Begin, Answer::Waiting(1), (0, 0)),
        row_of(Act::See, Answer::Number(Some(1)), (0, 0)),
        row_of(Act::Begin, Answer::Done, (0, 0)),
    ];
    play_parted(&rt, rt.alloc(), 2, &rows)?;
    Ok(())
}

#[test]
fn drawing_is_begun_a_hundred_times_at_most(rt: HostRuntime) -> Result<(), Fail> {
    let mut rows = [row_of(Act::Begin, Answer::Done, (0, 0)); 103];
    rows[100] = row_of(Act::Begin, Answer::OpenDepth, (0, 0));
    rows[101] = row_of(Act::End, Answer::Number(None), (0, 0));
    for n in 1..4u8 {
        play_alone(&rt, rt.alloc(), n, &rows)?;
    }
    Ok(())
}
