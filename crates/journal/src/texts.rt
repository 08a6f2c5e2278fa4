ghost use Rattle.std.specs.Prelude.{◌≡◌, ◌+◌, ◌*◌, ◌<◌, ◌≤◌, ◌++◌, length, option_map, codes};
ghost use Rattle.outside.specs.Logs.{Wrote};
ghost use Rattle.frame.specs.Pictures.{row_at, row_above};
ghost use Rattle.journal.specs.Texts.{row_line, frame_header, frame_text, refusal_text, done_text};
ghost use Rattle.journal.specs.Texts.{reply_text, tick_text, summary_text, fault_text};

use crate::colours::{RowRoom, push_points};
use calls::{Call, Refusal, Reply};
use frame::Frame;
use gfx_base::Colour;
use itoa::Integer;
use outside::{Sink, SinkFault};
use spelling::LineRoom;

/// Room for any other line than a row's.
type ShortRoom = LineRoom<256>;

/// Pushes a row's line, which tells whether the row above is the same.
fn push_row(room: &mut RowRoom, above: Option<&[Colour]>, row: &[Colour])
    requires some { (1 ≤ length row.now) × (length row.now ≤ 1024) }
    requires room { length room.old + 7 * length row.now ≤ 7168 }
    ensures { room.new ≡ room.old ++ row_line (option_map (λ row. row.now) above.entry) row.now }
{
    let Some(above) = above else {
        push_points(room, row);
        return;
    };
    if above == row {
        room.push_bytes(b"=\n");
    } else {
        push_points(room, row);
    }
}

/// The colours of a row, of which there are from 1 to 1,024.
fn row_of(frame: &Frame, y: u16) -> &[Colour]
    requires { y < frame.now.picture.height }
    ensures value { result.now ≡ row_at frame.now.picture y }
    ensures some { (1 ≤ length result.now) × (length result.now ≤ 1024) }
{
    // Its clause says that the frame has from 1 to 1,024 columns.
    let _ = frame.width();
    frame.row(y)
}

fn write_row<K: Sink>(
    out: &mut K,
    room: &mut RowRoom,
    frame: &Frame,
    y: u16,
) -> Result<(), SinkFault>
    requires { y < frame.now.picture.height }
    ensures { Wrote result (K.log out.old) (K.log out.new)
        (row_line (row_above frame.now.picture y) (row_at frame.now.picture y)) }
{
    room.clear();
    let row = row_of(frame, y);
    if y == 0 {
        push_row(room, None, row);
    } else {
        push_row(room, Some(row_of(frame, y - 1)), row);
    }
    out.write(room.line())
}

fn write_header<K: Sink>(out: &mut K, frame: &Frame) -> Result<(), SinkFault>
    ensures { Wrote result (K.log out.old) (K.log out.new) (frame_header frame.now.picture) }
{
    let mut room = ShortRoom::new();
    room.push_bytes(b"frame ");
    room.push_number(frame.width());
    room.push(b' ');
    room.push_number(frame.height());
    room.push(b'\n');
    out.write(room.line())
}

/// Writes a picture: a line with its sides in points, and a line for each row, from the top. A
/// row's line names the longest runs of points of one colour from the left, as `RRGGBB` or
/// `RRGGBB*n`, or is `=` where the row above is the same. After a fault of the sink a prefix of
/// this was written.
pub fn write_frame<K: Sink>(out: &mut K, f: &Frame) -> Result<(), SinkFault>
    ensures { Wrote result (K.log out.old) (K.log out.new) (frame_text f.now.picture) }
{
    write_header(out, f)?;
    let mut room = RowRoom::new();
    for y in 0..f.height() {
        write_row(out, &mut room, f, y)?;
    }
    Ok(())
}

/// Writes a line with a number: the bytes before it and its digits.
fn write_number<K: Sink, I: Integer>(out: &mut K, name: &[u8], number: I) -> Result<(), SinkFault>
    requires { length name.now + I.MAX_STR_LEN < 256 }
    ensures { Wrote result (K.log out.old) (K.log out.new)
        (name.now ++ I.text number ++ codes "\n") }
{
    let mut room = ShortRoom::new();
    room.push_bytes(name);
    room.push_number(number);
    room.push(b'\n');
    out.write(room.line())
}

fn write_refusal<K: Sink>(out: &mut K, refusal: &Refusal) -> Result<(), SinkFault>
    ensures { Wrote result (K.log out.old) (K.log out.new) (refusal_text refusal.now) }
{
    match refusal {
        Refusal::NoWindow(handle) => write_number(out, b"refused NoWindow ", *handle),
        Refusal::Desktop => out.write(b"refused Desktop\n"),
        Refusal::BadSize => out.write(b"refused BadSize\n"),
        Refusal::TooManyWindows => out.write(b"refused TooManyWindows\n"),
        Refusal::TooDeep => out.write(b"refused TooDeep\n"),
        Refusal::NoClass(class) => write_number(out, b"refused NoClass ", *class),
        Refusal::NoValue(index) => write_number(out, b"refused NoValue ", *index),
        Refusal::NoFont(font) => write_number(out, b"refused NoFont ", *font),
        Refusal::ContextDepth => out.write(b"refused ContextDepth\n"),
        Refusal::NoContext => out.write(b"refused NoContext\n"),
        Refusal::NoBitmap(bitmap) => write_number(out, b"refused NoBitmap ", *bitmap),
        Refusal::NoText(string) => write_number(out, b"refused NoText ", *string),
        Refusal::NoDevice(device) => write_number(out, b"refused NoDevice ", *device),
        Refusal::TooManyDevices => out.write(b"refused TooManyDevices\n"),
        Refusal::NotOpen => out.write(b"refused NotOpen\n"),
        Refusal::OpenDepth => out.write(b"refused OpenDepth\n"),
        Refusal::Waiting(switch) => write_number(out, b"refused Waiting ", *switch),
        Refusal::Full => out.write(b"refused Full\n"),
        Refusal::Memory => out.write(b"refused Memory\n"),
    }
}

fn write_done<K: Sink>(out: &mut K, call: &Call, shown: &Frame) -> Result<(), SinkFault>
    ensures { Wrote result (K.log out.old) (K.log out.new) (done_text call.now shown.now.picture) }
{
    match call {
        Call::Scan => write_frame(out, shown),
        _ => out.write(b"ok\n"),
    }
}

/// Writes the answer to a call: a line, or the shown picture where a scan was done. `_taken` are
/// the bytes that a viewer is to get, which no call of today gives. After a fault of the sink a
/// prefix of this was written.
pub fn write_reply<K: Sink>(
    out: &mut K,
    call: &Call,
    reply: &Reply,
    _taken: &[u8],
    shown: &Frame,
) -> Result<(), SinkFault>
    ensures { Wrote result (K.log out.old) (K.log out.new)
        (reply_text call.now reply.now shown.now.picture) }
{
    match reply {
        Reply::Done => write_done(out, call, shown),
        Reply::Handle(handle) => write_number(out, b"ok ", *handle),
        Reply::Jobs(count) => write_number(out, b"ok ", *count),
        Reply::Device(device) => write_number(out, b"ok ", *device),
        Reply::Refused(refusal) => write_refusal(out, refusal),
    }
}

/// Writes the line of a tick: whether a buffer was confirmed.
pub fn write_tick<K: Sink>(out: &mut K, shown: bool) -> Result<(), SinkFault>
    ensures { Wrote result (K.log out.old) (K.log out.new) (tick_text shown) }
{
    if shown {
        out.write(b"shown\n")
    } else {
        out.write(b"nothing\n")
    }
}

/// Writes the last line: how many calls there were, how many of them were refused, how many
/// pictures were shown, and how many windows live.
pub fn write_summary<K: Sink>(
    out: &mut K,
    calls: usize,
    refused: usize,
    shown: usize,
    windows: usize,
) -> Result<(), SinkFault>
    ensures { Wrote result (K.log out.old) (K.log out.new)
        (summary_text calls refused shown windows) }
{
    let mut room = ShortRoom::new();
    room.push_bytes(b"done calls ");
    room.push_number(calls);
    room.push_bytes(b" refused ");
    room.push_number(refused);
    room.push_bytes(b" shown ");
    room.push_number(shown);
    room.push_bytes(b" windows ");
    room.push_number(windows);
    room.push(b'\n');
    out.write(room.line())
}

/// Writes the line for a script's fault: at which line, and why, in at most 20 bytes.
pub fn write_fault<K: Sink>(out: &mut K, line: u32, reason: &[u8]) -> Result<(), SinkFault>
    requires { length reason.now ≤ 20 }
    ensures { Wrote result (K.log out.old) (K.log out.new) (fault_text line reason.now) }
{
    let mut room = ShortRoom::new();
    room.push_bytes(b"fault ");
    room.push_number(line);
    room.push(b' ');
    room.push_bytes(reason);
    room.push(b'\n');
    out.write(room.line())
}
