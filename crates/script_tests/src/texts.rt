//! The texts that are written.

use calls::{Call, Refusal, Reply};
use frame::Frame;
use gfx_base::Colour;
use journal::{write_fault, write_frame, write_reply, write_summary, write_tick};
use outside::{MemSink, Sink};
use std::alloc::Global;

/// A sink for `most` bytes whose write of that number, from 0 on, fails.
fn sink(alloc: Global, most: usize, failing: u64) -> Option<MemSink> {
    let failing = Vec::from_slice(alloc, &[failing]).ok()?;
    MemSink::new(alloc, most, failing).ok()
}

/// A black frame of eight by four points, with these points in a colour.
fn coloured(alloc: Global, value: u32, points: &[(u16, u16)]) -> Option<Frame> {
    let mut frame = Frame::new(alloc, 8, 4).ok()?;
    let colour = Colour::new(value)?;
    for (x, y) in points {
        if *x < frame.width() && *y < frame.height() {
            frame.put(*x, *y, colour);
        }
    }
    Some(frame)
}

const BLUE_POINTS: [(u16, u16); 6] = [(2, 1), (3, 1), (4, 1), (2, 2), (3, 2), (4, 2)];

const STRIPED_FRAME: &[u8] = b"frame 8 4\n000000*8\n000000*2 0000FF*3 000000*3\n=\n000000*8\n";

/// Colours and points, with the text of the frame.
const FRAMES: [(u32, &[(u16, u16)], &[u8]); 2] = [
    (255, &BLUE_POINTS, STRIPED_FRAME),
    (
        0xAB_CDEF,
        &[(7, 1), (0, 3)],
        b"frame 8 4\n000000*8\n000000*7 ABCDEF\n000000*8\nABCDEF 000000*7\n",
    ),
];

/// Whether a frame is written as this text, in five writes.
fn is_written(alloc: Global, frame: &Frame, text: &[u8]) -> bool {
    let Some(mut out) = sink(alloc, 100, 5) else {
        return false;
    };
    write_frame(&mut out, frame).is_ok() && out.bytes() == text && out.write(b"x").is_err()
}

fn is_coloured_written(alloc: Global, value: u32, points: &[(u16, u16)], text: &[u8]) -> bool {
    match coloured(alloc, value, points) {
        Some(frame) => is_written(alloc, &frame, text),
        None => false,
    }
}

#[test]
fn a_frame_has_a_line_for_each_row(rt: HostRuntime) {
    for (value, points, text) in FRAMES {
        assert!(rt;
            is_coloured_written(rt.alloc(), value, points, text),
            "{value}"
        );
    }
}

/// What is written of the striped frame into room for so many bytes where that write fails.
const PREFIXES: [(usize, u64, &str); 8] = [
    (100, 0, ""),
    (100, 1, "frame 8 4\n"),
    (100, 2, "frame 8 4\n000000*8\n"),
    (100, 3, "frame 8 4\n000000*8\n000000*2 0000FF*3 000000*3\n"),
    (
        100,
        4,
        "frame 8 4\n000000*8\n000000*2 0000FF*3 000000*3\n=\n",
    ),
    (0, 9, ""),
    (12, 9, "frame 8 4\n00"),
    (
        55,
        9,
        "frame 8 4\n000000*8\n000000*2 0000FF*3 000000*3\n=\n000000*",
    ),
];

/// Whether just this prefix of the striped frame is written, and the fault is counted.
fn is_prefix(alloc: Global, most: usize, failing: u64, prefix: &str) -> bool {
    let Some(frame) = coloured(alloc, 255, &BLUE_POINTS) else {
        return false;
    };
    let Some(mut out) = sink(alloc, most, failing) else {
        return false;
    };
    write_frame(&mut out, &frame).is_err() && out.bytes() == prefix.as_bytes() && out.faults() == 1
}

#[test]
fn a_frame_stops_where_the_sink_fails(rt: HostRuntime) {
    for (most, failing, prefix) in PREFIXES {
        assert!(rt; is_prefix(rt.alloc(), most, failing, prefix), "{prefix}");
    }
}

const CREATE: Call = Call::Create {
    parent: 1,
    x: -1,
    y: 2,
    w: 0,
    h: 4,
    class: 5,
};

const BITMAP: Call = Call::Bitmap {
    bitmap: 0,
    x: -1,
    y: 2,
};

const TEXT: Call = Call::Text {
    x: -1,
    y: 2,
    string: 0,
};

/// Calls, what they are answered, and the answer's line.
const ANSWERS: [(Call, Reply, &str); 26] = [
    (Call::Exec, Reply::Done, "ok\n"),
    (CREATE, Reply::Handle(70_000), "ok 70000\n"),
    (Call::Exec, Reply::Jobs(12), "ok 12\n"),
    (Call::Show { h: 2 }, Reply::Done, "ok\n"),
    (
        Call::Hide { h: 9 },
        Reply::Refused(Refusal::NoWindow(9)),
        "refused NoWindow 9\n",
    ),
    (
        Call::Hide { h: 1 },
        Reply::Refused(Refusal::Desktop),
        "refused Desktop\n",
    ),
    (
        CREATE,
        Reply::Refused(Refusal::TooDeep),
        "refused TooDeep\n",
    ),
    (
        CREATE,
        Reply::Refused(Refusal::BadSize),
        "refused BadSize\n",
    ),
    (
        CREATE,
        Reply::Refused(Refusal::NoClass(5)),
        "refused NoClass 5\n",
    ),
    (
        CREATE,
        Reply::Refused(Refusal::TooManyWindows),
        "refused TooManyWindows\n",
    ),
    (
        Call::Font { font: 255 },
        Reply::Refused(Refusal::NoFont(255)),
        "refused NoFont 255\n",
    ),
    (
        Call::Save,
        Reply::Refused(Refusal::ContextDepth),
        "refused ContextDepth\n",
    ),
    (
        Call::Restore,
        Reply::Refused(Refusal::NoContext),
        "refused NoContext\n",
    ),
    (BITMAP, Reply::Done, "ok\n"),
    (
        BITMAP,
        Reply::Refused(Refusal::NoBitmap(0)),
        "refused NoBitmap 0\n",
    ),
    (
        TEXT,
        Reply::Refused(Refusal::NoText(0)),
        "refused NoText 0\n",
    ),
    (
        TEXT,
        Reply::Refused(Refusal::NoText(255)),
        "refused NoText 255\n",
    ),
    (
        Call::DevCreate { w: 1, h: 2 },
        Reply::Device(u32::MAX),
        "ok 4294967295\n",
    ),
    (
        Call::DevCreate { w: 1, h: 2 },
        Reply::Refused(Refusal::TooManyDevices),
        "refused TooManyDevices\n",
    ),
    (
        Call::DevCreate { w: 1, h: 2 },
        Reply::Refused(Refusal::Memory),
        "refused Memory\n",
    ),
    (
        Call::Begin,
        Reply::Refused(Refusal::OpenDepth),
        "refused OpenDepth\n",
    ),
    (
        Call::End,
        Reply::Refused(Refusal::NotOpen),
        "refused NotOpen\n",
    ),
    (
        Call::Exec1,
        Reply::Refused(Refusal::Waiting(u32::MAX)),
        "refused Waiting 4294967295\n",
    ),
    (Call::Exec, Reply::Refused(Refusal::Full), "refused Full\n"),
    (Call::DevSelect { device: 0 }, Reply::Done, "ok\n"),
    (
        Call::DevDelete { device: 7 },
        Reply::Refused(Refusal::NoDevice(7)),
        "refused NoDevice 7\n",
    ),
];

/// Whether an answer is written as this text, in one write, and a sink that fails gets nothing.
fn is_answer(alloc: Global, frame: &Frame, call: &Call, reply: &Reply, text: &str) -> bool {
    let Some(mut out) = sink(alloc, 100, 1) else {
        return false;
    };
    write_reply(&mut out, call, reply, b"", frame).is_ok()
        && write_reply(&mut out, call, reply, b"", frame).is_err()
        && out.bytes() == text.as_bytes()
        && out.faults() == 1
}

#[test]
fn each_answer_is_one_write(rt: HostRuntime) {
    let frame = coloured(rt.alloc(), 255, &BLUE_POINTS).expect(&rt, "a frame");
    for (call, reply, text) in ANSWERS {
        assert!(rt;
            is_answer(rt.alloc(), &frame, &call, &reply, text),
            "{text}"
        );
    }
}

/// Whether a scan is answered by the striped frame where that is shown.
fn is_scan_answered(alloc: Global) -> bool {
    let Some(frame) = coloured(alloc, 255, &BLUE_POINTS) else {
        return false;
    };
    let Some(mut out) = sink(alloc, 100, 5) else {
        return false;
    };
    write_reply(&mut out, &Call::Scan, &Reply::Done, b"", &frame).is_ok()
        && out.bytes() == STRIPED_FRAME
}

#[test]
fn a_scan_is_answered_by_the_shown_frame(rt: HostRuntime) {
    assert!(rt; is_scan_answered(rt.alloc()));
}

const LAST_LINES: &[u8] =
    b"shown\nnothing\ndone calls 50 refused 1 shown 22 windows 3\nfault 7 syntax\n";

/// Whether these four lines are written in four writes.
fn are_last_lines_written(alloc: Global) -> bool {
    let Some(mut out) = sink(alloc, 100, 4) else {
        return false;
    };
    write_tick(&mut out, true).is_ok()
        && write_tick(&mut out, false).is_ok()
        && write_summary(&mut out, 50, 1, 22, 3).is_ok()
        && write_fault(&mut out, 7, b"syntax").is_ok()
        && write_fault(&mut out, 7, b"syntax").is_err()
        && out.bytes() == LAST_LINES
}

#[test]
fn ticks_the_last_line_and_a_fault_are_one_write_each(rt: HostRuntime) {
    assert!(rt; are_last_lines_written(rt.alloc()));
}
