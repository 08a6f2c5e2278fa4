//! Commands on files and streams in memory: the exit status, and the bytes that are written.

use command_runs::{status_of, store_of};
use mtgui_top::end;
use outside::MemSink;
use std::alloc::Global;
use std::str;
use std::test::*;

/// Room for all that is written.
const ROOM: usize = 10_000;

const FIRST: &str =
    "mtgui 1\nscreen 8 4\nbuffers 1\ndesktop 000000\nclass 1 0000FF\nend\n1 create 1 2 1 3 2 1\n\
    1 exec\n1 scan\n";

const FIRST_PLAYED: &str =
    "ok 2\nok 2\nframe 8 4\n000000*8\n000000*2 0000FF*3 000000*3\n=\n000000*8\n\
    done calls 3 refused 0 shown 0 windows 2\n";

/// A sink for so many bytes. The numbers are those of the writes that fail.
fn sink_of(alloc: Global, room: usize, failing: &[u64]) -> Result<MemSink, Fail> {
    Ok(MemSink::new(alloc, room, Vec::from_slice(alloc, failing)?)?)
}

#[test]
fn a_failed_read_ends_a_command(rt: HostRuntime) -> Result<(), Fail> {
    let alloc = rt.alloc();
    for words in ["play F", "paint F"] {
        let mut out = sink_of(alloc, ROOM, &[])?;
        let answered = status_of(alloc, words, store_of(alloc, FIRST, &[0])?, &mut out)?;
        assert_eq!(rt; answered, 4, "{words}");
        assert!(rt; out.bytes().is_empty(), "{words}");
    }
    Ok(())
}

#[test]
fn a_full_sink_ends_a_command(rt: HostRuntime) -> Result<(), Fail> {
    let alloc = rt.alloc();
    for room in 0..FIRST_PLAYED.len() {
        let mut out = sink_of(alloc, room, &[])?;
        let answered = status_of(alloc, "play F", store_of(alloc, FIRST, &[])?, &mut out)?;
        assert_eq!(rt; answered, 5, "room for {room}");
        assert_eq!(rt; out.bytes(), &FIRST_PLAYED.as_bytes()[..room]);
    }
    let rows = [
        ("paint F", FIRST, 12, "frame 8 4\n00"),
        ("play F", "mtgui 2\n", 7, "fault 1"),
    ];
    for (words, text, room, bytes) in rows {
        let mut out = sink_of(alloc, room, &[])?;
        let answered = status_of(alloc, words, store_of(alloc, text, &[])?, &mut out)?;
        assert_eq!(rt; answered, 5, "{words}: {text}");
        assert_eq!(rt; str::from_utf8(out.bytes())?, bytes, "{words}: {text}");
    }
    Ok(())
}

/// How the play of the first script ends where the write of this number fails: whether with the
/// status of a sink fault after a prefix of its text, or with status 0 after all of it.
fn play_with_failed_write(alloc: Global, number: u64) -> Result<Option<u8>, Fail> {
    let mut out = sink_of(alloc, ROOM, &[number])?;
    let answered = status_of(alloc, "play F", store_of(alloc, FIRST, &[])?, &mut out)?;
    let whole = out.bytes() == FIRST_PLAYED.as_bytes();
    let prefix = FIRST_PLAYED.as_bytes().starts_with(out.bytes());
    let right = match answered {
        0 => whole,
        5 => prefix && !whole,
        _ => false,
    };
    Ok(if right { Some(answered) } else { None })
}

#[test]
fn a_failed_write_ends_a_command(rt: HostRuntime) -> Result<(), Fail> {
    let mut failed = 0u8;
    for number in 0..100 {
        let answered = play_with_failed_write(rt.alloc(), number)?;
        assert!(rt; answered.is_some(), "write {number}");
        if answered == Some(5) {
            failed = failed.saturating_add(1);
        }
    }
    // Three replies, a picture and a summary are written, and no write comes after a failed one.
    assert!(rt; 5 <= failed && failed < 100, "{failed} writes");
    Ok(())
}

#[test]
fn a_process_tells_how_it_ended(rt: HostRuntime) -> Result<(), Fail> {
    let rows = [
        (0, ""),
        (
            2,
            "usage: mtgui play FILE, paint FILE, gen NUMBER SIZE, \
            run FILE [--journal] [--vnc N] [--calls N]\n",
        ),
        (3, "mtgui: script fault\n"),
        (4, "mtgui: store fault\n"),
        (5, "mtgui: sink fault\n"),
        (9, "mtgui: out of memory\n"),
    ];
    for (status, line) in rows {
        let mut err = sink_of(rt.alloc(), ROOM, &[])?;
        let _ = end(status, &mut err);
        assert_eq!(rt; str::from_utf8(err.bytes())?, line, "status {status}");
    }
    Ok(())
}
