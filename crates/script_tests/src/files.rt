//! Files that are read, and sinks that are written to.

use outside::{
    FileStore, MemSink, MemStore, NamedFile, ReadRefused, Sink, StdSink, Store, StreamSink,
    read_prefix,
};
use std::alloc::Global;
use std::fs;
use std::io::{self, ErrorKind, Read, Write};

/// A store whose one file is `a`, and whose read of that number, from 0 on, fails.
fn store(alloc: Global, failing: u64) -> Option<MemStore> {
    let mut files = Vec::new(alloc);
    let file = NamedFile {
        name: String::from_str(alloc, "a").ok()?,
        bytes: Vec::from_slice(alloc, b"red green").ok()?,
    };
    files.push(file).ok()?;
    Some(MemStore::new(files, Vec::from_slice(alloc, &[failing]).ok()?))
}

/// Whether the store has this prefix of a file, or the read fails and its name is kept.
fn gives<S: Store>(files: &mut S, alloc: Global, name: &str, limit: usize, want: &str) -> bool {
    match files.read(alloc, name, limit) {
        Ok(bytes) => bytes.as_slice() == want.as_bytes(),
        Err(ReadRefused::Failed) => want == "fails" && files.failed() == Some(name),
        Err(ReadRefused::Memory) => false,
    }
}

/// Reads in order: a name, how many bytes, and what is read. The second is to fail.
const READS: [(&str, usize, &str); 5] = [
    ("b", 3, "fails"),
    ("a", 3, "fails"),
    ("a", 3, "red"),
    ("a", 100, "red green"),
    ("a", 0, ""),
];

fn are_reads_answered(alloc: Global) -> bool {
    let Some(mut files) = store(alloc, 1) else {
        return false;
    };
    let is_new = files.failed().is_none();
    for (name, limit, want) in READS {
        if !gives(&mut files, alloc, name, limit, want) {
            return false;
        }
    }
    is_new && files.faults() == 2 && files.failed() == Some("a")
}

#[test]
fn a_store_in_memory_fails_at_missing_names_and_as_planned(rt: HostRuntime) {
    assert!(rt; are_reads_answered(rt.alloc()));
}

/// A sink for five bytes, whose write of number 1 fails.
fn small_sink(alloc: Global) -> Option<MemSink> {
    let failing = Vec::from_slice(alloc, &[1]).ok()?;
    MemSink::new(alloc, 5, failing).ok()
}

/// Writes in order: a piece, whether it is written whole, and what was written so far.
const WRITES: [(&str, bool, &str); 4] = [
    ("red", true, "red"),
    ("x", false, "red"),
    ("blue", false, "redbl"),
    ("", true, "redbl"),
];

fn are_writes_answered(alloc: Global) -> bool {
    let Some(mut out) = small_sink(alloc) else {
        return false;
    };
    for (piece, is_whole, so_far) in WRITES {
        if out.write(piece.as_bytes()).is_ok() != is_whole || out.bytes() != so_far.as_bytes() {
            return false;
        }
    }
    out.faults() == 2
}

#[test]
fn a_sink_in_memory_takes_what_fits(rt: HostRuntime) {
    assert!(rt; are_writes_answered(rt.alloc()));
}

/// Whether a store gives the prefix of the file of 70,000 times `x`.
fn gives_prefix<S: Store>(files: &mut S, alloc: Global, limit: usize, count: usize) -> bool {
    match files.read(alloc, "long", limit) {
        Ok(bytes) => bytes.len() == count && bytes.iter().all(|b| *b == b'x'),
        Err(_) => false,
    }
}

#[test]
fn files_are_read_from_the_system(rt: HostRuntime) {
    assert!(rt; fs::write(&rt, "long", [b'x'; 70_000].as_slice()).is_ok());
    let mut files = FileStore::new(rt);
    assert!(rt; files.failed().is_none());
    assert!(rt; gives(&mut files, rt.alloc(), "no such file", 3, "fails"));
    for (limit, count) in [(0, 0), (3, 3), (66_000, 66_000), (100_000, 70_000)] {
        assert!(rt;
            gives_prefix(&mut files, rt.alloc(), limit, count),
            "{limit}"
        );
    }
    assert!(rt; fs::remove_file(&rt, "long").is_ok());
    assert!(rt; files.faults() == 1);
}

#[test]
fn pieces_go_to_the_standard_output(rt: HostRuntime) {
    let mut out = StdSink::new(rt);
    assert!(rt; out.write(b"").is_ok() && out.write(b"red\n").is_ok());
    assert!(rt; out.faults() == 0);
}

fn is_prefix(alloc: Global, limit: usize, want: &str) -> bool {
    match read_prefix(alloc, b"red green".as_slice(), limit) {
        Ok(bytes) => bytes.as_slice() == want.as_bytes(),
        Err(_) => false,
    }
}

#[test]
fn the_prefix_of_a_reader(rt: HostRuntime) {
    for (limit, want) in [(0, ""), (3, "red"), (9, "red green"), (100, "red green")] {
        assert!(rt; is_prefix(rt.alloc(), limit, want), "{limit}");
    }
}

/// Whether a sink that takes five bytes takes `red`, and of `blue` a prefix.
fn takes_five(out: &mut impl Sink) -> bool {
    out.write(b"red").is_ok()
        && out.write(b"").is_ok()
        && out.write(b"blue").is_err()
        && out.write(b"x").is_err()
        && out.faults() == 2
}

#[test]
fn a_writer_is_a_sink_for_what_it_takes(rt: HostRuntime) {
    let mut room = [b'.'; 5];
    assert!(rt; takes_five(&mut StreamSink::new(room.as_mut_slice())));
    assert!(rt; room.as_slice() == b"redbl".as_slice());
}

/// A reader and writer of a byte at a time, whose call of one number, from 0 on, fails.
#[derive(Drop)]
struct Faulty {
    calls: u32,
    failing: u32,
    kind: ErrorKind,
}

impl Faulty {
    /// Counts the next call, and tells how it fails.
    fn next(&mut self) -> io::Result<()> {
        let number = self.calls;
        self.calls = number.saturating_add(1);
        if number == self.failing {
            return Err(io::Error::from(self.kind));
        }
        Ok(())
    }
}

impl Read for Faulty {
    fn read(&mut self, buf: &mut [u8]) -> io::Result<usize> {
        self.next()?;
        if buf.is_empty() {
            return Ok(0);
        }
        buf[0] = b'x';
        Ok(1)
    }
}

impl Write for Faulty {
    fn write(&mut self, buf: &[u8]) -> io::Result<usize> {
        self.next()?;
        Ok(buf.len().min(1))
    }

    fn flush(&mut self) -> io::Result<()> {
        Ok(())
    }
}

/// A reader or writer whose third call fails.
fn failing(kind: ErrorKind) -> Faulty {
    Faulty {
        calls: 0,
        failing: 2,
        kind,
    }
}

/// Whether a read of four bytes passes over an interruption.
fn is_interrupted_read_whole(alloc: Global) -> bool {
    match read_prefix(alloc, failing(ErrorKind::Interrupted), 4) {
        Ok(bytes) => bytes.as_slice() == b"xxxx".as_slice(),
        Err(_) => false,
    }
}

#[test]
fn an_interruption_is_no_fault(rt: HostRuntime) {
    assert!(rt; is_interrupted_read_whole(rt.alloc()));
    let mut out = StreamSink::new(failing(ErrorKind::Interrupted));
    assert!(rt; out.write(b"blue").is_ok() && out.faults() == 0);
}

/// Whether a read of four bytes fails at another error.
fn is_error_told(alloc: Global) -> bool {
    match read_prefix(alloc, failing(ErrorKind::Other), 4) {
        Ok(_) => false,
        Err(refused) => refused == ReadRefused::Failed,
    }
}

#[test]
fn an_error_in_the_middle_is_a_fault(rt: HostRuntime) {
    assert!(rt; is_error_told(rt.alloc()));
    let mut out = StreamSink::new(failing(ErrorKind::Other));
    assert!(rt; out.write(b"blue").is_err() && out.faults() == 1);
    assert!(rt; out.write(b"green").is_ok() && out.faults() == 1);
}
