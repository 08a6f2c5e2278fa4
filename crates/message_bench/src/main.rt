//! Feeds a viewer's bytes, or makes values of colours, again and again, so that `bench/messages`
//! can time them. The words are what is done and how often.
#![tactic(auto)]

use gfx_base::Colour;
use pixel_format::Format;
use rfb_msg::{Reader, Step};
use std::env;
use std::process::ExitCode;

/// A version, and the byte after it.
const GREETING: [u8; 13] = *b"RFB 003.003\n\x01";

/// The head of the longest text that a viewer may cut.
const TEXT: [u8; 8] = [6, 0, 0, 0, 255, 255, 255, 255];

/// A request of the whole screen.
const REQUEST: [u8; 10] = [3, 1, 0, 0, 0, 0, 4, 0, 3, 0];

/// 16 bits, with 5, 6 and 5 bits.
const SMALL: [u8; 16] = [16, 16, 0, 1, 0, 31, 0, 63, 0, 31, 11, 5, 0, 0, 0, 0];

/// A reader of a viewer that has sent its version and the byte after it.
fn greeted() -> Reader {
    let mut reader = Reader::new();
    for byte in GREETING {
        let _step = reader.feed(byte);
    }
    reader
}

/// Feeds so many bytes of a text, and gives how many bring nothing.
fn text(rounds: u32) -> u32 {
    let mut reader = greeted();
    for byte in TEXT {
        let _step = reader.feed(byte);
    }
    let mut nothing = 0u32;
    for _ in 0..rounds {
        if reader.feed(7) == Step::Nothing {
            nothing = nothing.wrapping_add(1);
        }
    }
    nothing
}

/// Feeds so many requests of ten bytes each, and gives how many are read.
fn requests(rounds: u32) -> u32 {
    let mut reader = greeted();
    let mut read = 0u32;
    for _ in 0..rounds {
        for byte in REQUEST {
            if let Step::Message(_) = reader.feed(byte) {
                read = read.wrapping_add(1);
            }
        }
    }
    read
}

/// Makes the values of so many colours, and gives their sum.
fn values(format: Format, rounds: u32) -> u32 {
    let mut sum = 0u32;
    for round in 0..rounds {
        let colour = Colour::new(round % 0x100_0000).unwrap_or_default();
        sum = sum.wrapping_add(format.value(colour));
    }
    sum
}

/// Does what the name says so often. `None` where it is no name.
fn measure(name: &str, rounds: u32) -> Option<u32> {
    match name {
        "text" => Some(text(rounds)),
        "requests" => Some(requests(rounds)),
        "first" => Some(values(Format::first(), rounds)),
        "small" => Some(values(Format::read(&SMALL).ok()?, rounds)),
        _ => None,
    }
}

/// What the words ask for, and how often. `None` where they are others.
fn words(rt: &HostRuntime) -> Option<(String, u32)> {
    let mut words = env::args(rt).ok()?.skip(1);
    let name = words.next()?;
    let rounds = words.next()?.parse::<u32>().ok()?;
    Some((name, rounds))
}

fn main(rt: HostRuntime) -> ExitCode {
    let Some((name, rounds)) = words(&rt) else {
        return ExitCode::from(2);
    };
    let Some(told) = measure(name.as_str(), rounds) else {
        return ExitCode::from(2);
    };
    match println!(rt; "{told}") {
        Ok(()) => ExitCode::from(0),
        Err(_) => ExitCode::from(1),
    }
}
