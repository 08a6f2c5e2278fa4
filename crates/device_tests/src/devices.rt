//! Random calls on devices, held against a list of them, and devices in numbers.

ghost use Rattle.std.specs.Prelude.{◌≤◌};

use crate::colours::any_colour;
use crate::devices::Act::{Create, Delete};
use gfx_base::Colour;
use memdev::{DevRefused, Devices};
use samples::Numbers;
use std::alloc::{AllocError, Global};
use std::test::*;

/// What is seen of a device: its sides, the colours of its first and last points, and how many
/// points were written.
type Seen = (u16, u16, Colour, Colour, u64);

/// How often devices are asked for at most.
const MOST: u32 = 1_000_000;

/// Devices with the number of those that were asked for, so that tests know that they have handles
/// left.
#[derive(Drop)]
struct Counted {
    devices: Devices,
    asked: u32,
    ghost few: { devices.handles ≤ asked },
}

impl Counted {
    fn new() -> Counted {
        Counted {
            devices: Devices::new(),
            asked: 0,
        }
    }

    fn create(&mut self, alloc: Global, w: u16, h: u16, back: Colour) -> Result<u32, DevRefused> {
        if self.asked >= MOST {
            return Err(DevRefused::NoDevice(0));
        }
        self.asked += 1;
        self.devices.create(alloc, w, h, back)
    }

    /// Gives the first point of a device another colour. Tells whether there is the device.
    fn draw(&mut self, d: u32, colour: Colour) -> bool {
        match self.devices.get_mut(d) {
            Some(frame) => {
                if frame.width() > 0 && frame.height() > 0 {
                    frame.put(0, 0, colour);
                }
                true
            }
            None => false,
        }
    }

    fn see(&self, d: u32) -> Option<Seen> {
        let frame = self.devices.get(d)?;
        let (w, h) = (frame.width(), frame.height());
        let last = frame.get(w - 1, h - 1);
        Some((w, h, frame.get(0, 0), last, frame.writes()))
    }
}

/// A call that changes devices: their sides and colour, or a handle.
#[derive(Clone, Copy, Debug)]
enum Act {
    Create(u16, u16, Colour),
    Delete(u32),
    Draw(u32, Colour),
}

impl Counted {
    /// The answer to a call: the new handle, or 0 where none is told.
    fn perform(&mut self, alloc: Global, act: &Act) -> Result<u32, DevRefused> {
        match act {
            Act::Create(w, h, back) => self.create(alloc, *w, *h, *back),
            Act::Delete(d) => {
                self.devices.delete(*d)?;
                Ok(0)
            }
            Act::Draw(d, colour) => {
                if self.draw(*d, *colour) {
                    Ok(0)
                } else {
                    Err(DevRefused::NoDevice(*d))
                }
            }
        }
    }
}

/// A device as the plain program has it.
#[derive(Clone, Copy)]
struct Entry {
    handle: u32,
    seen: Seen,
}

#[derive(Drop)]
struct Plain {
    entries: Vec<Entry>,
    next: u32,
}

impl Plain {
    fn see(&self, d: u32) -> Option<Seen> {
        for entry in &self.entries {
            if entry.handle == d {
                return Some(entry.seen);
            }
        }
        None
    }

    fn refusal(&self, act: &Act) -> Option<DevRefused> {
        match act {
            Act::Create(w, h, _) => {
                if *w == 0 || *h == 0 {
                    Some(DevRefused::BadSize)
                } else if self.entries.len() >= 16 {
                    Some(DevRefused::TooMany)
                } else {
                    None
                }
            }
            Act::Delete(d) | Act::Draw(d, _) => match self.see(*d) {
                Some(_) => None,
                None => Some(DevRefused::NoDevice(*d)),
            },
        }
    }

    fn draw(&mut self, d: u32, colour: Colour) {
        for entry in self.entries.iter_mut() {
            if entry.handle == d {
                let (w, h, _, last, writes) = entry.seen;
                let last = if w == 1 && h == 1 { colour } else { last };
                entry.seen = (w, h, colour, last, writes.wrapping_add(1));
            }
        }
    }

    fn perform(&mut self, act: &Act) -> Result<Result<u32, DevRefused>, AllocError> {
        if let Some(why) = self.refusal(act) {
            return Ok(Err(why));
        }
        match act {
            Act::Create(w, h, colour) => {
                let handle = self.next;
                let writes = u64::from(*w) * u64::from(*h);
                let seen = (*w, *h, *colour, *colour, writes);
                self.entries.push(Entry { handle, seen })?;
                self.next = handle.wrapping_add(1);
                return Ok(Ok(handle));
            }
            Act::Delete(d) => self.entries.retain(|entry| entry.handle != *d),
            Act::Draw(d, colour) => self.draw(*d, *colour),
        }
        Ok(Ok(0))
    }
}

fn any_act(numbers: &mut Numbers) -> Act {
    let d = u32::from(numbers.below(40));
    let colour = any_colour(numbers);
    match numbers.below(8) {
        0..4 => Act::Create(numbers.below(4), numbers.below(4), colour),
        4..6 => Act::Delete(d),
        _ => Act::Draw(d, colour),
    }
}

/// How many of the first handles find something else than in the plain program.
fn other_devices(devices: &Counted, plain: &Plain) -> u32 {
    let mut others = 0u32;
    for d in 0..48u32 {
        if devices.see(d) != plain.see(d) {
            others = others.wrapping_add(1);
        }
    }
    others
}

/// Makes so many calls on both, and tells how many were answered in two ways or left two kinds of
/// devices.
fn wrong_answers(alloc: Global, seed: u64, calls: u32) -> Result<u32, Fail> {
    let mut devices = Counted::new();
    let mut plain = Plain {
        entries: Vec::new(alloc),
        next: 1,
    };
    let mut numbers = Numbers::new(seed);
    let mut wrong = 0u32;
    for _ in 0..calls {
        let act = any_act(&mut numbers);
        let answer = plain.perform(&act)?;
        if devices.perform(alloc, &act) != answer || other_devices(&devices, &plain) > 0 {
            wrong = wrong.wrapping_add(1);
        }
    }
    Ok(wrong)
}

#[test]
fn random_calls_do_what_a_plain_program_does(rt: HostRuntime) -> Result<(), Fail> {
    for seed in 0..20 {
        assert_eq!(rt; wrong_answers(rt.alloc(), seed, 120)?, 0, "seed {seed}");
    }
    Ok(())
}

#[test]
fn sixteen_devices_can_be_live(rt: HostRuntime) {
    let mut devices = Counted::new();
    let black = Colour::default();
    for handle in 1..17u32 {
        assert_eq!(rt;
            devices.perform(rt.alloc(), &Create(1, 1, black)),
            Ok(handle)
        );
    }
    assert_eq!(rt;
        devices.perform(rt.alloc(), &Create(1, 1, black)),
        Err(DevRefused::TooMany)
    );
    assert_eq!(rt;
        devices.perform(rt.alloc(), &Create(0, 1, black)),
        Err(DevRefused::BadSize)
    );
    assert_eq!(rt; devices.perform(rt.alloc(), &Delete(16)), Ok(0));
    assert_eq!(rt;
        devices.perform(rt.alloc(), &Delete(16)),
        Err(DevRefused::NoDevice(16))
    );
    assert_eq!(rt; devices.perform(rt.alloc(), &Create(1, 1, black)), Ok(17));
    assert_eq!(rt; devices.see(16), None);
    assert_eq!(rt; devices.see(0), None);
    assert_eq!(rt;
        devices.perform(rt.alloc(), &Delete(0)),
        Err(DevRefused::NoDevice(0))
    );
}

#[test]
fn sides_have_limits(rt: HostRuntime) {
    let mut devices = Counted::new();
    let blue = Colour::new(0xFF).unwrap_or_default();
    for (w, h, answer) in [
        (0, 1, Err(DevRefused::BadSize)),
        (1, 0, Err(DevRefused::BadSize)),
        (1025, 1, Err(DevRefused::BadSize)),
        (1, 769, Err(DevRefused::BadSize)),
        (1024, 768, Ok(1)),
        (1, 1, Ok(2)),
    ] {
        assert_eq!(rt;
            devices.perform(rt.alloc(), &Create(w, h, blue)),
            answer,
            "{w} {h}"
        );
    }
    assert_eq!(rt; devices.see(1), Some((1024, 768, blue, blue, 786_432)));
}
