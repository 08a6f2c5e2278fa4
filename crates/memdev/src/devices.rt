ghost use Rattle.std.specs.Prelude.{◌≡◌, ◌↔◌, ◌+◌, ◌<◌, None, Err, IfOk, IfErr, IfSome, OnOk, OnErr, option_copied};
ghost use Rattle.std.specs.Option.{option_copied_mut};
ghost use Rattle.std.specs.Borrow.{sem};
ghost use Rattle.memdev.specs.declared.refused.DevRefused.TheVariants as DevRefused;
ghost use Rattle.memdev.specs.Frames.{filled};
ghost use Rattle.memdev.specs.Refusals.{is_bad_device_size, refusal_of_create};

use crate::device::{Device, frame_in, frame_in_mut, new_frame, place};
use crate::refused::DevRefused;
use arrayvec::ArrayVec;
use frame::Frame;
use gfx_base::Colour;
use std::alloc::Global;
use std::marker::Model;

/// How many devices there can be.
const MOST_DEVICES: usize = 16;

/// At most sixteen devices, each a frame under a handle. Handles count up from 1 and are never used
/// again, so 0, which stands for the screen, is none.
#[derive(Drop)]
pub struct Devices {
    /// How many handles were given out.
    handles: u32,
    /// The live devices, in the order in which they were made. Room that isn't used is filled with
    /// blanks, and a frame has none, hence the options.
    slots: ArrayVec<Option<Device>, MOST_DEVICES>,
}

impl Model for Devices {
    ghost use Rattle.memdev.specs.Devices.{Table};
    ghost use Rattle.memdev.specs.Slots.{live_in, AreKept};

    ghost Value = { Table };

    ghost view = { λ d. record { handles = d.handles; live = live_in d.slots.items } };

    ghost invariant = { λ d. AreKept d.slots.items d.handles };
}

/// Whether no device can have these sides.
fn is_bad_device_size(w: u16, h: u16) -> bool
    ensures { result ≡ is_bad_device_size w h }
{
    w == 0 || h == 0 || w > 1024 || h > 768
}

impl Devices {
    ghost use Rattle.memdev.specs.Devices.{no_devices, frame_of, with_device, without_device, AreGiven};
    ghost use Rattle.memdev.specs.Lending.{LendsDevice};

    /// No devices.
    pub fn new() -> Devices
        ensures { result ≡ no_devices }
    {
        Devices {
            handles: 0,
            slots: ArrayVec::new(),
        }
    }

    /// Makes a device of `w` by `h` points of the colour `back`, and gives its handle, the next
    /// one. Its sides are at least 1, and its size is at most 1,024 by 768. Where more than one
    /// reason speaks against it, the first of these is answered: the size is bad, there are 16
    /// devices, memory ran out. Each point takes four bytes, in one allocation. At most
    /// 4,294,967,294 handles were given out before.
    pub fn create(&mut self, alloc: Global, w: u16, h: u16, back: Colour) -> Result<u32, DevRefused>
        requires { self.old.handles < 4294967295 }
        ensures refused { IfSome (refusal_of_create self.old.live w h) (λ why. result ≡ Err why) }
        ensures accepted { refusal_of_create self.old.live w h ≡ None
            → IfErr result (λ why. why ≡ DevRefused.Memory) }
        ensures unchanged { OnErr result (self.new ≡ self.old) }
        ensures handle { IfOk result (λ handle. handle ≡ self.old.handles + 1) }
        ensures created { OnOk result (self.new ≡ with_device self.old (filled w h back)) }
    {
        if is_bad_device_size(w, h) {
            return Err(DevRefused::BadSize);
        }
        if self.slots.is_full() {
            return Err(DevRefused::TooMany);
        }
        let Ok(frame) = new_frame(alloc, w, h, back) else {
            return Err(DevRefused::Memory);
        };
        let handle = self.handles + 1;
        self.handles = handle;
        self.slots.push(Some(Device { handle, frame }));
        Ok(handle)
    }

    /// Deletes a device. It is refused where no device has the handle.
    pub fn delete(&mut self, d: u32) -> Result<(), DevRefused>
        ensures refused { (result ≡ Err (DevRefused.NoDevice d))
            ↔ (frame_of self.old.live d ≡ None) }
        ensures only { IfErr result (λ why. why ≡ DevRefused.NoDevice d) }
        ensures unchanged { OnErr result (self.new ≡ self.old) }
        ensures deleted { OnOk result (self.new ≡ without_device self.old d) }
    {
        let Some(at) = place(&self.slots, d) else {
            return Err(DevRefused::NoDevice(d));
        };
        self.slots.remove(at);
        Ok(())
    }

    /// The frame of a device, if it is live.
    pub fn get(&self, d: u32) -> Option<&Frame>
        ensures frame { option_copied result ≡ frame_of self.now.live d }
        ensures given { AreGiven self.now }
    {
        let at = place(&self.slots, d)?;
        frame_in(&self.slots[at])
    }

    /// The frame of a device, if it is live, to be changed.
    pub fn get_mut(&mut self, d: u32) -> Option<&mut Frame>
        ensures* written { sem 𝓛 (LendsDevice self.entry d result) }
        ensures frame { option_copied_mut result ≡ frame_of self.old.live d }
        ensures given { AreGiven self.old }
    {
        let at = place(&self.slots, d)?;
        match self.slots.get_mut(at) {
            Some(slot) => Some(frame_in_mut(slot)),
            None => unreachable!(),
        }
    }
}
