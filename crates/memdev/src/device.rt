//! One device, and its place among the others.

ghost use Rattle.std.specs.Prelude.{◌≡◌, ◌≤◌, None, Some, IfOk, IsSome, IfSome, IfNone, option_copied};
ghost use Rattle.std.specs.List.{position};
ghost use Rattle.std.specs.Borrow.{sem};
ghost use Rattle.memdev.specs.Frames.{filled};
ghost use Rattle.memdev.specs.Devices.{frame_of};
ghost use Rattle.memdev.specs.Slots.{is_slot_of, frame_in, live_in, IsPlaceOf};
ghost use Rattle.memdev.specs.Lending.{LendsFrameIn};

use frame::Frame;
use gfx_base::{Colour, Memory};
use std::alloc::Global;

/// A live device.
#[derive(Drop)]
pub(crate) struct Device {
    pub(crate) handle: u32,
    pub(crate) frame: Frame,
}

/// A frame of this colour. `w` is from 1 to 1,024 and `h` from 1 to 768.
pub(crate) fn new_frame(alloc: Global, w: u16, h: u16, colour: Colour) -> Result<Frame, Memory>
    requires width { (1 ≤ w) × (w ≤ 1024) }
    requires height { (1 ≤ h) × (h ≤ 768) }
    ensures { IfOk result (λ frame. frame ≡ filled w h colour) }
{
    let mut frame = Frame::new(alloc, w, h)?;
    for y in 0..h {
        frame.fill_span(y, 0, w - 1, colour);
    }
    Ok(frame)
}

fn is_slot_of(slot: &Option<Device>, handle: u32) -> bool
    ensures { result ≡ is_slot_of handle slot.now }
{
    match slot {
        Some(device) => device.handle == handle,
        None => false,
    }
}

/// The first place whose device has the handle.
fn first_place(slots: &[Option<Device>], handle: u32) -> Option<usize>
    ensures { result ≡ position (is_slot_of handle) slots.now }
{
    slots.iter().position(|slot| is_slot_of(slot, handle))
}

/// The place of the device that has the handle, if there is one.
pub(crate) fn place(slots: &[Option<Device>], handle: u32) -> Option<usize>
    ensures found { IfSome result (IsPlaceOf slots.now handle) }
    ensures absent { IfNone result (frame_of (live_in slots.now) handle ≡ None) }
{
    first_place(slots, handle)
}

/// The frame of a device, if there is one.
pub(crate) fn frame_in(slot: &Option<Device>) -> Option<&Frame>
    ensures { option_copied result ≡ frame_in slot.now }
{
    match slot {
        Some(device) => Some(&device.frame),
        None => None,
    }
}

/// The frame of a device, to be changed.
pub(crate) fn frame_in_mut(slot: &mut Option<Device>) -> &mut Frame
    requires { IsSome slot.old }
    ensures* written { sem 𝓛 (LendsFrameIn slot.entry result) }
    ensures value { frame_in slot.old ≡ Some result.now }
{
    match slot {
        Some(device) => &mut device.frame,
        None => unreachable!(),
    }
}
