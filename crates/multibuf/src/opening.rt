// Buffers at their start.
ghost use Rattle.std.specs.Prelude.{◌≡◌, ◌≤◌, IfOk};
ghost use Rattle.multibuf.specs.Opening.{new_held, new_free};

use crate::held::Held;
use crate::owners::{Back, Free, Shown};
use crate::several::Several;
use crate::stock::Stock;
use frame::Frame;
use gfx_base::Memory;
use std::alloc::Global;

// All are black, and the first is shown.
pub(crate) fn new_held(alloc: Global, w: u16, h: u16, n: u8) -> Result<Held, Memory>
    requires width { (1 ≤ w) × (w ≤ 1024) }
    requires height { (1 ≤ h) × (h ≤ 768) }
    ensures { IfOk result (λ held. held ≡ new_held w h n) }
{
    let first = Frame::new(alloc, w, h)?;
    if n == 1 {
        return Ok(Held::One(Back::new(first, 0)));
    }
    let second = new_free(alloc, w, h, 1)?;
    let third = if n == 2 {
        None
    } else {
        Some(new_free(alloc, w, h, 2)?)
    };
    Ok(Held::More(Several {
        shown: Shown::new(first, 0),
        waiting: None,
        back: None,
        stock: Stock {
            low: Some(second),
            high: third,
        },
    }))
}

fn new_free(alloc: Global, w: u16, h: u16, index: u8) -> Result<Free, Memory>
    requires width { (1 ≤ w) × (w ≤ 1024) }
    requires height { (1 ≤ h) × (h ≤ 768) }
    ensures { IfOk result (λ free. free ≡ new_free w h index) }
{
    let frame = Frame::new(alloc, w, h)?;
    Ok(Free::new(frame, index))
}
