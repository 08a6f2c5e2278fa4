// A display at its start.
ghost use Rattle.std.specs.Prelude.{◌≡◌, ◌≤◌, true, false, IfOk};
ghost use Rattle.flip.specs.Drawers.{new_drawing, IsConsistent};
ghost use Rattle.flip.specs.Controllers.{new_showing};

use crate::controller::Controller;
use crate::drawer::Drawer;
use crate::rule::{Parts, Word};
use atomic_table::Table;
use gfx_base::Memory;
use std::alloc::{AllocError, Global};
use std::sync::Arc;

/// A display of `n` buffers, 1 to 3, of which the first is shown and none waits: the side that
/// draws, and the side that shows. The error is that there is no memory for its word.
pub fn open(alloc: Global, n: u8) -> Result<(Drawer, Controller), Memory>
    requires some { 1 ≤ n }
    requires few { n ≤ 3 }
    ensures drawer { IfOk result (λ sides. sides.0 ≡ new_drawing false n) }
    ensures consistent { IfOk result (λ sides. IsConsistent sides.0) }
    ensures controller { IfOk result (λ sides. sides.1 ≡ new_showing n) }
{
    parted(alloc, n).map_err(|_| Memory)
}

/// A display of `n` buffers, 1 to 3, of which the first is shown and none waits, whose drawer is
/// its own controller. The error is that there is no memory for its word.
pub fn open_alone(alloc: Global, n: u8) -> Result<Drawer, Memory>
    requires some { 1 ≤ n }
    requires few { n ≤ 3 }
    ensures drawer { IfOk result (λ drawer. drawer ≡ new_drawing true n) }
    ensures consistent { IfOk result IsConsistent }
{
    whole(alloc, n).map_err(|_| Memory)
}

fn whole(alloc: Global, n: u8) -> Result<Drawer, AllocError>
    requires some { 1 ≤ n }
    requires few { n ≤ 3 }
    ensures drawer { IfOk result (λ drawer. drawer ≡ new_drawing true n) }
    ensures consistent { IfOk result IsConsistent }
{
    let (table, seat): (Word, _) = Table::of_words(alloc, &[0], &n)?;
    let word = Arc::new(alloc, table)?;
    Ok(Drawer {
        word,
        seat,
        buffers: n,
        shown: 0,
        waiting: None,
    })
}

fn parted(alloc: Global, n: u8) -> Result<(Drawer, Controller), AllocError>
    requires some { 1 ≤ n }
    requires few { n ≤ 3 }
    ensures drawer { IfOk result (λ sides. sides.0 ≡ new_drawing false n) }
    ensures consistent { IfOk result (λ sides. IsConsistent sides.0) }
    ensures controller { IfOk result (λ sides. sides.1 ≡ new_showing n) }
{
    let (table, mut seat): (Word, _) = Table::of_words(alloc, &[0], &n)?;
    let other = table.shared.split_seat::<Parts>(&mut seat);
    let word = Arc::new(alloc, table)?;
    let again = Arc::try_clone(&word)?;
    let drawer = Drawer {
        word,
        seat,
        buffers: n,
        shown: 0,
        waiting: None,
    };
    let controller = Controller {
        word: again,
        seat: other,
        shown: 0,
    };
    Ok((drawer, controller))
}
