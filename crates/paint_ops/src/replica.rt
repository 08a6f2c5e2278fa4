ghost use Rattle.std.specs.Prelude.{◌≡◌, IfOk};

use crate::class::Class;
use crate::text::Text;
use bitmap::Bitmap;
use gfx_base::Memory;
use glyph_font::Font;
use std::alloc::Global;

/// What can be made once more, equal to the first.
pub trait Replica: Drop {
    /// An equal one, refused for want of memory alone.
    fn replica(&self, alloc: Global) -> Result<Self, Memory>
        ensures { IfOk result (λ r. r ≡ self.now) };
}

impl Replica for Font {
    fn replica(&self, alloc: Global) -> Result<Font, Memory> {
        self.copy(alloc)
    }
}

impl Replica for Bitmap {
    fn replica(&self, alloc: Global) -> Result<Bitmap, Memory> {
        self.copy(alloc)
    }
}

impl Replica for Text {
    fn replica(&self, _alloc: Global) -> Result<Text, Memory> {
        Ok(self.copy())
    }
}

impl Replica for Class {
    fn replica(&self, alloc: Global) -> Result<Class, Memory> {
        let Ok(ops) = Vec::from_slice(alloc, &self.ops) else {
            return Err(Memory);
        };
        let Ok(reactions) = Vec::from_slice(alloc, &self.reactions) else {
            return Err(Memory);
        };
        Ok(Class {
            back: self.back,
            ops,
            reactions,
        })
    }
}

/// Equal ones of all items, in their order.
pub fn replicas<T: Replica>(alloc: Global, items: &[T]) -> Result<Vec<T>, Memory>
    ensures { IfOk result (λ v. v.items ≡ items.now) }
{
    let Ok(mut replicas) = Vec::with_capacity(alloc, items.len()) else {
        return Err(Memory);
    };
    for item in items {
        let replica = item.replica(alloc)?;
        if replicas.push(replica).is_err() {
            return Err(Memory);
        }
    }
    Ok(replicas)
}
