//! Pixels, read from their bytes.

ghost use Rattle.hextile.specs.Reading.{ReadGives, read_pixel};

use pixel_format::Format;

/// The first byte that can't stand where it does, told by how many bytes are left from it on. None
/// are left where bytes are missing.
#[derive(Clone, Copy)]
pub struct Fault {
    pub left: usize,
}

/// The value of the next pixel.
#[tactic(auto, unfolding(crate::specs::Reading::read_pixel))]
pub fn next_pixel<'a>(format: &Format, bytes: &'a [u8]) -> Result<(u32, &'a [u8]), Fault>
    ensures { ReadGives (λ x. x) result (read_pixel format.now bytes.now) }
{
    let count = format.bytes();
    if bytes.len() < count {
        return Err(Fault { left: 0 });
    }
    Ok((format.get(&bytes[..count]), &bytes[count..]))
}
