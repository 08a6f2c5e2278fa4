//! The values of colours in formats, and the bytes of these values.

ghost use Rattle.std.specs.Prelude.{◌<◌};

use gfx_base::Colour;
use pixel_format::Format;
use std::alloc::Global;

const FIRST: [u8; 16] = [32, 24, 0, 1, 0, 255, 0, 255, 0, 255, 16, 8, 0, 0, 0, 0];

/// The same with the most significant byte first.
const TURNED: [u8; 16] = [32, 24, 255, 1, 0, 255, 0, 255, 0, 255, 16, 8, 0, 0, 0, 0];

/// The same with 16 bits of red.
const WIDE: [u8; 16] = [32, 24, 1, 1, 255, 255, 0, 255, 0, 255, 16, 8, 0, 0, 0, 0];

/// 16 bits, with 5, 6 and 5 bits, in both orders of bytes.
const SMALL: [u8; 16] = [16, 16, 1, 1, 0, 31, 0, 63, 0, 31, 11, 5, 0, 0, 0, 0];

const SMALL_TURNED: [u8; 16] = [16, 16, 0, 1, 0, 31, 0, 63, 0, 31, 11, 5, 0, 0, 0, 0];

/// 8 bits, with 3, 3 and 2 bits, blue the highest.
const TINY: [u8; 16] = [8, 8, 0, 1, 0, 7, 0, 7, 0, 3, 0, 3, 6, 0, 0, 0];

/// Colours, with their values in the first format, with 16 bits of red, with 5, 6 and 5 bits, and
/// with 3, 3 and 2 bits. A plain program worked them out.
const VALUES: [(u32, [u32; 4]); 6] = [
    (0x000000, [0, 0, 0, 0]),
    (0xFFFFFF, [0xFFFFFF, 0xFFFF_FFFF, 0xFFFF, 0xFF]),
    (0xFF8000, [0xFF8000, 0xFFFF_8000, 0xFC00, 0x27]),
    (0x0000FF, [0x0000FF, 0x0000_00FF, 0x001F, 0xC0]),
    (0x123456, [0x123456, 0x1212_3456, 0x11AA, 0x48]),
    (0x800000, [0x800000, 0x8080_0000, 0x8000, 0x04]),
];

/// The value of a colour in the format that these bytes tell.
fn value_in(format: &[u8; 16], colour: u32) -> Option<u32> {
    Some(Format::read(format).ok()?.value(Colour::new(colour)?))
}

/// Whether a colour has these values.
fn has_values(colour: u32, values: [u32; 4]) -> bool {
    let [first, wide, small, tiny] = values;
    value_in(&FIRST, colour) == Some(first)
        && value_in(&TURNED, colour) == Some(first)
        && value_in(&WIDE, colour) == Some(wide)
        && value_in(&SMALL, colour) == Some(small)
        && value_in(&TINY, colour) == Some(tiny)
}

#[test]
fn colours_have_their_values(rt: HostRuntime) {
    for (colour, values) in VALUES {
        assert!(rt; has_values(colour, values));
    }
}

/// Whether the bytes that are put for a value behind one that is there are just these.
fn puts(alloc: Global, format: &[u8; 16], value: u32, pixel: &[u8]) -> Option<bool> {
    let format = Format::read(format).ok()?;
    let count = format.bytes();
    let mut out = Vec::with_capacity(alloc, 1 + count).ok()?;
    out.push_reserved(7);
    format.put(value, &mut out);
    let (first, rest) = out.as_slice().split_first()?;
    Some(*first == 7 && rest == pixel)
}

/// Whether values have their bytes, in formats of each size and both orders.
fn are_put(alloc: Global) -> Option<bool> {
    let first = puts(alloc, &FIRST, 0x123456, &[86, 52, 18, 0])?;
    let turned = puts(alloc, &TURNED, 0x123456, &[0, 18, 52, 86])?;
    let small = puts(alloc, &SMALL, 0x11AA, &[17, 170])?;
    let small_turned = puts(alloc, &SMALL_TURNED, 0x11AA, &[170, 17])?;
    let tiny = puts(alloc, &TINY, 0x48, &[72])?;
    Some(first && turned && small && small_turned && tiny)
}

#[test]
fn values_have_their_bytes(rt: HostRuntime) {
    assert!(rt; are_put(rt.alloc()) == Some(true));
}

/// The greatest numbers of channels of 1 to 16 bits.
const WIDTHS: [u16; 16] = [
    1, 3, 7, 15, 31, 63, 127, 255, 511, 1023, 2047, 4095, 8191, 16383, 32767, 65535,
];

/// The number that a part of a colour has in a channel with this greatest number.
fn number_of(level: u32, max: u16) -> Option<u32> {
    let mut bytes = FIRST;
    let [high, low] = max.to_be_bytes();
    bytes[4] = high;
    bytes[5] = low;
    let colour = Colour::new(level << 16)?;
    Some(Format::read(&bytes).ok()?.value(colour) >> 16)
}

/// Whether a part's number is as near as can be to its exact share, which is times 255 here.
fn is_nearest(level: u32, max: u16) -> bool {
    let Some(number) = number_of(level, max) else {
        return false;
    };
    let share = u64::from(level) * u64::from(max);
    share.abs_diff(255 * u64::from(number)) <= 127
}

#[test]
fn parts_are_rounded_to_the_nearest(rt: HostRuntime) {
    for max in WIDTHS {
        for level in 0..256 {
            assert!(rt; is_nearest(level, max));
        }
    }
}

/// Whether a channel of one bit, shifted so far, is set from the part 128 on.
fn is_half_way(shift: u8) -> bool
    requires { shift < 32 }
{
    let mut bytes = FIRST;
    bytes[5] = 1;
    bytes[7] = 1;
    bytes[9] = 1;
    bytes[10] = shift;
    bytes[11] = (shift + 1) % 32;
    bytes[12] = (shift + 2) % 32;
    let Ok(format) = Format::read(&bytes) else {
        return false;
    };
    let (Some(dark), Some(bright)) = (Colour::new(0x7F7F7F), Colour::new(0x807F7F)) else {
        return false;
    };
    format.value(dark) == 0 && format.value(bright) == 1 << shift
}

#[test]
fn channels_may_be_shifted_by_31_bits(rt: HostRuntime) {
    for shift in 0..32 {
        assert!(rt; is_half_way(shift));
    }
}
