//! Tiles, read from their bytes.

ghost use Rattle.std.specs.Prelude.{◌≡◌, ◌+◌, ◌*◌, ◌/◌, ◌<◌, ◌≤◌, true, [], ◌∷◌, All, Ok, Err, take, length, IfOk, IfErr, MatchResult};
ghost use Rattle.hextile.specs.declared.pixels.Fault.{Fault};
ghost use Rattle.hextile.specs.Reading.{ReadGives, read_byte, read_given, read_pixels, is_place, is_extent, read_sub, read_listed, has_bit, is_mask, TileRead, read_painted, read_raw, read_tile};

use crate::known::Known;
use crate::painting::paint;
use crate::pixels::{Fault, next_pixel};
use crate::sub::Sub;
use pixel_format::Format;

/// The bits of a tile's mask.
const RAW: u8 = 1;

const BACKGROUND: u8 = 2;

const FOREGROUND: u8 = 4;

const SUBRECTS: u8 = 8;

const COLOURED: u8 = 16;

/// The next byte.
fn first<'a>(bytes: &'a [u8]) -> Result<(u8, &'a [u8]), Fault>
    ensures gives { ReadGives (λ x. x) result (read_byte (λ _. true) bytes.now) }
    ensures parts { IfOk result (λ x. bytes.now ≡ x.0 ∷ x.1.now) }
    ensures none { IfErr result (λ fault. (bytes.now ≡ []) × (fault.left ≡ 0)) }
{
    match bytes.split_first() {
        None => Err(Fault { left: 0 }),
        Some((byte, rest)) => Ok((*byte, rest)),
    }
}

/// A pixel where one is announced, and otherwise the known value.
fn given<'a>(
    format: &Format,
    announced: bool,
    known: Option<u32>,
    bytes: &'a [u8],
) -> Result<(Option<u32>, &'a [u8]), Fault>
    ensures { ReadGives (λ x. x) result (read_given format.now announced known bytes.now) }
{
    if !announced {
        return Ok((known, bytes));
    }
    let (value, rest) = next_pixel(format, bytes)?;
    Ok((Some(value), rest))
}

/// Whether a byte tells a place in a tile of these sides.
fn is_place(width: usize, height: usize, place: u8) -> bool
    ensures { result ≡ is_place width height place }
{
    usize::from(place / 16) < width && usize::from(place % 16) < height
}

/// Whether a byte tells sides that fit into the tile from that place on.
fn is_size(width: usize, height: usize, place: u8, size: u8) -> bool
    ensures { result ≡ is_extent width height place size }
{
    usize::from(place / 16 + (size / 16 + 1)) <= width
        && usize::from(place % 16 + (size % 16 + 1)) <= height
}

/// The next subrectangle of a tile of these sides. It has the foreground's value where it isn't
/// coloured.
#[tactic(auto, unfolding(crate::specs::Reading::read_sub))]
fn read_sub<'a>(
    format: &Format,
    coloured: bool,
    foreground: Option<u32>,
    width: usize,
    height: usize,
    bytes: &'a [u8],
) -> Result<(Sub, &'a [u8]), Fault>
    ensures { ReadGives (λ x. x) result
        (read_sub format.now coloured foreground width height bytes.now) }
{
    let (value, after) = given(format, coloured, foreground, bytes)?;
    let (place, last) = first(after)?;
    if !is_place(width, height, place) {
        return Err(Fault { left: after.len() });
    }
    let (size, rest) = first(last)?;
    if !is_size(width, height, place, size) {
        return Err(Fault { left: last.len() });
    }
    let sub = Sub {
        value: value.unwrap_or(0),
        x: place / 16,
        y: place % 16,
        width: size / 16 + 1,
        height: size % 16 + 1,
    };
    Ok((sub, rest))
}

/// The subrectangles of a tile of these sides, where the mask announces them, after their count.
/// They are put into `subs`, and the answer is how many there are.
#[tactic(auto, using(crate::proofs::StepLemmas::reads))]
fn read_listed<'a>(
    format: &Format,
    listed: bool,
    coloured: bool,
    foreground: Option<u32>,
    width: usize,
    height: usize,
    bytes: &'a [u8],
    subs: &mut [Sub],
) -> Result<(usize, &'a [u8]), Fault>
    requires room { length subs.old ≡ 256 }
    ensures subs { ReadGives (λ count. take count subs.new) result
        (read_listed format.now listed coloured foreground width height bytes.now) }
    ensures few { IfOk result (λ x. x.0 ≤ 255) }
{
    if !listed {
        return Ok((0, bytes));
    }
    let (count, mut rest) = first(bytes)?;
    for i in 0..usize::from(count) {
        let (sub, after) = read_sub(format, coloured, foreground, width, height, rest)?;
        subs[i] = sub;
        rest = after;
    }
    Ok((usize::from(count), rest))
}

/// So many pixels, of which the values are put into `points`. The answer is what follows them.
#[tactic(auto, using(crate::proofs::StepLemmas::reads))]
fn read_pixels<'a>(
    format: &Format,
    count: usize,
    bytes: &'a [u8],
    points: &mut [u32],
) -> Result<&'a [u8], Fault>
    requires room { count ≤ length points.old }
    ensures { MatchResult result
        (λ rest. read_pixels format.now [] count bytes.now ≡ Ok (take count points.new, rest.now))
        (λ fault. read_pixels format.now [] count bytes.now ≡ Err fault.left) }
{
    let mut rest = bytes;
    for i in 0..count {
        let (value, after) = next_pixel(format, rest)?;
        points[i] = value;
        rest = after;
    }
    Ok(rest)
}

/// Whether a mask has a bit, which is a power of two.
fn has_bit(mask: u8, bit: u8) -> bool
    requires { 1 ≤ bit }
    ensures { result ≡ has_bit mask bit }
{
    mask / bit % 2 == 1
}

/// Whether a tile may begin with the mask where this much is known.
#[tactic(auto, unfolding(crate::specs::Reading::is_mask))]
fn is_mask(known: Known, mask: u8) -> bool
    ensures { result ≡ is_mask known mask }
{
    let coloured = has_bit(mask, COLOURED);
    let foreground = has_bit(mask, FOREGROUND);
    let listed = has_bit(mask, SUBRECTS);
    has_bit(mask, RAW)
        || (mask < 32
            && !(foreground && coloured)
            && (listed || !coloured)
            && (has_bit(mask, BACKGROUND) || known.background.is_some())
            && (!listed || coloured || foreground || known.foreground.is_some()))
}

/// A tile's pixels.
#[tactic(auto, unfolding(crate::specs::Reading::read_raw))]
fn read_raw<'a>(
    format: &Format,
    width: usize,
    height: usize,
    bytes: &'a [u8],
    points: &mut [u32],
) -> Result<(Known, &'a [u8]), Fault>
    requires sides { (width ≤ 16) × (height ≤ 16) }
    requires room { height * width ≤ length points.old }
    ensures { ReadGives
        (λ after. record { values = take (height * width) points.new; after = after })
        result (read_raw format.now width height bytes.now) }
{
    let rest = read_pixels(format, height * width, bytes, points)?;
    let nothing = Known {
        background: None,
        foreground: None,
    };
    Ok((nothing, rest))
}

/// A tile that is painted: a background, a foreground and subrectangles, as the mask says.
#[tactic(auto, unfolding(crate::specs::Reading::read_painted))]
fn read_painted<'a>(
    format: &Format,
    known: Known,
    mask: u8,
    width: usize,
    height: usize,
    bytes: &'a [u8],
    points: &mut [u32],
    subs: &mut [Sub],
) -> Result<(Known, &'a [u8]), Fault>
    requires sides { (1 ≤ width) × (width ≤ 16) × (1 ≤ height) × (height ≤ 16) }
    requires work { (length points.old ≡ 256) × (length subs.old ≡ 256) }
    ensures { ReadGives
        (λ after. record { values = take (height * width) points.new; after = after })
        result (read_painted format.now known mask width height bytes.now) }
{
    let coloured = has_bit(mask, COLOURED);
    let (back, after) = given(format, has_bit(mask, BACKGROUND), known.background, bytes)?;
    let (fore, last) = given(format, has_bit(mask, FOREGROUND), known.foreground, after)?;
    let listed = has_bit(mask, SUBRECTS);
    let (count, rest) = read_listed(format, listed, coloured, fore, width, height, last, subs)?;
    let background = back.unwrap_or(0);
    let tile = &mut points[..height * width];
    paint(tile, width, background, &subs[..count]);
    let after = Known {
        background: Some(background),
        foreground: if coloured { None } else { fore },
    };
    Ok((after, rest))
}

/// The next tile of these sides, of which the values are put into `points`. The answer is what is
/// known after it.
#[tactic(auto, unfolding(crate::specs::Reading::read_tile))]
pub fn read_tile<'a>(
    format: &Format,
    known: Known,
    width: usize,
    height: usize,
    bytes: &'a [u8],
    points: &mut [u32],
    subs: &mut [Sub],
) -> Result<(Known, &'a [u8]), Fault>
    requires sides { (1 ≤ width) × (width ≤ 16) × (1 ≤ height) × (height ≤ 16) }
    requires work { (length points.old ≡ 256) × (length subs.old ≡ 256) }
    ensures { ReadGives
        (λ after. record { values = take (height * width) points.new; after = after })
        result (read_tile format.now known width height bytes.now) }
{
    let (mask, rest) = first(bytes)?;
    if !is_mask(known, mask) {
        return Err(Fault { left: bytes.len() });
    }
    if has_bit(mask, RAW) {
        read_raw(format, width, height, rest, points)
    } else {
        read_painted(format, known, mask, width, height, rest, points, subs)
    }
}
