ghost use Rattle.std.specs.Prelude.{◌≡◌, ◌+◌, ◌^◌, ◌<◌, ◌≤◌, ◌++◌, length, vec_len, vec_capacity};
ghost use Rattle.pixel_format.specs.Formats.{IsFormat, first_format, format_of, value_of, byte_count, pixel_bytes, pixel_value};

use crate::channel::{Channel, all_fit};
use crate::fault::FormatFault;
use byteorder::{BigEndian, ByteOrder, LittleEndian};
use gfx_base::Colour;
use std::marker::Model;

/// How the pixels of a viewer are written.
#[derive(Clone, Copy, Debug, PartialEq, Eq)]
pub struct Format {
    bits: u8,
    big_endian: bool,
    red: Channel,
    green: Channel,
    blue: Channel,
}

impl Model for Format {
    ghost use Rattle.std.specs.Prelude.{◌≡◌, true};
    ghost use Rattle.pixel_format.specs.Formats.{Layout, layout, is_sound};

    ghost Value = { Layout };

    ghost view = { λ f. layout f.bits f.big_endian f.red f.green f.blue };

    ghost invariant = { λ f. is_sound (layout f.bits f.big_endian f.red f.green f.blue) ≡ true };

    ghost inverse = { λ l. record {
      bits = l.bits;
      big_endian = l.big_endian;
      red = l.red;
      green = l.green;
      blue = l.blue;
    } };
}

impl Format {
    /// The format that these bytes tell (RFC 6143, section 7.4), or the first fault for which it
    /// isn't served. The depth, which is the byte at 1, and the last three bytes may be any.
    #[tactic(auto, unfolding(crate::specs::Formats::format_of, crate::specs::Formats::is_sound))]
    pub fn read(bytes: &[u8; 16]) -> Result<Format, FormatFault>
        ensures { result ≡ format_of bytes.now }
    {
        let bits = bytes[0];
        let red = Channel::read(bytes, 4, 10);
        let green = Channel::read(bytes, 6, 11);
        let blue = Channel::read(bytes, 8, 12);
        if bits != 8 && bits != 16 && bits != 32 {
            return Err(FormatFault::BadBits);
        }
        if bytes[3] == 0 {
            return Err(FormatFault::NotTrueColour);
        }
        if !(red.has_max() && green.has_max() && blue.has_max()) {
            return Err(FormatFault::BadMax);
        }
        if !all_fit(bits, &red, &green, &blue) {
            return Err(FormatFault::BadShift);
        }
        if red.shares_a_bit(&green) || red.shares_a_bit(&blue) || green.shares_a_bit(&blue) {
            return Err(FormatFault::Overlap);
        }
        Ok(Format {
            bits,
            big_endian: bytes[2] != 0,
            red,
            green,
            blue,
        })
    }

    /// The format that each viewer has at first: 32 bits, the least significant byte first, and
    /// eight bits for each part of a colour.
    pub fn first() -> Format
        ensures { result ≡ first_format }
    {
        Format {
            bits: 32,
            big_endian: false,
            red: Channel {
                max: 255,
                shift: 16,
            },
            green: Channel { max: 255, shift: 8 },
            blue: Channel { max: 255, shift: 0 },
        }
    }

    /// The value of a colour's pixel: the sum of what its three parts are in their channels.
    #[tactic(auto, unfolding(crate::specs::Formats::value_of))]
    pub fn value(&self, c: Colour) -> u32
        ensures value { result ≡ value_of self.now c }
        ensures within { result < 2 ^ self.now.bits }
    {
        let colour = c.value();
        let red = self.red.part(colour / 0x1_0000);
        let green = self.green.part(colour / 0x100 % 0x100);
        let blue = self.blue.part(colour % 0x100);
        red + green + blue
    }

    /// How many bytes a pixel has: 1, 2 or 4.
    pub fn bytes(&self) -> usize
        ensures value { result ≡ byte_count self.now }
        ensures within { (1 ≤ result) × (result ≤ 4) }
        ensures format { IsFormat self.now }
    {
        usize::from(self.bits) / 8
    }

    /// Appends the bytes of a pixel of this value, for which there is room. They are the lowest
    /// ones of the value, as many as a pixel has.
    #[tactic(auto, unfolding(crate::specs::Formats::pixel_bytes))]
    pub fn put(&self, v: u32, out: &mut Vec<u8>)
        requires room { vec_len out.old + byte_count self.now ≤ vec_capacity out.old }
        ensures bytes { out.new.items ≡ out.old.items ++ pixel_bytes self.now v }
        ensures count { vec_len out.new ≡ vec_len out.old + byte_count self.now }
        ensures room { vec_capacity out.new ≡ vec_capacity out.old }
    {
        let count = self.bytes();
        if self.big_endian {
            put_all(&v.to_be_bytes()[4 - count..], out);
        } else {
            put_all(&v.to_le_bytes()[..count], out);
        }
    }

    /// The value of the pixel with these bytes, of which there are as many as a pixel has.
    pub fn get(&self, bytes: &[u8]) -> u32
        requires { length bytes.now ≡ byte_count self.now }
        ensures { result ≡ pixel_value self.now bytes.now }
    {
        let count = self.bytes();
        let number = if self.big_endian {
            BigEndian::read_uint(bytes, count)
        } else {
            LittleEndian::read_uint(bytes, count)
        };
        number as u32
    }
}

/// Appends bytes, for which there is room.
fn put_all(bytes: &[u8], out: &mut Vec<u8>)
    requires room { vec_len out.old + length bytes.now ≤ vec_capacity out.old }
    ensures bytes { out.new.items ≡ out.old.items ++ bytes.now }
    ensures count { vec_len out.new ≡ vec_len out.old + length bytes.now }
    ensures room { vec_capacity out.new ≡ vec_capacity out.old }
{
    for byte in bytes {
        out.push_reserved(*byte);
    }
}
