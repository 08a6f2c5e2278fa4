ghost use Rattle.std.specs.Prelude.{◌≡◌, ◌+◌, ◌^◌, ◌<◌, ◌≤◌, ◌&&◌, IsTrue};
ghost use Rattle.pixel_format.specs.Formats.{is_max, fits, bits_of, channel_at, part_of, shares_a_bit};

use byteorder::{BigEndian, ByteOrder};

/// What the greatest number of a channel may be: rows of 1 to 16 set bits.
const ROWS_OF_BITS: [u16; 16] = [
    1, 3, 7, 15, 31, 63, 127, 255, 511, 1023, 2047, 4095, 8191, 16383, 32767, 65535,
];

/// How far a channel may be shifted.
const MOST_SHIFT: u8 = 31;

/// One of the three parts of a pixel's value: a number from 0 to `max`, whose lowest bit stands
/// `shift` bits above the value's lowest bit.
#[derive(Clone, Copy, Debug, PartialEq, Eq)]
pub struct Channel {
    pub max: u16,
    pub shift: u8,
}

impl Channel {
    /// The channel whose greatest number stands from the place `max` on in the bytes of a format,
    /// and whose shift stands at the place `shift`.
    pub fn read(bytes: &[u8; 16], max: usize, shift: usize) -> Channel
        requires places { (max + 2 ≤ 16) × (shift < 16) }
        ensures { result ≡ channel_at bytes.now max shift }
    {
        Channel {
            max: BigEndian::read_u16(&bytes[max..]),
            shift: bytes[shift],
        }
    }

    /// Whether the greatest number is a row of 1 to 16 set bits.
    #[tactic(auto, unfolding(crate::specs::Formats::is_max))]
    pub fn has_max(&self) -> bool
        ensures { result ≡ is_max self.now.max }
    {
        ROWS_OF_BITS.contains(&self.max)
    }

    /// The bits of a value that the channel takes, as the number in which they alone are set.
    pub fn bits(&self) -> u64
        requires shift { self.now.shift ≤ 31 }
        ensures value { result ≡ bits_of self.now }
        ensures within { result < 2 ^ 47 }
    {
        let max = self.max;
        u64::from(max) << self.shift
    }

    /// What a part of a colour, from 0 to 255, is in the channel: rounded to the nearest of its
    /// numbers, and shifted to its place.
    pub fn part(&self, level: u32) -> u32
        requires level { level ≤ 255 }
        requires shift { self.now.shift ≤ 31 }
        requires bits { bits_of self.now < 2 ^ 32 }
        ensures value { result ≡ part_of self.now level }
        ensures within { result ≤ bits_of self.now }
    {
        let max = self.max;
        let number = (level * u32::from(max) + 127) / 255;
        number << self.shift
    }

    /// Whether the shift is at most 31 and the channel lies within a pixel of so many bits.
    #[tactic(auto, unfolding(crate::specs::Formats::fits))]
    pub fn fits(&self, bits: u8) -> bool
        requires bits { bits ≤ 32 }
        ensures value { result ≡ fits bits self.now }
        ensures shift { IsTrue result → self.now.shift ≤ 31 }
    {
        self.shift <= MOST_SHIFT && self.bits() < 1 << bits
    }

    /// Whether the two channels share a bit.
    #[tactic(auto, unfolding(crate::specs::Formats::shares_a_bit))]
    pub fn shares_a_bit(&self, other: &Channel) -> bool
        requires shifts { (self.now.shift ≤ 31) × (other.now.shift ≤ 31) }
        ensures { result ≡ shares_a_bit self.now other.now }
    {
        self.bits() & other.bits() != 0
    }
}

/// Whether all three channels lie within a pixel of so many bits.
pub fn all_fit(bits: u8, red: &Channel, green: &Channel, blue: &Channel) -> bool
    requires bits { bits ≤ 32 }
    ensures value { result ≡ (fits bits red.now && fits bits green.now && fits bits blue.now) }
    ensures shifts { IsTrue result
        → (red.now.shift ≤ 31) × (green.now.shift ≤ 31) × (blue.now.shift ≤ 31) }
{
    red.fits(bits) && green.fits(bits) && blue.fits(bits)
}
