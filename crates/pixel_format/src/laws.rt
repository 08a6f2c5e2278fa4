//! Laws of the definitions, each as the contract of a function that does nothing.

ghost use Rattle.std.specs.Prelude.{◌≡◌, ℕ, ◌+◌, ◌^◌, ◌<◌, ◌≤◌, ◌↔◌, true, List, [], ◌∷◌, length, slice_index, Ok};
ghost use Rattle.pixel_format.specs.Formats.{Layout, IsFormat, is_max, byte_count, value_of, pixel_bytes, pixel_value, first_format, format_of};
ghost use Rattle.pixel_format.specs.Examples.{first_bytes, small_format, small_bytes};

/// Does nothing. The greatest number of a channel is 2^k - 1 for some k from 1 to 16, and each
/// such number may be it.
pub fn mosts_are_rows_of_bits()
    ensures { (max : ℕ) → (is_max max ≡ true)
        ↔ ((k : ℕ) × (1 ≤ k) × (k ≤ 16) × (max + 1 ≡ 2 ^ k)) }
{}

/// Does nothing. The bytes of a pixel tell its value, and any bytes of its length are the bytes
/// of their value.
pub fn bytes_tell_value()
    ensures value { (f : Layout) (v : ℕ) → IsFormat f → v < 2 ^ f.bits
        → pixel_value f (pixel_bytes f v) ≡ v }
    ensures bytes { (f : Layout) (bytes : List ℕ) → IsFormat f → length bytes ≡ byte_count f
        → ((i : ℕ) → slice_index bytes i < 256) → pixel_bytes f (pixel_value f bytes) ≡ bytes }
{}

/// Does nothing. Its clauses say what the first format and one of 5, 6 and 5 bits are in numbers.
pub fn formats_in_numbers()
    ensures first { format_of first_bytes ≡ Ok first_format }
    ensures first_value { value_of first_format 0xFF8000 ≡ 0xFF8000 }
    ensures first_pixel { pixel_bytes first_format 0xFF8000 ≡ 0 ∷ 128 ∷ 255 ∷ 0 ∷ [] }
    ensures small { format_of small_bytes ≡ Ok small_format }
    ensures small_value { value_of small_format 0xFF8000 ≡ 0xFC00 }
    ensures small_pixel { pixel_bytes small_format 0xFC00 ≡ 252 ∷ 0 ∷ [] }
{}
