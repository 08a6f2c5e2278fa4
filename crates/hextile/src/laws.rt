//! Laws of the definitions, each as the contract of a function that does nothing.

ghost use Rattle.std.specs.Prelude.{◌≡◌, ℕ, ◌+◌, ◌*◌, ◌^◌, ◌<◌, ◌≤◌, List, [], ◌∷◌, length, slice_index};
ghost use Rattle.pixel_format.specs.Formats.{Layout, IsFormat, byte_count, first_format};
ghost use Rattle.hextile.specs.declared.known.Known.{Known};
ghost use Rattle.hextile.specs.Encoding.{coded, encoding_of};
ghost use Rattle.hextile.specs.Meaning.{DecodesTo};
ghost use Rattle.hextile.specs.Tiles.{TileValues, tiles_of};
ghost use Rattle.hextile.specs.Joining.{AreTiles, joined, IsBadAt};
ghost use Rattle.hextile.specs.Examples.{two_points, two_points_bytes, four_points, four_points_bytes, two_tiles, two_tiles_bytes, one_colour, one_colour_bytes};

/// Does nothing. Its clauses say what the bytes of small rectangles are in the first format.
pub fn rectangles_in_numbers()
    ensures raw { encoding_of first_format 2 1 two_points ≡ two_points_bytes }
    ensures two_values { encoding_of first_format 4 1 four_points ≡ four_points_bytes }
    ensures two_tiles { encoding_of first_format 17 1 two_tiles ≡ two_tiles_bytes }
    ensures one_value { encoding_of first_format 17 1 one_colour ≡ one_colour_bytes }
    ensures one_point { encoding_of first_format 2 1 (0x0000FF ∷ 0x0000FF ∷ [])
        ≡ 0x02 ∷ 0xFF ∷ 0x00 ∷ 0x00 ∷ 0x00 ∷ [] }
{}

/// Does nothing. The encoder's bytes of a rectangle are hextile data of it: in every format, at any
/// width from 1 on and any height, for all values that have no more bits than the format says.
pub fn encoding_is_hextile()
    ensures { (f : Layout) (w h : ℕ) (values : List ℕ) → 1 ≤ w → length values ≡ h * w
        → ((k : ℕ) → k < length values → slice_index values k < 2 ^ f.bits)
        → DecodesTo f w h (encoding_of f w h values) values }
{}

/// Does nothing. Tiles that have the sides of a rectangle's tiles are those of one rectangle.
pub fn tiles_make_rectangle()
    ensures { (w h : ℕ) (tiles : List TileValues) → 1 ≤ w → AreTiles w h tiles
        → tiles_of w h (joined w h tiles) ≡ tiles }
{}

/// Does nothing. Bytes that begin with the mask 0 are bad at once, since no background is known.
pub fn unknown_background_is_bad()
    ensures { (f : Layout) (w h : ℕ) (rest : List ℕ) → 1 ≤ w → 1 ≤ h
        → IsBadAt f w h (0 ∷ rest) 0 }
{}

/// Does nothing. A tile takes at most one byte more than its raw pixels, and a tile of one value at
/// most one pixel and one byte.
pub fn tiles_are_short()
    ensures tile { (f : Layout) (known : Known) (tile : TileValues) → IsFormat f
        → 1 ≤ length tile.values
        → length (coded f known tile).bytes ≤ 1 + length tile.values * byte_count f }
    ensures one_value { (f : Layout) (known : Known) (tile : TileValues) (c : ℕ) → IsFormat f
        → 1 ≤ length tile.values
        → ((k : ℕ) → k < length tile.values → slice_index tile.values k ≡ c)
        → length (coded f known tile).bytes ≤ 1 + byte_count f }
{}
