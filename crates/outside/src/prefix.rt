ghost use Rattle.std.specs.Prelude.{◌≡◌, take};

/// The first `most` bytes, or all where there are fewer.
pub(crate) fn prefix_of(bytes: &[u8], most: usize) -> &[u8]
    ensures { result.now ≡ take most bytes.now }
{
    &bytes[..most.min(bytes.len())]
}
