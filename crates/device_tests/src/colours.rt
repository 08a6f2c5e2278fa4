use gfx_base::Colour;
use samples::Numbers;

pub fn any_colour(numbers: &mut Numbers) -> Colour {
    Colour::new(u32::from(numbers.below(60_000)) * 256).unwrap_or_default()
}
