//! The tiles of bitmaps and of texts that leave what is behind them, by asking each point.

ghost use Rattle.std.specs.Prelude.{◌≡◌, ◌≤◌, ◌<◌, ◌/◌, ◌&&◌, ◌||◌, ◌==◌, not, ℕ, pos, length, true, is_some};
ghost use Rattle.gfx_base.specs.Range.{IsNear};
ghost use Rattle.gfx_base.specs.declared.point.Point.{Point as Place};
ghost use Rattle.gfx_base.specs.Rects.{has, point_at};
ghost use Rattle.gfx_base.specs.TileSets.{has_tile, AreTilesOf};
ghost use Rattle.paint_ops.specs.Operations.{is_in_cells, is_in_text, bitmap_colour, colour_of_operation, seen_from};
ghost use Rattle.paint_ops.specs.Soundness.{IsOperation};
ghost use Rattle.paint_ops.specs.Rows.{IsOrigin};
ghost use Rattle.scene.specs.Looks.{screen_with};
ghost use Rattle.exec_paint.specs.Areas.{IsOn};
ghost use Rattle.exec_paint.specs.Plans.{is_hidden};
ghost use Rattle.strokes.specs.Strokes.{no_inputs, operation_of};
ghost use Rattle.strokes.specs.Parts.{is_free, is_asked, is_drawn, is_tile_of, AddsTilesOf};

use crate::shape::Shape;
use bitmap::Bitmap;
use context::Context;
use exec_paint::{Hole, unsigned};
use gfx_base::{Point, Rect, Tile, Tiles};
use glyph_font::Font;
use paint_ops::Assets;

/// The side of a tile in points.
const TILE_SIDE: u16 = 16;

/// Whether one of the holes has the point.
fn hides(holes: &[Hole], p: Point) -> bool
    ensures { result ≡ is_hidden holes.now p }
{
    holes.iter().any(|hole| hole.clip.has(p))
}

/// Whether the bitmap has a colour on the point, which is counted from its upper left one.
fn has_colour(bitmap: &Bitmap, p: Point) -> bool
    ensures { result ≡ is_some (bitmap_colour bitmap.now p.x p.y) }
{
    if p.x < 0 || p.y < 0 {
        return false;
    }
    if p.x >= i32::from(bitmap.width()) || p.y >= i32::from(bitmap.height()) {
        return false;
    }
    bitmap.at(p.x as u16, p.y as u16).is_some()
}

/// Whether a text's glyphs, side by side, have a set point in the row, at `x` columns from the
/// left.
fn is_in_cells(font: &Font, text: &[u8], x: u32, row: u8) -> bool
    ensures { result ≡ is_in_cells font.now text.now x row }
{
    let mut left = x;
    for code in text {
        let width = u32::from(font.width(*code));
        if left < width {
            return font.is_set(*code, left as u8, row);
        }
        left -= width;
    }
    false
}

/// Whether a text's glyphs have a set point there, counted from the first one's upper left point.
fn is_in_text(font: &Font, text: &[u8], p: Point) -> bool
    ensures { result ≡ is_in_text font.now text.now p.x p.y }
{
    if p.x < 0 || p.y < 0 {
        return false;
    }
    if p.y >= i32::from(font.height()) {
        return false;
    }
    is_in_cells(font, text, p.x as u32, p.y as u8)
}

/// The point as it is seen from x and y.
fn seen_from(x: i16, y: i16, p: Point) -> Point
    requires { IsNear p.x × IsNear p.y }
    ensures { result ≡ seen_from (point_at x y) p }
{
    Point {
        x: p.x - i32::from(x),
        y: p.y - i32::from(y),
    }
}

/// Whether a bitmap or a text puts a colour on the point, which is counted from the upper left
/// corner of its window.
fn has_ink(context: &Context, shape: &Shape, assets: &Assets, p: Point) -> bool
    requires kind { is_asked shape.now ≡ true }
    requires shape { IsOperation assets.now (operation_of context.now shape.now) }
    requires point { IsNear p.x × IsNear p.y }
    ensures { result ≡ is_some (colour_of_operation assets.now no_inputs
        (operation_of context.now shape.now) p) }
{
    match *shape {
        Shape::Bitmap(bitmap, x, y) => {
            has_colour(&assets.bitmaps[usize::from(bitmap)], seen_from(x, y, p))
        }
        Shape::Text(x, y, string) => {
            let text = assets.strings[usize::from(string)].bytes();
            is_in_text(
                &assets.fonts[usize::from(context.font)],
                text,
                seen_from(x, y, p),
            )
        }
        _ => unreachable!(),
    }
}

/// The tile of a point.
fn tile_of(x: u16, y: u16) -> Tile
    requires { (x < 1024) × (y < 768) }
    ensures { (result.col ≡ x / 16) × (result.row ≡ y / 16) }
{
    Tile {
        col: (x / TILE_SIDE) as u8,
        row: (y / TILE_SIDE) as u8,
    }
}

/// Adds the tile of a point of the screen where it is a free point of the area.
pub fn add_free(p: Point, area: &Rect, holes: &[Hole], tiles: &mut Tiles)
    requires { (q : Place) → has area.now q ≡ true → has (screen_with 1024 768) q ≡ true }
    ensures { (col row : ℕ) → has_tile tiles.new col row
        ≡ (has_tile tiles.old col row || (is_tile_of p col row && is_free area.now holes.now p)) }
{
    if area.has(p) && !hides(holes, p) {
        tiles.add(tile_of(unsigned(p.x), unsigned(p.y)));
    }
}

/// Whether the tile of a point is among the tiles.
fn has_tile(x: u16, y: u16, tiles: &Tiles) -> bool
    requires { (x < 1024) × (y < 768) }
    ensures { result ≡ has_tile tiles.now (x / 16) (y / 16) }
{
    tiles.has(tile_of(x, y))
}

/// The point of the screen as it is seen from the corner.
fn seen(corner: Point, x: u16, y: u16) -> Point
    requires { IsOrigin corner.x × IsOrigin corner.y }
    ensures value { result ≡ seen_from corner (point_at (pos x) (pos y)) }
    ensures near { IsNear result.x × IsNear result.y }
{
    Point {
        x: i32::from(x) - corner.x,
        y: i32::from(y) - corner.y,
    }
}

/// Adds the tile of a point where it is a free point of the area on which a bitmap or a text from
/// the corner puts a colour.
fn add_inked(
    context: &Context,
    shape: &Shape,
    corner: Point,
    x: u16,
    y: u16,
    area: &Rect,
    holes: &[Hole],
    assets: &Assets,
    tiles: &mut Tiles,
)
    requires kind { is_asked shape.now ≡ true }
    requires stroke { IsOperation assets.now (operation_of context.now shape.now) }
    requires corner { IsOrigin corner.x × IsOrigin corner.y }
    requires area { (q : Place) → has area.now q ≡ true → has (screen_with 1024 768) q ≡ true }
    requires inside { (x < 1024) × (y < 768) }
    ensures { (col row : ℕ) → has_tile tiles.new col row
        ≡ (has_tile tiles.old col row || ((col == x / 16 && row == y / 16)
        && is_drawn assets.now context.now shape.now corner area.now holes.now x y)) }
{
    if has_tile(x, y, tiles) {
        return;
    }
    if has_ink(context, shape, assets, seen(corner, x, y)) {
        let p = Point {
            x: i32::from(x),
            y: i32::from(y),
        };
        add_free(p, area, holes, tiles);
    }
}

/// Adds the tiles that hold a free point of the area in the row `y` on which a bitmap or a text
/// from the corner puts a colour.
fn add_row(
    context: &Context,
    shape: &Shape,
    corner: Point,
    y: u16,
    area: &Rect,
    holes: &[Hole],
    assets: &Assets,
    width: u16,
    height: u16,
    tiles: &mut Tiles,
)
    requires kind { is_asked shape.now ≡ true }
    requires stroke { IsOperation assets.now (operation_of context.now shape.now) }
    requires corner { IsOrigin corner.x × IsOrigin corner.y }
    requires sides { (width ≤ 1024) × (height ≤ 768) }
    requires area { IsOn width height area.now }
    requires row { y < height }
    ensures { AddsTilesOf width height
        (λ u v. v == y
        && is_drawn assets.now context.now shape.now corner area.now holes.now u v)
        tiles.old tiles.new }
{
    for x in unsigned(area.x0)..unsigned(area.x1) + 1 {
        add_inked(context, shape, corner, x, y, area, holes, assets, tiles);
    }
}

/// The tiles that hold a free point of the area on which a bitmap or a text from the corner puts a
/// colour.
pub fn drawn_tiles(
    context: &Context,
    shape: &Shape,
    corner: Point,
    area: &Rect,
    holes: &[Hole],
    assets: &Assets,
    width: u16,
    height: u16,
) -> Tiles
    requires kind { is_asked shape.now ≡ true }
    requires stroke { IsOperation assets.now (operation_of context.now shape.now) }
    requires corner { IsOrigin corner.x × IsOrigin corner.y }
    requires sides { (width ≤ 1024) × (height ≤ 768) }
    requires area { IsOn width height area.now }
    ensures { AreTilesOf width height
        (is_drawn assets.now context.now shape.now corner area.now holes.now) result }
{
    let mut tiles = Tiles::empty();
    for y in unsigned(area.y0)..unsigned(area.y1) + 1 {
        add_row(
            context, shape, corner, y, area, holes, assets, width, height, &mut tiles,
        );
    }
    tiles
}
