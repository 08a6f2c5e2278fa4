//! Fonts.

use glyph_font::{Font, FontFault, FontRefused, FontWhy};
use std::alloc::Global;

fn font_of(alloc: Global, height: u8, body: &str) -> Option<Font> {
    if height < 1 || 32 < height {
        return None;
    }
    Font::read(alloc, height, body.as_bytes()).ok()
}

/// Whether a row of the glyph of a code has its points set just where the text has `#`, and none
/// behind its end.
fn shows_row(font: &Font, code: u8, row: u8, text: &str) -> bool {
    let mut col = 0u8;
    for b in text.bytes() {
        if font.is_set(code, col, row) != (b == b'#') {
            return false;
        }
        col = col.wrapping_add(1);
    }
    font.width(code) == col && !font.is_set(code, col, row)
}

/// Whether the glyph of a code has just these rows, which `/` parts.
fn shows(font: &Font, code: u8, rows: &str) -> bool {
    let mut row = 0u8;
    for text in rows.split('/') {
        if !shows_row(font, code, row, text) {
            return false;
        }
        row = row.wrapping_add(1);
    }
    font.height() == row && !font.is_set(code, 0, row)
}

/// Whether a font has no glyph of a code.
fn lacks(font: &Font, code: u8) -> bool {
    font.width(code) == 0 && !font.is_set(code, 0, 0)
}

const SMALL: &str = "glyph 65 2\n#.\nend\n";

const TWO: &str = "glyph 32 1\n.\n#\nglyph 126 3\n#.#\n.#.\nend";

/// Fonts, by their height and body, a code with its glyph's rows, and one without a glyph.
const FONTS: [(u8, &str, u8, &str, u8); 4] = [
    (1, SMALL, 65, "#.", 66),
    (2, TWO, 32, "./#", 33),
    (2, TWO, 126, "#.#/.#.", 127),
    (3, "glyph 48 2\n#.\n##\n..\nend\n", 48, "#./##/..", 0),
];

/// Whether a font, and its copy, show a glyph and lack another.
fn is_read(alloc: Global, height: u8, body: &str, code: u8, rows: &str, missing: u8) -> bool {
    let Some(font) = font_of(alloc, height, body) else {
        return false;
    };
    let Ok(copy) = font.copy(alloc) else {
        return false;
    };
    shows(&font, code, rows)
        && lacks(&font, missing)
        && shows(&copy, code, rows)
        && lacks(&copy, missing)
}

#[test]
fn fonts_are_read_and_copied(rt: HostRuntime) {
    for (height, body, code, rows, missing) in FONTS {
        assert!(rt;
            is_read(rt.alloc(), height, body, code, rows, missing),
            "{body}"
        );
    }
}

/// The widths of two texts in a font of one glyph.
fn widths(alloc: Global) -> Option<(u32, u32)> {
    let font = font_of(alloc, 1, SMALL)?;
    Some((font.width_of(b"AAB"), font.width_of(b"")))
}

#[test]
fn a_text_is_as_wide_as_its_glyphs(rt: HostRuntime) {
    assert!(rt; widths(rt.alloc()) == Some((4, 0)));
}

/// Whether a font has no glyph at all.
fn is_bare(font: &Font) -> bool {
    for code in 0..=255 {
        if font.width(code) != 0 {
            return false;
        }
    }
    font.height() == 32
}

#[test]
fn a_font_without_glyphs(rt: HostRuntime) {
    let bare = match font_of(rt.alloc(), 32, "end\n") {
        Some(font) => is_bare(&font),
        None => false,
    };
    assert!(rt; bare);
}

/// Whether a body's fault is in this line.
fn has_fault(alloc: Global, height: u8, body: &str, line: u32, why: FontWhy) -> bool {
    if height < 1 || 32 < height {
        return false;
    }
    match Font::read(alloc, height, body.as_bytes()) {
        Err(FontRefused::Fault(fault)) => fault == FontFault { line, why },
        _ => false,
    }
}

/// Bodies, which `|` parts, with the height, the line and the kind of their fault.
const FAULTS: [(u8, u32, FontWhy, &str); 16] = [
    (1, 1, FontWhy::End, ""),
    (
        1,
        2,
        FontWhy::End,
        "glyph 65 2\n|end\nend\n|end\n\n|end\nglyph 65 1\n#\n|end\n# comment\n",
    ),
    (1, 3, FontWhy::End, "glyph 65 2\n#.\n"),
    // Lines that are no glyph.
    (
        1,
        1,
        FontWhy::Glyph,
        "\n|\nend\n|end \n| end\n|END\n|en\n|ends\n|end\r\n|# comment\nend\n|font 1 1\nend\n\
        |Glyph 65 1\n#\nend\n|glyph\n|glyph 65\n#\nend\n|glyph 65 1 1\n#\nend\n\
        |glyph 065 1\n#\nend\n|glyph 65 01\n#\nend\n|glyph +65 1\n#\nend\n|glyph -65 1\n#\nend\n\
        |glyph A 1\n#\nend\n|glyph  65 1\n#\nend\n|glyph 65 1 \n#\nend\n| glyph 65 1\n#\nend\n",
    ),
    (
        1,
        3,
        FontWhy::Glyph,
        "glyph 65 1\n#\n.\nend\n|glyph 65 1\n#\n\nend\n",
    ),
    // Codes and widths out of range.
    (
        1,
        1,
        FontWhy::Glyph,
        "glyph 31 1\n#\nend\n|glyph 127 1\n#\nend\n|glyph 4294967361 1\n#\nend\n\
        |glyph 65 0\n\nend\n|glyph 65 33\n#\nend\n",
    ),
    (
        1,
        3,
        FontWhy::Glyph,
        "glyph 65 1\n#\nglyph 65 1\n#\nend\n|glyph 65 1\n#\nglyph 64 1\n#\nend\n\
        |glyph 126 1\n#\nglyph 127 1\n#\nend\n",
    ),
    // Lines that are no row.
    (
        1,
        2,
        FontWhy::Row,
        "glyph 65 2\n#\nend\n|glyph 65 2\n#.#\nend\n|glyph 65 2\n\nend\n|glyph 65 2\n#*\nend\n\
        |glyph 65 2\n# \nend\n|glyph 65 2\n#.\r\nend\n|glyph 65 3\nend\n\
        |glyph 65 2\n#\nglyph 1 1\n",
    ),
    (1, 4, FontWhy::Row, "glyph 65 1\n#\nglyph 66 1\n##\nend\n"),
    // Glyphs with three rows.
    (3, 4, FontWhy::End, "glyph 65 1\n#\n#\n"),
    (
        3,
        4,
        FontWhy::Row,
        "glyph 65 1\n#\n#\nend\n|glyph 65 3\n#.#\n...\nend\n",
    ),
    (3, 3, FontWhy::Row, "glyph 65 1\n#\nglyph 66 1\n"),
    (3, 5, FontWhy::Glyph, "glyph 65 1\n#\n#\n#\n#\nend\n"),
    (3, 5, FontWhy::End, "glyph 65 1\n#\n#\n#\n"),
    (32, 1, FontWhy::End, ""),
    (32, 2, FontWhy::Row, "glyph 65 1\nend\n"),
];

#[test]
fn the_first_fault_of_a_body(rt: HostRuntime) {
    for (height, line, why, bodies) in FAULTS {
        for body in bodies.split('|') {
            assert!(rt; has_fault(rt.alloc(), height, body, line, why), "{body}");
        }
    }
}

/// The body of a font with glyphs of these codes, of so many rows.
fn body_of(alloc: Global, first: u8, last: u8, rows: u8, row: &str) -> Option<String> {
    let mut body = String::new(alloc);
    let width = row.len();
    for code in first..=last {
        body.push_str(format!(in alloc; "glyph {code} {width}\n").ok()?.as_str())
            .ok()?;
        for _ in 0..rows {
            body.push_str(row).ok()?;
            body.push_str("\n").ok()?;
        }
    }
    body.push_str("end\n").ok()?;
    Some(body)
}

const FULL_ROW: &str = "################################";

/// Whether all points of the glyph of a code are set, which has such sides.
fn is_full(font: &Font, code: u8, side: u8) -> bool {
    for row in 0..side {
        for col in 0..side {
            if !font.is_set(code, col, row) {
                return false;
            }
        }
    }
    let outside = font.is_set(code, side, 0) || font.is_set(code, 0, side);
    font.width(code) == side && !outside
}

/// Whether a font whose glyphs have all points set and such sides, and its copy, have just the
/// glyphs of these codes.
fn holds_full(alloc: Global, first: u8, last: u8, side: u8, row: &str) -> bool {
    let Some(body) = body_of(alloc, first, last, side, row) else {
        return false;
    };
    let Some(font) = font_of(alloc, side, body.as_str()) else {
        return false;
    };
    let Ok(copy) = font.copy(alloc) else {
        return false;
    };
    for code in 0..=255 {
        let inside = first <= code && code <= last;
        let full = is_full(&font, code, side) && is_full(&copy, code, side);
        if full != inside || (font.width(code) == 0) == inside {
            return false;
        }
    }
    true
}

#[test]
fn the_largest_glyph_and_font(rt: HostRuntime) {
    assert!(rt; holds_full(rt.alloc(), 65, 65, 32, FULL_ROW), "one glyph");
    assert!(rt;
        holds_full(rt.alloc(), 32, 126, 32, FULL_ROW),
        "the largest font"
    );
    assert!(rt; holds_full(rt.alloc(), 32, 126, 1, "#"), "most glyphs");
}

/// How wide 64 of the widest glyphs are.
fn greatest_width(alloc: Global) -> Option<u32> {
    let body = body_of(alloc, 65, 65, 32, FULL_ROW)?;
    Some(font_of(alloc, 32, body.as_str())?.width_of(&[65; 64]))
}

#[test]
fn the_widest_text(rt: HostRuntime) {
    assert!(rt; greatest_width(rt.alloc()) == Some(2048));
}
