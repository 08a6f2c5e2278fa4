//! Bitmaps.

use bitmap::{Bitmap, BitmapFault, BitmapRefused, BitmapWhy};
use std::alloc::Global;

fn bitmap_of(alloc: Global, w: u16, h: u16, body: &str) -> Option<Bitmap> {
    if w < 1 || 256 < w || h < 1 || 256 < h {
        return None;
    }
    Bitmap::read(alloc, w, h, body.as_bytes()).ok()
}

/// The value of a point's colour, or `None` where it is transparent or outside.
fn value_at(bitmap: &Bitmap, x: u16, y: u16) -> Option<u32> {
    if x < bitmap.width() && y < bitmap.height() {
        Some(bitmap.at(x, y)?.value())
    } else {
        None
    }
}

/// Whether a row has these colours, `None` for transparent points.
fn shows_row(bitmap: &Bitmap, y: u16, row: &[Option<u32>]) -> bool {
    let mut x = 0u16;
    for value in row {
        if value_at(bitmap, x, y) != *value {
            return false;
        }
        x = x.wrapping_add(1);
    }
    bitmap.width() == x && y < bitmap.height()
}

const RED: Option<u32> = Some(0xFF_0000);

/// Bitmaps by their sides and body, with one of their rows.
const BITMAPS: [(u16, u16, &str, u16, &[Option<u32>]); 14] = [
    (3, 1, "FF0000 -*2\nend\n", 0, &[RED, None, None]),
    (3, 2, "FF0000 -*2\n000001*3\nend\n", 0, &[RED, None, None]),
    (
        3,
        2,
        "FF0000 -*2\n000001*3\nend\n",
        1,
        &[Some(1), Some(1), Some(1)],
    ),
    (
        2,
        3,
        "000001 000002\n- 000003\n000004*2\nend",
        0,
        &[Some(1), Some(2)],
    ),
    (
        2,
        3,
        "000001 000002\n- 000003\n000004*2\nend",
        1,
        &[None, Some(3)],
    ),
    (
        2,
        3,
        "000001 000002\n- 000003\n000004*2\nend",
        2,
        &[Some(4), Some(4)],
    ),
    // Runs need not be the longest.
    (3, 1, "FF0000*3\nend\n", 0, &[RED, RED, RED]),
    (3, 1, "FF0000 FF0000*2\nend\n", 0, &[RED, RED, RED]),
    (3, 1, "FF0000*2 FF0000\nend\n", 0, &[RED, RED, RED]),
    (3, 1, "FF0000 FF0000 FF0000\nend\n", 0, &[RED, RED, RED]),
    (3, 1, "FF0000*3\nend", 0, &[RED, RED, RED]),
    // Black isn't transparent.
    (
        4,
        1,
        "000000 - FFFFFF -\nend\n",
        0,
        &[Some(0), None, Some(0xFF_FFFF), None],
    ),
    // One point.
    (1, 1, "-\nend", 0, &[None]),
    (1, 1, "12ABEF\nend", 0, &[Some(0x12_ABEF)]),
];

/// Whether a bitmap, and its copy, have these sides and this row.
fn is_read(alloc: Global, [w, h, y]: [u16; 3], body: &str, row: &[Option<u32>]) -> bool {
    let Some(bitmap) = bitmap_of(alloc, w, h, body) else {
        return false;
    };
    let Ok(copy) = bitmap.copy(alloc) else {
        return false;
    };
    let sides = bitmap.height() == h && copy.height() == h;
    sides && shows_row(&bitmap, y, row) && shows_row(&copy, y, row)
}

#[test]
fn bitmaps_are_read_and_copied(rt: HostRuntime) {
    for (w, h, body, y, row) in BITMAPS {
        assert!(rt;
            is_read(rt.alloc(), [w, h, y], body, row),
            "row {y} of {body}"
        );
    }
}

/// Whether a body's fault is in this line.
fn has_fault(alloc: Global, w: u16, h: u16, body: &str, line: u32, why: BitmapWhy) -> bool {
    if w < 1 || 256 < w || h < 1 || 256 < h {
        return false;
    }
    match Bitmap::read(alloc, w, h, body.as_bytes()) {
        Err(BitmapRefused::Fault(fault)) => fault == BitmapFault { line, why },
        _ => false,
    }
}

/// Bodies, which `|` parts, with the sides of their bitmap, and the line and the kind of their
/// fault.
const FAULTS: [(u16, u16, u32, BitmapWhy, &str); 15] = [
    // The end is missing, or isn't the last line.
    (3, 1, 1, BitmapWhy::End, ""),
    (
        3,
        1,
        2,
        BitmapWhy::End,
        "FF0000*3|FF0000*3\n|FF0000*3\nFF0000*3\nend\n|FF0000*3\n\nend\n|FF0000*3\nend \n\
        |FF0000*3\n end\n|FF0000*3\nEND\n|FF0000*3\nen\n|FF0000*3\nend\r\n\
        |FF0000*3\n# comment\nend\n",
    ),
    (
        3,
        1,
        3,
        BitmapWhy::End,
        "FF0000*3\nend\n\n|FF0000*3\nend\nend\n|FF0000*3\nend\nFF0000*3\n\
        |FF0000*3\nend\n# comment\n",
    ),
    // No row, spaces, and another number of points.
    (
        3,
        1,
        1,
        BitmapWhy::Row,
        "\n|\nend\n|end\n| \nend\n|# comment\nFF0000*3\nend\n|FF0000*3\r\nend\n\
        |FF0000  -*2\nend\n| FF0000*3\nend\n|FF0000*3 \nend\n|FF0000 *3\nend\n|FF0000* 3\nend\n\
        |FF0000*2\nend\n|FF0000*4\nend\n|FF0000*2 -*2\nend\n|- - - -\nend\n|-*256\nend\n",
    ),
    // No colour.
    (
        3,
        1,
        1,
        BitmapWhy::Row,
        "ff0000*3\nend\n|FF000*3\nend\n|FF00000*3\nend\n|FF000G*3\nend\n|#FF0000*3\nend\n\
        |*2 -\nend\n|*\nend\n|-- -*2\nend\n|-FF0000*3\nend\n",
    ),
    // No count, and the first of two faults.
    (
        3,
        1,
        1,
        BitmapWhy::Row,
        "FF0000*1 -*2\nend\n|-*0 FF0000*3\nend\n|-*01 FF0000*2\nend\n|-*03\nend\n\
        |FF0000* -*2\nend\n|FF0000**3\nend\n|FF0000*3*\nend\n|FF0000*2*2\nend\n|FF0000*-3\nend\n\
        |FF0000*+3\nend\n|FF0000*A\nend\n|FF0000*4294967299\nend\n|FF0000*2\nFF0000*2\n",
    ),
    // Three rows.
    (2, 3, 3, BitmapWhy::End, "-*2\n-*2\n"),
    (
        2,
        3,
        3,
        BitmapWhy::Row,
        "-*2\n-*2\nend\n|-*2\n-*2\n-\nend\n",
    ),
    (2, 3, 2, BitmapWhy::Row, "-*2\n-*3\n-\nend\n"),
    (
        2,
        3,
        4,
        BitmapWhy::End,
        "-*2\n-*2\n-*2\n|-*2\n-*2\n-*2\n-*2\nend\n",
    ),
    (2, 3, 5, BitmapWhy::End, "-*2\n-*2\n-*2\nend\nend\n"),
    // A run has at most 256 points.
    (
        256,
        1,
        1,
        BitmapWhy::Row,
        "00FF00*257\nend\n|00FF00*255\nend\n|00FF00*256 -\nend\n",
    ),
    (256, 1, 2, BitmapWhy::End, "00FF00*256\n"),
    (1, 1, 1, BitmapWhy::Row, "- -\nend\n"),
    (1, 1, 1, BitmapWhy::End, ""),
];

#[test]
fn the_first_fault_of_a_body(rt: HostRuntime) {
    for (w, h, line, why, bodies) in FAULTS {
        for body in bodies.split('|') {
            assert!(rt; has_fault(rt.alloc(), w, h, body, line, why), "{body}");
        }
    }
}

/// Whether a bitmap of one row with 256 points is green all over.
fn is_green(alloc: Global, body: &str) -> bool {
    let Some(bitmap) = bitmap_of(alloc, 256, 1, body) else {
        return false;
    };
    for x in 0..256 {
        if value_at(&bitmap, x, 0) != Some(0xFF00) {
            return false;
        }
    }
    true
}

#[test]
fn a_run_has_at_most_256_points(rt: HostRuntime) {
    assert!(rt; is_green(rt.alloc(), "00FF00*256\nend\n"));
    assert!(rt; is_green(rt.alloc(), "00FF00*2 00FF00*254\nend\n"));
}

/// The body of a bitmap of 256 by 256 points: in each row 254 transparent points, one of the row's
/// number, and a white one.
fn largest_body(alloc: Global) -> Option<String> {
    let mut body = String::new(alloc);
    for y in 0..256u16 {
        body.push_str(format!(in alloc; "-*254 {:06X} FFFFFF\n", y).ok()?.as_str())
            .ok()?;
    }
    body.push_str("end\n").ok()?;
    Some(body)
}

/// Whether a bitmap's row is as that body has it.
fn is_largest_row(bitmap: &Bitmap, y: u16) -> bool {
    for x in 0..254 {
        if value_at(bitmap, x, y).is_some() {
            return false;
        }
    }
    value_at(bitmap, 254, y) == Some(u32::from(y)) && value_at(bitmap, 255, y) == Some(0xFF_FFFF)
}

fn holds_largest(alloc: Global) -> bool {
    let Some(body) = largest_body(alloc) else {
        return false;
    };
    let Some(bitmap) = bitmap_of(alloc, 256, 256, body.as_str()) else {
        return false;
    };
    let Ok(copy) = bitmap.copy(alloc) else {
        return false;
    };
    for y in 0..256 {
        if !is_largest_row(&bitmap, y) || !is_largest_row(&copy, y) {
            return false;
        }
    }
    true
}

#[test]
fn the_largest_bitmap(rt: HostRuntime) {
    assert!(rt; holds_largest(rt.alloc()));
}
