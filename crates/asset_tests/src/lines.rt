//! Lines of classes.

use class_lines::{ClassLine, class_line};
use gfx_base::Colour;
use paint_ops::{Base, Num, Op, Operand, React, Reaction};

fn num(base: Base, plus: i16) -> Num {
    Num { base, plus }
}

fn plain(plus: i16) -> Num {
    num(Base::Zero, plus)
}

fn colour(value: u32) -> Colour {
    Colour::new(value).unwrap_or_default()
}

/// Each operation, with each kind of base between them.
fn operations() -> [(&'static str, Op); 12] {
    let (zero, last) = (plain(0), num(Base::Width, -1));
    let (red, blue) = (colour(0xFF_0000), colour(0xFF));
    let value = |i: u8, plus: i16| num(Base::Value(i), plus);
    [
        (
            "fill 0 -1 w-1 h-1 FF0000",
            Op::Fill(zero, plain(-1), last, num(Base::Height, -1), red),
        ),
        (
            "fill -32768 32767 w+32767 h-32768 0000FF",
            Op::Fill(
                plain(-32768),
                plain(32767),
                num(Base::Width, 32767),
                num(Base::Height, -32768),
                blue,
            ),
        ),
        (
            "frame w h v0 v15 0000FF",
            Op::Frame(
                num(Base::Width, 0),
                num(Base::Height, 0),
                value(0, 0),
                value(15, 0),
                blue,
            ),
        ),
        (
            "hline 1 w-1 3 FF0000",
            Op::HLine(plain(1), last, plain(3), red),
        ),
        (
            "hline v9 v10+10 h-32768 FF0000",
            Op::HLine(value(9, 0), value(10, 10), num(Base::Height, -32768), red),
        ),
        (
            "vline 1 h+2 v3-4 FF0000",
            Op::VLine(plain(1), num(Base::Height, 2), value(3, -4), red),
        ),
        (
            "line v1+1 2 w-1 v12-32768 0000FF",
            Op::Line(value(1, 1), plain(2), last, value(12, -32768), blue),
        ),
        (
            "bitmap 255 w-1 h+32767",
            Op::Bitmap(255, last, num(Base::Height, 32767)),
        ),
        ("bitmap 0 v7 -7", Op::Bitmap(0, value(7, 0), plain(-7))),
        (
            "text 1 2 w-1 FF0000 255",
            Op::Text(1, plain(2), last, red, 255),
        ),
        (
            "number 0 h+1 3 0000FF v15+32767",
            Op::Number(0, num(Base::Height, 1), plain(3), blue, value(15, 32767)),
        ),
        (
            "number 255 0 0 FF0000 w-1",
            Op::Number(255, zero, zero, red, last),
        ),
    ]
}

#[test]
fn operations_are_read(rt: HostRuntime) {
    for (text, op) in operations() {
        let line = Some(ClassLine::Operation(op));
        assert!(rt; class_line(text.as_bytes()) == line, "{text}");
    }
}

/// Reactions of each kind, with a number and with the argument.
const REACTIONS: [(&str, u8, React); 7] = [
    (
        "on 0 set 15 -32768",
        0,
        React::Set(15, Operand::Const(-32768)),
    ),
    ("on 255 set 0 a", 255, React::Set(0, Operand::Argument)),
    ("on 1 set 2 0", 1, React::Set(2, Operand::Const(0))),
    ("on 2 add 3 32767", 2, React::Add(3, Operand::Const(32767))),
    ("on 2 add 10 a", 2, React::Add(10, Operand::Argument)),
    ("on 7 up 0", 7, React::Up(0)),
    ("on 0 up 255", 0, React::Up(255)),
];

#[test]
fn reactions_are_read(rt: HostRuntime) {
    for (text, on, react) in REACTIONS {
        let line = Some(ClassLine::Reaction(Reaction { on, react }));
        assert!(rt; class_line(text.as_bytes()) == line, "{text}");
    }
}

/// Lines that are none, which `|` parts.
const REFUSED: [&str; 6] = [
    // Coordinates that are none.
    "bitmap 0 w+0 0|bitmap 0 w-0 0|bitmap 0 w+32768 0|bitmap 0 w-32769 0|bitmap 0 v00 0\
    |bitmap 0 v16 0|bitmap 0 v 0|bitmap 0 v+1 0|bitmap 0 v-1 0|bitmap 0 w1 0|bitmap 0 h+01 0\
    |bitmap 0 w+ 0|bitmap 0 w- 0|bitmap 0 w+-1 0|bitmap 0 w--1 0|bitmap 0 w+1+1 0|bitmap 0 W 0\
    |bitmap 0 vw 0|bitmap 0 +w 0|bitmap 0 1+w 0|bitmap 0 v1a 0|bitmap 0 a 0",
    // Numbers in other spellings or out of their range.
    "bitmap 0 +1 0|bitmap 0 01 0|bitmap 0 -0 0|bitmap 0 32768 0|bitmap 0 -32769 0\
    |bitmap 256 0 0|bitmap -1 0 0|bitmap w 0 0|text 0 0 0 FF0000 256|text 256 0 0 FF0000 0",
    // Colours.
    "hline 0 0 0 ff0000|hline 0 0 0 FF000|hline 0 0 0 -|hline 0 0 0 FF00000|vline 0 0 0 0",
    // Reactions.
    "on 256 up 0|on 0 up 256|on 0 up a|on 0 set 16 0|on 0 add 16 a|on 0 set 0 A|on 0 set 0 32768\
    |on 0 set 0 w|on 0 set 0 aa|on a set 0 0|on 0 fill 0 0 0 0 FF0000|set 0 0|up 0|add 0 a\
    |on 0 on 0 up 0|on|on 0|on 0 up",
    // Words.
    "|end|# fill|Fill 0 0 0 0 FF0000|rect 0 0 0 0 FF0000|fill|ON 0 up 0",
    // More or fewer words, and other spaces.
    "fill 0 0 0 FF0000|fill 0 0 0 0 0 FF0000|hline 0 0 0 0 FF0000|bitmap 0 0|bitmap 0 0 0 0\
    | bitmap 0 0 0|bitmap 0 0 0 |bitmap  0 0 0|bitmap 0 0 0\t|number 0 0 0 FF0000\
    |number 0 0 0 0 FF0000|on 0 up 0 |on 0  up 0|on 0 set 0|on 0 set 0 0 0",
];

#[test]
fn other_lines_are_refused(rt: HostRuntime) {
    for lines in REFUSED {
        for text in lines.split('|') {
            assert!(rt; class_line(text.as_bytes()).is_none(), "{text}");
        }
    }
}
