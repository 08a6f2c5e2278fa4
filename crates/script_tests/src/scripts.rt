//! What scripts say.

use crate::faults::HEADER;
use calls::{Act, Call, Config, Line};
use gfx_base::Colour;
use paint_ops::{Base, Class, Num, Op, Operand, React, Reaction};
use script::{Script, read};
use std::alloc::Global;

fn colour(value: u32) -> Colour {
    Colour::new(value).unwrap_or_default()
}

fn act_line(task: u16, act: Act) -> Line {
    Line::Task { task, act }
}

fn line(task: u16, call: Call) -> Line {
    act_line(task, Act::Call(call))
}

/// A script with comments, empty lines, and no end of its last line.
const COMMENTED: &[u8] = b"# a window\nmtgui 1\nscreen 8 4\n\nbuffers 1\ndesktop 030201\n\
    class 1 0A00FF\n#\nend\n1 create 1 -2 1 3 0 255\n16 exec\n1 scan";

/// Whether a script says what that text says.
fn is_commented(script: &Script) -> bool {
    let config = Config {
        w: 8,
        h: 4,
        buffers: 1,
        desktop: colour(0x03_0201),
        calls: 3,
    };
    let create = Call::Create {
        parent: 1,
        x: -2,
        y: 1,
        w: 3,
        h: 0,
        class: 255,
    };
    let lines = [line(1, create), line(16, Call::Exec), line(1, Call::Scan)];
    script.config == config && script.lines.as_slice() == lines.as_slice()
}

/// Whether a script's classes have just these back colours, or none.
fn has_backs(script: &Script, values: &[Option<u32>]) -> bool {
    let classes = script.assets.classes.as_slice();
    let mut pairs = classes.iter().zip(values);
    classes.len() == values.len() && pairs.all(|(class, v)| class.back == v.map(colour))
}

#[test]
fn a_script_with_comments(rt: HostRuntime) {
    let script = read(rt.alloc(), COMMENTED).expect(&rt, "a script");
    assert!(rt; is_commented(&script));
    assert!(rt; has_backs(&script, &[Some(0x03_0201), Some(0x0A_00FF)]));
}

/// A line for each word that names a call, of the tasks in turn.
const EACH_CALL: &str = "mtgui 1\nscreen 8 4\nbuffers 1\ndesktop 000000\n\
    1 create 1 -2 1 3 0 255\n2 delete 4294967295\n3 move_to 2 -32768 32767\n\
    4 move_by 3 -1 1\n5 resize 4 0 65535\n6 show 5\n7 hide 6\n8 to_top 7\n9 to_bottom 8\n\
    10 set_class 9 1\n11 set_trans 10 1\n12 set_trans 11 0\n13 set_value 12 255 -32768\n\
    14 send 13 255 32767\n15 invalidate 14\n16 invalidate_rect 15 1 2 3 4\n\
    1 invalidate_area -1 -2 3 4\n2 exec\n3 exec1\n4 scan\n5 select 16\n6 colour FF8001\n\
    7 bk_colour 0180FF\n8 text_mode normal\n9 text_mode trans\n10 font 255\n11 save\n\
    12 restore\n13 fill -32768 -1 0 32767\n14 frame 32767 2 -3 -32768\n15 line 1 -2 3 -4\n\
    16 bitmap 255 -32768 32767\n1 text 32767 -32768 255\n2 set_memdev 17 1\n\
    3 set_memdev 18 0\n4 dev_create 0 65535\n5 dev_delete 4294967295\n6 dev_select 0\n\
    7 dev_copy 19 -32768 32767\n8 begin\n9 end\n";

#[test]
fn each_word_is_its_call(rt: HostRuntime) {
    let script = read(rt.alloc(), EACH_CALL.as_bytes()).expect(&rt, "a script");
    let calls = [
        Call::Create {
            parent: 1,
            x: -2,
            y: 1,
            w: 3,
            h: 0,
            class: 255,
        },
        Call::Delete { h: u32::MAX },
        Call::MoveTo {
            h: 2,
            x: i16::MIN,
            y: i16::MAX,
        },
        Call::MoveBy {
            h: 3,
            dx: -1,
            dy: 1,
        },
        Call::Resize {
            h: 4,
            width: 0,
            height: u16::MAX,
        },
        Call::Show { h: 5 },
        Call::Hide { h: 6 },
        Call::ToTop { h: 7 },
        Call::ToBottom { h: 8 },
        Call::SetClass { h: 9, class: 1 },
        Call::SetTrans { h: 10, trans: true },
        Call::SetTrans {
            h: 11,
            trans: false,
        },
        Call::SetValue {
            h: 12,
            index: 255,
            value: i16::MIN,
        },
        Call::Send {
            h: 13,
            message: 255,
            argument: i16::MAX,
        },
        Call::Invalidate { h: 14 },
        Call::InvalidateRect {
            h: 15,
            x0: 1,
            y0: 2,
            x1: 3,
            y1: 4,
        },
        Call::InvalidateArea {
            x0: -1,
            y0: -2,
            x1: 3,
            y1: 4,
        },
        Call::Exec,
        Call::Exec1,
        Call::Scan,
        Call::Select { h: 16 },
        Call::Colour {
            c: colour(0xFF_8001),
        },
        Call::BkColour {
            c: colour(0x01_80FF),
        },
        Call::TextMode { trans: false },
        Call::TextMode { trans: true },
        Call::Font { font: 255 },
        Call::Save,
        Call::Restore,
        Call::Fill {
            x0: i16::MIN,
            y0: -1,
            x1: 0,
            y1: i16::MAX,
        },
        Call::Frame {
            x0: i16::MAX,
            y0: 2,
            x1: -3,
            y1: i16::MIN,
        },
        Call::Line {
            x0: 1,
            y0: -2,
            x1: 3,
            y1: -4,
        },
        Call::Bitmap {
            bitmap: 255,
            x: i16::MIN,
            y: i16::MAX,
        },
        Call::Text {
            x: i16::MAX,
            y: i16::MIN,
            string: 255,
        },
        Call::SetMemdev {
            h: 17,
            memdev: true,
        },
        Call::SetMemdev {
            h: 18,
            memdev: false,
        },
        Call::DevCreate { w: 0, h: u16::MAX },
        Call::DevDelete { device: u32::MAX },
        Call::DevSelect { device: 0 },
        Call::DevCopy {
            device: 19,
            x: i16::MIN,
            y: i16::MAX,
        },
        Call::Begin,
        Call::End,
    ];
    let mut task = 0u16;
    for (read, call) in script.lines.iter().zip(&calls) {
        task = if task < 16 { task.wrapping_add(1) } else { 1 };
        assert!(rt; *read == line(task, *call), "task {task}");
    }
    assert_eq!(rt; script.lines.len(), calls.len());
}

/// Whether a script with so many buffers is read.
fn reads_buffers(alloc: Global, buffers: u8) -> Option<bool> {
    let text = format!(in alloc; "mtgui 1\nscreen 8 4\nbuffers {buffers}\ndesktop 000000\n").ok()?;
    Some(read(alloc, text.as_bytes()).ok()?.config.buffers == buffers)
}

#[test]
fn a_screen_has_from_1_to_3_buffers(rt: HostRuntime) {
    for buffers in 1..=3 {
        assert_eq!(rt; reads_buffers(rt.alloc(), buffers), Some(true), "{buffers}");
    }
}

/// Texts of the least and the greatest numbers, with the screen's sides, the desktop's colour and
/// the number of calls.
const ENDS_OF_RANGES: [(&str, u16, u16, u32, u32); 11] = [
    (
        "mtgui 1\nscreen 1 1\nbuffers 1\ndesktop FFFFFF",
        1,
        1,
        0xFF_FFFF,
        0,
    ),
    (
        "mtgui 1\n#\nscreen 1024 768\n\nbuffers 1\ndesktop 09AF00\n",
        1024,
        768,
        0x09_AF00,
        0,
    ),
    (
        "mtgui 1\nscreen 8 4\nbuffers 1\ndesktop 000000\n16 exec",
        8,
        4,
        0,
        1,
    ),
    (
        "mtgui 1\nscreen 8 4\nbuffers 1\ndesktop 000000\n1 create 1 -32768 32767 65535 0 255\n\
        1 create 1 32767 -32768 0 65535 0\n",
        8,
        4,
        0,
        2,
    ),
    (
        "mtgui 1\nscreen 1 768\nbuffers 1\ndesktop 000000\nclass 1 FFFFFF\nend\n",
        1,
        768,
        0,
        0,
    ),
    (
        "mtgui 1\nscreen 8 4\nbuffers 1\ndesktop 000000\n1 set_trans 0 0\n\
        1 set_trans 4294967295 1\n1 set_value 0 0 32767\n1 set_value 4294967295 255 -32768\n\
        1 send 0 0 -32768\n1 send 4294967295 255 32767",
        8,
        4,
        0,
        6,
    ),
    (
        "mtgui 1\nscreen 8 4\nbuffers 1\ndesktop 000000\n1 select 0\n1 select 4294967295\n\
        1 colour 000000\n1 colour FFFFFF\n1 bk_colour 000000\n1 bk_colour FFFFFF\n1 font 0\n\
        16 font 255",
        8,
        4,
        0,
        8,
    ),
    (
        "mtgui 1\nscreen 8 4\nbuffers 1\ndesktop 000000\n1 fill -32768 -32768 32767 32767\n\
        1 frame 32767 32767 -32768 -32768\n1 line -32768 32767 32767 -32768\n\
        1 bitmap 0 -32768 -32768\n1 bitmap 255 32767 32767\n1 text -32768 -32768 0\n\
        16 text 32767 32767 255",
        8,
        4,
        0,
        7,
    ),
    (
        "mtgui 1\nscreen 8 4\nbuffers 1\ndesktop 000000\n1 set_memdev 0 0\n\
        1 set_memdev 4294967295 1\n1 dev_create 0 0\n1 dev_create 65535 65535\n1 dev_delete 0\n\
        1 dev_select 4294967295\n1 dev_copy 0 32767 32767\n16 dev_copy 4294967295 -32768 -32768",
        8,
        4,
        0,
        8,
    ),
    // Lines on the lock are no calls.
    (
        "mtgui 1\nscreen 8 4\nbuffers 1\ndesktop 000000\n1 lock\n16 lock\n1 unlock\n16 unlock",
        8,
        4,
        0,
        0,
    ),
    (
        "mtgui 1\nscreen 8 4\nbuffers 1\ndesktop 000000\n1 lock\n2 exec\n1 unlock\n1 scan\n",
        8,
        4,
        0,
        2,
    ),
];

/// Whether a text is a script of this configuration.
fn has_config(alloc: Global, text: &str, config: Config) -> bool {
    match read(alloc, text.as_bytes()) {
        Ok(script) => script.config == config,
        Err(_) => false,
    }
}

#[test]
fn the_ends_of_the_ranges_are_no_faults(rt: HostRuntime) {
    for (text, w, h, desktop, calls) in ENDS_OF_RANGES {
        let config = Config {
            w,
            h,
            buffers: 1,
            desktop: colour(desktop),
            calls,
        };
        assert!(rt; has_config(rt.alloc(), text, config), "{text}");
    }
}

/// A coordinate that is a number.
fn number(plus: i16) -> Num {
    Num {
        base: Base::Zero,
        plus,
    }
}

/// A class with each kind of line that needs no font and no bitmap, and comments among them.
const PANEL_CLASS: &str = "class 1 0A0B0C\non 1 add 2 a\nfill 0 0 w-1 v3 FF0000\n\n\
    frame 1 2 h+3 4 00FF00\non 2 set 15 -32768\n# a comment\nhline -1 v15-32768 2 0000FF\n\
    vline 0 1 h 000001\nline w 0 0 32767 000002\non 1 up 255\nend\n";

/// Whether a class says what those lines say.
fn is_panel_class(class: &Class) -> bool {
    let width = Num {
        base: Base::Width,
        plus: 0,
    };
    let height = Num {
        base: Base::Height,
        plus: 0,
    };
    let ops = [
        Op::Fill(
            number(0),
            number(0),
            Num { plus: -1, ..width },
            Num {
                base: Base::Value(3),
                plus: 0,
            },
            colour(0xFF_0000),
        ),
        Op::Frame(
            number(1),
            number(2),
            Num { plus: 3, ..height },
            number(4),
            colour(0x00_FF00),
        ),
        Op::HLine(
            number(-1),
            Num {
                base: Base::Value(15),
                plus: i16::MIN,
            },
            number(2),
            colour(0x00_00FF),
        ),
        Op::VLine(number(0), number(1), height, colour(1)),
        Op::Line(width, number(0), number(0), number(i16::MAX), colour(2)),
    ];
    let reactions = [
        Reaction {
            on: 1,
            react: React::Add(2, Operand::Argument),
        },
        Reaction {
            on: 2,
            react: React::Set(15, Operand::Const(i16::MIN)),
        },
        Reaction {
            on: 1,
            react: React::Up(255),
        },
    ];
    class.back == Some(colour(0x0A_0B0C))
        && class.ops.as_slice() == ops.as_slice()
        && class.reactions.as_slice() == reactions.as_slice()
}

fn reads_panel_class(alloc: Global) -> Option<bool> {
    let text = format!(in alloc; "{HEADER}{PANEL_CLASS}").ok()?;
    let script = read(alloc, text.as_bytes()).ok()?;
    Some(script.assets.classes.len() == 2 && is_panel_class(script.assets.classes.get(1)?))
}

#[test]
fn a_class_has_operations_and_reactions_each_in_order(rt: HostRuntime) {
    assert_eq!(rt; reads_panel_class(rt.alloc()), Some(true));
}

/// Classes without a back colour among others: one with comments, operations and reactions, and one
/// with nothing.
const SEE_THROUGH: &str = "class 1 0A0B0C\nend\nclass 2 -\nhline 0 1 2 0000FF\n# a comment\n\
    on 7 set 0 a\n\nvline -1 0 h 000001\non 8 up 9\nend\nclass 3 000000\non 1 up 2\nend\n\
    class 4 -\nend\n1 create 1 0 0 1 1 2\n";

/// Whether a class says what the lines of the second one say.
fn is_see_through(class: &Class) -> bool {
    let height = Num {
        base: Base::Height,
        plus: 0,
    };
    let ops = [
        Op::HLine(number(0), number(1), number(2), colour(0x00_00FF)),
        Op::VLine(number(-1), number(0), height, colour(1)),
    ];
    let reactions = [
        Reaction {
            on: 7,
            react: React::Set(0, Operand::Argument),
        },
        Reaction {
            on: 8,
            react: React::Up(9),
        },
    ];
    class.back.is_none()
        && class.ops.as_slice() == ops.as_slice()
        && class.reactions.as_slice() == reactions.as_slice()
}

/// How many operations and reactions the classes of a script have.
fn sizes(script: &Script) -> [(usize, usize); 5] {
    let mut sizes = [(9, 9); 5];
    for (size, class) in sizes.iter_mut().zip(&script.assets.classes) {
        *size = (class.ops.len(), class.reactions.len());
    }
    sizes
}

/// The back colours of those classes, with the desktop's.
const BACKS: [Option<u32>; 5] = [Some(0), Some(0x0A_0B0C), None, Some(0), None];

fn reads_see_through(alloc: Global) -> Option<bool> {
    let text = format!(in alloc; "{HEADER}{SEE_THROUGH}").ok()?;
    let script = read(alloc, text.as_bytes()).ok()?;
    Some(
        has_backs(&script, &BACKS)
            && is_see_through(script.assets.classes.get(2)?)
            && sizes(&script) == [(0, 0), (0, 0), (2, 2), (0, 1), (0, 0)]
            && script.config.calls == 1,
    )
}

#[test]
fn classes_without_a_back_colour(rt: HostRuntime) {
    assert_eq!(rt; reads_see_through(rt.alloc()), Some(true));
}

/// Locks of two tasks that lie in each other, with calls and a tick between.
const LOCKED: &str =
    "3 lock\n3 lock\n# held\n16 exec\ndisplay tick\n3 unlock\n16 lock\n\n3 scan\n3 unlock\n\
    16 unlock";

/// Whether a script says what those lines say.
fn is_locked(script: &Script) -> bool {
    let lines = [
        act_line(3, Act::Lock),
        act_line(3, Act::Lock),
        line(16, Call::Exec),
        Line::Tick,
        act_line(3, Act::Unlock),
        act_line(16, Act::Lock),
        line(3, Call::Scan),
        act_line(3, Act::Unlock),
        act_line(16, Act::Unlock),
    ];
    script.config.calls == 2 && script.lines.as_slice() == lines.as_slice()
}

fn reads_locked(alloc: Global) -> Option<bool> {
    let text = format!(in alloc; "{HEADER}{LOCKED}").ok()?;
    Some(is_locked(&read(alloc, text.as_bytes()).ok()?))
}

#[test]
fn locks_and_ticks_are_lines_and_no_calls(rt: HostRuntime) {
    assert_eq!(rt; reads_locked(rt.alloc()), Some(true));
}

/// Strings' lines, each with its text: with spaces in it and around it, with none, of 64 bytes, and
/// with words that begin lines.
const STRINGS: [(&str, &str); 7] = [
    ("string 0 Tank 1\n", "Tank 1"),
    ("string 1 \n", ""),
    ("# one space more\nstring 2  \n", " "),
    ("string 3   a  b  \n", "  a  b  "),
    ("\nstring 4 #\n", "#"),
    (
        "string 5 0123456789012345678901234567890123456789012345678901234567890123\n",
        "0123456789012345678901234567890123456789012345678901234567890123",
    ),
    ("string 6 string 7 ~\n", "string 7 ~"),
];

/// Whether strings that stand before, between and after classes are read.
fn are_strings_read(alloc: Global) -> Option<bool> {
    let mut text = String::from_str(alloc, HEADER).ok()?;
    for (line, _) in STRINGS {
        text.push_str(line).ok()?;
    }
    text.push_str("class 1 000000\nend\nstring 7 end\n1 exec\n")
        .ok()?;
    let script = read(alloc, text.as_bytes()).ok()?;
    let mut are_right = script.assets.strings.len() == 8;
    for (string, (_, text)) in script.assets.strings.iter().zip(&STRINGS) {
        are_right = are_right && string.bytes() == text.as_bytes();
    }
    Some(are_right && script.assets.classes.len() == 2 && script.lines.len() == 1)
}

#[test]
fn strings_are_read_as_they_stand(rt: HostRuntime) {
    assert_eq!(rt; are_strings_read(rt.alloc()), Some(true));
}
