//! As many windows as the core makes, and how it paints them.

use calls::{Call, Refusal, Reply};
use scene::MOST_WINDOWS;
use sessions::Session;
use std::alloc::{AllocError, Global};
use std::test::*;

/// The most calls that are made of a session.
const MOST_CALLS: u32 = 300;

fn create(x: i16, y: i16, w: u16, h: u16, class: u8) -> Call {
    Call::Create {
        parent: 1,
        x,
        y,
        w,
        h,
        class,
    }
}

/// Whether the shown picture is the painter's.
fn shows_the_painter(alloc: Global, session: Session) -> Result<bool, AllocError> {
    let shown = session.shown(alloc)?;
    Ok(shown == session.painted(alloc)?)
}

/// Whether one window more is refused, and keeps the windows and the shown picture.
fn has_most_windows(alloc: Global, session: &mut Session) -> Result<bool, AllocError> {
    let windows = session.windows();
    let shown = session.shown(alloc)?;
    let reply = session.call(alloc, &create(0, 0, 1, 1, 1));
    let windows_after = session.windows();
    Ok(
        matches!(reply, Reply::Refused(Refusal::TooManyWindows))
            && windows_after.as_slice() == windows.as_slice()
            && session.shown(alloc)? == shown,
    )
}

/// A screen with as many windows as there can be, all of one size: each stands a step right of and
/// below the one before, and starts anew where that lies past the end.
#[derive(Clone, Copy)]
struct Crowd {
    header: &'static str,
    size: (u16, u16),
    start: (i16, i16),
    step: (i16, i16),
    end: (i16, i16),
}

const SMALL: Crowd = Crowd {
    header: "mtgui 1\nscreen 24 16\nbuffers 1\ndesktop 000001\n\
    class 1 0000FF\nend\nclass 2 00FF00\nend\nclass 3 FF0000\nend\n",
    size: (9, 7),
    start: (-6, -4),
    step: (5, 3),
    end: (22, 14),
};

const LARGEST: Crowd = Crowd {
    header: "mtgui 1\nscreen 1024 768\nbuffers 1\ndesktop 000001\n\
    class 1 0000FF\nend\nclass 2 00FF00\nend\nclass 3 FF0000\nend\n",
    size: (90, 70),
    start: (-60, -40),
    step: (37, 53),
    end: (1000, 740),
};

/// The next coordinate of a crowd.
fn next(at: i16, start: i16, step: i16, end: i16) -> i16 {
    if at > end {
        start
    } else {
        at.wrapping_add(step)
    }
}

fn crowded(alloc: Global, crowd: &Crowd) -> Option<Session> {
    let mut session = Session::open(alloc, crowd.header, MOST_CALLS)?;
    let (mut x, mut y) = crowd.start;
    let mut class = 1;
    for _ in 1..MOST_WINDOWS {
        let _ = session.call(alloc, &create(x, y, crowd.size.0, crowd.size.1, class));
        x = next(x, crowd.start.0, crowd.step.0, crowd.end.0);
        y = next(y, crowd.start.1, crowd.step.1, crowd.end.1);
        class = if class > 2 { 1 } else { class + 1 };
    }
    Some(session)
}

#[test]
fn as_many_windows_as_there_can_be(rt: HostRuntime) -> Result<(), Fail> {
    for crowd in [SMALL, LARGEST] {
        let mut session = crowded(rt.alloc(), &crowd).expect(&rt, "a core");
        assert_eq!(rt; session.windows().len(), MOST_WINDOWS);
        assert!(rt; has_most_windows(rt.alloc(), &mut session)?);
        assert_eq!(rt; session.refused(), 1);
        let _ = session.call(rt.alloc(), &Call::Exec);
        assert!(rt; shows_the_painter(rt.alloc(), session)?);
    }
    Ok(())
}
