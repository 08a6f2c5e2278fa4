//! The history of a core's calls and switches.

use crate::told::told;
use calls::{Call, Refusal, Reply};
use sessions::Session;
use std::test::*;

const HEADER: &str = "mtgui 1\nscreen 2 1\nbuffers 1\ndesktop 0000FF\n";

const TWO_BUFFERS: &str = "mtgui 1\nscreen 1 1\nbuffers 2\ndesktop 0000FF\n";

fn is_full(reply: &Reply) -> bool {
    matches!(reply, Reply::Refused(Refusal::Full))
}

#[test]
fn a_refused_call_is_in_the_history(rt: HostRuntime) -> Result<(), Fail> {
    let mut session = Session::open(rt.alloc(), HEADER, 9).expect(&rt, "a core");
    let reply = session.call(rt.alloc(), &Call::Hide { h: 2 });
    assert!(rt; matches!(reply, Reply::Refused(Refusal::NoWindow(2))));
    session.call(rt.alloc(), &Call::Scan);
    assert_eq!(rt;
        told(rt.alloc(), session.history())?.as_str(),
        "1 hide\n1 scan\n"
    );
    assert_eq!(rt; session.refused(), 1);
    Ok(())
}

#[test]
fn a_full_history_takes_no_call(rt: HostRuntime) -> Result<(), Fail> {
    let mut session = Session::open(rt.alloc(), HEADER, 1).expect(&rt, "a core");
    session.call(rt.alloc(), &Call::Exec);
    assert!(rt; is_full(&session.call(rt.alloc(), &Call::Exec)));
    assert_eq!(rt; told(rt.alloc(), session.history())?.as_str(), "1 exec\n");
    assert_eq!(rt; session.refused(), 0);
    Ok(())
}

#[test]
fn marks_are_in_the_history(rt: HostRuntime) -> Result<(), Fail> {
    let mut session = Session::open(rt.alloc(), TWO_BUFFERS, 2).expect(&rt, "a core");
    assert!(rt; !session.tick());
    session.call(rt.alloc(), &Call::Exec);
    assert!(rt; session.tick());
    assert!(rt; !session.tick());
    session.call(rt.alloc(), &Call::Scan);
    assert_eq!(rt;
        told(rt.alloc(), session.history())?.as_str(),
        "1 exec\nshown 1\n1 scan\n"
    );
    Ok(())
}

#[test]
fn a_full_history_has_room_for_marks(rt: HostRuntime) -> Result<(), Fail> {
    let mut session = Session::open(rt.alloc(), TWO_BUFFERS, 1).expect(&rt, "a core");
    session.call(rt.alloc(), &Call::Exec);
    assert!(rt; is_full(&session.call(rt.alloc(), &Call::Scan)));
    assert!(rt; session.tick());
    assert_eq!(rt;
        told(rt.alloc(), session.history())?.as_str(),
        "1 exec\nshown 1\n"
    );
    Ok(())
}
