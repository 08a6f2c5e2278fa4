//! A drawer and a controller that step at once, a million times each.
use flip::{Controller, Drawer, Looked, Posted, open};
use gfx_base::Memory;
use std::alloc::Global;
use std::test::*;
use std::thread::{Threads, join};

const ROUNDS: u32 = 1_000_000;

/// What the drawer's side may expect by what it was told so far, and what it was told against it.
#[derive(Drop)]
struct Watch {
    shown: u8,
    waiting: Option<u8>,
    confirmed: u64,
    wrong: u64,
}

impl Watch {
    fn new() -> Watch {
        Watch {
            shown: 0,
            waiting: None,
            confirmed: 0,
            wrong: 0,
        }
    }

    fn expect(&mut self, holds: bool) {
        if !holds {
            self.wrong = self.wrong.wrapping_add(1);
        }
    }

    /// Only the buffer that waited can be confirmed.
    fn confirm(&mut self, confirmed: Option<u8>) {
        if let Some(index) = confirmed {
            let known = self.waiting;
            self.expect(known == confirmed);
            self.confirmed = self.confirmed.wrapping_add(1);
            self.shown = index;
            self.waiting = None;
        }
    }

    /// The buffer to draw on is the first that is neither shown nor waits.
    fn look(&mut self, looked: Looked) {
        self.confirm(looked.confirmed);
        for index in 0..3u8 {
            if index != self.shown && self.waiting != Some(index) {
                self.expect(looked.back == Some(index));
                return;
            }
        }
    }

    /// The buffer that waited is confirmed or replaced, and not both.
    fn post(&mut self, back: u8, posted: Posted) {
        let replaced = if posted.confirmed.is_some() {
            None
        } else {
            self.waiting
        };
        self.expect(posted.replaced == replaced);
        self.confirm(posted.confirmed);
        self.waiting = Some(back);
    }
}

/// Draws on buffers and posts them.
fn draw(drawer: &mut Drawer) -> Watch {
    let mut watch = Watch::new();
    for _ in 0..ROUNDS {
        let looked = drawer.look();
        watch.look(looked);
        if let Some(back) = looked.back {
            let posted = drawer.post(back);
            watch.post(back, posted);
        }
    }
    watch
}

/// Shows buffers, and gives how many and how often the same one twice.
fn show(controller: &mut Controller) -> (u64, u64) {
    let mut shown = 0;
    let (mut count, mut twice) = (0u64, 0u64);
    for _ in 0..ROUNDS {
        if let Some(index) = controller.tick() {
            count = count.wrapping_add(1);
            if index == shown {
                twice = twice.wrapping_add(1);
            }
            shown = index;
        }
    }
    (count, twice)
}

/// What became of both sides.
#[derive(Drop)]
struct Outcome {
    watch: Watch,
    count: u64,
    twice: u64,
}

fn run_both(rt: &(impl Threads + Sync), alloc: Global) -> Result<Outcome, Memory> {
    let (mut drawer, mut controller) = open(alloc, 3)?;
    let (shows, (mut drawer, mut watch)) = join(
        rt,
        move || show(&mut controller),
        move || {
            let watch = draw(&mut drawer);
            (drawer, watch)
        },
    );
    watch.look(drawer.look());
    let (count, twice) = shows;
    Ok(Outcome {
        watch,
        count,
        twice,
    })
}

#[test]
fn each_side_is_told_what_the_other_did(rt: HostRuntime) -> Result<(), Fail> {
    let outcome = run_both(&rt, rt.alloc())?;
    assert_eq!(rt; outcome.watch.wrong, 0);
    assert_eq!(rt; outcome.twice, 0);
    assert_eq!(rt; outcome.watch.confirmed, outcome.count);
    Ok(())
}
