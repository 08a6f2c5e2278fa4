// Buffers with the drawer of their display.
ghost use Rattle.std.specs.Prelude.{◌≡◌, ◌≢◌, ◌⊎◌, ◌↔◌, ℕ, ◌+◌, ◌-◌, ◌<◌, ◌≤◌, ◌^◌, true, false, IsTrue, IsErr, IfOk, IfErr, OnOk, OnErr, IfSome, Option, Some, None};
ghost use Rattle.std.specs.Option.{option_map};
ghost use Rattle.std.specs.Borrow.{sem};
ghost use Rattle.frame.specs.Canvases.{Canvas};
ghost use Rattle.flip.specs.Indexes.{confirmed_by};
ghost use Rattle.flip.specs.Drawers.{after_look, after_own_tick, IsLeastFree};
ghost use Rattle.flip.specs.Controllers.{new_showing};
ghost use Rattle.flip.specs.Display.{IsDisplay};
ghost use Rattle.multibuf.specs.Owners.{copied, HasSides};

use crate::held::Held;
use crate::opening::new_held;
use crate::refusals::{BeginRefused, NotOpen};
use flip::{Controller, Drawer};
use frame::Frame;
use gfx_base::Memory;
use std::alloc::Global;
use std::marker::Model;

/// How often drawing may be begun and not ended.
const MOST_OPEN: u8 = 100;

/// One to three buffers of one size, and the side of their display that draws.
///
/// They are even where all frames have the sides of the opening. Each call asks for that and leaves
/// it so, and whoever writes to the frame that `target` lends has to keep its sides.
#[derive(Drop)]
pub struct Buffers {
    drawer: Drawer,
    width: u16,
    height: u16,
    count: u8,
    switches: u32,
    pub(crate) held: Held,
}

impl Model for Buffers {
    ghost use Rattle.multibuf.specs.Buffering.{Buffering};

    ghost Value = { Buffering };

    ghost use Rattle.multibuf.specs.Fitting.{FitsDrawer};

    ghost view = { λ b. record {
      width = b.width;
      height = b.height;
      drawer = b.drawer;
      count = b.count;
      switches = b.switches;
      held = b.held;
    } };

    ghost invariant = { λ b. FitsDrawer b.drawer b.count b.switches b.held };
}

impl Buffers {
    ghost use Rattle.multibuf.specs.Fitting.{FitsDrawer};
    ghost use Rattle.multibuf.specs.Buffering.{IsEven, KeepsSides, back_index, target_frame, with_target, index_posted, drawer_posted, confirmed_in};
    ghost use Rattle.multibuf.specs.Frames.{frame_at, shown_frame, KeepsFrames, KeepsKnown};
    ghost use Rattle.multibuf.specs.Screens.{screen_of, latest, number_waiting, number_confirmed, after_begin, after_end, after_mark, after_draw, IsOfWaiting};
    ghost use Rattle.multibuf.specs.Opening.{IsNew};
    ghost use Rattle.multibuf.specs.Lending.{LendsTarget};

    /// Black buffers, `n` of them from 1 to 3, of which the first is shown, and the side of the
    /// display that shows. `w` is from 1 to 1,024 and `h` from 1 to 768. The error is that there is
    /// no memory.
    pub fn open(alloc: Global, w: u16, h: u16, n: u8) -> Result<(Buffers, Controller), Memory>
        requires width { (1 ≤ w) × (w ≤ 1024) }
        requires height { (1 ≤ h) × (h ≤ 768) }
        requires some { 1 ≤ n }
        requires few { n ≤ 3 }
        ensures buffers { IfOk result (λ sides. IsNew false w h n sides.0) }
        ensures controller { IfOk result (λ sides. sides.1 ≡ new_showing n) }
    {
        let held = new_held(alloc, w, h, n)?;
        let (drawer, controller) = flip::open(alloc, n)?;
        Ok((Buffers::at_start(drawer, w, h, held), controller))
    }

    /// Black buffers as `open` gives them, which are shown by `tick` alone.
    pub fn open_alone(alloc: Global, w: u16, h: u16, n: u8) -> Result<Buffers, Memory>
        requires width { (1 ≤ w) × (w ≤ 1024) }
        requires height { (1 ≤ h) × (h ≤ 768) }
        requires some { 1 ≤ n }
        requires few { n ≤ 3 }
        ensures { IfOk result (IsNew true w h n) }
    {
        let held = new_held(alloc, w, h, n)?;
        let drawer = flip::open_alone(alloc, n)?;
        Ok(Buffers::at_start(drawer, w, h, held))
    }

    fn at_start(drawer: Drawer, width: u16, height: u16, held: Held) -> Buffers
        requires fits { FitsDrawer drawer 0 0 held }
        ensures { result ≡ record {
          width = width;
          height = height;
          drawer = drawer;
          count = 0;
          switches = 0;
          held = held;
        } }
    {
        Buffers {
            drawer,
            width,
            height,
            count: 0,
            switches: 0,
            held,
        }
    }

    /// How often drawing was begun and not ended, at most 100 times.
    pub fn count(&self) -> u8
        ensures { result ≡ self.now.count }
    {
        self.count
    }

    /// The number of the switch that waits.
    pub fn waiting(&self) -> Option<u32>
        ensures { result ≡ number_waiting (screen_of self.now) }
    {
        self.held.waiting()
    }

    /// The frame that is shown.
    pub fn shown(&self) -> &Frame
        ensures frame { result.now ≡ shown_frame self.now }
        ensures picture { result.now.picture ≡ (screen_of self.now).shown }
        ensures even { IsEven self.now → HasSides self.now.width self.now.height result.now }
    {
        self.held.shown()
    }

    /// Looks at the display, and gives the number of the switch that was confirmed since.
    pub fn see(&mut self) -> Option<u32>
        requires even { IsEven self.old }
        ensures drawer { self.new.drawer ≡ after_look self.old.drawer self.new.drawer.found }
        ensures display { (shown : ℕ) × IsDisplay self.old.drawer shown self.new.drawer.found }
        ensures number { result ≡ number_confirmed
            (confirmed_by self.old.drawer.waiting self.new.drawer.found) (screen_of self.old) }
        ensures none { (result ≡ None) ↔
            (confirmed_by self.old.drawer.waiting self.new.drawer.found ≡ None) }
        ensures waited { IsOfWaiting result (screen_of self.old) }
        ensures alone { IsTrue self.old.drawer.alone → result ≡ None }
        ensures screen { screen_of self.new ≡ after_mark result (screen_of self.old) }
        ensures frames { KeepsFrames self.old self.new }
        ensures sides { KeepsSides self.old self.new }
        ensures even { IsEven self.new }
    {
        if self.drawer.look().confirmed.is_none() {
            return None;
        }
        self.held.confirm()
    }

    /// Shows what waits and gives the number of its switch, where the buffers were opened alone.
    pub fn tick(&mut self) -> Option<u32>
        requires alone { IsTrue self.old.drawer.alone }
        requires even { IsEven self.old }
        ensures drawer { self.new.drawer ≡ after_own_tick self.old.drawer self.new.drawer.found }
        ensures found { self.new.drawer.found ≡ self.old.drawer.waiting }
        ensures number { result ≡ number_waiting (screen_of self.old) }
        ensures screen { screen_of self.new ≡ after_mark result (screen_of self.old) }
        ensures frames { KeepsFrames self.old self.new }
        ensures sides { KeepsSides self.old self.new }
        ensures even { IsEven self.new }
    {
        if self.drawer.tick().is_none() {
            return None;
        }
        self.held.confirm()
    }

    /// Begins drawing: with two or three buffers the outermost begin copies the picture that was
    /// asked for last onto the least free buffer. It doesn't look at the display.
    pub fn begin(&mut self) -> Result<(), BeginRefused>
        requires even { IsEven self.old }
        ensures deep { (result ≡ Err BeginRefused.OpenDepth) ↔ (self.old.count ≡ 100) }
        ensures waits { (k : ℕ) → (result ≡ Err (BeginRefused.Waiting k)) ↔
            ((self.old.drawer.buffers ≡ 2) × (self.old.count ≡ 0)
            × (number_waiting (screen_of self.old) ≡ Some k)) }
        ensures err { IfErr result (λ _. self.new ≡ self.old) }
        ensures drawer { self.new.drawer ≡ self.old.drawer }
        ensures screen { IfOk result (λ _.
            screen_of self.new ≡ after_begin self.old.drawer.buffers (screen_of self.old)) }
        ensures count { IfOk result (λ _. self.new.count ≡ self.old.count + 1) }
        ensures least { IfOk result (λ _. self.old.count ≡ 0 → (k : ℕ) →
            back_index self.new ≡ Some k → IsLeastFree self.old.drawer (Some k)) }
        ensures copied { IfOk result (λ _. self.old.count ≡ 0 → (k : ℕ) →
            back_index self.new ≡ Some k → frame_at self.new k ≡
            option_map (copied (latest (screen_of self.old))) (frame_at self.old k)) }
        ensures known { KeepsKnown self.old self.new }
        ensures sides { KeepsSides self.old self.new }
        ensures even { IsEven self.new }
    {
        if self.count == MOST_OPEN {
            return Err(BeginRefused::OpenDepth);
        }
        if self.count == 0 && !self.held.begin() {
            match self.held.waiting() {
                Some(number) => return Err(BeginRefused::Waiting(number)),
                None => unreachable!(),
            }
        }
        self.count += 1;
        Ok(())
    }

    /// Ends drawing: with two or three buffers the outermost end asks for what was drawn on to be
    /// shown, under the next number, in place of what still waits. Gives the number of a switch
    /// that was found confirmed by then. At most 4,294,967,294 switches were asked for before.
    pub fn end(&mut self) -> Result<Option<u32>, NotOpen>
        requires even { IsEven self.old }
        requires room { self.old.switches < 2 ^ 32 - 1 }
        ensures not_open { IsErr result ↔ (self.old.count ≡ 0) }
        ensures err { OnErr result (self.new ≡ self.old) }
        ensures drawer { OnOk result (self.new.drawer ≡
            drawer_posted self.old.drawer (index_posted self.old) self.new.drawer.found) }
        ensures display { IfSome (index_posted self.old) (λ _.
            (shown : ℕ) × IsDisplay self.old.drawer shown self.new.drawer.found) }
        ensures number { IfOk result (λ k. k ≡ number_confirmed
            (confirmed_in self.old.drawer (index_posted self.old) self.new.drawer.found)
            (screen_of self.old)) }
        ensures waited { IfOk result (λ k. IsOfWaiting k (screen_of self.old)) }
        ensures alone { IfOk result (λ k. IsTrue self.old.drawer.alone → k ≡ None) }
        ensures screen { IfOk result (λ k.
            screen_of self.new ≡ after_end (after_mark k (screen_of self.old))) }
        ensures count { OnOk result (self.old.count ≡ self.new.count + 1) }
        ensures frames { KeepsFrames self.old self.new }
        ensures sides { KeepsSides self.old self.new }
        ensures even { IsEven self.new }
    {
        if self.count == 0 {
            return Err(NotOpen);
        }
        if self.count > 1 {
            self.count -= 1;
            return Ok(None);
        }
        self.count = 0;
        let Some(back) = self.held.back_index() else {
            return Ok(None);
        };
        let posted = self.drawer.post(back);
        let confirmed = if posted.confirmed.is_some() {
            self.held.confirm()
        } else {
            None
        };
        self.switches += 1;
        self.held.ask(self.switches);
        Ok(confirmed)
    }

    /// The frame to draw on. Drawing was begun, or there is one buffer.
    pub fn target(&mut self) -> &mut Frame
        requires even { IsEven self.old }
        requires begun { (self.old.count ≢ 0) ⊎ (self.old.drawer.buffers ≡ 1) }
        ensures* written { sem 𝓛 (LendsTarget self.entry result) }
        ensures value { result.now ≡ target_frame self.old }
        ensures picture { result.now.picture ≡ latest (screen_of self.old) }
        ensures sides { HasSides self.old.width self.old.height result.now }
        ensures screen { (c : Canvas) → screen_of (with_target self.old c) ≡
            after_draw self.old.drawer.buffers c.picture (screen_of self.old) }
        ensures target { (c : Canvas) → target_frame (with_target self.old c) ≡ c }
        ensures known { (c : Canvas) → KeepsKnown self.old (with_target self.old c) }
        ensures even { (c : Canvas) → HasSides self.old.width self.old.height c →
            IsEven (with_target self.old c) }
    {
        self.held.target()
    }
}
