//! What the calls of the core change.

ghost use Rattle.std.specs.Prelude.{◌≡◌, ◌≢◌, ◌+◌, ◌<◌, ◌≤◌, length, IfOk, OnErr};
ghost use Rattle.paint_ops.specs.Soundness.{IsSound};

use calls::{Call, Config, Refusal, Reply};
use context::Contexts;
use desk::{Change, ContextChange};
use flip::Controller;
use frame::Frame;
use gfx_base::{Memory, Rect};
use invalidate::first_invalid;
use paint_ops::{Assets, Class};
use scene::{Win, paint_whole, screen};
use std::alloc::Global;
use std::marker::Model;
use strokes::Shape;
use surfaces::{Surfaces, change_context};
use window_list::{NewWindow, Windows};

/// What the calls of the core change, with how many were made and how many of them were refused.
#[derive(Drop)]
pub struct Engine {
    config: Config,
    assets: Assets,
    windows: Windows,
    contexts: Contexts,
    surfaces: Surfaces,
    made: u32,
    refused: u32,
}

impl Model for Engine {
    ghost use Rattle.engine.specs.Machines.{Machine, IsKept};

    ghost Value = { Machine };

    ghost view = { λ g. record {
      setup = record { config = g.config; assets = g.assets };
      drawer = g.surfaces.drawer;
      width = g.surfaces.width;
      height = g.surfaces.height;
      state = record {
        windows = g.windows.windows;
        handles = g.windows.handles;
        screen = g.surfaces.screen;
        contexts = g.contexts;
        devices = g.surfaces.devices;
      };
      marked = g.surfaces.marked;
      made = g.made;
      refused = g.refused;
    } };

    ghost invariant = { λ g. IsKept (record {
      setup = record { config = g.config; assets = g.assets };
      drawer = g.surfaces.drawer;
      width = g.surfaces.width;
      height = g.surfaces.height;
      state = record {
        windows = g.windows.windows;
        handles = g.windows.handles;
        screen = g.surfaces.screen;
        contexts = g.contexts;
        devices = g.surfaces.devices;
      };
      marked = g.surfaces.marked;
      made = g.made;
      refused = g.refused;
    }) };
}

/// Assets with the desktop's class in the place of class 0, which is there.
fn with_desktop(alloc: Global, mut assets: Assets, config: &Config) -> Assets
    requires { 1 ≤ length assets.classes }
    ensures { result ≡ assets_with_desktop config.now.desktop assets }
{
    assets.classes[0] = Class {
        back: Some(config.desktop),
        ops: Vec::new(alloc),
        reactions: Vec::new(alloc),
    };
    assets
}

ghost use Rattle.desk.specs.Setups.{assets_with_desktop};
ghost use Rattle.engine.specs.Machines.{answered};

/// How many classes there are, with the desktop's.
fn class_count(assets: &Assets) -> usize
    ensures { result ≡ length assets.now.classes }
{
    assets.classes.len()
}

/// How many fonts there are.
fn font_count(assets: &Assets) -> usize
    ensures { result ≡ length assets.now.fonts }
{
    assets.fonts.len()
}

/// The reply to a call that gives nothing.
fn answered(answer: Result<(), Refusal>) -> Reply
    ensures { result ≡ answered answer }
{
    match answer {
        Ok(()) => Reply::Done,
        Err(refusal) => Reply::Refused(refusal),
    }
}

impl Engine {
    ghost use Rattle.std.specs.Prelude.{Some, None, Bool, true, false, not, is_some, position, IsTrue, OnOk};
    ghost use Rattle.multibuf.specs.Screens.{number_waiting, after_mark};
    ghost use Rattle.desk.specs.Setups.{painter};
    ghost use Rattle.invalidate.specs.Invalidation.{is_invalid};
    ghost use Rattle.calls.specs.declared.call.Call.TheVariants.{Create};
    ghost use Rattle.desk.specs.Jobs.{jobs_of};
    ghost use Rattle.calls.specs.declared.call.Call.TheVariants.{Begin, End, Exec, Exec1, DevCreate, DevDelete, DevCopy, SetMemdev};
    ghost use Rattle.desk.specs.Changes.{call_for, context_call, stroke_call};
    ghost use Rattle.surfaces.specs.Panes.{panes_for, IsBegun, ended, Begins, Finds, LooksAt};
    ghost use Rattle.desk.specs.Desks.{after_job, after_jobs, refusal_of};
    ghost use Rattle.engine.specs.States.{desk_of};
    ghost use Rattle.surfaces.specs.Turns.{none_free, IsScreen};
    ghost use Rattle.flip.specs.Controllers.{new_showing};
    ghost use Rattle.flip.specs.Drawers.{after_own_tick};
    ghost use Rattle.engine.specs.Machines.{IsConfig, Takes, TakesAlike, MakesAlike, Turns, TurnsAlike, Paints, Counts, IsUnmade, machine_for, panes_of, with_panes, with_mark};

    /// The desktop alone, which is invalid, on these surfaces. In the place of class 0 comes the
    /// desktop's: the configuration's colour alone.
    fn around(
        alloc: Global,
        surfaces: Surfaces,
        assets: Assets,
        config: Config,
    ) -> Result<Engine, Memory>
        requires config { IsConfig config }
        requires assets { IsSound assets }
        requires desktop { 1 ≤ length assets.classes }
        requires surfaces { (alone : Bool) × (surfaces
            ≡ panes_for alone config.w config.h config.buffers) }
        ensures { (alone : Bool) → surfaces ≡ panes_for alone config.w config.h config.buffers
            → IfOk result (λ engine. engine ≡ machine_for alone assets config) }
    {
        let windows = Windows::open(alloc, config.w, config.h)?;
        let assets = with_desktop(alloc, assets, &config);
        let contexts = Contexts::new();
        Ok(Engine {
            config,
            assets,
            windows,
            contexts,
            surfaces,
            made: 0,
            refused: 0,
        })
    }

    /// The desktop alone, which is invalid, on black buffers, and the side of their display that
    /// shows. In the place of class 0 comes the desktop's: the configuration's colour alone.
    pub fn open(
        alloc: Global,
        assets: Assets,
        config: Config,
    ) -> Result<(Engine, Controller), Memory>
        requires config { IsConfig config }
        requires assets { IsSound assets }
        requires desktop { 1 ≤ length assets.classes }
        ensures engine { IfOk result (λ sides. sides.0 ≡ machine_for false assets config) }
        ensures controller { IfOk result (λ sides. sides.1 ≡ new_showing config.buffers) }
    {
        let (surfaces, controller) = Surfaces::open(alloc, config.w, config.h, config.buffers)?;
        let engine = Engine::around(alloc, surfaces, assets, config)?;
        Ok((engine, controller))
    }

    /// The same, shown by `tick` alone.
    pub fn open_alone(alloc: Global, assets: Assets, config: Config) -> Result<Engine, Memory>
        requires config { IsConfig config }
        requires assets { IsSound assets }
        requires desktop { 1 ≤ length assets.classes }
        ensures { IfOk result (λ engine. engine ≡ machine_for true assets config) }
    {
        let surfaces = Surfaces::open_alone(alloc, config.w, config.h, config.buffers)?;
        Engine::around(alloc, surfaces, assets, config)
    }

    /// How many calls may be made.
    pub fn most_calls(&self) -> u32
        ensures { result ≡ self.now.setup.config.calls }
    {
        self.config.calls
    }

    /// How many calls were made.
    pub fn made(&self) -> u32
        ensures { result ≡ self.now.made }
    {
        self.made
    }

    /// The picture that is shown.
    pub fn shown(&self) -> &Frame
        ensures { result.now.picture ≡ self.now.state.screen.shown }
    {
        self.surfaces.shown()
    }

    /// The windows, from back to front.
    pub fn windows(&self) -> &[Win]
        ensures value { result.now ≡ self.now.state.windows }
        ensures few { length result.now ≤ 256 }
    {
        self.windows.stack()
    }

    /// What windows paint with.
    pub fn assets(&self) -> &Assets
        ensures { result.now ≡ self.now.setup.assets }
    {
        &self.assets
    }

    /// How many calls were refused.
    pub fn refused(&self) -> u32
        ensures { result ≡ self.now.refused }
    {
        self.refused
    }

    /// The painter's picture of the windows, in the frame that they are composed in.
    pub fn into_painted(self) -> Frame
        ensures { result.picture ≡ painter self.setup self.state.windows }
    {
        let Engine {
            config: _,
            assets,
            windows,
            contexts: _,
            surfaces,
            made: _,
            refused: _,
        } = self;
        let mut painted = surfaces.into_composed();
        paint_whole(windows.stack(), &assets, &mut painted);
        painted
    }

    /// The first invalid window.
    fn next_job(&self) -> Option<usize>
        ensures next { result ≡ position is_invalid self.now.state.windows }
        ensures few { length self.now.state.windows ≤ 256 }
        ensures buffers { self.now.drawer.buffers ≡ self.now.setup.config.buffers }
        ensures pictures { IsScreen self.now.drawer.buffers self.now.state.screen }
    {
        first_invalid(self.windows.stack())
    }

    fn do_job(&mut self, which: usize)
        requires first { position is_invalid self.old.state.windows ≡ Some which }
        requires begun { IsBegun self.old.drawer.buffers self.old.state.screen }
        ensures { Paints self.old 1 (after_job self.old.setup (desk_of self.old.state)) self.new }
    {
        self.surfaces
            .paint(self.windows.stack(), which, &self.assets);
        self.windows.make_valid(which);
    }

    /// Paints until no window is invalid, and tells how many jobs that took. Drawing was begun, or
    /// there is one buffer.
    fn do_jobs(&mut self) -> u16
        requires begun { IsBegun self.old.drawer.buffers self.old.state.screen }
        ensures jobs { result ≡ jobs_of self.old.state.windows }
        ensures desk { Paints self.old result (after_jobs self.old.setup
            (jobs_of self.old.state.windows) (desk_of self.old.state)) self.new }
    {
        let mut jobs = 0;
        while let Some(which) = self.next_job() {
            self.do_job(which);
            jobs += 1;
        }
        jobs
    }

    /// Begins drawing where it isn't begun, and tells whether it did.
    fn begin_own(&mut self) -> Result<bool, Refusal>
        ensures screen { Begins result self.old.drawer.buffers self.old.state.screen
            self.new.state.screen }
        ensures rest { self.new ≡ record self.old {
          state = record self.old.state { screen = self.new.state.screen };
        } }
    {
        self.surfaces.begin_own()
    }

    /// Ends drawing, which was begun, where a call began by itself.
    fn end_own(&mut self, own: bool)
        requires begun { self.old.state.screen.count ≢ 0 }
        requires fresh { self.old.marked ≡ None }
        requires room { self.old.state.screen.switches < self.old.made }
        ensures finds { let new = self.new in
            Finds self.old.drawer self.old.state.screen new.drawer new.marked }
        ensures ended { let mid = with_mark self.new self.old in self.new ≡ record mid {
          state = record mid.state { screen = ended own mid.state.screen };
        } }
    {
        self.surfaces.end_own(own);
    }

    /// Does all jobs, on what it begins for them if there are any and nothing was begun.
    fn exec(&mut self) -> Reply
        requires fresh { self.old.marked ≡ None }
        requires room { self.old.state.screen.switches < self.old.made }
        ensures { TurnsAlike self.old Exec self.new result }
    {
        if self.next_job().is_none() {
            return Reply::Jobs(0);
        }
        let own = match self.begin_own() {
            Ok(own) => own,
            Err(refusal) => return Reply::Refused(refusal),
        };
        let jobs = self.do_jobs();
        self.end_own(own);
        Reply::Jobs(jobs)
    }

    /// Does the first job, if there is one, in the same way.
    fn exec1(&mut self) -> Reply
        requires fresh { self.old.marked ≡ None }
        requires room { self.old.state.screen.switches < self.old.made }
        ensures { TurnsAlike self.old Exec1 self.new result }
    {
        let Some(which) = self.next_job() else {
            return Reply::Jobs(0);
        };
        let own = match self.begin_own() {
            Ok(own) => own,
            Err(refusal) => return Reply::Refused(refusal),
        };
        self.do_job(which);
        self.end_own(own);
        Reply::Jobs(1)
    }

    fn begin(&mut self) -> Reply
        ensures { MakesAlike self.old Begin self.new result }
    {
        answered(self.surfaces.begin())
    }

    fn end(&mut self) -> Reply
        requires fresh { self.old.marked ≡ None }
        requires room { self.old.state.screen.switches < self.old.made }
        ensures { TurnsAlike self.old End self.new result }
    {
        answered(self.surfaces.end())
    }

    /// Shows what waits, and gives the number of its switch, where the engine was opened alone.
    pub fn tick(&mut self) -> Option<u32>
        requires { IsTrue self.old.drawer.alone }
        ensures switch { result ≡ number_waiting self.old.state.screen }
        ensures drawer { self.new.drawer ≡ after_own_tick self.old.drawer self.new.drawer.found }
        ensures shown { self.new ≡ record self.old {
          drawer = self.new.drawer;
          state = record self.old.state { screen = after_mark result self.old.state.screen };
        } }
    {
        self.surfaces.tick()
    }

    /// Looks at the display, and gives the number of the switch that was confirmed since.
    pub fn look(&mut self) -> Option<u32>
        ensures looked { LooksAt (panes_of self.old) (panes_of self.new) result }
        ensures rest { self.new ≡ with_panes self.old (panes_of self.new) }
    {
        self.surfaces.look()
    }

    /// The switch that the last call found confirmed where it ended, which it tells once.
    pub fn take_mark(&mut self) -> Option<u32>
        ensures mark { result ≡ self.old.marked }
        ensures rest { self.new ≡ record self.old { marked = None } }
    {
        self.surfaces.take_mark()
    }

    /// Whether a call that begins by itself would find a buffer to draw on.
    pub fn is_free(&self) -> bool
        ensures { result ≡ not (is_some (refusal_of
            (none_free self.now.setup.config.buffers self.now.state.screen))) }
    {
        self.config.buffers != 2 || self.surfaces.count() > 0 || self.surfaces.waiting().is_none()
    }

    /// Whether no switch waits.
    pub fn is_still(&self) -> bool
        ensures { result ≡ not (is_some (number_waiting self.now.state.screen)) }
    {
        self.surfaces.waiting().is_none()
    }

    fn create(&mut self, new: &NewWindow) -> Reply
        requires { self.old.state.handles ≤ self.old.made }
        ensures { let n = new.now in
            TakesAlike self.old (Create n.parent n.x n.y n.w n.h n.class) self.new result }
    {
        let screen = screen(self.config.w, self.config.h);
        match self.windows.create(new, class_count(&self.assets), &screen) {
            Ok(handle) => Reply::Handle(handle),
            Err(refusal) => Reply::Refused(refusal),
        }
    }

    fn change(&mut self, h: u32, change: Change) -> Reply
        ensures { TakesAlike self.old (call_for h change) self.new result }
    {
        let screen = screen(self.config.w, self.config.h);
        answered(
            self.windows
                .change(h, change, class_count(&self.assets), &screen),
        )
    }

    fn set_memdev(&mut self, h: u32, memdev: bool) -> Reply
        ensures { TakesAlike self.old (SetMemdev h memdev) self.new result }
    {
        answered(self.windows.set_memdev(h, memdev))
    }

    fn set_value(&mut self, h: u32, index: u8, value: i16) -> Reply
        ensures { TakesAlike self.old (Call.SetValue h index value) self.new result }
    {
        let screen = screen(self.config.w, self.config.h);
        answered(self.windows.set_value(h, index, value, &screen))
    }

    fn send(&mut self, h: u32, message: u8, argument: i16) -> Reply
        ensures { TakesAlike self.old (Call.Send h message argument) self.new result }
    {
        let screen = screen(self.config.w, self.config.h);
        answered(
            self.windows
                .send(h, message, argument, &self.assets, &screen),
        )
    }

    fn invalidate(&mut self, h: u32) -> Reply
        ensures { TakesAlike self.old (Call.Invalidate h) self.new result }
    {
        let screen = screen(self.config.w, self.config.h);
        answered(self.windows.invalidate(h, &screen))
    }

    fn invalidate_rect(&mut self, h: u32, local: &Rect) -> Reply
        requires { IsLocal local.now }
        ensures { let r = local.now in
            TakesAlike self.old (Call.InvalidateRect h r.x0 r.y0 r.x1 r.y1) self.new result }
    {
        let screen = screen(self.config.w, self.config.h);
        answered(self.windows.invalidate_rect(h, local, &screen))
    }

    fn invalidate_area(&mut self, area: &Rect) -> Reply
        ensures { let r = area.now in
            TakesAlike self.old (Call.InvalidateArea r.x0 r.y0 r.x1 r.y1) self.new result }
    {
        let screen = screen(self.config.w, self.config.h);
        self.windows.invalidate_area(area, &screen);
        Reply::Done
    }

    fn change_context(&mut self, task: u16, change: ContextChange) -> Reply
        requires { (1 ≤ task) × (task ≤ 16) }
        ensures { Takes self.old task (context_call change) self.new result }
    {
        answered(change_context(
            &mut self.contexts,
            task,
            change,
            self.windows.stack(),
            &self.surfaces,
            font_count(&self.assets),
        ))
    }

    fn stroke(&mut self, task: u16, shape: &Shape) -> Reply
        requires task { (1 ≤ task) × (task ≤ 16) }
        requires fresh { self.old.marked ≡ None }
        requires room { self.old.state.screen.switches < self.old.made }
        ensures { Turns self.old task (stroke_call shape.now) self.new result }
    {
        answered(
            self.surfaces.draw(
                self.windows.stack(),
                self.contexts.get(task),
                shape,
                &self.assets,
            ),
        )
    }

    fn copy_device(&mut self, actor: u16, device: u32, x: i16, y: i16) -> Reply
        requires actor { (1 ≤ actor) × (actor ≤ 16) }
        requires fresh { self.old.marked ≡ None }
        requires room { self.old.state.screen.switches < self.old.made }
        ensures { Turns self.old actor (DevCopy device x y) self.new result }
    {
        answered(
            self.surfaces.copy(
                self.windows.stack(),
                self.contexts.get(actor),
                device,
                x,
                y,
                &self.assets,
            ),
        )
    }

    fn delete_device(&mut self, task: u16, device: u32) -> Reply
        ensures { Takes self.old task (DevDelete device) self.new result }
    {
        answered(self.surfaces.discard(device))
    }

    /// Makes a device of the colour that is behind the task's text.
    fn create_device(&mut self, alloc: Global, task: u16, w: u16, h: u16) -> Result<Reply, Memory>
        requires task { (1 ≤ task) × (task ≤ 16) }
        requires handles { self.old.state.devices.handles < self.old.made }
        ensures made { IfOk result
            (λ reply. Takes self.old task (DevCreate w h) self.new reply) }
        ensures unmade { OnErr result (IsUnmade self.old task (DevCreate w h) self.new) }
    {
        let colour = self.contexts.get(task).bk;
        match self.surfaces.make(alloc, w, h, colour) {
            Ok(device) => Ok(Reply::Device(device)),
            Err(Refusal::Memory) => Err(Memory),
            Err(refusal) => Ok(Reply::Refused(refusal)),
        }
    }

    /// Makes a call of an actor that is counted already. Without memory for a device nothing
    /// changes.
    fn take(&mut self, alloc: Global, actor: u16, call: &Call) -> Result<Reply, Memory>
        requires actor { (1 ≤ actor) × (actor ≤ 16) }
        requires handles { self.old.state.handles ≤ self.old.made }
        requires devices { self.old.state.devices.handles < self.old.made }
        requires switches { self.old.state.screen.switches < self.old.made }
        requires fresh { self.old.marked ≡ None }
        ensures made { IfOk result (λ reply. Turns self.old actor call.now self.new reply) }
        ensures unmade { OnErr result (IsUnmade self.old actor call.now self.new) }
    {
        Ok(match *call {
            Call::Create {
                parent,
                x,
                y,
                w,
                h,
                class,
            } => self.create(&NewWindow {
                parent,
                x,
                y,
                w,
                h,
                class,
            }),
            Call::Delete { h } => self.change(h, Change::Delete),
            Call::MoveTo { h, x, y } => self.change(h, Change::MoveTo { x, y }),
            Call::MoveBy { h, dx, dy } => self.change(h, Change::MoveBy { dx, dy }),
            Call::Resize { h, width, height } => self.change(h, Change::Resize { width, height }),
            Call::Show { h } => self.change(h, Change::Show),
            Call::Hide { h } => self.change(h, Change::Hide),
            Call::ToTop { h } => self.change(h, Change::ToTop),
            Call::ToBottom { h } => self.change(h, Change::ToBottom),
            Call::SetClass { h, class } => self.change(h, Change::SetClass { class }),
            Call::SetTrans { h, trans } => self.change(h, Change::SetTrans { trans }),
            Call::SetMemdev { h, memdev } => self.set_memdev(h, memdev),
            Call::SetValue { h, index, value } => self.set_value(h, index, value),
            Call::Send {
                h,
                message,
                argument,
            } => self.send(h, message, argument),
            Call::Select { h } => self.change_context(actor, ContextChange::Select { h }),
            Call::DevSelect { device } => {
                self.change_context(actor, ContextChange::Device { device })
            }
            Call::Colour { c } => self.change_context(actor, ContextChange::Colour { c }),
            Call::BkColour { c } => self.change_context(actor, ContextChange::BkColour { c }),
            Call::TextMode { trans } => {
                self.change_context(actor, ContextChange::TextMode { trans })
            }
            Call::Font { font } => self.change_context(actor, ContextChange::Font { font }),
            Call::Save => self.change_context(actor, ContextChange::Save),
            Call::Restore => self.change_context(actor, ContextChange::Restore),
            Call::Fill { x0, y0, x1, y1 } => self.stroke(actor, &Shape::Fill(x0, y0, x1, y1)),
            Call::Frame { x0, y0, x1, y1 } => self.stroke(actor, &Shape::Frame(x0, y0, x1, y1)),
            Call::Line { x0, y0, x1, y1 } => self.stroke(actor, &Shape::Line(x0, y0, x1, y1)),
            Call::Bitmap { bitmap, x, y } => self.stroke(actor, &Shape::Bitmap(bitmap, x, y)),
            Call::Text { x, y, string } => self.stroke(actor, &Shape::Text(x, y, string)),
            Call::DevCreate { w, h } => self.create_device(alloc, actor, w, h)?,
            Call::DevDelete { device } => self.delete_device(actor, device),
            Call::DevCopy { device, x, y } => self.copy_device(actor, device, x, y),
            Call::Invalidate { h } => self.invalidate(h),
            Call::InvalidateRect { h, x0, y0, x1, y1 } => {
                self.invalidate_rect(h, &local_rect(x0, y0, x1, y1))
            }
            Call::InvalidateArea { x0, y0, x1, y1 } => {
                self.invalidate_area(&local_rect(x0, y0, x1, y1))
            }
            Call::Begin => self.begin(),
            Call::End => self.end(),
            Call::Exec => self.exec(),
            Call::Exec1 => self.exec1(),
            Call::Scan => Reply::Done,
        })
    }

    /// Makes a call of a task and counts it. Fewer calls were made than the core was opened for.
    /// Without memory for a device nothing changes.
    pub fn apply(&mut self, alloc: Global, actor: u16, call: &Call) -> Result<Reply, Memory>
        requires actor { (1 ≤ actor) × (actor ≤ 16) }
        requires room { self.old.made < self.old.setup.config.calls }
        requires fresh { self.old.marked ≡ None }
        ensures finds { let new = self.new in
            OnOk result (Finds self.old.drawer self.old.state.screen new.drawer new.marked) }
        ensures made { IfOk result (λ reply.
            Counts (with_mark self.new self.old) actor call.now self.new reply) }
        ensures unmade { OnErr result (IsUnmade self.old actor call.now self.new) }
    {
        self.made += 1;
        match self.take(alloc, actor, call) {
            Ok(reply) => {
                if let Reply::Refused(_) = reply {
                    self.refused += 1;
                }
                Ok(reply)
            }
            Err(Memory) => {
                self.made -= 1;
                Err(Memory)
            }
        }
    }
}

ghost use Rattle.desk.specs.Desks.{rect_with};
ghost use Rattle.invalidate.specs.Invalidation.{IsLocal};

/// The rectangle with these corners.
fn local_rect(x0: i16, y0: i16, x1: i16, y1: i16) -> Rect
    ensures value { result ≡ rect_with x0 y0 x1 y1 }
    ensures local { IsLocal result }
{
    Rect {
        x0: i32::from(x0),
        y0: i32::from(y0),
        x1: i32::from(x1),
        y1: i32::from(y1),
    }
}
