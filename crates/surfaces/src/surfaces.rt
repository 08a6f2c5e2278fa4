//! What is drawn on: the buffers of the screen, and the devices.

ghost use Rattle.std.specs.Prelude.{◌≡◌, ◌≢◌, ◌+◌, ◌<◌, ◌≤◌, [], ◌∷◌, Some, None, Err, true, false, length, is_some, IsTrue, IfOk, IfErr, IfSome, OnOk, OnErr};
ghost use Rattle.std.specs.List.{AllByRecursion};
ghost use Rattle.paint_ops.specs.Soundness.{IsSound, IsOperation};
ghost use Rattle.scene.specs.Looks.{IsPaintable};
ghost use Rattle.scene.specs.Places.{AreSingle};
ghost use Rattle.scene.specs.Damage.{repainted};
ghost use Rattle.strokes.specs.Strokes.{operation_of, colour_of_stroke, colour_of_copy, stroked, inked_whole};
ghost use Rattle.calls.specs.declared.reply.Refusal.TheVariants as Refused;
ghost use Rattle.desk.specs.Devices.{no_device_pictures, picture_on, with_new_device, without_device, with_drawing};
ghost use Rattle.flip.specs.Controllers.{new_showing};
ghost use Rattle.flip.specs.Drawers.{after_own_tick};
ghost use Rattle.multibuf.specs.Buffering.{IsEven};
ghost use Rattle.multibuf.specs.Screens.{screen_of, latest, number_waiting, after_begin, after_end, after_mark};
ghost use Rattle.surfaces.specs.Turns.{none_free, begin_objections, end_objections, IsScreen};
ghost use Rattle.desk.specs.Drawing.{Draw, Copy, with_ink};
ghost use Rattle.surfaces.specs.Panes.{panes_for, looks_on, IsBegun, with_drawn, with_turn, panes_after, pane_objections, ended, Begins, switched, Finds, LooksAt};
ghost use Rattle.surfaces.specs.Refusals.{Draws, Passes, device_refusal};
ghost use Rattle.desk.specs.Desks.{refusal_of, no_window, no_device, shape_objections, making_objections};

use calls::Refusal;
use context::Context;
use desk::place_of;
use exec_paint::job;
use flip::Controller;
use frame::Frame;
use gfx_base::{Colour, Memory};
use memdev::{DevRefused, Devices};
use multibuf::{BeginRefused, Buffers, NotOpen};
use paint_ops::Assets;
use scene::Win;
use std::alloc::Global;
use std::marker::Model;
use strokes::{Shape, copy, on_device, on_screen};

/// The number that stands for the screen where a device is selected.
pub const SCREEN: u32 = 0;

/// What is drawn on.
#[derive(Drop)]
pub struct Surfaces {
    buffers: Buffers,
    /// What windows are composed in before they show. It has the screen's sides.
    composed: Frame,
    devices: Devices,
    /// The switch that the last end found confirmed.
    marked: Option<u32>,
}

impl Model for Surfaces {
    ghost use Rattle.multibuf.specs.Screens.{screen_of};
    ghost use Rattle.surfaces.specs.Seen.{seen_devices};
    ghost use Rattle.surfaces.specs.Panes.{Panes, AreFit};

    ghost Value = { Panes };

    ghost view = { λ s. record {
      drawer = s.buffers.drawer;
      width = s.buffers.width;
      height = s.buffers.height;
      screen = screen_of s.buffers;
      devices = seen_devices s.devices;
      marked = s.marked;
    } };

    ghost invariant = { λ s. AreFit s.buffers s.composed };
}

/// Refuses a shape that names what isn't there.
fn check_shape(shape: &Shape, context: &Context, assets: &Assets) -> Result<(), Refusal>
    ensures reason { Passes result
        (refusal_of (shape_objections assets.now context.now shape.now)) }
    ensures sound { IfOk result
        (λ fine. IsOperation assets.now (operation_of context.now shape.now)) }
{
    match *shape {
        Shape::Bitmap(bitmap, ..) if usize::from(bitmap) >= assets.bitmaps.len() => {
            Err(Refusal::NoBitmap(bitmap))
        }
        Shape::Text(.., string) if usize::from(string) >= assets.strings.len() => {
            Err(Refusal::NoText(string))
        }
        Shape::Text(..) if usize::from(context.font) >= assets.fonts.len() => {
            Err(Refusal::NoFont(context.font))
        }
        _ => Ok(()),
    }
}

/// The core's refusal for that of the devices.
fn device_refusal(refused: DevRefused) -> Refusal
    ensures { result ≡ device_refusal refused }
{
    match refused {
        DevRefused::BadSize => Refusal::BadSize,
        DevRefused::TooMany => Refusal::TooManyDevices,
        DevRefused::NoDevice(device) => Refusal::NoDevice(device),
        DevRefused::Memory => Refusal::Memory,
    }
}

impl Surfaces {
    /// These buffers, whose sides in points are told once more, and no device.
    fn around(alloc: Global, buffers: Buffers, w: u16, h: u16) -> Result<Surfaces, Memory>
        requires width { (1 ≤ w) × (w ≤ 1024) }
        requires height { (1 ≤ h) × (h ≤ 768) }
        requires sides { (buffers.width ≡ w) × (buffers.height ≡ h) }
        requires even { IsEven buffers }
        ensures { IfOk result (λ surfaces. surfaces ≡ record {
          drawer = buffers.drawer;
          width = buffers.width;
          height = buffers.height;
          screen = screen_of buffers;
          devices = no_device_pictures;
          marked = None;
        }) }
    {
        let composed = Frame::new(alloc, w, h)?;
        Ok(Surfaces {
            buffers,
            composed,
            devices: Devices::new(),
            marked: None,
        })
    }

    /// Black buffers of these sides in points, from 1 to 3 of them, and no device; and the side of
    /// their display that shows.
    pub fn open(
        alloc: Global,
        w: u16,
        h: u16,
        buffers: u8,
    ) -> Result<(Surfaces, Controller), Memory>
        requires width { (1 ≤ w) × (w ≤ 1024) }
        requires height { (1 ≤ h) × (h ≤ 768) }
        requires buffers { (1 ≤ buffers) × (buffers ≤ 3) }
        ensures surfaces { IfOk result (λ sides. sides.0 ≡ panes_for false w h buffers) }
        ensures controller { IfOk result (λ sides. sides.1 ≡ new_showing buffers) }
    {
        let (buffers, controller) = Buffers::open(alloc, w, h, buffers)?;
        let surfaces = Surfaces::around(alloc, buffers, w, h)?;
        Ok((surfaces, controller))
    }

    /// The same, shown by `tick` alone.
    pub fn open_alone(alloc: Global, w: u16, h: u16, buffers: u8) -> Result<Surfaces, Memory>
        requires width { (1 ≤ w) × (w ≤ 1024) }
        requires height { (1 ≤ h) × (h ≤ 768) }
        requires buffers { (1 ≤ buffers) × (buffers ≤ 3) }
        ensures { IfOk result (λ surfaces. surfaces ≡ panes_for true w h buffers) }
    {
        let buffers = Buffers::open_alone(alloc, w, h, buffers)?;
        Surfaces::around(alloc, buffers, w, h)
    }

    /// The picture that is shown.
    pub fn shown(&self) -> &Frame
        ensures { result.now.picture ≡ self.now.screen.shown }
    {
        self.buffers.shown()
    }

    /// How often drawing was begun and not ended, at most 100 times.
    pub fn count(&self) -> u8
        ensures { result ≡ self.now.screen.count }
    {
        self.buffers.count()
    }

    /// The number of the switch that waits.
    pub fn waiting(&self) -> Option<u32>
        ensures { result ≡ number_waiting self.now.screen }
    {
        self.buffers.waiting()
    }

    /// What windows are composed in, alone.
    pub fn into_composed(self) -> Frame
        ensures width { result.picture.width ≡ self.width }
        ensures height { result.picture.height ≡ self.height }
    {
        let Surfaces {
            buffers: _,
            composed,
            devices: _,
            marked: _,
        } = self;
        composed
    }

    /// Begins drawing.
    pub fn begin(&mut self) -> Result<(), Refusal>
        ensures { let old = self.old in
            let n = old.drawer.buffers in
            Draws result (refusal_of (begin_objections n old.screen))
            (record old { screen = after_begin n old.screen }) old self.new }
    {
        match self.buffers.begin() {
            Ok(()) => Ok(()),
            Err(BeginRefused::OpenDepth) => Err(Refusal::OpenDepth),
            Err(BeginRefused::Waiting(switch)) => Err(Refusal::Waiting(switch)),
        }
    }

    /// Ends drawing, and keeps which switch was found confirmed by then, for `take_mark`.
    pub fn end(&mut self) -> Result<(), Refusal>
        requires fresh { self.old.marked ≡ None }
        requires room { self.old.screen.switches < 4294967295 }
        ensures finds { let new = self.new in
            Finds self.old.drawer self.old.screen new.drawer new.marked }
        ensures ended { let mid = switched self.new self.old in
            Draws result (refusal_of (end_objections self.old.screen))
            (record mid { screen = after_end mid.screen }) self.old self.new }
    {
        match self.buffers.end() {
            Ok(confirmed) => {
                self.marked = confirmed;
                Ok(())
            }
            Err(NotOpen) => Err(Refusal::NotOpen),
        }
    }

    /// Begins drawing where it isn't begun, and tells whether it did.
    pub fn begin_own(&mut self) -> Result<bool, Refusal>
        ensures screen { Begins result self.old.drawer.buffers self.old.screen self.new.screen }
        ensures rest { self.new ≡ record self.old { screen = self.new.screen } }
    {
        if self.buffers.count() > 0 {
            return Ok(false);
        }
        self.begin()?;
        Ok(true)
    }

    /// Ends drawing, which was begun, where a call began by itself.
    pub fn end_own(&mut self, own: bool)
        requires begun { self.old.screen.count ≢ 0 }
        requires fresh { self.old.marked ≡ None }
        requires room { self.old.screen.switches < 4294967295 }
        ensures finds { let new = self.new in
            Finds self.old.drawer self.old.screen new.drawer new.marked }
        ensures ended { let mid = switched self.new self.old in
            self.new ≡ record mid { screen = ended own mid.screen } }
    {
        if own {
            let ended = self.end().is_ok();
            prove!(ended);
        }
    }

    /// The switch that the last end found confirmed, which it tells once.
    pub fn take_mark(&mut self) -> Option<u32>
        ensures mark { result ≡ self.old.marked }
        ensures rest { self.new ≡ record self.old { marked = None } }
    {
        self.marked.take()
    }

    /// Looks at the display, and gives the number of the switch that was confirmed since.
    pub fn look(&mut self) -> Option<u32>
        ensures { LooksAt self.old self.new result }
    {
        self.buffers.see()
    }

    /// Shows what waits, and gives the number of its switch, where the surfaces were opened alone.
    pub fn tick(&mut self) -> Option<u32>
        requires { IsTrue self.old.drawer.alone }
        ensures switch { result ≡ number_waiting self.old.screen }
        ensures drawer { self.new.drawer ≡ after_own_tick self.old.drawer self.new.drawer.found }
        ensures shown { self.new ≡ record self.old {
          drawer = self.new.drawer;
          screen = after_mark result self.old.screen;
        } }
    {
        self.buffers.tick()
    }

    /// Whether a device that lives has the handle.
    pub fn has_device(&self, device: u32) -> bool
        ensures { result ≡ is_some (picture_on self.now.devices.live device) }
    {
        self.devices.get(device).is_some()
    }

    /// Paints the window at `which`. Drawing was begun, or there is one buffer.
    pub fn paint(&mut self, stack: &[Win], which: usize, assets: &Assets)
        requires begun { IsBegun self.old.drawer.buffers self.old.screen }
        requires assets { IsSound assets.now }
        requires few { length stack.now ≤ 256 }
        requires windows { AllByRecursion (IsPaintable assets.now) stack.now }
        requires single { AreSingle stack.now }
        requires which { which < length stack.now }
        ensures { let old = self.old in
            let looks = looks_on assets.now stack.now old in
            self.new ≡ with_drawn old (repainted looks stack.now which (latest old.screen)) }
    {
        let _ = job(
            stack,
            which,
            assets,
            &mut self.composed,
            self.buffers.target(),
        );
    }

    /// Draws a shape on what was begun, in the window at a place.
    fn draw_shape(
        &mut self,
        stack: &[Win],
        at: usize,
        context: &Context,
        shape: &Shape,
        assets: &Assets,
    )
        requires begun { IsBegun self.old.drawer.buffers self.old.screen }
        requires assets { IsSound assets.now }
        requires few { length stack.now ≤ 256 }
        requires windows { AllByRecursion (IsPaintable assets.now) stack.now }
        requires single { AreSingle stack.now }
        requires place { at < length stack.now }
        requires shape { IsOperation assets.now (operation_of context.now shape.now) }
        ensures { let old = self.old in
            let looks = looks_on assets.now stack.now old in
            let ink = colour_of_stroke assets.now context.now shape.now in
            self.new ≡ with_drawn old (stroked looks stack.now at ink (latest old.screen)) }
    {
        let _ = on_screen(stack, at, context, shape, assets, self.buffers.target());
    }

    /// Draws a shape on the screen, in the window that the context selects.
    fn draw_on_screen(
        &mut self,
        stack: &[Win],
        context: &Context,
        shape: &Shape,
        assets: &Assets,
    ) -> Result<(), Refusal>
        requires fresh { self.old.marked ≡ None }
        requires pictures { IsScreen self.old.drawer.buffers self.old.screen }
        requires room { self.old.screen.switches < 4294967295 }
        requires assets { IsSound assets.now }
        requires few { length stack.now ≤ 256 }
        requires windows { AllByRecursion (IsPaintable assets.now) stack.now }
        requires single { AreSingle stack.now }
        requires shape { IsOperation assets.now (operation_of context.now shape.now) }
        ensures finds { let new = self.new in
            Finds self.old.drawer self.old.screen new.drawer new.marked }
        ensures drawn { let mid = switched self.new self.old in
            let looks = looks_on assets.now stack.now mid in
            let ink = colour_of_stroke assets.now context.now shape.now in
            Draws result
            (refusal_of (no_window stack.now context.now.window
            ∷ none_free self.old.drawer.buffers self.old.screen))
            (with_turn mid (with_ink looks stack.now context.now ink (latest mid.screen))) self.old
            self.new }
    {
        let Some(at) = place_of(stack, context.window) else {
            return Err(Refusal::NoWindow(context.window));
        };
        let own = self.begin_own()?;
        self.draw_shape(stack, at, context, shape, assets);
        self.end_own(own);
        Ok(())
    }

    /// Draws a shape on the device that the context selects.
    fn draw_on_device(
        &mut self,
        context: &Context,
        shape: &Shape,
        assets: &Assets,
    ) -> Result<(), Refusal>
        requires assets { IsSound assets.now }
        requires shape { IsOperation assets.now (operation_of context.now shape.now) }
        ensures { let old = self.old in
            let d = context.now.device in
            let ink = colour_of_stroke assets.now context.now shape.now in
            Draws result (refusal_of (no_device old.devices.live d ∷ []))
            (record old { devices = with_drawing d (inked_whole ink) old.devices }) old self.new }
    {
        let Some(device) = self.devices.get_mut(context.device) else {
            return Err(Refusal::NoDevice(context.device));
        };
        on_device(context, shape, assets, device);
        Ok(())
    }

    /// Draws a shape with a context, on the device that it selects, or while it selects none on
    /// what can be seen of the window that it selects.
    pub fn draw(
        &mut self,
        stack: &[Win],
        context: &Context,
        shape: &Shape,
        assets: &Assets,
    ) -> Result<(), Refusal>
        requires fresh { self.old.marked ≡ None }
        requires pictures { IsScreen self.old.drawer.buffers self.old.screen }
        requires room { self.old.screen.switches < 4294967295 }
        requires assets { IsSound assets.now }
        requires few { length stack.now ≤ 256 }
        requires windows { AllByRecursion (IsPaintable assets.now) stack.now }
        requires single { AreSingle stack.now }
        ensures finds { let new = self.new in
            Finds self.old.drawer self.old.screen new.drawer new.marked }
        ensures drawn { let work = Draw shape.now in
            Draws result
            (refusal_of (pane_objections assets.now stack.now context.now work self.old))
            (panes_after assets.now stack.now context.now work (switched self.new self.old))
            self.old self.new }
    {
        check_shape(shape, context, assets)?;
        if context.device == SCREEN {
            self.draw_on_screen(stack, context, shape, assets)
        } else {
            self.draw_on_device(context, shape, assets)
        }
    }

    /// Copies a device's picture onto what was begun, in the window at a place. The device lives.
    fn copy_shown(&mut self, stack: &[Win], at: usize, device: u32, x: i16, y: i16, assets: &Assets)
        requires begun { IsBegun self.old.drawer.buffers self.old.screen }
        requires live { is_some (picture_on self.old.devices.live device) ≡ true }
        requires assets { IsSound assets.now }
        requires few { length stack.now ≤ 256 }
        requires windows { AllByRecursion (IsPaintable assets.now) stack.now }
        requires single { AreSingle stack.now }
        requires place { at < length stack.now }
        ensures { let old = self.old in
            let looks = looks_on assets.now stack.now old in
            IfSome (picture_on old.devices.live device) (λ from. self.new
            ≡ with_drawn old (stroked looks stack.now at (colour_of_copy from x y)
            (latest old.screen))) }
    {
        if let Some(from) = self.devices.get(device) {
            let _ = copy(stack, at, x, y, from, assets, self.buffers.target());
        }
    }

    /// Copies a device's picture to what can be seen of the window that the context selects.
    pub fn copy(
        &mut self,
        stack: &[Win],
        context: &Context,
        device: u32,
        x: i16,
        y: i16,
        assets: &Assets,
    ) -> Result<(), Refusal>
        requires fresh { self.old.marked ≡ None }
        requires pictures { IsScreen self.old.drawer.buffers self.old.screen }
        requires room { self.old.screen.switches < 4294967295 }
        requires assets { IsSound assets.now }
        requires few { length stack.now ≤ 256 }
        requires windows { AllByRecursion (IsPaintable assets.now) stack.now }
        requires single { AreSingle stack.now }
        ensures finds { let new = self.new in
            Finds self.old.drawer self.old.screen new.drawer new.marked }
        ensures copied { let work = Copy device x y in
            Draws result
            (refusal_of (pane_objections assets.now stack.now context.now work self.old))
            (panes_after assets.now stack.now context.now work (switched self.new self.old))
            self.old self.new }
    {
        if !self.has_device(device) {
            return Err(Refusal::NoDevice(device));
        }
        let Some(at) = place_of(stack, context.window) else {
            return Err(Refusal::NoWindow(context.window));
        };
        let own = self.begin_own()?;
        self.copy_shown(stack, at, device, x, y, assets);
        self.end_own(own);
        Ok(())
    }

    /// Makes a device of these sides and this colour, and gives its handle.
    pub fn make(&mut self, alloc: Global, w: u16, h: u16, colour: Colour) -> Result<u32, Refusal>
        requires { self.old.devices.handles < 4294967295 }
        ensures refused { IfSome (refusal_of (making_objections self.old.devices.live w h))
            (λ why. result ≡ Err why) }
        ensures accepted { refusal_of (making_objections self.old.devices.live w h) ≡ None
            → IfErr result (λ why. why ≡ Refused.Memory) }
        ensures unchanged { OnErr result (self.new ≡ self.old) }
        ensures handle { IfOk result (λ handle. handle ≡ self.old.devices.handles + 1) }
        ensures made { OnOk result (self.new
            ≡ record self.old { devices = with_new_device w h colour self.old.devices }) }
    {
        match self.devices.create(alloc, w, h, colour) {
            Ok(device) => Ok(device),
            Err(refused) => Err(device_refusal(refused)),
        }
    }

    /// Deletes a device.
    pub fn discard(&mut self, device: u32) -> Result<(), Refusal>
        ensures { let old = self.old in
            Draws result (refusal_of (no_device old.devices.live device ∷ []))
            (record old { devices = without_device device old.devices }) old self.new }
    {
        match self.devices.delete(device) {
            Ok(()) => Ok(()),
            Err(refused) => Err(device_refusal(refused)),
        }
    }
}
