//! The windows of a screen: their tree, and the list of its order in which parts are made invalid.

ghost use Rattle.std.specs.Prelude.{◌≡◌, ◌+◌, ◌<◌, slice_get, slice_set, ◌≤◌, ◌==◌, Ok, Err, None, Some, [], ◌∷◌, length, map, position, IfOk, is_some};
ghost use Rattle.std.specs.Bool.{OnTrue};
ghost use Rattle.arrayvec.specs.ArrayVec.{array_vec_len};
ghost use Rattle.scene.specs.declared.win.Win.{Win as Window};
ghost use Rattle.scene.specs.Clips.{clip_in};
ghost use Rattle.scene.specs.Looks.{screen_with};
ghost use Rattle.scene.specs.Places.{AreSingle, window_of};
ghost use Rattle.scene.specs.Damage.{invalidated, areas_invalidated};
ghost use Rattle.scene.specs.Families.{new_window, desktop_with, on_top_of, window_changed};
ghost use Rattle.scene.specs.Stacks.{IsStack, AreGiven, desktop_screen};
ghost use Rattle.invalidate.specs.Invalidation.{is_invalid, wholly_invalidated, on_screen, IsLocal};
ghost use Rattle.calls.specs.declared.call.Call.TheVariants.{Create, SetMemdev, SetValue, Send, Invalidate};
ghost use Rattle.paint_ops.specs.Soundness.{IsSound};
ghost use Rattle.messages.specs.Delivery.{rest_of, with_new_values, delivered};
ghost use Rattle.desk.specs.Windows.{is_as_it_was, are_as_they_were, clip_at, listed, after_change, with_memdev, with_value, with_message, with_invalid_window, with_invalid_rect, with_invalid_area};
ghost use Rattle.desk.specs.Jobs.{windows_after_job};
ghost use Rattle.desk.specs.Changes.{call_for, list_after};
ghost use Rattle.window_list.specs.Refusals.{Performs, Creates};
ghost use Rattle.desk.specs.Desks.{refusal_of, objections};

use crate::change::perform;
use crate::jobs::make_valid;
use crate::refusals::refusal_of_create;
use calls::Refusal;
use desk::{Change, place_of};
use gfx_base::{Memory, Rect};
use invalidate::{area, rect, window};
use messages::{deliver, put_values};
use paint_ops::Assets;
use scene::{Stack, Win, ground};
use std::alloc::Global;
use std::marker::Model;
use win_tree::Tree;

/// How many values a window has.
const VALUES: u8 = 16;

/// A new window: its parent's handle, its place, its sides in points, and its class.
#[derive(Clone, Copy)]
pub struct NewWindow {
    pub parent: u32,
    pub x: i16,
    pub y: i16,
    pub w: u16,
    pub h: u16,
    pub class: u8,
}

/// The windows of a screen.
#[derive(Drop)]
pub struct Windows {
    tree: Tree,
    /// The tree's windows, from back to front.
    stack: Stack,
    /// Room for the order that the tree has after a call.
    order: Stack,
}

impl Model for Windows {
    ghost use Rattle.win_tree.specs.Trees.{Scene};
    ghost use Rattle.window_list.specs.Lists.{IsInStep};

    ghost Value = { Scene };

    ghost view = { λ w. record { windows = w.stack.items; handles = w.tree.handles } };

    ghost invariant = { λ w. IsInStep w.tree w.stack.items };
}

/// The clip of the window that has the handle, if there is one.
fn clip_at(stack: &[Win], h: u32, screen: &Rect) -> Option<Rect>
    ensures { result ≡ clip_at screen.now stack.now h }
{
    let at = place_of(stack, h)?;
    Some(ground(stack, at, screen))
}

/// Whether a window is in its place, of its sides and class, and shown or hidden, and seen through
/// or not, as it was.
fn is_as_it_was(w: &Win, v: &Win) -> bool
    ensures { result ≡ is_as_it_was w.now v.now }
{
    w.handle == v.handle
        && w.class == v.class
        && (w.x == v.x && w.y == v.y)
        && (w.w == v.w && w.h == v.h && w.shown == v.shown && w.trans == v.trans)
}

/// Whether a list is as it was.
fn are_as_they_were(old: &[Win], new: &[Win]) -> bool
    ensures { result ≡ are_as_they_were old.now new.now }
{
    if old.len() != new.len() {
        return false;
    }
    for (i, w) in old.iter().enumerate() {
        if !is_as_it_was(w, &new[i]) {
            return false;
        }
    }
    true
}

/// Puts a list in the place of another.
fn take_over(stack: &mut Stack, order: &[Win])
    requires { length order.now ≤ 256 }
    ensures { stack.new.items ≡ order.now }
{
    stack.clear();
    // There is room, so this can't fail.
    let copied = stack.try_extend_from_slice(order).is_ok();
    prove!(copied);
}

/// Makes a clip invalid in each window, if there is one.
fn invalidate_clip(stack: &mut Stack, clip: Option<Rect>, screen: &Rect)
    requires { IsStack stack.old.items }
    ensures { stack.new.items
        ≡ areas_invalidated (clip_in screen.now stack.old.items) (listed clip) stack.old.items }
{
    if let Some(clip) = clip {
        area(stack.as_mut_slice(), &clip, screen);
    }
}

/// Makes all of the window at a place invalid.
fn invalidate_at(stack: &mut Stack, at: usize, screen: &Rect)
    requires { at < length stack.old.items }
    ensures { (w : Window) → slice_get stack.old.items at ≡ Some w
        → stack.new.items
        ≡ slice_set stack.old.items at (wholly_invalidated screen.now stack.old.items w) }
{
    window(stack.as_mut_slice(), at, screen);
}

/// Makes a rectangle invalid of the window at a place, told from its corner.
fn invalidate_rect_at(stack: &mut Stack, at: usize, local: &Rect, screen: &Rect)
    requires stack { IsStack stack.old.items }
    requires place { at < length stack.old.items }
    requires screen { screen.now ≡ desktop_screen stack.old.items }
    requires local { IsLocal local.now }
    ensures { (w : Window) → slice_get stack.old.items at ≡ Some w
        → stack.new.items
        ≡ slice_set stack.old.items at
        (invalidated (clip_in screen.now stack.old.items w)
        (on_screen stack.old.items w local.now) w) }
{
    rect(stack.as_mut_slice(), at, local, screen);
}

/// Lets the window at a place be composed aside before it shows, or no longer.
fn put_memdev(windows: &mut [Win], at: usize, memdev: bool)
    requires { at < length windows.old }
    ensures { (w : Window) → slice_get windows.old at ≡ Some w
        → windows.new ≡ slice_set windows.old at (with_memdev memdev w) }
{
    windows[at].memdev = memdev;
}

/// The same in the list of all windows.
fn put_memdev_at(stack: &mut Stack, at: usize, memdev: bool)
    requires { at < length stack.old.items }
    ensures { (w : Window) → slice_get stack.old.items at ≡ Some w
        → stack.new.items ≡ slice_set stack.old.items at (with_memdev memdev w) }
{
    put_memdev(stack.as_mut_slice(), at, memdev);
}

/// Values of which one is another number.
fn with_one(values: &[i16; 16], index: u8, value: i16) -> [i16; 16]
    requires { index < 16 }
    ensures { result ≡ slice_set values.now index value }
{
    let mut changed = *values;
    changed[usize::from(index)] = value;
    changed
}

/// Gives the window at a place these values.
fn put_values_at(stack: &mut Stack, at: usize, values: &[i16; 16], screen: &Rect)
    requires { at < length stack.old.items }
    ensures { (w : Window) → slice_get stack.old.items at ≡ Some w
        → stack.new.items
        ≡ slice_set stack.old.items at
        (with_new_values screen.now stack.old.items values.now w) }
{
    put_values(stack.as_mut_slice(), at, values, screen);
}

/// Delivers a message to the window at a place.
fn deliver_at(
    stack: &mut Stack,
    at: usize,
    message: u8,
    argument: i16,
    assets: &Assets,
    screen: &Rect,
)
    requires place { at < length stack.old.items }
    requires single { AreSingle stack.old.items }
    requires assets { IsSound assets.now }
    ensures { (w : Window) → slice_get stack.old.items at ≡ Some w
        → stack.new.items
        ≡ delivered assets.now screen.now message argument w stack.old.items }
{
    deliver(stack.as_mut_slice(), at, message, argument, assets, screen);
}

/// Makes the first invalid window valid, which is the one at a place.
fn make_valid_at(stack: &mut Stack, which: usize)
    requires { position is_invalid stack.old.items ≡ Some which }
    ensures { stack.new.items ≡ windows_after_job stack.old.items }
{
    make_valid(stack.as_mut_slice(), which);
}

/// Whether both windows have the same values and the same invalid rectangle, if any.
fn are_alike(w: &Win, v: &Win) -> bool
    ensures { OnTrue result
        ((w.now.invalid ≡ v.now.invalid) × (w.now.values ≡ v.now.values)) }
{
    w.invalid == v.invalid && w.values == v.values
}

/// Puts those windows into the tree that differ from what they were.
fn put_back(tree: &mut Tree, old: &[Win], new: &[Win])
    requires tree { tree.old.windows ≡ old.now }
    requires stack { IsStack new.now }
    requires rest { map rest_of new.now ≡ map rest_of old.now }
    ensures { tree.new ≡ record tree.old { windows = new.now } }
{
    for (i, w) in new.iter().enumerate() {
        if !are_alike(w, &old[i]) {
            tree.put(w);
        }
    }
}

/// Takes over the order that the tree has since a call on the window that has the handle, whose
/// clip was `before`. That clip, and the one that the window has now, are then invalid in each
/// window, unless the list is as it was.
fn follow(
    tree: &mut Tree,
    stack: &mut Stack,
    order: &mut Stack,
    h: u32,
    before: Option<Rect>,
    screen: &Rect,
)
    requires { before ≡ clip_at screen.now stack.old.items h }
    ensures stack { stack.new.items
        ≡ after_change screen.now h stack.old.items tree.old.windows }
    ensures tree { tree.new ≡ record tree.old { windows = stack.new.items } }
    ensures valid { IsStack stack.new.items }
    ensures given { AreGiven tree.old.handles stack.new.items }
{
    tree.walk(order);
    let is_same = are_as_they_were(stack, order);
    take_over(stack, order);
    if is_same {
        return;
    }
    let now = clip_at(stack, h, screen);
    invalidate_clip(stack, before, screen);
    invalidate_clip(stack, now, screen);
    put_back(tree, order, stack);
}

impl Windows {
    /// The desktop alone, of a screen's sides in points, which is invalid.
    pub fn open(alloc: Global, w: u16, h: u16) -> Result<Windows, Memory>
        requires width { (1 ≤ w) × (w ≤ 1024) }
        requires height { (1 ≤ h) × (h ≤ 768) }
        ensures { IfOk result (λ windows. windows
            ≡ record { windows = desktop_with w h (screen_with w h) ∷ []; handles = 1 }) }
    {
        let tree = Tree::open(alloc, w, h)?;
        let mut stack = Stack::new();
        tree.walk(&mut stack);
        Ok(Windows {
            tree,
            stack,
            order: Stack::new(),
        })
    }

    /// The windows from back to front.
    pub fn stack(&self) -> &[Win]
        ensures { result.now ≡ self.now.windows }
    {
        self.stack.as_slice()
    }

    /// Makes a window, where there are so many classes, and gives its handle.
    pub fn create(&mut self, new: &NewWindow, classes: usize, screen: &Rect) -> Result<u32, Refusal>
        requires { self.old.handles < 4294967295 }
        ensures { let n = new.now in
            let call = Create n.parent n.x n.y n.w n.h n.class in
            let w = new_window (self.old.handles + 1) n.parent n.x n.y n.w n.h n.class in
            Creates result (refusal_of (objections classes self.old.windows call))
            (after_change screen.now w.handle self.old.windows
            (on_top_of n.parent (w ∷ []) self.old.windows)) self.old self.new }
    {
        let NewWindow {
            parent,
            x,
            y,
            w,
            h,
            class,
        } = *new;
        if let Some(refusal) = refusal_of_create(&self.tree, parent, w, h, class, classes) {
            return Err(refusal);
        }
        let Ok(handle) = self.tree.create(parent, x, y, w, h, class) else {
            unreachable!();
        };
        follow(
            &mut self.tree,
            &mut self.stack,
            &mut self.order,
            handle,
            None,
            screen,
        );
        Ok(handle)
    }

    /// Changes a window or its place in the order, where there are so many classes.
    pub fn change(
        &mut self,
        h: u32,
        change: Change,
        classes: usize,
        screen: &Rect,
    ) -> Result<(), Refusal>
        ensures { Performs result
            (refusal_of (objections classes self.old.windows (call_for h change)))
            (after_change screen.now h self.old.windows (list_after h change self.old.windows))
            self.old self.new }
    {
        let before = clip_at(&self.stack, h, screen);
        perform(&mut self.tree, h, change, classes)?;
        follow(
            &mut self.tree,
            &mut self.stack,
            &mut self.order,
            h,
            before,
            screen,
        );
        Ok(())
    }

    /// Lets a window be composed aside before it shows, or no longer.
    pub fn set_memdev(&mut self, h: u32, memdev: bool) -> Result<(), Refusal>
        ensures { Performs result
            (refusal_of (objections 0 self.old.windows (SetMemdev h memdev)))
            (window_changed h (with_memdev memdev) self.old.windows) self.old self.new }
    {
        let Some(at) = place_of(&self.stack, h) else {
            return Err(Refusal::NoWindow(h));
        };
        put_memdev_at(&mut self.stack, at, memdev);
        self.tree.put(&self.stack[at]);
        Ok(())
    }

    /// Gives one of a window's values another number.
    pub fn set_value(&mut self, h: u32, index: u8, value: i16, screen: &Rect) -> Result<(), Refusal>
        ensures { Performs result
            (refusal_of (objections 0 self.old.windows (SetValue h index value)))
            (with_value screen.now h index value self.old.windows) self.old self.new }
    {
        let Some(at) = place_of(&self.stack, h) else {
            return Err(Refusal::NoWindow(h));
        };
        if index >= VALUES {
            return Err(Refusal::NoValue(index));
        }
        let values = with_one(&self.stack[at].values, index, value);
        take_over(&mut self.order, self.stack.as_slice());
        put_values_at(&mut self.stack, at, &values, screen);
        put_back(&mut self.tree, &self.order, &self.stack);
        Ok(())
    }

    /// Delivers a message to a window.
    pub fn send(
        &mut self,
        h: u32,
        message: u8,
        argument: i16,
        assets: &Assets,
        screen: &Rect,
    ) -> Result<(), Refusal>
        requires { IsSound assets.now }
        ensures { Performs result
            (refusal_of (objections 0 self.old.windows (Send h message argument)))
            (with_message assets.now screen.now h message argument self.old.windows)
            self.old self.new }
    {
        let Some(at) = place_of(&self.stack, h) else {
            return Err(Refusal::NoWindow(h));
        };
        take_over(&mut self.order, self.stack.as_slice());
        deliver_at(&mut self.stack, at, message, argument, assets, screen);
        put_back(&mut self.tree, &self.order, &self.stack);
        Ok(())
    }

    /// Makes all of a window invalid.
    pub fn invalidate(&mut self, h: u32, screen: &Rect) -> Result<(), Refusal>
        ensures { Performs result (refusal_of (objections 0 self.old.windows (Invalidate h)))
            (with_invalid_window screen.now h self.old.windows) self.old self.new }
    {
        let Some(at) = place_of(&self.stack, h) else {
            return Err(Refusal::NoWindow(h));
        };
        invalidate_at(&mut self.stack, at, screen);
        self.tree.put(&self.stack[at]);
        Ok(())
    }

    /// Makes a rectangle of a window invalid, which is told from the window's corner.
    pub fn invalidate_rect(&mut self, h: u32, local: &Rect, screen: &Rect) -> Result<(), Refusal>
        requires screen { screen.now ≡ desktop_screen self.old.windows }
        requires local { IsLocal local.now }
        ensures { Performs result (refusal_of (objections 0 self.old.windows (Invalidate h)))
            (with_invalid_rect screen.now h local.now self.old.windows) self.old self.new }
    {
        let Some(at) = place_of(&self.stack, h) else {
            return Err(Refusal::NoWindow(h));
        };
        invalidate_rect_at(&mut self.stack, at, local, screen);
        self.tree.put(&self.stack[at]);
        Ok(())
    }

    /// Makes an area of the screen invalid in each window.
    pub fn invalidate_area(&mut self, area: &Rect, screen: &Rect)
        ensures { self.new ≡ record self.old {
          windows = with_invalid_area screen.now area.now self.old.windows;
        } }
    {
        take_over(&mut self.order, self.stack.as_slice());
        invalidate_clip(&mut self.stack, Some(*area), screen);
        put_back(&mut self.tree, &self.order, &self.stack);
    }

    /// The window at `which`, the first invalid one, is invalid no more.
    pub fn make_valid(&mut self, which: usize)
        requires { position is_invalid self.old.windows ≡ Some which }
        ensures { self.new
            ≡ record self.old { windows = windows_after_job self.old.windows } }
    {
        make_valid_at(&mut self.stack, which);
        self.tree.put(&self.stack[which]);
    }
}
