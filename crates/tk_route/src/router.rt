ghost use Rattle.std.specs.Prelude.{◌≡◌, slice_get};
ghost use Rattle.std.specs.Option.{option_to_list};
ghost use Rattle.tk_route.specs.Routes.{told_focus, told_size};
ghost use Rattle.tk_route.specs.Answers.{deliveries};

use crate::buttons::Buttons;
use crate::delivery::{Delivery, Routed, Stamp, both, position, press, release, to};
use crate::fault::LineFault;
use crate::keys::{ModifierKeys, state_of};
use crate::limits::MAX_APPLICATIONS;
use crate::line::{HostLine, test_line};
use crate::place::{Point, local, under};
use crate::rects::{Rects, are_apart};
use std::marker::Model;
use tk_base::{Keysym, LocalKind, Rect};

const NO_BUTTONS: Buttons = Buttons {
    first: false,
    second: false,
    third: false,
    fourth: false,
    fifth: false,
};

const NO_KEYS: ModifierKeys = ModifierKeys {
    shift_left: false,
    shift_right: false,
    control_left: false,
    control_right: false,
    alt_left: false,
    alt_right: false,
    lock: false,
};

/// Leads the lines of a session to its applications. What it leads them by are the applications' rectangles and the lines alone.
#[derive(Drop)]
pub struct Router {
    rects: Rects,
    moment: u64,
    pointer: Option<Point>,
    buttons: Buttons,
    holder: Option<usize>,
    focus: Option<usize>,
    keys: ModifierKeys,
}

impl Model for Router {
    ghost use Rattle.tk_route.specs.Screen.{BeginsOnScreen};
    ghost use Rattle.tk_route.specs.Values.{Values};

    ghost Value = { Values };

    ghost view = { λ r.
        record { rects = r.rects; moment = r.moment; pointer = r.pointer; buttons = r.buttons; holder = r.holder; focus = r.focus; keys = r.keys } };

    ghost invariant = { λ r. BeginsOnScreen r.rects r.holder };
}

impl Router {
    ghost use Rattle.std.specs.Prelude.{◌≡◌, ◌<◌, ◌≤◌, true, length, List, [], ◌∷◌, Some, MatchResult, OnOk, OnErr, IfOk, slice_set};
    ghost use Rattle.tk_base.specs.declared.rect.Rect.{Rect};
    ghost use Rattle.tk_base.specs.declared.local_event.LocalKind.TheVariants.{Keydown, Keyup};
    ghost use Rattle.tk_route.specs.Lines.{Line, at, values};
    ghost use Rattle.tk_route.specs.Limits.{most_applications};
    ghost use Rattle.tk_route.specs.Refusals.{IsFirst, IsInRange, NamesNobody, NoneApplies, Refuses, RefusesRects, line_faults};
    ghost use Rattle.tk_route.specs.Routes.{routes, to, told, told_focus, told_move, told_press, told_rect, told_release};
    ghost use Rattle.tk_route.specs.Answers.{deliveries};
    ghost use Rattle.tk_route.specs.Screen.{IsOnScreen, are_apart};
    ghost use Rattle.tk_route.specs.Values.{state_of};
    ghost use Rattle.tk_route.specs.Changes.{changed, with_buttons, with_key_down, with_key_up};
    ghost use Rattle.tk_route.specs.Buttons.{with_pressed, with_released};

    /// A router before the first line, for applications with these rectangles, by slot. Rectangles that share a pixel are refused with
    /// `Overlap` (34), and then more than sixteen with `TooManyApps` (38). It takes no memory.
    pub fn new(rects: &[Rect]) -> Result<Router, LineFault>
        ensures { MatchResult result
            (λ router. (router ≡ values rects.now []) × (are_apart rects.now ≡ true) × (length rects.now ≤ most_applications))
            (RefusesRects rects.now) }
    {
        if !are_apart(rects) {
            return Err(LineFault::Overlap);
        }
        if rects.len() > MAX_APPLICATIONS {
            return Err(LineFault::TooManyApps);
        }
        Ok(Router {
            rects: Rects::new(rects),
            moment: 0,
            pointer: None,
            buttons: NO_BUTTONS,
            holder: None,
            focus: None,
            keys: NO_KEYS,
        })
    }

    /// The rectangles of the applications, by slot.
    pub fn rects(&self) -> &[Rect]
        ensures { result.now ≡ self.now.rects }
    {
        self.rects.as_slice()
    }

    /// Leads a line at a moment, in milliseconds. Refused are, in this order: `BadLine` (36) outside the ranges of a session, a moment past
    /// 10^12 too; `TimeBack` (35), `NoApp` (37) and `RectOverlap` (43). It takes no memory.
    pub fn line(&mut self, moment: u64, line: HostLine) -> Result<Routed, LineFault>
        ensures values { (first : List Rect) (earlier : List Line) → self.old ≡ values first earlier →
            OnOk result (self.new ≡ values first (at moment line ∷ earlier)) }
        ensures routes { (first : List Rect) (earlier : List Line) → self.old ≡ values first earlier →
            IfOk result (λ routed. deliveries routed ≡ routes first earlier (at moment line)) }
        ensures refused { MatchResult result
            (λ _. NoneApplies (Refuses self.old.rects self.old.moment moment line) line_faults)
            (IsFirst (Refuses self.old.rects self.old.moment moment line) line_faults) }
        ensures unchanged { OnErr result (self.new ≡ self.old) }
    {
        test_line(self.rects.as_slice(), self.moment, moment, &line)?;
        Ok(self.tested_line(moment, line))
    }

    /// Leads a line as `line` does, where it was tested already that `line` takes it. It takes no memory.
    pub fn tested_line(&mut self, moment: u64, line: HostLine) -> Routed
        requires { NoneApplies (Refuses self.old.rects self.old.moment moment line) line_faults }
        ensures values { (first : List Rect) (earlier : List Line) → self.old ≡ values first earlier →
            self.new ≡ values first (at moment line ∷ earlier) }
        ensures routes { (first : List Rect) (earlier : List Line) → self.old ≡ values first earlier →
            deliveries result ≡ routes first earlier (at moment line) }
    {
        let stamp = Stamp {
            moment,
            state: self.state(),
        };
        let routed = self.follow(stamp, line);
        self.moment = moment;
        routed
    }

    /// The state of events.
    fn state(&self) -> u16
        ensures { result ≡ state_of self.now.keys self.now.buttons }
    {
        state_of(self.keys, self.buttons)
    }

    /// Does what a line says.
    fn follow(&mut self, stamp: Stamp, line: HostLine) -> Routed
        requires in_range { IsInRange line }
        requires named { ¬ NamesNobody self.old.rects line }
        ensures changed { self.new ≡ changed line self.old }
        ensures told { deliveries result ≡ told line stamp self.old self.new }
    {
        match line {
            HostLine::Move { x, y } => self.move_to(
                stamp,
                Point {
                    x: x as u16,
                    y: y as u16,
                },
            ),
            HostLine::Press(button) => self.press(stamp, button),
            HostLine::Release(button) => self.release(stamp, button),
            HostLine::Keydown(key) => self.key_down(stamp, key),
            HostLine::Keyup(key) => self.key_up(stamp, key),
            HostLine::Focus(slot) => self.focus_on(stamp, slot),
            HostLine::Rect { slot, rect } => self.place(stamp, slot, rect),
        }
    }

    fn move_to(&mut self, stamp: Stamp, point: Point) -> Routed
        ensures changed { self.new ≡ record self.old { pointer = Some point } }
        ensures told { deliveries result ≡ told_move stamp self.old self.new }
    {
        let rects = self.rects.as_slice();
        let before = under(rects, self.pointer);
        let after = under(rects, Some(point));
        self.pointer = Some(point);
        let rects = self.rects.as_slice();
        if self.buttons.is_any_held() {
            return both(
                position(stamp, local(rects, Some(point), self.holder)),
                None,
            );
        }
        let left = if before == after {
            None
        } else {
            position(stamp, local(rects, Some(point), before))
        };
        both(left, position(stamp, local(rects, Some(point), after)))
    }

    fn press(&mut self, stamp: Stamp, button: u32) -> Routed
        ensures changed { self.new ≡ with_buttons (with_pressed button self.old.buttons) self.old }
        ensures told { deliveries result ≡ told_press button stamp self.old self.new }
    {
        let is_held = self.buttons.has(button);
        self.hold(self.buttons.with_pressed(button));
        if is_held {
            return Routed::Nobody;
        }
        let place = local(self.rects.as_slice(), self.pointer, self.holder);
        both(press(stamp, place, button), None)
    }

    fn release(&mut self, stamp: Stamp, button: u32) -> Routed
        ensures changed { self.new ≡ with_buttons (with_released button self.old.buttons) self.old }
        ensures told { deliveries result ≡ told_release button stamp self.old self.new }
    {
        let is_held = self.buttons.has(button);
        let holder = self.holder;
        let place = local(self.rects.as_slice(), self.pointer, holder);
        self.hold(self.buttons.with_released(button));
        if !is_held {
            return Routed::Nobody;
        }
        let rects = self.rects.as_slice();
        let under = under(rects, self.pointer);
        let entered = if self.buttons.is_any_held() || holder == under {
            None
        } else {
            position(stamp, local(rects, self.pointer, under))
        };
        both(release(stamp, place, button), entered)
    }

    /// Holds these buttons from now on.
    fn hold(&mut self, buttons: Buttons)
        ensures { self.new ≡ with_buttons buttons self.old }
    {
        if !buttons.is_any_held() {
            self.holder = None;
        } else if !self.buttons.is_any_held() {
            self.holder = under(self.rects.as_slice(), self.pointer);
        }
        self.buttons = buttons;
    }

    fn key_down(&mut self, stamp: Stamp, key: Keysym) -> Routed
        ensures changed { self.new ≡ record self.old { keys = with_key_down key self.old.keys } }
        ensures told { deliveries result ≡ to stamp self.old.focus (Keydown key) }
    {
        self.keys = self.keys.with_key_down(key);
        both(to(stamp, self.focus, LocalKind::Keydown(key)), None)
    }

    fn key_up(&mut self, stamp: Stamp, key: Keysym) -> Routed
        ensures changed { self.new ≡ record self.old { keys = with_key_up key self.old.keys } }
        ensures told { deliveries result ≡ to stamp self.old.focus (Keyup key) }
    {
        self.keys = self.keys.with_key_up(key);
        both(to(stamp, self.focus, LocalKind::Keyup(key)), None)
    }

    fn focus_on(&mut self, stamp: Stamp, slot: Option<usize>) -> Routed
        ensures changed { self.new ≡ record self.old { focus = slot } }
        ensures told { deliveries result ≡ told_focus slot stamp self.old.focus }
    {
        let before = self.focus;
        self.focus = slot;
        handed_over(stamp, before, slot)
    }

    fn place(&mut self, stamp: Stamp, slot: usize, rect: Rect) -> Routed
        requires on_screen { IsOnScreen rect }
        requires named { slot < length self.old.rects }
        ensures changed { self.new ≡ record self.old { rects = slice_set self.old.rects slot rect } }
        ensures told { deliveries result ≡ told_rect slot rect stamp self.old self.new }
    {
        let rects = self.rects.as_slice();
        let sized = resized(stamp, rects, slot, rect);
        let before = under(rects, self.pointer);
        self.set_rect(slot, rect);
        let rects = self.rects.as_slice();
        let after = under(rects, self.pointer);
        let entered = if self.buttons.is_any_held() || before == after {
            None
        } else {
            position(stamp, local(rects, self.pointer, Some(slot)))
        };
        both(sized, entered)
    }

    /// Gives a rectangle to an application.
    #[tactic(auto, using(crate::proofs::ScreenLemmas::BeginsOnScreen_set))]
    fn set_rect(&mut self, slot: usize, rect: Rect)
        requires on_screen { IsOnScreen rect }
        requires named { slot < length self.old.rects }
        ensures { self.new ≡ record self.old { rects = slice_set self.old.rects slot rect } }
    {
        self.rects.set(slot, rect);
    }
}

/// The keys handed over, from the application that had them to the one that has them.
fn handed_over(stamp: Stamp, before: Option<usize>, after: Option<usize>) -> Routed
    ensures { deliveries result ≡ told_focus after stamp before }
{
    if before == after {
        return Routed::Nobody;
    }
    both(
        to(stamp, before, LocalKind::FocusOut),
        to(stamp, after, LocalKind::FocusIn),
    )
}

/// The size of a rectangle for its application, where it is another than before.
fn resized(stamp: Stamp, rects: &[Rect], slot: usize, rect: Rect) -> Option<Delivery>
    ensures { option_to_list result ≡ told_size slot rect stamp (slice_get rects.now slot) }
{
    let before = rects.get(slot)?;
    if before.width == rect.width && before.height == rect.height {
        return None;
    }
    let size = LocalKind::Size {
        width: rect.width,
        height: rect.height,
    };
    to(stamp, Some(slot), size)
}
