ghost use Rattle.std.specs.Prelude.{◌≡◌, ◌≢◌, ◌<◌, ◌≤◌, ◌++◌, ◌-◌, ◌^◌, ◌==◌, ℕ, false, [], ◌∷◌, None, Some, Ok, Err, IsSome, IfOk, IfSome, OnOk, OnErr, IsOkUnless, MatchOption, is_some, length, option_map, reverse};
ghost use Rattle.std.specs.Option.{option_copied, option_map_or};
ghost use Rattle.tk_tree.specs.Change.{dying, with_place, with_tags};
ghost use Rattle.tk_tree.specs.Changing.{changed};
ghost use Rattle.tk_tree.specs.Corners.{corner};
ghost use Rattle.tk_tree.specs.Create.{refusal, place_refusal, parent_number, with_window};
ghost use Rattle.tk_tree.specs.Orders.{below, below_first, subtree, post_order};
ghost use Rattle.tk_tree.specs.Walks.{all_below, all_below_first};
ghost use Rattle.tk_tree.specs.Own.{window_at, at_path, is_full, child_numbers, with_change, without_window, IsSound};
ghost use Rattle.tk_tree.specs.Shared.{own_of, LeavesOthers};
ghost use Rattle.tk_tree.specs.Ways.{at_point, way_at, way_to, way_up};

use crate::change::{WindowChange, change_window};
use crate::corner::Corner;
use crate::fault::WindowFault;
use crate::index::PathIndex;
use crate::order::push_reversed;
use crate::path::{begins_upper, parent_and_name};
use crate::window::{Window, has_point, new_window, offset, tags_for};
use slab::Slab;
use std::alloc::{AllocError, Global};
use std::collections::HashMap;
use std::marker::Model;
use tcl_text::Text;
use tk_base::{Counter, Kind, Rect, Win, count_less, counter_of, set_counter};

/// How many windows an application has at most.
const MAX_WINDOWS: usize = 512;

/// The number after the last one that is given.
const NUMBERS_END: u64 = u64::MAX;

/// A window in the arena, and whose it is.
#[derive(Drop)]
pub struct Node {
    owner: usize,
    window: Window,
}

/// The windows of applications, each application's apart from the others'.
///
/// `owner` is an application's number everywhere. All windows stand in one arena, whose places are used again; a window's number isn't, so
/// that the `Win` of a window that is gone finds nothing, whatever stands in its old place.
pub struct Windows {
    slab: Slab<Node>,
    index: PathIndex,
    counters: HashMap<usize, Counter>,
    alloc: Global,
}

impl Model for Windows {
    ghost use Rattle.tk_tree.specs.Shared.{Held};

    ghost Value = { Held };

    ghost use Rattle.tk_tree.specs.Arena.{held_by, IsKept};

    ghost view = { λ w. held_by w.slab.slots w.counters.entries };

    ghost invariant = { λ w. IsKept w.index w.slab.slots w.counters.entries };
}

impl Windows {
    ghost use Rattle.tk_base.specs.Counters.{next_of};

    /// No windows. It takes no memory.
    pub fn new(alloc: Global) -> Windows
        ensures { result ≡ record { counters = []; bag = [] } }
    {
        Windows {
            slab: Slab::new(alloc),
            index: PathIndex::new(alloc),
            counters: HashMap::new(alloc),
            alloc,
        }
    }

    /// The window; none where it is gone. It takes no memory.
    pub fn window(&self, win: Win) -> Option<&Window>
        ensures { option_copied result ≡ window_at win.number (own_of win.owner self.now) }
    {
        let key = self.index.key(win.owner, win.number)?;
        let node = self.slab.get(key)?;
        Some(&node.window)
    }

    /// Whether the window is there. It takes no memory.
    pub fn holds(&self, win: Win) -> bool
        ensures { result ≡ is_some (window_at win.number (own_of win.owner self.now)) }
    {
        self.window(win).is_some()
    }

    /// How many windows an application has; at most 512. It takes no memory.
    pub fn count(&self, owner: usize) -> usize
        ensures count { result ≡ length (own_of owner self.now).windows }

        // Numbers rise, parents are older than their children, and there are at most 512 windows.
        ensures sound { IsSound (own_of owner self.now) }
    {
        let _ = &self.slab;
        counter_of(&self.counters, owner).count
    }

    /// The window of a path; none where the application has none of it. It takes no memory.
    pub fn find(&self, owner: usize, path: &str) -> Option<Win>
        ensures win { result ≡ option_map (λ window. record { owner = owner; number = window.number })
            (at_path path.now (own_of owner self.now)) }

        // It is there, and it is the window of its number.
        ensures there { IfSome result (λ win. IsSome (window_at win.number (own_of owner self.now))) }
        ensures window { IfSome result (λ win.
            window_at win.number (own_of owner self.now) ≡ at_path path.now (own_of owner self.now)) }
    {
        let number = self.index.number(owner, path)?;
        Some(Win { owner, number })
    }

    /// Makes a window of a path, which isn't laid out yet. The main window `.` is the first; a frame. Refused are, the first that holds:
    /// what is no path or names no parent that is there (24), a name that begins with A to Z (26), a parent that is being destroyed (27), a
    /// path that is taken (25), and more than 512 windows or a number past 2^64 - 2 (28).
    pub fn create(&mut self, owner: usize, path: &Text, kind: Kind) -> Result<Win, WindowFault>
        ensures answer { MatchOption (refusal path.now (own_of owner self.old))
            (IsOkUnless result WindowFault.NoMemory) (λ fault. result ≡ Err fault) }
        ensures win { IfOk result (λ win.
            win ≡ record { owner = owner; number = (own_of owner self.old).next_number }) }
        ensures ok { OnOk result (own_of owner self.new
            ≡ with_window path.now kind (parent_number path.now (own_of owner self.old)) (own_of owner self.old)) }
        ensures others { LeavesOthers owner self.old self.new }
        ensures err { OnErr result (self.new ≡ self.old) }
    {
        let parent = self.parent_for(owner, path.as_str())?;
        if self.find(owner, path.as_str()).is_some() {
            return Err(WindowFault::Exists);
        }
        if self.is_full(owner) {
            return Err(WindowFault::Full);
        }
        let number = self.insert(owner, path, kind, parent)?;
        Ok(Win { owner, number })
    }

    /// Why `create` would make no window of a path; none where it makes one. It takes no memory.
    pub fn refusal(&self, owner: usize, path: &str) -> Option<WindowFault>
        ensures { result ≡ refusal path.now (own_of owner self.now) }
    {
        match self.parent_for(owner, path) {
            Err(fault) => Some(fault),
            Ok(_) if self.find(owner, path).is_some() => Some(WindowFault::Exists),
            Ok(_) if self.is_full(owner) => Some(WindowFault::Full),
            Ok(_) => None,
        }
    }

    /// The path name of a window, as `.a.b`. It takes no memory.
    pub fn path(&self, win: Win) -> &Text
        requires { IsSome (window_at win.number (own_of win.owner self.now)) }
        ensures { IfSome (window_at win.number (own_of win.owner self.now)) (λ window. result.now ≡ window.path) }
    {
        &self.there(win).path
    }

    /// The kind of a window. It takes no memory.
    pub fn kind(&self, win: Win) -> Kind
        requires { IsSome (window_at win.number (own_of win.owner self.now)) }
        ensures { IfSome (window_at win.number (own_of win.owner self.now)) (λ window. result ≡ window.kind) }
    {
        self.there(win).kind
    }

    /// Where a window was laid out, in pixels, and whether it is mapped. It takes no memory.
    pub fn place(&self, win: Win) -> (Rect, bool)
        requires { IsSome (window_at win.number (own_of win.owner self.now)) }
        ensures { IfSome (window_at win.number (own_of win.owner self.now))
            (λ window. result ≡ (window.rectangle, window.mapped)) }
    {
        let window = self.there(win);
        (window.rectangle, window.mapped)
    }

    /// The binding tags of a window, in the order in which they are tried (bindtags(n)). It takes no memory.
    pub fn tags(&self, win: Win) -> &[Text]
        requires { IsSome (window_at win.number (own_of win.owner self.now)) }
        ensures { IfSome (window_at win.number (own_of win.owner self.now)) (λ window. result.now ≡ window.tags) }
    {
        self.there(win).tags.as_slice()
    }

    /// The numbers of the children of a window, in the order of creation. It takes no memory.
    pub fn children(&self, win: Win) -> &[u64]
        requires { IsSome (window_at win.number (own_of win.owner self.now)) }
        ensures { result.now ≡ child_numbers win.number (own_of win.owner self.now).windows }
    {
        self.children_of(win.owner, win.number)
    }

    /// The numbers of a window and of all below it, each before its children, and children in the order of creation: pre-order.
    pub fn subtree(&self, win: Win) -> Result<Vec<u64>, AllocError>
        requires { IsSome (window_at win.number (own_of win.owner self.now)) }
        ensures { IfOk result (λ list. list.items ≡ subtree win.number (own_of win.owner self.now)) }
    {
        let mut order = Vec::new(self.alloc);
        let mut waiting = Vec::new(self.alloc);
        waiting.push(win.number)?;
        while let Some(number) = waiting.pop() {
            order.push(number)?;
            push_reversed(&mut waiting, self.children_of(win.owner, number))?;
        }
        Ok(order)
    }

    /// The numbers of a window and of all below it, each behind its children, and children in the order of creation: post-order, in which
    /// `destroy` takes them (destroy(n)).
    pub fn post_order(&self, win: Win) -> Result<Vec<u64>, AllocError>
        requires { IsSome (window_at win.number (own_of win.owner self.now)) }
        ensures { IfOk result (λ list. list.items ≡ post_order win.number (own_of win.owner self.now)) }
    {
        let mut order = Vec::new(self.alloc);
        let mut waiting = Vec::new(self.alloc);
        waiting.push(win.number)?;
        while let Some(number) = waiting.pop() {
            order.push(number)?;
            waiting.extend_from_slice(self.children_of(win.owner, number))?;
        }
        order.reverse();
        Ok(order)
    }

    /// The numbers of the windows from the main window down to this one: its ancestors, the outermost first, and itself. Nothing where it is
    /// gone.
    pub fn way_to(&self, win: Win) -> Result<Vec<u64>, AllocError>
        ensures { IfOk result (λ way. way.items ≡ way_to win.number (own_of win.owner self.now)) }
    {
        let mut way = Vec::new(self.alloc);
        let mut up = Some(win.number);
        while let Some(number) = up {
            up = match self.parent_of(win.owner, number) {
                Some(parent) => {
                    way.push(number)?;
                    parent
                }
                None => None,
            };
        }
        way.reverse();
        Ok(way)
    }

    /// Where the upper left corner of a window lies, in pixels from that of the application's rectangle (winfo(n)); 0 0 where the window is
    /// gone. It takes no memory.
    #[tactic(auto, unfolding(crate::specs::Corners::corner))]
    pub fn corner(&self, win: Win) -> Corner
        ensures corner { result ≡ corner win.number (own_of win.owner self.now) }
        ensures near { (result.x < 2 ^ 41) × (result.y < 2 ^ 41) }
    {
        let _ = &self.slab;
        let mut x = 0;
        let mut y = 0;
        let mut up = Some(win.number);
        while let Some(number) = up {
            up = match self.window(Win {
                owner: win.owner,
                number,
            }) {
                Some(window) => {
                    let (across, down) = offset(window);
                    x += across;
                    y += down;
                    window.parent
                }
                None => None,
            };
        }
        Corner { x, y }
    }

    /// The number of the parent of a window that is there, if it has one.
    fn parent_of(&self, owner: usize, number: u64) -> Option<Option<u64>>
        ensures way { way_up (Some number) (reverse (own_of owner self.now).windows)
            ≡ option_map_or (λ parent. number ∷ way_up parent (reverse (own_of owner self.now).windows)) result [] }
        ensures older { IfSome result (λ parent. MatchOption parent (Unit {0}) (λ above. above < number)) }
    {
        let _ = &self.slab;
        match self.window(Win { owner, number }) {
            Some(window) => Some(window.parent),
            None => None,
        }
    }

    /// The way to the deepest mapped window at a point, in pixels from where the main window's corner is told from: the numbers of the windows
    /// that have the point, each in the one before it. Of siblings the newest is above the others. Nothing where no window has the point.
    pub fn way_at(&self, owner: usize, x: u32, y: u32) -> Result<Vec<u64>, AllocError>
        ensures { IfOk result (λ way. way.items ≡ way_at x y (own_of owner self.now)) }
    {
        let mut way = Vec::new(self.alloc);
        if let Some(main) = self.window_of(owner, ".") {
            if has_point(main, x, y) {
                way.push(main.number)?;
                self.push_at(
                    &mut way,
                    owner,
                    main.number,
                    x - main.rectangle.x,
                    y - main.rectangle.y,
                )?;
            }
        }
        Ok(way)
    }

    /// Goes on from a window to the one of its children that has a point, told from its corner, and on from there.
    fn push_at(
        &self,
        way: &mut Vec<u64>,
        owner: usize,
        number: u64,
        x: u32,
        y: u32,
    ) -> Result<(), AllocError>
        ensures { OnOk result (way.new.items ≡ way.old.items ++ at_point number x y (own_of owner self.now).windows) }
    {
        let (mut number, mut x, mut y) = (number, x, y);
        while let Some(child) = self.child_at(owner, number, x, y) {
            way.push(child.number)?;
            number = child.number;
            x -= child.rectangle.x;
            y -= child.rectangle.y;
        }
        Ok(())
    }

    /// The child of a window that has a point, told from the window's corner: of several the newest.
    fn child_at(&self, owner: usize, number: u64, x: u32, y: u32) -> Option<&Window>
        ensures on { at_point number x y (own_of owner self.now).windows
            ≡ option_map_or (λ child. child.number ∷ at_point child.number (x - child.rectangle.x) (y - child.rectangle.y) (own_of owner self.now).windows)
            (option_copied result) [] }
        ensures inside { IfSome result (λ child. (child.now.rectangle.x ≤ x) × (child.now.rectangle.y ≤ y)) }
    {
        let _ = &self.slab;
        let mut rest = self.children_of(owner, number);
        while let Some((newest, older)) = rest.split_last() {
            if let Some(child) = self.window(Win {
                owner,
                number: *newest,
            }) {
                if has_point(child, x, y) {
                    return Some(child);
                }
            }
            rest = older;
        }
        None
    }

    /// The numbers of the children that a number has, in the order of creation.
    fn children_of(&self, owner: usize, number: u64) -> &[u64]
        ensures children { result.now ≡ child_numbers number (own_of owner self.now).windows }
        ensures below { below number (own_of owner self.now).windows
            ≡ all_below (child_numbers number (own_of owner self.now).windows) (own_of owner self.now).windows }
        ensures below_first { below_first number (own_of owner self.now).windows
            ≡ all_below_first (child_numbers number (own_of owner self.now).windows) (own_of owner self.now).windows }
    {
        self.index.children(owner, number)
    }

    /// A window that is there.
    fn there(&self, win: Win) -> &Window
        requires { IsSome (window_at win.number (own_of win.owner self.now)) }
        ensures { window_at win.number (own_of win.owner self.now) ≡ Some result.now }
    {
        self.window(win).unwrap()
    }

    /// Marks a window as being destroyed; it alone, not those below it. It takes no memory.
    pub fn mark_dying(&mut self, win: Win)
        requires { IsSome (window_at win.number (own_of win.owner self.old)) }
        ensures own { own_of win.owner self.new ≡ with_change win.number dying (own_of win.owner self.old) }
        ensures others { LeavesOthers win.owner self.old self.new }
    {
        self.change(win, WindowChange::Dying);
    }

    /// Sets where a window is laid out, in pixels, and whether it is mapped. It takes no memory.
    pub fn set_place(&mut self, win: Win, place: Rect, mapped: bool)
        requires { IsSome (window_at win.number (own_of win.owner self.old)) }
        ensures own { own_of win.owner self.new
            ≡ with_change win.number (with_place place mapped) (own_of win.owner self.old) }
        ensures others { LeavesOthers win.owner self.old self.new }
    {
        self.change(win, WindowChange::Place(place, mapped));
    }

    /// Sets the binding tags of a window; none of them restores the default: its path, its class, `.` and `all` (bindtags(n)).
    pub fn set_tags(&mut self, win: Win, tags: &[Text]) -> Result<(), AllocError>
        requires { IsSome (window_at win.number (own_of win.owner self.old)) }
        ensures ok { OnOk result (own_of win.owner self.new
            ≡ with_change win.number (with_tags tags.now) (own_of win.owner self.old)) }
        ensures others { LeavesOthers win.owner self.old self.new }
        ensures err { OnErr result (self.new ≡ self.old) }
    {
        let tags = tags_for(self.alloc, self.there(win), tags)?;
        self.change(win, WindowChange::Tags(tags));
        Ok(())
    }

    /// Changes a window.
    fn change(&mut self, win: Win, change: WindowChange)
        requires { IsSome (window_at win.number (own_of win.owner self.old)) }
        ensures own { own_of win.owner self.new ≡ with_change win.number (changed change) (own_of win.owner self.old) }
        ensures others { LeavesOthers win.owner self.old self.new }
    {
        let Some(key) = self.index.key(win.owner, win.number) else {
            unreachable!();
        };
        match self.slab.get_mut(key) {
            Some(node) => change_window(&mut node.window, change),
            None => unreachable!(),
        }
    }

    /// Takes a window out that has no children. It takes no memory.
    pub fn remove(&mut self, win: Win)
        requires there { IsSome (window_at win.number (own_of win.owner self.old)) }
        requires leaf { child_numbers win.number (own_of win.owner self.old).windows ≡ [] }
        ensures own { own_of win.owner self.new ≡ without_window win.number (own_of win.owner self.old) }
        ensures others { LeavesOthers win.owner self.old self.new }
    {
        let Some(key) = self.index.key(win.owner, win.number) else {
            unreachable!();
        };
        let Some(node) = self.slab.try_remove(key) else {
            unreachable!();
        };
        self.index.remove(
            win.owner,
            node.window.path.as_str(),
            win.number,
            node.window.parent,
        );
        count_less(&mut self.counters, win.owner);
    }

    /// The parent of a window that is to be made; none for the main window.
    fn parent_for(&self, owner: usize, path: &str) -> Result<Option<u64>, WindowFault>
        ensures answer { MatchOption (place_refusal path.now (own_of owner self.now))
            (result ≡ Ok (parent_number path.now (own_of owner self.now))) (λ fault. result ≡ Err fault) }
        ensures older { IfOk result (λ parent. MatchOption parent (Unit {0})
            (λ number. number < (own_of owner self.now).next_number)) }
    {
        if path == "." {
            return Ok(None);
        }
        let Some((parent, name)) = parent_and_name(path) else {
            return Err(WindowFault::BadPath);
        };
        match self.window_of(owner, parent) {
            None => Err(WindowFault::BadPath),
            Some(_) if begins_upper(name) => Err(WindowFault::BadName),
            Some(parent) if parent.dying => Err(WindowFault::Dying),
            Some(parent) => Ok(Some(parent.number)),
        }
    }

    /// The window of a path.
    fn window_of(&self, owner: usize, path: &str) -> Option<&Window>
        ensures window { option_copied result ≡ at_path path.now (own_of owner self.now) }
        ensures given { IfSome result (λ window. window.now.number < (own_of owner self.now).next_number) }
    {
        let number = self.index.number(owner, path)?;
        self.window(Win { owner, number })
    }

    /// Whether the application may have no more windows.
    fn is_full(&self, owner: usize) -> bool
        ensures { result ≡ is_full (own_of owner self.now) }
    {
        let counter = counter_of(&self.counters, owner);
        counter.count >= MAX_WINDOWS || counter.next == NUMBERS_END
    }

    /// Adds a window, whose path is new, and answers its number.
    fn insert(
        &mut self,
        owner: usize,
        path: &Text,
        kind: Kind,
        parent: Option<u64>,
    ) -> Result<u64, AllocError>
        requires new { at_path path.now (own_of owner self.old) ≡ None }
        requires room { is_full (own_of owner self.old) ≡ false }
        requires older { MatchOption parent (Unit {0}) (λ number. number < (own_of owner self.old).next_number) }
        ensures number { IfOk result (λ number. number ≡ (own_of owner self.old).next_number) }
        ensures ok { OnOk result (own_of owner self.new
            ≡ with_window path.now kind parent (own_of owner self.old)) }
        ensures others { LeavesOthers owner self.old self.new }
        ensures err { OnErr result (self.new ≡ self.old) }
    {
        let Counter {
            next: number,
            count,
        } = counter_of(&self.counters, owner);
        let window = new_window(self.alloc, number, path, kind, parent)?;
        self.slab.reserve(1)?;
        let key = self.slab.vacant_key();
        self.index.add(owner, path.as_str(), number, key, parent)?;
        let counter = Counter {
            next: number + 1,
            count: count + 1,
        };
        match set_counter(&mut self.counters, owner, counter) {
            Ok(()) => {}
            Err(refused) => {
                self.index.remove(owner, path.as_str(), number, parent);
                return Err(refused);
            }
        }
        self.slab.insert_reserved(Node { owner, window });
        Ok(number)
    }
}

/// By hand: a proof sees one call where it is dropped, and not its parts.
impl Drop for Windows {
    fn drop(self) {
        let Windows {
            slab: _,
            index: _,
            counters: _,
            alloc: _,
        } = self;
    }
}
