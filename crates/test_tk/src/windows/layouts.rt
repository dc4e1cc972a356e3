//! Questions of layouts: `begin WIDTH HEIGHT` of the application; `window NUMBER WIDTH HEIGHT BORDER PROPAGATES` makes a window, or changes it;
//! `pack MASTER NUMBER PLACE SIDE ANCHOR FILL EXPAND PADX PADY IPADX IPADY`, two pads joined by a comma; `forget NUMBER`; `gone NUMBER` of a
//! window that is no longer there; `asks NUMBER` is the size that it asks for; `lay` tells the changes, twice over, of which the second
//! time has none.

use crate::windows::requests::{anchor_of, fill_of, pads_of, side_of};
use anyhow::{Result, bail};
use asking::number;
use std::alloc::Global;
use tk_base::{Rect, Win};
use tk_packer::{Arrangements, PackTable, PlaceChange, Request, Shape, lay_out, requested_size};

pub struct Layouts {
    size: (u32, u32),
    shapes: Vec<Shape>,
    packs: PackTable,
    arrangements: Arrangements,
}

/// The application whose windows are laid out.
const OWNER: usize = 0;

fn request_in(words: &[&str]) -> Result<Request> {
    let [side, anchor, fill, expand, padx, pady, ipadx, ipady] = words else {
        bail!("a request that lacks a word");
    };
    let mut request = Request::new(1, 1);
    request.side = side_of(side)?;
    request.anchor = anchor_of(anchor)?;
    request.fill = fill_of(fill)?;
    request.expand = *expand == "1";
    request.padx = pads_of(padx)?;
    request.pady = pads_of(pady)?;
    request.ipadx = number(ipadx)?;
    request.ipady = number(ipady)?;
    Ok(request)
}

fn shape_in(words: &[&str]) -> Result<Shape> {
    let [window, width, height, border, propagates] = words else {
        bail!("a window that lacks a word");
    };
    let size: (u32, u32) = (number(width)?, number(height)?);
    Ok(new_shape(number(window)?, size, number(border)?, *propagates == "1"))
}

/// The shape of a window that isn't laid out yet, which asks for a size.
fn new_shape(number: u64, (width, height): (u32, u32), border: u32, propagates: bool) -> Shape {
    Shape {
        number,
        width,
        height,
        border,
        propagates,
        rectangle: Rect {
            x: 0,
            y: 0,
            width: 1,
            height: 1,
        },
        mapped: false,
    }
}

/// A change as tables have it.
fn change_text(alloc: Global, change: PlaceChange) -> Result<String> {
    match change {
        PlaceChange::Unmap(number) => Ok(format!(in alloc; "u{number}")?),
        PlaceChange::Configure(number, place) => {
            Ok(format!(in alloc;
                "c{number}:{},{},{},{}",
                place.x, place.y, place.width, place.height
            )?)
        }
        PlaceChange::Map(number) => Ok(format!(in alloc; "m{number}")?),
    }
}

impl Layouts {
    pub fn new(alloc: Global) -> Layouts {
        Layouts {
            size: (0, 0),
            shapes: Vec::new(alloc),
            packs: PackTable::new(alloc),
            arrangements: Arrangements::new(alloc),
        }
    }

    /// What a question is answered.
    pub fn answer(&mut self, alloc: Global, words: &[&str]) -> Result<String> {
        match words {
            ["lay"] => self.lay(alloc),
            [what, window] => self.answer_of(alloc, what, number(window)?),
            ["begin", width, height] => {
                *self = Layouts::new(alloc);
                self.size = (number(width)?, number(height)?);
                Ok(String::new(alloc))
            }
            words => {
                self.change(words)?;
                Ok(String::new(alloc))
            }
        }
    }

    /// What a question about a window is answered.
    fn answer_of(&mut self, alloc: Global, what: &str, window: u64) -> Result<String> {
        match what {
            "asks" => self.asks(alloc, window),
            "forget" => {
                self.packs.forget(win(window));
                Ok(String::new(alloc))
            }
            "gone" => {
                self.take_out(window);
                Ok(String::new(alloc))
            }
            _ => bail!("no such question"),
        }
    }

    /// Changes what windows there are and what they ask for, or where one is packed.
    fn change(&mut self, words: &[&str]) -> Result<()> {
        match words {
            ["window", shape @ ..] => self.set(shape_in(shape)?),
            ["pack", master, slave, place, request @ ..] => {
                self.pack(number(master)?, slave, place, request_in(request)?)
            }
            _ => bail!("no such question"),
        }
    }

    fn pack(&mut self, master: u64, slave: &str, place: &str, request: Request) -> Result<()> {
        self.packs
            .put(master, win(number(slave)?), number(place)?, request)?;
        Ok(())
    }

    /// Adds a window, or changes what it asks for.
    fn set(&mut self, shape: Shape) -> Result<()> {
        for old in &mut self.shapes {
            if old.number == shape.number {
                *old = Shape {
                    rectangle: old.rectangle,
                    mapped: old.mapped,
                    ..shape
                };
                return Ok(());
            }
        }
        self.shapes.push(shape)?;
        Ok(())
    }

    fn take_out(&mut self, number: u64) {
        self.packs.remove(win(number));
        self.arrangements.forget(number);
        self.shapes.retain(|shape| shape.number != number);
    }

    fn asks(&self, alloc: Global, number: u64) -> Result<String> {
        match requested_size(alloc, &self.packs, OWNER, &self.shapes, number)? {
            Some((width, height)) => Ok(format!(in alloc; "{width} {height}")?),
            None => Ok(String::from_str(alloc, "none")?),
        }
    }

    fn changes(&mut self, alloc: Global) -> Result<Vec<PlaceChange>> {
        Ok(lay_out(
            alloc,
            self.size,
            &self.packs,
            OWNER,
            &self.shapes,
            &mut self.arrangements,
        )?)
    }

    fn lay(&mut self, alloc: Global) -> Result<String> {
        let mut text = String::new(alloc);
        let changes = self.changes(alloc)?;
        for change in &changes {
            if !text.is_empty() {
                text.push_str(" ")?;
            }
            text.push_str(change_text(alloc, *change)?.as_str())?;
            self.put(*change);
        }
        if !self.changes(alloc)?.is_empty() {
            text.push_str(" and again")?;
        }
        Ok(text)
    }

    /// Makes a window what a change says.
    fn put(&mut self, change: PlaceChange) {
        for shape in &mut self.shapes {
            match change {
                PlaceChange::Unmap(number) if number == shape.number => shape.mapped = false,
                PlaceChange::Configure(number, place) if number == shape.number => shape.rectangle =
                    place,
                PlaceChange::Map(number) if number == shape.number => shape.mapped = true,
                _ => {}
            }
        }
    }
}

fn win(number: u64) -> Win {
    Win {
        owner: OWNER,
        number,
    }
}

/// By hand: a proof sees one call where it is dropped, and not its parts.
impl Drop for Layouts {
    fn drop(self) {
        let Layouts {
            size: _,
            shapes: _,
            packs: _,
            arrangements: _,
        } = self;
    }
}
