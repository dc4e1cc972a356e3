//! Questions of packings: `cavity WIDTH HEIGHT` begins one; `slave WIDTH HEIGHT OPTION VALUE ..` packs a window in it, with the options of pack(n),
//! two pads joined by a comma; `arrange` is answered the size that the windows ask for and, behind a colon, where each lies, as `X Y WIDTH HEIGHT`
//! or `none` where it isn't mapped. They are arranged anew, by an arrangement that is kept from cavity to cavity, and by that once more, and are
//! then taken out.

use crate::windows::requests::{anchor_of, fill_of, pads_of, side_of};
use anyhow::{Result, bail};
use asking::number;
use std::alloc::Global;
use tk_base::{Rect, Win};
use tk_packer::{KeptArrangement, PackTable, Request, arrange, request_of};

pub struct Packings {
    size: (u32, u32),
    packs: PackTable,
    /// How many windows are packed.
    count: u64,
    kept: KeptArrangement,
}

/// The window that the windows are packed in.
const MASTER: Win = Win {
    owner: 0,
    number: 0,
};

fn slave(number: u64) -> Win {
    Win {
        owner: MASTER.owner,
        number,
    }
}

/// The request with one more option.
fn with_option(request: Request, option: &str, value: &str) -> Result<Request> {
    let mut request = request;
    match option {
        "-side" => request.side = side_of(value)?,
        "-anchor" => request.anchor = anchor_of(value)?,
        "-fill" => request.fill = fill_of(value)?,
        "-expand" => request.expand = value == "1",
        "-padx" => request.padx = pads_of(value)?,
        "-pady" => request.pady = pads_of(value)?,
        "-ipadx" => request.ipadx = number(value)?,
        "-ipady" => request.ipady = number(value)?,
        _ => bail!("no such option"),
    }
    Ok(request)
}

fn request_in(width: &str, height: &str, options: &[&str]) -> Result<Request> {
    let mut request = Request::new(number(width)?, number(height)?);
    for pair in options.chunks(2) {
        let [option, value] = pair else {
            bail!("an option with no value");
        };
        request = with_option(request, option, value)?;
    }
    Ok(request)
}

fn place_text(alloc: Global, place: Option<Rect>) -> Result<String> {
    match place {
        Some(rect) => Ok(format!(in alloc;
            "{} {} {} {}",
            rect.x, rect.y, rect.width, rect.height
        )?),
        None => Ok(String::from_str(alloc, "none")?),
    }
}

/// The size that windows ask for, and where each lies.
fn places_told(
    alloc: Global,
    (width, height): (u32, u32),
    places: &[Option<Rect>],
) -> Result<String> {
    let mut text = format!(in alloc; "{width} {height}:")?;
    for (index, place) in places.iter().enumerate() {
        text.push_str(if index == 0 { " " } else { ", " })?;
        text.push_str(place_text(alloc, *place)?.as_str())?;
    }
    Ok(text)
}

impl Packings {
    pub fn new(alloc: Global) -> Packings {
        Packings {
            size: (0, 0),
            packs: PackTable::new(alloc),
            count: 0,
            kept: KeptArrangement::new(alloc),
        }
    }

    /// What a question is answered.
    pub fn answer(&mut self, alloc: Global, words: &[&str]) -> Result<String> {
        match words {
            ["cavity", width, height] => {
                self.size = (number(width)?, number(height)?);
                self.take_out();
            }
            ["slave", width, height, options @ ..] => {
                self.add(request_in(width, height, options)?)?;
            }
            ["arrange"] => return self.arranged(alloc),
            _ => bail!("no such question"),
        }
        Ok(String::new(alloc))
    }

    fn add(&mut self, request: Request) -> Result<()> {
        self.count = self.count.saturating_add(1);
        self.packs
            .put(MASTER.number, slave(self.count), usize::MAX, request)?;
        Ok(())
    }

    fn take_out(&mut self) {
        for number in 0..self.count {
            self.packs.forget(slave(number + 1));
        }
        self.count = 0;
    }

    fn requests(&self, alloc: Global) -> Result<Vec<Request>> {
        let mut requests = Vec::new(alloc);
        for win in self.packs.slaves(alloc, MASTER)? {
            let Some(request) = self.packs.request(win) else {
                bail!("a slave with no request");
            };
            requests.push(request)?;
        }
        Ok(requests)
    }

    /// Where windows with these requests lie, by an arrangement that is made anew, and twice by the kept one.
    fn places(&mut self, alloc: Global, requests: &[Request]) -> Result<Vec<Option<Rect>>> {
        let places = arrange(alloc, self.size, requests)?;
        for _ in 0..2u32 {
            self.kept.arrange(self.size, requests)?;
            if self.kept.places() != places.as_slice() {
                bail!("a kept arrangement is another");
            }
        }
        Ok(places)
    }

    fn arranged(&mut self, alloc: Global) -> Result<String> {
        let requests = self.requests(alloc)?;
        let places = self.places(alloc, requests.as_slice())?;
        self.take_out();
        if !self.packs.packed_in(MASTER).is_empty() {
            bail!("a window that was taken out is packed");
        }
        places_told(alloc, request_of(requests.as_slice()), places.as_slice())
    }
}

/// By hand: a proof sees one call where it is dropped, and not its parts.
impl Drop for Packings {
    fn drop(self) {
        let Packings {
            size: _,
            packs: _,
            count: _,
            kept: _,
        } = self;
    }
}
