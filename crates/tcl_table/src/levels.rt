ghost use Rattle.std.specs.Prelude.{◌≡◌, ◌<◌, ◌++◌, [], ◌∷◌, length, take, drop, IfOk, OnOk, OnErr};
ghost use Rattle.tcl_table.specs.Levels.{here, up};

use std::alloc::{AllocError, Global};
use std::marker::Model;
use tcl_vars::Scopes;

/// The places, among the frames of the variables, of the frames of the callers of a script, the global one first, and of its own, the last:
/// the levels that uplevel(n), upvar(n) and info(n) count.
pub struct Levels {
    places: Vec<usize>,
}

impl Model for Levels {
    ghost use Rattle.std.specs.Prelude.{ℕ, List};

    ghost Value = { List ℕ };

    ghost view = { λ l. l.places.items };
}

impl Levels {
    /// Global level alone, `#0` of uplevel(n).
    pub fn global(alloc: Global) -> Result<Levels, AllocError>
        ensures { IfOk result (λ levels. levels ≡ 0 ∷ []) }
    {
        let mut places = Vec::new(alloc);
        places.push(0)?;
        Ok(Levels { places })
    }

    /// How many frames there are along the callers, the own one too; `info level` answers one less (info(n)).
    pub fn count(&self) -> usize
        ensures { result ≡ length self.now }
    {
        self.places.len()
    }

    /// The place of the frame whose variables are seen: the own one, or the global one where that is gone.
    pub fn here(&self, scopes: &Scopes) -> usize
        ensures value { result ≡ here self.now scopes.now }
        ensures there { result < length scopes.now }
    {
        let frames = scopes.levels();
        match self.places.last() {
            Some(place) if *place < frames => *place,
            _ => 0,
        }
    }

    /// The place of the frame whose variables are seen where only the first `count` of the levels are; the global one where that is gone.
    pub fn place_at(&self, scopes: &Scopes, count: usize) -> usize
        ensures { result ≡ here (take count self.now) scopes.now }
    {
        let frames = scopes.levels();
        let count = self.places.len().min(count);
        match self.places[..count].last() {
            Some(place) if *place < frames => *place,
            _ => 0,
        }
    }

    /// A procedure begins, whose frame is at this place.
    pub fn push(&mut self, place: usize) -> Result<(), AllocError>
        ensures ok { OnOk result (self.new ≡ self.old ++ place ∷ []) }
        ensures err { OnErr result (self.new ≡ self.old) }
    {
        self.places.push(place)?;
        Ok(())
    }

    /// A procedure ends.
    pub fn pop(&mut self)
        ensures { self.new ≡ up self.old }
    {
        let _place = self.places.pop();
    }

    /// Keeps the first `count` of the levels, as for a script of `uplevel` (uplevel(n)), and gives the others.
    pub fn cut(&mut self, alloc: Global, count: usize) -> Result<Levels, AllocError>
        ensures ok { IfOk result (λ others. (self.new ≡ take count self.old) × (others ≡ drop count self.old)) }
        ensures err { OnErr result (self.new ≡ self.old) }
    {
        if count < self.places.len() {
            let others = Vec::from_slice(alloc, &self.places[count..])?;
            self.places.truncate(count);
            Ok(Levels { places: others })
        } else {
            Ok(Levels {
                places: Vec::new(alloc),
            })
        }
    }

    /// Puts levels behind these, as they were before `cut`.
    pub fn join(&mut self, others: Levels) -> Result<(), AllocError>
        ensures ok { OnOk result (self.new ≡ self.old ++ others) }
        ensures err { OnErr result (self.new ≡ self.old) }
    {
        self.places.extend_from_slice(others.places.as_slice())?;
        Ok(())
    }
}

/// By hand: a proof sees one call where it is dropped, and not its parts.
impl Drop for Levels {
    fn drop(self) {
        let Levels { places: _ } = self;
    }
}
