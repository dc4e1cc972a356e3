//! The blocks of a session that comes line by line.

ghost use Rattle.std.specs.Prelude.{◌≡◌, ◌-◌, ◌++◌, ◌∷◌, [], ℕ, codes, option_map, IfOk, IfSome, IfNone, OnOk};
ghost use Rattle.std.specs.String.{string_bytes};
ghost use Rattle.panels_report.specs.Blocks.{IsBeginning, IsCount, IsScript, IsTaken, MayStay, Takes, begun, closing, count_in, ended, none, opened, parts, with_block, with_front, with_head, with_script, without_block};
ghost use Rattle.panels_text.specs.Texts.{behind};
ghost use Rattle.tk_session.specs.Session.{HasFault, IsSession, Plan};
ghost use Rattle.tk_route.specs.declared.fault.LineFault.{LineFault};

use panels_film::number_in;
use panels_text::explained;
use std::alloc::{AllocError, Global};
use tk_session::{Session, SessionFault, read_session};

/// What comes of a line.
#[derive(Drop)]
pub enum Taken {
    /// It is a line of a script, and more of them come.
    Silent,
    Accepted,
    /// It isn't what stands in its place: why, in words.
    Refused(String),
    /// The blocks are at their end.
    Begun(Session),
}

/// The blocks that came so far.
#[derive(Drop)]
pub struct Blocks {
    /// The lines of whole blocks, the heading in front of them.
    front: String,
    /// Those of a block whose script hasn't come yet.
    block: String,
    /// Those of its script.
    script: String,
    /// How many lines of the script are still to come.
    wanted: u64,
}

/// Why a text is no session; nothing where it is one.
fn fault_in(alloc: Global, text: &str) -> Result<Option<String>, AllocError>
    ensures session { IfOk result (λ words. IfNone words ((plan : Plan) × IsSession text.now plan)) }
    ensures faulty { IfOk result (λ words. IfSome words (λ told. (fault : LineFault) × (line : ℕ) × HasFault text.now fault line)) }
{
    match explained(alloc, text.as_bytes())? {
        None => Ok(None),
        Some(words) => Ok(Some(String::from_str(alloc, words.as_str().trim_end())?)),
    }
}

/// Adds a line to a text.
fn push_line(text: &mut String, line: &str) -> Result<(), AllocError>
    ensures { OnOk result (string_bytes text.new ≡ string_bytes text.old ++ line.now ++ 10 ∷ []) }
{
    text.push_str(line)?;
    Ok(text.push('\n')?)
}

/// The session of whole blocks.
fn closed(alloc: Global, blocks: &str) -> Result<String, AllocError>
    ensures { IfOk result (λ text. string_bytes text ≡ blocks.now ++ codes "events\n0 end\n") }
{
    format!(in alloc; "{blocks}events\n0 end\n")
}

/// What stands behind the first word of the line in front of a script.
fn behind_script(line: &str) -> Option<&str>
    ensures { option_map (λ rest. rest.now) result ≡ behind (codes "script ") line.now }
{
    line.strip_prefix("script ")
}

/// The number of lines that the line in front of a script counts.
fn count_of(line: &str) -> Option<u64>
    ensures { result ≡ count_in line.now }
{
    number_in(behind_script(line)?)
}

impl Blocks {
    /// None have come.
    pub fn new(alloc: Global) -> Blocks
        ensures { parts result ≡ none }
    {
        Blocks {
            front: String::new(alloc),
            block: String::new(alloc),
            script: String::new(alloc),
            wanted: 0,
        }
    }

    /// The heading, which comes first.
    fn take_heading(&mut self, alloc: Global, line: &str) -> Result<Taken, AllocError>
        ensures { IfOk result (IsTaken (closing line.now) (with_front line.now (parts self.old)) (parts self.old) (parts self.new)) }
    {
        let text = format!(in alloc; "{line}\nevents\n0 end\n")?;
        match fault_in(alloc, text.as_str())? {
            None => {
                push_line(&mut self.front, line)?;
                Ok(Taken::Accepted)
            }
            Some(words) => Ok(Taken::Refused(words)),
        }
    }

    /// The session that a line of a block belongs to, were its script empty and it the last.
    fn opened(&self, alloc: Global, line: &str) -> Result<String, AllocError>
        ensures { IfOk result (λ text. string_bytes text ≡ opened line.now (parts self.now)) }
    {
        format!(in alloc;
            "{}{}{line}\nscript 0\nevents\n0 end\n",
            self.front.as_str(),
            self.block.as_str()
        )
    }

    /// The first line of a block, or one of an alias.
    fn take_head(&mut self, alloc: Global, line: &str) -> Result<Taken, AllocError>
        ensures { IfOk result (IsTaken (opened line.now (parts self.old)) (with_head line.now (parts self.old)) (parts self.old) (parts self.new)) }
    {
        let text = self.opened(alloc, line)?;
        match fault_in(alloc, text.as_str())? {
            None => {
                push_line(&mut self.block, line)?;
                Ok(Taken::Accepted)
            }
            Some(words) => Ok(Taken::Refused(words)),
        }
    }

    /// The whole blocks, with one whose script has come.
    fn whole(&self, alloc: Global) -> Result<String, AllocError>
        ensures { IfOk result (λ text. string_bytes text ≡ (with_block (parts self.now)).front) }
    {
        format!(in alloc;
            "{}{}{}",
            self.front.as_str(),
            self.block.as_str(),
            self.script.as_str()
        )
    }

    /// Ends a block whose script has come.
    fn end_block(&mut self, alloc: Global) -> Result<Taken, AllocError>
        ensures { IfOk result (IsTaken (ended (parts self.old)) (with_block (parts self.old)) (without_block (parts self.old)) (parts self.new)) }
    {
        let block = self.whole(alloc)?;
        let text = closed(alloc, block.as_str())?;
        let fault = fault_in(alloc, text.as_str())?;
        self.block.clear();
        self.script.clear();
        match fault {
            None => {
                self.front = block;
                Ok(Taken::Accepted)
            }
            Some(words) => Ok(Taken::Refused(words)),
        }
    }

    /// A line of a script, or that which counts them, behind which so many more come.
    fn take_line(&mut self, alloc: Global, line: &str, left: u64) -> Result<Taken, AllocError>
        ensures stay { IfOk result (MayStay (parts self.old) (parts self.new)) }
        ensures takes { IfOk result (IsScript left (with_script line.now left (parts self.old)) (parts self.new)) }
    {
        push_line(&mut self.script, line)?;
        self.wanted = left;
        if left == 0 {
            return self.end_block(alloc);
        }
        Ok(Taken::Silent)
    }

    /// The line that counts those of a script.
    fn take_count(&mut self, alloc: Global, line: &str, count: u64) -> Result<Taken, AllocError>
        ensures stay { IfOk result (MayStay (parts self.old) (parts self.new)) }
        ensures takes { IfOk result (IsCount line.now count (parts self.old) (parts self.new)) }
    {
        if self.block.is_empty() {
            return self.take_head(alloc, line);
        }
        self.take_line(alloc, line, count)
    }

    /// A line of a script.
    fn take_script(&mut self, alloc: Global, line: &str) -> Result<Taken, AllocError>
        ensures stay { IfOk result (MayStay (parts self.old) (parts self.new)) }
        ensures takes { IfOk result (let left = (parts self.old).wanted - 1 in IsScript left (with_script line.now left (parts self.old)) (parts self.new)) }
    {
        let left = self.wanted.saturating_sub(1);
        self.take_line(alloc, line, left)
    }

    /// The session of the blocks.
    fn begun(&self, alloc: Global) -> Result<String, AllocError>
        ensures { IfOk result (λ text. string_bytes text ≡ begun (parts self.now)) }
    {
        format!(in alloc;
            "{}{}events\n0 end\n",
            self.front.as_str(),
            self.block.as_str()
        )
    }

    /// What comes of blocks that couldn't be read as a session.
    fn unread(&self, alloc: Global) -> Result<Taken, AllocError>
        ensures { IfOk result (IsBeginning (begun (parts self.now))) }
    {
        let text = self.begun(alloc)?;
        match fault_in(alloc, text.as_str())? {
            None => Ok(Taken::Accepted),
            Some(words) => Ok(Taken::Refused(words)),
        }
    }

    /// The line `events`.
    fn begin(&self, alloc: Global) -> Result<Taken, AllocError>
        ensures { IfOk result (IsBeginning (begun (parts self.now))) }
    {
        let text = self.begun(alloc)?;
        match read_session(alloc, text.as_str().as_bytes()) {
            Ok(session) => Ok(Taken::Begun(session)),
            Err(SessionFault::NoMemory) => Err(AllocError),
            Err(SessionFault::Refused { .. }) => self.unread(alloc),
        }
    }

    /// A line; one that is refused changes nothing, but that a block whose script is refused is gone.
    pub fn take(&mut self, alloc: Global, line: &str) -> Result<Taken, AllocError>
        ensures stay { IfOk result (MayStay (parts self.old) (parts self.new)) }
        ensures takes { IfOk result (Takes line.now (parts self.old) (parts self.new)) }
    {
        if self.wanted > 0 {
            return self.take_script(alloc, line);
        }
        if self.front.is_empty() {
            return self.take_heading(alloc, line);
        }
        if line == "events" {
            return self.begin(alloc);
        }
        match count_of(line) {
            Some(count) => self.take_count(alloc, line, count),
            None => self.take_head(alloc, line),
        }
    }
}
