ghost use Rattle.std.specs.Prelude.{◌≡◌, ◌⊎◌, ◌<◌, List, Err, true, false, IfOk, IfErr, IsOk, MatchOption, OnErr, OnOk};
ghost use Rattle.tcl_table.specs.Kept.{is_kept, none_kept, put_first};
ghost use Rattle.tcl_words.specs.Grammar.{IsScriptOf, IsScriptFault};
ghost use Rattle.tcl_words.specs.Reading.{commands_of};
ghost use Rattle.tcl_words.specs.declared.script.Command.{Command};

use lru::LruCache;
use std::alloc::{AllocError, Global};
use std::marker::Model;
use std::num::NonZeroUsize;
use tcl_text::Text;
use tcl_words::{ParseFault, Script, parse};

/// Scripts that were read, kept by their texts: those that were asked for last, and at most so many.
pub struct ScriptCache {
    scripts: LruCache<String, Script>,
}

impl Model for ScriptCache {
    ghost use Rattle.std.specs.Prelude.{◌<◌};
    ghost use Rattle.tcl_table.specs.Kept.{Kept};
    ghost use Rattle.tcl_table.specs.Entries.{AreTheirs, texts_of};

    ghost Value = { Kept };

    ghost view = { λ c. record { texts = texts_of c.scripts.entries; capacity = c.scripts.cap } };

    ghost invariant = { λ c. AreTheirs c.scripts.entries × (0 < c.scripts.cap) };
}

impl ScriptCache {
    /// Keeps nothing yet, and `capacity` scripts at most.
    pub fn new(alloc: Global, capacity: usize) -> Result<ScriptCache, AllocError>
        requires { 0 < capacity }
        ensures { IfOk result (λ cache. cache ≡ none_kept capacity) }
    {
        let Some(room) = NonZeroUsize::new(capacity) else {
            unreachable!();
        };
        let scripts = LruCache::new(alloc, room)?;
        Ok(ScriptCache { scripts })
    }

    /// Whether the script of a text is kept. It takes no memory.
    pub fn kept(&self, text: &Text) -> bool
        ensures { result ≡ is_kept text.now self.now }
    {
        self.scripts.contains(text.as_str())
    }

    /// The script of a text (Tcl(n)), or its fault (4 to 10), as `parse` answers: a text that is kept isn't read again. The script is then the one
    /// that was asked for last. Nothing changes where the text is at fault, or where memory is refused.
    pub fn parsed(&mut self, text: &Text) -> Result<Script, ParseFault>
        ensures text { IfOk result (λ script. script ≡ text.now) }
        ensures script { IfOk result (λ _. (commands : List Command) × IsScriptOf text.now commands) }
        ensures fault { IfErr result (λ fault. IsScriptFault text.now fault ⊎ (fault ≡ ParseFault.NoMemory)) }
        ensures read { (commands : List Command) → IsScriptOf text.now commands → IfErr result (λ fault. fault ≡ ParseFault.NoMemory) }
        ensures told { (fault : ParseFault) → IsScriptFault text.now fault → (result ≡ Err fault) ⊎ (result ≡ Err ParseFault.NoMemory) }
        ensures walk { IfOk result (λ _. IsOk (commands_of text.now)) }
        ensures walk_fault { IfErr result (λ fault. (commands_of text.now ≡ Err fault) ⊎ (fault ≡ ParseFault.NoMemory)) }
        ensures kept { OnOk result (self.new ≡ put_first text.now self.old) }
        ensures stays { OnErr result (self.new ≡ self.old) }
    {
        self.kept_or_read(text)
    }

    /// The script of a text that is asked for, by the function that reads its commands.
    fn kept_or_read(&mut self, text: &Text) -> Result<Script, ParseFault>
        ensures text { IfOk result (λ script. script ≡ text.now) }
        ensures ok { IfOk result (λ _. IsOk (commands_of text.now)) }
        ensures fault { IfErr result (λ fault. (commands_of text.now ≡ Err fault) ⊎ (fault ≡ ParseFault.NoMemory)) }
        ensures kept { OnOk result (self.new ≡ put_first text.now self.old) }
        ensures stays { OnErr result (self.new ≡ self.old) }
    {
        let characters = text.as_str();
        if let Some(script) = self.copy_of(characters)? {
            self.raise(characters);
            return Ok(script);
        }
        let script = parse(*self.scripts.allocator(), characters.as_bytes())?;
        self.keep(characters, &script)?;
        Ok(script)
    }

    /// The script of a text, if it is kept.
    fn copy_of(&self, text: &str) -> Result<Option<Script>, AllocError>
        ensures { IfOk result (λ found. MatchOption found (is_kept text.now self.now ≡ false)
            (λ script. (script ≡ text.now) × (IsOk (commands_of text.now)) × (is_kept text.now self.now ≡ true))) }
    {
        match self.scripts.peek(text) {
            Some(script) => {
                let _commands = script.commands();
                Ok(Some(script.copy()?))
            }
            None => Ok(None),
        }
    }

    /// A text that is kept was asked for.
    fn raise(&mut self, text: &str)
        requires { is_kept text.now self.old ≡ true }
        ensures { self.new ≡ put_first text.now self.old }
    {
        // Asking for the length says that no text stands in it twice.
        let _ = self.scripts.len();
        self.scripts.promote(text);
    }

    /// Keeps the script of a text that isn't kept, in place of the one that was asked for longest ago where the cache is full.
    fn keep(&mut self, text: &str, script: &Script) -> Result<(), AllocError>
        requires none { is_kept text.now self.old ≡ false }
        requires theirs { script.now ≡ text.now }
        ensures ok { OnOk result (self.new ≡ put_first text.now self.old) }
        ensures err { OnErr result (self.new ≡ self.old) }
    {
        let key = String::from_str(*self.scripts.allocator(), text)?;
        let script = script.copy()?;
        self.scripts.put(key, script)?;
        Ok(())
    }
}

/// By hand: a proof sees one call where it is dropped, and not its parts.
impl Drop for ScriptCache {
    fn drop(self) {
        let ScriptCache { scripts: _ } = self;
    }
}
