ghost use Rattle.std.specs.Prelude.{◌≡◌, ◌⊎◌, List, Err, IfOk, IfErr, IsOk};
ghost use Rattle.tcl_words.specs.Grammar.{IsScriptOf, IsScriptFault};
ghost use Rattle.tcl_words.specs.Reading.{commands_of};
ghost use Rattle.tcl_words.specs.declared.script.Command.{Command};

use crate::reader::read_all;
use crate::script::Script;
use crate::source::SourceText;
use std::alloc::Global;
use tcl_text::{MAX_BYTES, ParseFault};

/// The script that the bytes spell, by the function that reads its commands.
fn read_script(alloc: Global, source: &[u8]) -> Result<Script, ParseFault>
    ensures text { IfOk result (λ script. script ≡ source.now) }
    ensures ok { IfOk result (λ _. IsOk (commands_of source.now)) }
    ensures fault { IfErr result (λ fault. (commands_of source.now ≡ Err fault) ⊎ (fault ≡ ParseFault.NoMemory)) }
{
    if source.len() > MAX_BYTES {
        return Err(ParseFault::TooLong);
    }
    let Ok(text) = str::from_utf8(source) else {
        return Err(ParseFault::TooLong);
    };
    let whole = SourceText::new(alloc, text)?;
    let commands = read_all(&whole, text)?;
    let text = whole.excerpt()?;
    Ok(Script::new(alloc, text, commands)?)
}

/// Reads a script whole, by the rules of Tcl(n). More than 65,536 bytes, or bytes that aren't UTF-8, are `TooLong` (4) before all else.
/// Then the first fault from the left is told (4 to 10), where an opener that never closes counts only if nothing inside is at fault.
/// What the clauses named after the walk say, by the function that reads byte by byte, the others say by the grammar: proofs cite them.
pub fn parse(alloc: Global, source: &[u8]) -> Result<Script, ParseFault>
    ensures text { IfOk result (λ script. script ≡ source.now) }
    ensures script { IfOk result (λ _. (commands : List Command) × IsScriptOf source.now commands) }
    ensures fault { IfErr result (λ fault. IsScriptFault source.now fault ⊎ (fault ≡ ParseFault.NoMemory)) }
    ensures read { (commands : List Command) → IsScriptOf source.now commands → IfErr result (λ fault. fault ≡ ParseFault.NoMemory) }
    ensures told { (fault : ParseFault) → IsScriptFault source.now fault → (result ≡ Err fault) ⊎ (result ≡ Err ParseFault.NoMemory) }
    ensures walk { IfOk result (λ _. IsOk (commands_of source.now)) }
    ensures walk_fault { IfErr result (λ fault. (commands_of source.now ≡ Err fault) ⊎ (fault ≡ ParseFault.NoMemory)) }
{
    read_script(alloc, source)
}
