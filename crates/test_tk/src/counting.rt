ghost use Rattle.std.specs.Prelude.{◌≡◌, ◌++◌, IfOk, length, string_bytes};
ghost use Rattle.std.specs.Fmt.{decimal};
ghost use Rattle.tk_alias.specs.Replies.{IsReply};
ghost use Rattle.test_tk.specs.Counting.{counted};

use std::alloc::{AllocError, Global};
use tcl_text::Text;
use tcl_text::answers::{Refusal, string_answer};
use tk_alias::{AliasMeaning, AliasReply};

/// A service of this program: it answers how many arguments it is given, and what they are counted in.
#[derive(Drop)]
pub struct Counting {
    pub unit: Text,
}

impl AliasMeaning for Counting {
    ghost use Rattle.test_tk.specs.Counting.{counted};

    ghost answer = { λ counting args. counted counting.unit args };
}

/// What it replies that counts in this unit.
pub fn count(alloc: Global, unit: &Text, args: &[Text]) -> AliasReply
    ensures { IsReply (counted unit.now args.now) result }
{
    match told(alloc, args.len(), unit) {
        Ok(count) => match string_answer(alloc, count) {
            Ok(text) => AliasReply::Ok(text),
            Err(Refusal::Error(text)) => AliasReply::Err(text),
            Err(Refusal::NoMemory) => AliasReply::NoMemory,
        },
        Err(AllocError) => AliasReply::NoMemory,
    }
}

fn told(alloc: Global, count: usize, unit: &Text) -> Result<String, AllocError>
    ensures { IfOk result (λ string. string_bytes string ≡ decimal count ++ unit.now) }
{
    let mut string = format!(in alloc; "{count}")?;
    string.push_str(unit.as_str())?;
    Ok(string)
}
