ghost use Rattle.std.specs.Prelude.{◌≡◌};
ghost use Rattle.tcl_text.specs.Answers.{Gives};
ghost use Rattle.tk_alias.specs.Services.{answer_of};

use crate::kinds::{fail, table, upper};
use crate::summing::sum;
use crate::{AliasMeaning, AliasReply};
use std::alloc::Global;
use tcl_text::Text;
use tcl_text::answers::{Refusal, copy_answer};

/// What a service does.
#[derive(Clone, Copy, Debug, PartialEq, Eq)]
pub enum ServiceKind {
    /// Answers its configuration, whatever the arguments are.
    Const,
    /// Answers the items of its configuration and then the arguments, with blanks between, in capitals: ASCII letters are raised.
    Upper,
    /// Looks its argument up in its configuration, of keys and values in turn.
    Table,
    /// Adds the items of its configuration and the arguments.
    Sum,
    /// Fails with its configuration as the error's text.
    Fail,
}

/// A service of the program: what it does, and the text that sets it up. Errors are `bad alias configuration` where this text isn't a
/// list, or a table has a key without a value; `wrong # args` and `no such key "K"` of a table; and those of a value that is no integer
/// (1), too long (4) or too large (13).
#[derive(Drop)]
pub struct Service {
    pub kind: ServiceKind,
    pub config: Text,
}

impl AliasMeaning for Service {
    ghost use Rattle.tk_alias.specs.Services.{answer_of};

    ghost answer = { λ service args. answer_of service.kind service.config args };
}

impl ServiceKind {
    ghost use Rattle.tk_alias.specs.Replies.{IsReply};
    ghost use Rattle.tk_alias.specs.Services.{answer_of};

    /// What a service of this kind replies, set up with this text. The closure of its alias calls it.
    pub fn reply(self, alloc: Global, config: &Text, args: &[Text]) -> AliasReply
        ensures { IsReply (answer_of self config.now args.now) result }
    {
        match answer(alloc, self, config, args) {
            Ok(text) => AliasReply::Ok(text),
            Err(Refusal::Error(text)) => AliasReply::Err(text),
            Err(Refusal::NoMemory) => AliasReply::NoMemory,
        }
    }
}

/// What a service of this kind answers.
fn answer(alloc: Global, kind: ServiceKind, config: &Text, args: &[Text]) -> Result<Text, Refusal>
    ensures { Gives result (answer_of kind config.now args.now) }
{
    match kind {
        ServiceKind::Const => copy_answer(config),
        ServiceKind::Upper => upper(alloc, config, args),
        ServiceKind::Table => table(alloc, config, args),
        ServiceKind::Sum => sum(alloc, config, args),
        ServiceKind::Fail => fail(alloc, config),
    }
}
