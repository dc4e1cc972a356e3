//! A command of the program's own, `greet`, which a closure serves.
ghost use Rattle.std.specs.Prelude.{◌≡◌, ℕ, List};
ghost use Rattle.tk_alias.specs.Replies.{IsReply};
ghost use Rattle.tk_alias.specs.declared.reply.AliasReply.{AliasReply as Reply};
ghost use Rattle.embedding.specs.Greetings.{greeted};

use crate::{BUDGET, LEFT};
use anyhow::Result;
use std::alloc::Global;
use tcl_text::Text;
use tk_host::{Alias, AliasCode, AliasMeaning, AliasReply, Aliases, Host};

/// What the command is set up with: the text that it answers.
#[derive(Drop)]
struct Greeting {
    text: Text,
}

impl AliasMeaning for Greeting {
    ghost use Rattle.embedding.specs.Greetings.{greeted};

    ghost answer = { λ greeting args. greeted greeting.text args };
}

/// What an application has shown that calls `greet`, which this closure serves.
fn section_served_by<F: AliasCode>(alloc: Global, greeting: Greeting, code: F) -> Result<Vec<u8>>
    requires callable { F.may_call code }
    requires replies { (args : List (List ℕ)) (reply : Reply) → F.may_reply code args reply → IsReply (greeted greeting.text args) reply }
{
    let mut aliases = Aliases::new(alloc);
    aliases.push(Alias::new(Text::new(alloc, "greet")?, greeting, code))?;
    let mut host = Host::new(alloc, 64)?;
    let (name, script) = (
        Text::new(alloc, "panel")?,
        Text::new(alloc, "puts [greet]")?,
    );
    host.add_app(name, LEFT, script, BUDGET, aliases)?;
    host.start()?;
    Ok(host.section(0)?)
}

/// What an application has shown that is greeted with this text: the closure keeps a copy of it.
pub fn section_of_the_greeted(alloc: Global, text: Text) -> Result<Vec<u8>> {
    let kept = text.copy()?;
    section_served_by(
        alloc,
        Greeting { text },
        move |_args: &[Text]| match kept.copy() {
            Ok(text) => AliasReply::Ok(text),
            Err(_) => AliasReply::NoMemory,
        },
    )
}
