//! The commands that the program serves for an application.
ghost use Rattle.std.specs.Prelude.{◌≡◌, ◌++◌, IfOk, OnOk, option_map};
ghost use Rattle.tk_app.specs.Names.{command_names as panel_names};
ghost use Rattle.tk_app.specs.Outside.{act_of, alias_act};
ghost use Rattle.tk_app.specs.Seen.{meanings, names_of, served_by};

use crate::names::panel_names;
use std::alloc::{AllocError, Global};
use tcl_interp::{Act, Code, Task};
use tcl_text::Text;
use tk_alias::{Alias, AliasReply, AliasService, Aliases};
use tk_panel::Job;

/// Adds the names of aliases.
fn push_names<M: AliasService>(
    names: &mut Vec<Text>,
    aliases: &[Alias<M>],
) -> Result<(), AllocError>
    ensures { OnOk result (names.new.items ≡ names.old.items ++ names_of aliases.now) }
{
    for alias in aliases {
        let name = alias.name();
        names.push(name.copy()?)?;
    }
    Ok(())
}

/// The names of the commands that an application with these aliases calls outside the interpreter.
pub fn command_names<M: AliasService>(
    alloc: Global,
    aliases: &Aliases<M>,
) -> Result<Vec<Text>, AllocError>
    ensures { IfOk result (λ names. names.items ≡ panel_names ++ names_of aliases.now) }
{
    let mut names = panel_names(alloc)?;
    push_names(&mut names, aliases.as_slice())?;
    Ok(names)
}

/// What an alias answers to the words behind its name.
fn reply<M: AliasService>(
    alias: &Alias<M>,
    arguments: &[Text],
) -> Result<Act<Task<Job>>, AllocError>
    ensures { IfOk result (λ act. act ≡ act_of (M.answer alias.now.1 arguments.now)) }
{
    match alias.call(arguments) {
        AliasReply::Ok(text) => Ok(Act::Done(Code::Normal, text)),
        AliasReply::Err(text) => Ok(Act::Done(Code::Error, text)),
        AliasReply::NoMemory => Err(AllocError),
    }
}

/// What the first alias of this name answers to the words behind it, where there is one.
fn named<M: AliasService>(
    aliases: &[Alias<M>],
    name: &Text,
    arguments: &[Text],
) -> Result<Option<Act<Task<Job>>>, AllocError>
    ensures { IfOk result (λ act. act ≡ option_map (λ meaning. act_of (meaning arguments.now)) (served_by name.now (meanings M.answer aliases.now))) }
{
    let mut rest = aliases;
    while let [alias, others @ ..] = rest {
        if alias.name().as_str() == name.as_str() {
            let act = reply(alias, arguments)?;
            return Ok(Some(act));
        }
        rest = others;
    }
    Ok(None)
}

/// What the alias of a command's name answers, where there is one (interp(n), alias).
pub fn served<M: AliasService>(
    aliases: &Aliases<M>,
    words: &[Text],
) -> Result<Option<Act<Task<Job>>>, AllocError>
    ensures { IfOk result (λ act. act ≡ alias_act (meanings M.answer aliases.now) words.now) }
{
    let Some((name, arguments)) = words.split_first() else {
        return Ok(None);
    };
    let act = named(aliases.as_slice(), name, arguments)?;
    Ok(act)
}
