ghost use Rattle.std.specs.Option.{option_copied};
ghost use Rattle.std.specs.Prelude.{◌≡◌, IfOk, IsSome, OnOk, Ok};
ghost use Rattle.tcl_commands.specs.Parameters.{parameters_in};
ghost use Rattle.tcl_text.specs.Readings.{list_of};
ghost use Rattle.tcl_table.specs.Names.{plain_name};
ghost use Rattle.tcl_control.specs.Procedures.{holds_procedure, has_room, table_changed, defined, cannot_use, with_procedure, name_refused, named_anew, with_new_name};
ghost use Rattle.tcl_table.specs.Table.{value_at, with_value, without};
ghost use Rattle.tcl_table.specs.declared.command.Command.{Command as CommandValue};

use std::alloc::{AllocError, Global};
use tcl_commands::{Parameters, parameters_in};
use tcl_table::{Command, CommandTable, Procedure, Source, is_dotted, plain_name};
use tcl_text::Text;
use tcl_text::message::{about_between, bad_name_text};

/// How many procedures there are at most.
const MAX_PROCEDURES: usize = 1024;

/// Whether there is room for a procedure of a name: it has that of a procedure, or there are few enough.
fn has_room(table: &CommandTable, name: &str) -> bool
    ensures { result ≡ has_room table.now name.now }
{
    holds_procedure(table.get(name)) || table.procedures() < MAX_PROCEDURES
}

fn holds_procedure(command: Option<&Command>) -> bool
    ensures { result ≡ holds_procedure (option_copied command.entry) }
{
    match command {
        Some(Command::Procedure(_)) => true,
        _ => false,
    }
}

/// Gives a name a procedure of these parameters, or tells the error's text.
fn define(
    alloc: Global,
    table: &mut CommandTable,
    name: &str,
    body: &Text,
    parameters: Parameters,
) -> Result<Option<Text>, AllocError>
    ensures { IfOk result (λ refused. record { table = table.new; refused = refused }
        ≡ table_changed table.old (defined table.old name.now body.now (Ok parameters))) }
{
    if !has_room(table, name) {
        return Ok(Some(Text::of_short(alloc, "limit reached: procedures")?));
    }
    let procedure = Procedure {
        parameters,
        body: Source::read_of(alloc, body)?,
    };
    table.insert(name, Command::Procedure(procedure))?;
    Ok(None)
}

fn cannot_use(alloc: Global, name: &Text) -> Result<Text, AllocError>
    ensures { IfOk result (λ text. text ≡ cannot_use name.now) }
{
    bad_name_text(alloc, name.as_str())
}

/// Makes a procedure, or tells the error's text (proc(n)).
pub fn make_procedure(
    alloc: Global,
    table: &mut CommandTable,
    name: &Text,
    parameters: &Text,
    body: &Text,
) -> Result<Option<Text>, AllocError>
    ensures { IfOk result (λ refused. record { table = table.new; refused = refused }
        ≡ table_changed table.old (with_procedure table.old name.now parameters.now body.now)) }
{
    let plain = plain_name(name.as_str());
    if is_dotted(plain) {
        return Ok(Some(cannot_use(alloc, name)?));
    }
    match parameters_in(alloc, parameters)? {
        Ok(parameters) => define(alloc, table, plain, body, parameters),
        Err(text) => Ok(Some(text)),
    }
}

/// Why a command can't get this name, where it can't.
fn name_refused(
    alloc: Global,
    table: &CommandTable,
    name: &Text,
) -> Result<Option<Text>, AllocError>
    ensures { IfOk result (λ refused. refused ≡ name_refused table.now name.now) }
{
    let plain = plain_name(name.as_str());
    if is_dotted(plain) {
        return Ok(Some(cannot_use(alloc, name)?));
    }
    match table.get(plain) {
        Some(_) => Ok(Some(about_between(
            alloc,
            "can't rename to ",
            name.as_str(),
            ": command already exists",
        )?)),
        None => Ok(None),
    }
}

/// The command of a name, which is there, gets another one.
fn place(table: &mut CommandTable, old: &str, new: &str) -> Result<(), AllocError>
    requires { IsSome (value_at table.old old.now) }
    ensures { OnOk result ((command : CommandValue) → value_at table.old old.now ≡ Some command → table.new
        ≡ with_value (without table.old old.now) new.now command) }
{
    match table.remove(old) {
        Some(command) => {
            table.insert(new, command)?;
            Ok(())
        }
        None => unreachable!(),
    }
}

/// Gives the command of a name, which is there, another name, or none, or tells the error's text.
fn name_anew(
    alloc: Global,
    table: &mut CommandTable,
    old: &str,
    new: &Text,
) -> Result<Option<Text>, AllocError>
    requires { IsSome (value_at table.old old.now) }
    ensures { IfOk result (λ refused. (command : CommandValue) → value_at table.old old.now ≡ Some command → record { table = table.new; refused = refused }
        ≡ table_changed table.old (named_anew table.old old.now new.now command)) }
{
    if new.as_str().is_empty() {
        let _command = table.remove(old);
        return Ok(None);
    }
    match name_refused(alloc, table, new)? {
        Some(text) => Ok(Some(text)),
        None => {
            place(table, old, plain_name(new.as_str()))?;
            Ok(None)
        }
    }
}

/// Renames a command, or tells the error's text (rename(n)).
pub fn rename(
    alloc: Global,
    table: &mut CommandTable,
    old: &Text,
    new: &Text,
) -> Result<Option<Text>, AllocError>
    ensures { IfOk result (λ refused. record { table = table.new; refused = refused } ≡ table_changed table.old (with_new_name table.old old.now new.now)) }
{
    let plain = plain_name(old.as_str());
    if is_dotted(plain) {
        return Ok(Some(cannot_use(alloc, old)?));
    }
    match table.get(plain) {
        Some(_) => name_anew(alloc, table, plain, new),
        None => Ok(Some(about_between(
            alloc,
            "can't rename ",
            old.as_str(),
            ": command doesn't exist",
        )?)),
    }
}
