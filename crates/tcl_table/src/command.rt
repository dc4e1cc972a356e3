ghost use Rattle.std.specs.Prelude.{◌≡◌, ◌≤◌, [], length, Some, Err, IfOk, IfSome, IsOk, MatchResult, OnOk, OnErr};
ghost use Rattle.std.specs.Option.{option_copied};
ghost use Rattle.indexmap.specs.IndexMap.{values};
ghost use Rattle.tcl_table.specs.Names.{is_dotted, plain_name};
ghost use Rattle.tcl_table.specs.Source.{script_of};
ghost use Rattle.tcl_table.specs.Table.{builtins, variables, texts, is_procedure, procedure_count, procedures_among, value_at, with_value, without, first_commands, with_builtins, with_texts, with_outside};

use crate::builtin::Builtin;
use crate::kept::{
    MOST_SOURCE, expression_at, expression_held, place_of, script_at, vacant_places, vacate,
};
use crate::procedure::Procedure;
use crate::trail::{CommandPlace, ErrorNote, Trail};
use indexmap::IndexMap;
use std::alloc::{AllocError, Global};
use std::marker::Model;
use tcl_commands::VariableCommand;
use tcl_expr::Expr;
use tcl_text::{Text, TextCommand};
use tcl_vars::Hints;
use tcl_words::{ParseFault, Script, parse};

/// What a name calls.
#[derive(Drop)]
pub enum Command {
    /// A command that the interpreter has itself.
    Builtin(Builtin),
    /// A command on texts or lists.
    Texts(TextCommand),
    /// The outside command that first had this name.
    Outside(Text),
    /// A procedure.
    Procedure(Procedure),
}

/// A command's name without a leading `::`, of which one is dropped. Other namespaces than the global one aren't known (namespace(n)).
pub fn plain_name(name: &str) -> &str
    ensures { result.now ≡ plain_name name.now }
{
    match name.strip_prefix("::") {
        Some(rest) => rest,
        None => name,
    }
}

/// Whether a name begins with a dot, as the path of a window. Such a name always calls an outside command.
pub fn is_dotted(name: &str) -> bool
    ensures { result ≡ is_dotted name.now }
{
    name.starts_with(".")
}

/// The commands by their names, and beside them what was read of the scripts and expressions that they run, and notes of errors. Contracts see
/// the commands alone: what is kept of a text is what that text says, whether or not it is kept, and notes are for people.
pub struct CommandTable {
    entries: IndexMap<String, Command>,
    hints: Hints,
    scripts: Vec<Option<Script>>,
    expressions: Vec<Option<Expr>>,
    /// Of how many bytes of source scripts and expressions were kept since nothing was.
    bytes_kept: usize,
    /// Of how many bytes of source the bodies of procedures are held as read.
    bytes_of_bodies: usize,
    trail: Trail,
    alloc: Global,
}

impl Model for CommandTable {
    ghost use Rattle.std.specs.Prelude.{ℕ, List};
    ghost use Rattle.tcl_table.specs.declared.command.Command.{Command};
    ghost use Rattle.tcl_vars.specs.Named.{named_entries};

    ghost Value = { List (List ℕ × Command) };

    ghost view = { λ t. named_entries t.entries.entries };
}

impl CommandTable {
    /// No commands.
    fn new(alloc: Global) -> Result<CommandTable, AllocError>
        ensures { IfOk result (λ table. table ≡ []) }
    {
        Ok(CommandTable {
            entries: IndexMap::new(alloc),
            hints: Hints::new(),
            scripts: vacant_places(alloc)?,
            expressions: vacant_places(alloc)?,
            bytes_kept: 0,
            bytes_of_bodies: 0,
            trail: Trail::new(alloc),
            alloc,
        })
    }

    /// The command of a name, which is looked up as it is: `plain_name` drops a leading `::`. Where it stood when it was looked up last is tried first.
    pub fn get(&self, name: &str) -> Option<&Command>
        ensures { option_copied result ≡ value_at self.now name.now }
    {
        if let Some(command) = self.held_at(self.hints.place(name), name) {
            return Some(command);
        }
        self.find(name)
    }

    /// The command of a name, if that stands at a place of the order.
    fn held_at(&self, place: usize, name: &str) -> Option<&Command>
        ensures { IfSome result (λ command. value_at self.now name.now ≡ Some command.now) }
    {
        if place < self.entries.len() {
            let (held, command) = self.entries.get_index(place).unwrap();
            if held.as_str() == name {
                return Some(command);
            }
        }
        None
    }

    /// The command of a name, which is looked up by hashing. Its place is hinted from then on.
    fn find(&self, name: &str) -> Option<&Command>
        ensures { option_copied result ≡ value_at self.now name.now }
    {
        match self.entries.get_index_of(name) {
            Some(place) => {
                self.hints.keep(name, place);
                let (_, command) = self.entries.get_index(place).unwrap();
                Some(command)
            }
            None => None,
        }
    }

    /// Gives a name a command, in place of the one that it may have. The body of a procedure stays as it was read only while all such bodies come from
    /// few enough bytes; beyond that its text alone is held, and read as other scripts are.
    pub fn insert(&mut self, name: &str, command: Command) -> Result<(), AllocError>
        ensures ok { OnOk result (self.new ≡ with_value self.old name.now command) }
        ensures err { OnErr result (self.new ≡ self.old) }
    {
        let command = held(command, MOST_SOURCE.saturating_sub(self.bytes_of_bodies))?;
        let bytes = body_bytes(&command);
        let replaced = self.put(name, command)?;
        self.forget_body(replaced.as_ref());
        self.bytes_of_bodies = self.bytes_of_bodies.saturating_add(bytes);
        Ok(())
    }

    /// Gives a name a command, and answers the one that it had; what was read of its body is still counted.
    fn put(&mut self, name: &str, command: Command) -> Result<Option<Command>, AllocError>
        ensures ok { OnOk result (self.new ≡ with_value self.old name.now command) }
        ensures err { OnErr result (self.new ≡ self.old) }
    {
        let name = String::from_str(self.alloc, name)?;
        let replaced = self.entries.insert(name, command)?;
        Ok(replaced)
    }

    /// A command that goes takes along what was read of its body.
    fn forget_body(&mut self, command: Option<&Command>)
        ensures { self.new ≡ self.old }
    {
        if let Some(command) = command {
            self.bytes_of_bodies = self.bytes_of_bodies.saturating_sub(body_bytes(command));
        }
    }

    /// Takes a name out, with its command.
    pub fn remove(&mut self, name: &str) -> Option<Command>
        ensures value { result ≡ value_at self.old name.now }
        ensures rest { self.new ≡ without self.old name.now }
    {
        let removed = self.take_out(name);
        self.forget_body(removed.as_ref());
        removed
    }

    /// Takes a name out; what was read of its body is still counted.
    fn take_out(&mut self, name: &str) -> Option<Command>
        ensures value { result ≡ value_at self.old name.now }
        ensures rest { self.new ≡ without self.old name.now }
    {
        self.entries.shift_remove(name)
    }

    /// The commands of a text as a script (Tcl(n)), or its fault (4 to 10). What is read without a fault is kept, at one of 256 places, and
    /// isn't read again as long as it is. A `NoMemory` of the reader is the outer error.
    #[tactic(auto, using(crate::proofs::SourceLemmas::script_walk))]
    pub fn read(&mut self, text: &Text) -> Result<Result<Script, ParseFault>, AllocError>
        ensures table { self.new ≡ self.old }
        ensures reading { IfOk result (λ reading. MatchResult reading (λ script. (script ≡ text.now) × IsOk (script_of text.now))
            (λ fault. script_of text.now ≡ Err fault)) }
    {
        let place = place_of(text.as_str());
        if let Some(script) = script_at(self.scripts.as_slice(), place, text)? {
            return Ok(Ok(script));
        }
        match parse(self.alloc, text.as_str().as_bytes()) {
            Ok(script) => {
                self.keep_at(place, &script)?;
                Ok(Ok(script))
            }
            Err(ParseFault::NoMemory) => Err(AllocError),
            Err(fault) => Ok(Err(fault)),
        }
    }

    /// The commands of a text as a script (Tcl(n)), if they are kept. Nothing is read.
    pub fn kept_script(&self, text: &Text) -> Result<Option<Script>, AllocError>
        ensures { IfOk result (λ kept. IfSome kept (λ script. (script ≡ text.now) × IsOk (script_of text.now))) }
    {
        let _ = &self.entries;
        script_at(self.scripts.as_slice(), place_of(text.as_str()), text)
    }

    /// Keeps a script that was read elsewhere by its text, at one of 256 places, in place of what is there.
    pub fn keep_script(&mut self, script: &Script) -> Result<(), AllocError>
        ensures { self.new ≡ self.old }
    {
        self.keep_at(place_of(script.text().as_str()), script)
    }

    /// Keeps a script at a place, instead of what is there.
    fn keep_at(&mut self, place: usize, script: &Script) -> Result<(), AllocError>
        ensures { self.new ≡ self.old }
    {
        self.count_kept(script.text().as_str().len());
        if place < self.scripts.len() {
            self.scripts[place] = Some(script.copy()?);
        }
        Ok(())
    }

    /// Something is kept that comes from so many bytes of source: where that is too many with what was kept before, that goes first.
    fn count_kept(&mut self, bytes: usize)
        ensures { self.new ≡ self.old }
    {
        self.bytes_kept = self.bytes_kept.saturating_add(bytes);
        if self.bytes_kept > MOST_SOURCE {
            vacate(self.scripts.as_mut_slice());
            vacate(self.expressions.as_mut_slice());
            self.bytes_kept = bytes;
        }
    }

    /// The expression of a text (expr(n)), if it is kept. Nothing is read.
    pub fn kept_expression(&self, text: &Text) -> Result<Option<Expr>, AllocError>
        ensures { IfOk result (λ kept. IfSome kept (λ expr. expr ≡ text.now)) }
    {
        let _ = &self.entries;
        expression_at(self.expressions.as_slice(), place_of(text.as_str()), text)
    }

    /// The same, to look at.
    pub fn known_expression(&self, text: &Text) -> Option<&Expr>
        ensures { IfSome result (λ expr. expr.now ≡ text.now) }
    {
        let _ = &self.entries;
        expression_held(self.expressions.as_slice(), place_of(text.as_str()), text)
    }

    /// Keeps an expression by its text, at one of 256 places, in place of what is there.
    pub fn keep_expression(&mut self, expr: &Expr) -> Result<(), AllocError>
        ensures { self.new ≡ self.old }
    {
        let place = place_of(expr.text().as_str());
        self.count_kept(expr.text().as_str().len());
        if place < self.expressions.len() {
            self.expressions[place] = Some(expr.copy()?);
        }
        Ok(())
    }

    /// An error ends this command, behind those that were noted since the last one was caught or ended a script at global level.
    pub fn note_place(&mut self, place: CommandPlace) -> Result<(), AllocError>
        ensures { self.new ≡ self.old }
    {
        self.trail.note(place)
    }

    /// The error is caught: the commands that were noted of it are forgotten. It takes no memory.
    pub fn forget_trail(&mut self)
        ensures { self.new ≡ self.old }
    {
        self.trail.forget();
    }

    /// The error, of this text, ends a script at global level: the commands that were noted of it are kept with it.
    pub fn end_trail(&mut self, text: &Text) -> Result<(), AllocError>
        ensures { self.new ≡ self.old }
    {
        self.trail.end(text)
    }

    /// The errors that ended scripts at global level, in the order in which they came: the first 64. It takes no memory.
    pub fn error_notes(&self) -> &[ErrorNote] {
        self.trail.notes()
    }

    /// How many names call procedures; `proc` makes 1,024 at most.
    pub fn procedures(&self) -> usize
        ensures { result ≡ procedure_count self.now }
    {
        count_procedures(&self.entries)
    }
}

/// How many bytes of source were read of a procedure's body.
fn body_bytes(command: &Command) -> usize {
    match command {
        Command::Procedure(procedure) => procedure.body.bytes_read(),
        Command::Builtin(_) | Command::Texts(_) | Command::Outside(_) => 0,
    }
}

/// The same procedure, which holds of its body the text alone if that was read of more bytes than so many.
fn held_procedure(procedure: Procedure, most: usize) -> Result<Procedure, AllocError>
    ensures { IfOk result (λ held. held ≡ procedure) }
{
    if procedure.body.bytes_read() <= most {
        return Ok(procedure);
    }
    let Procedure { parameters, body } = procedure;
    let body = body.unread()?;
    Ok(Procedure { parameters, body })
}

/// The same command, with a body that was read of so many bytes at most.
fn held(command: Command, most: usize) -> Result<Command, AllocError>
    ensures { IfOk result (λ held. held ≡ command) }
{
    match command {
        Command::Procedure(procedure) => Ok(Command::Procedure(held_procedure(procedure, most)?)),
        Command::Builtin(builtin) => Ok(Command::Builtin(builtin)),
        Command::Texts(command) => Ok(Command::Texts(command)),
        Command::Outside(name) => Ok(Command::Outside(name)),
    }
}

fn count_procedures(commands: &IndexMap<String, Command>) -> usize
    ensures { result ≡ procedures_among (values commands.now) }
{
    let mut count = 0;
    for command in commands.values() {
        if is_procedure(command) {
            count += 1;
        }
    }
    count
}

fn is_procedure(command: &Command) -> bool
    ensures { result ≡ is_procedure command.now }
{
    matches!(command, Command::Procedure(_))
}

/// The commands at first: the interpreter's own, those on texts and lists, and outside ones of these names, which replace others of theirs.
#[tactic(auto, unfolding(crate::specs::Table::first_commands))]
pub fn first_commands(alloc: Global, outside: &[Text]) -> Result<CommandTable, AllocError>
    ensures { IfOk result (λ table. table ≡ first_commands outside.now) }
{
    let mut table = CommandTable::new(alloc)?;
    add_builtins(&mut table)?;
    add_texts(&mut table)?;
    for name in outside {
        table.insert(name.as_str(), Command::Outside(name.copy()?))?;
    }
    Ok(table)
}

fn add_builtins(table: &mut CommandTable) -> Result<(), AllocError>
    ensures { OnOk result (table.new ≡ with_builtins variables (with_builtins builtins table.old)) }
{
    table.insert("break", Command::Builtin(Builtin::Break))?;
    table.insert("catch", Command::Builtin(Builtin::Catch))?;
    table.insert("continue", Command::Builtin(Builtin::Continue))?;
    table.insert("error", Command::Builtin(Builtin::Error))?;
    table.insert("eval", Command::Builtin(Builtin::Eval))?;
    table.insert("expr", Command::Builtin(Builtin::Expr))?;
    table.insert("for", Command::Builtin(Builtin::For))?;
    table.insert("foreach", Command::Builtin(Builtin::Foreach))?;
    table.insert("if", Command::Builtin(Builtin::If))?;
    table.insert("info", Command::Builtin(Builtin::Info))?;
    table.insert("proc", Command::Builtin(Builtin::Proc))?;
    table.insert("rename", Command::Builtin(Builtin::Rename))?;
    table.insert("return", Command::Builtin(Builtin::Return))?;
    table.insert("switch", Command::Builtin(Builtin::Switch))?;
    table.insert("uplevel", Command::Builtin(Builtin::Uplevel))?;
    table.insert("upvar", Command::Builtin(Builtin::Upvar))?;
    table.insert("while", Command::Builtin(Builtin::While))?;
    add_variables(table)
}

fn add_variable(
    table: &mut CommandTable,
    name: &str,
    command: VariableCommand,
) -> Result<(), AllocError>
    ensures { OnOk result (table.new ≡ with_value table.old name.now (Command.Builtin (Builtin.Variable command))) }
{
    table.insert(name, Command::Builtin(Builtin::Variable(command)))
}

fn add_variables(table: &mut CommandTable) -> Result<(), AllocError>
    ensures { OnOk result (table.new ≡ with_builtins variables table.old) }
{
    add_variable(table, "set", VariableCommand::Set)?;
    add_variable(table, "unset", VariableCommand::Unset)?;
    add_variable(table, "incr", VariableCommand::Incr)?;
    add_variable(table, "append", VariableCommand::Append)?;
    add_variable(table, "lappend", VariableCommand::Lappend)?;
    add_variable(table, "array", VariableCommand::Array)?;
    add_variable(table, "global", VariableCommand::Global)?;
    Ok(())
}

fn add_texts(table: &mut CommandTable) -> Result<(), AllocError>
    ensures { OnOk result (table.new ≡ with_texts texts table.old) }
{
    table.insert("list", Command::Texts(TextCommand::List))?;
    table.insert("llength", Command::Texts(TextCommand::Llength))?;
    table.insert("lindex", Command::Texts(TextCommand::Lindex))?;
    table.insert("lrange", Command::Texts(TextCommand::Lrange))?;
    table.insert("linsert", Command::Texts(TextCommand::Linsert))?;
    table.insert("lreplace", Command::Texts(TextCommand::Lreplace))?;
    table.insert("lsearch", Command::Texts(TextCommand::Lsearch))?;
    table.insert("lsort", Command::Texts(TextCommand::Lsort))?;
    table.insert("join", Command::Texts(TextCommand::Join))?;
    table.insert("split", Command::Texts(TextCommand::Split))?;
    table.insert("concat", Command::Texts(TextCommand::Concat))?;
    table.insert("string", Command::Texts(TextCommand::String))?;
    Ok(())
}

/// By hand: a proof sees one call where it is dropped, and not its parts.
impl Drop for CommandTable {
    fn drop(self) {
        let CommandTable {
            entries: _,
            hints: _,
            scripts: _,
            expressions: _,
            bytes_kept: _,
            bytes_of_bodies: _,
            trail: _,
            alloc: _,
        } = self;
    }
}
