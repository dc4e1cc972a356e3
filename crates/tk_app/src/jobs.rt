//! The tables as the interpreter of one application sees them: its jobs, its commands and its aliases.
ghost use Rattle.std.specs.Prelude.{◌≡◌, IfOk};
ghost use Rattle.tk_panel.specs.Shared.{LeavesOthers, panel_of};
ghost use Rattle.tk_app.specs.Outside.{calls};
ghost use Rattle.tk_app.specs.Seen.{meanings};

use crate::aliases::served;
use std::alloc::AllocError;
use tcl_interp::{Act, Code, Jobs, Looked, Started, Task, Tasks};
use tcl_text::Text;
use tcl_vars::Scopes;
use tcl_words::{ParseFault, Script};
use tk_alias::{AliasService, Aliases};
use tk_panel::{Job, Tables};

/// The tables, as one application sees them.
#[derive(Drop)]
pub struct AppTables<'a, M: AliasService> {
    pub slot: usize,
    pub tables: &'a mut Tables,
    pub aliases: &'a Aliases<M>,
}

/// The tables as an application with these aliases sees them.
pub fn tables_of<'a, M: AliasService>(
    tables: &'a mut Tables,
    slot: usize,
    aliases: &'a Aliases<M>,
) -> AppTables<'a, M>
    ensures slot { result.slot ≡ slot }
    ensures same_reference { result.tables.ghost_name ≡ tables.entry.ghost_name }
    ensures now { result.tables.now ≡ tables.old }
    ensures aliases { result.aliases.now ≡ aliases.now }
{
    AppTables {
        slot,
        tables,
        aliases,
    }
}

/// A command of an application with these aliases, by its name and the words behind it: an alias goes before the others.
fn call<M: AliasService>(
    tables: &mut Tables,
    slot: usize,
    aliases: &Aliases<M>,
    scopes: &mut Scopes,
    words: &[Text],
) -> Result<Act<Task<Job>>, AllocError>
    ensures own { IfOk result (λ act.
        record { shows = record { serves = meanings M.answer aliases.now; panel = panel_of slot tables.new }; store = scopes.new; act = act }
        ≡ calls (record { serves = meanings M.answer aliases.now; panel = panel_of slot tables.old }) scopes.old words.now) }
    ensures others { LeavesOthers slot tables.old tables.new }
{
    match served(aliases, words)? {
        Some(act) => Ok(act),
        None => {
            let told = tk_commands::call(tables, slot, scopes, words)?;
            Ok(told)
        }
    }
}

impl<M: AliasService> Jobs for AppTables<'_, M> {
    ghost use Rattle.std.specs.Prelude.{ℕ, List};
    ghost use Rattle.tk_panel.specs.Others.{LeftAlone, left_of};
    ghost use Rattle.tk_panel.specs.Shared.{panel_of};
    ghost use Rattle.tk_app.specs.Outside.{course as own_course};
    ghost use Rattle.tk_app.specs.Seen.{Seen, meanings};

    type Job = Job;

    ghost Shows = { Seen };

    ghost shows = { λ v. record { serves = meanings M.answer v.aliases.now; panel = panel_of v.slot v.tables.now } };

    ghost course = { own_course };

    ghost Left = { LeftAlone × List (List ℕ × M) };

    ghost left_alone = { λ v. (left_of v.slot v.tables.ghost_name v.tables.now, v.aliases.now) };

    fn look(&mut self, scopes: &Scopes, job: Job) -> Result<Looked<Job>, AllocError> {
        let looked = tk_commands::look(self.tables, self.slot, scopes, job)?;
        Ok(looked)
    }

    fn start(&mut self, _scopes: &Scopes, job: Job) -> Result<Started<Job>, AllocError> {
        let started = tk_commands::start(self.tables, self.slot, job)?;
        Ok(started)
    }

    fn ended(&mut self, job: Job, code: Code, text: Text) -> Result<Job, AllocError> {
        let next = tk_commands::ended(self.tables, self.slot, job, code, text)?;
        Ok(next)
    }
}

impl<M: AliasService> Tasks for AppTables<'_, M> {
    ghost use Rattle.std.specs.Prelude.{ℕ, List};
    ghost use Rattle.tcl_interp.specs.Falls.{jobs_fall};
    ghost use Rattle.tk_panel.specs.Others.{LeftAlone, left_of};
    ghost use Rattle.tk_panel.specs.Shared.{panel_of};
    ghost use Rattle.tk_app.specs.Outside.{calls, course, outside as own_commands};
    ghost use Rattle.tk_app.specs.Seen.{Seen, meanings};

    type Task = Task<Job>;

    ghost Shows = { Seen };

    ghost shows = { λ v. record { serves = meanings M.answer v.aliases.now; panel = panel_of v.slot v.tables.now } };

    ghost outside = { own_commands };

    ghost Left = { LeftAlone × List (List ℕ × M) };

    ghost left_alone = { λ v. (left_of v.slot v.tables.ghost_name v.tables.now, v.aliases.now) };

    fn parsed(&mut self, text: &Text) -> Result<Script, ParseFault> {
        let script = tk_commands::parsed(self.tables, text)?;
        Ok(script)
    }

    fn call(&mut self, scopes: &mut Scopes, words: &[Text]) -> Result<Act<Task<Job>>, AllocError> {
        let act = call(self.tables, self.slot, self.aliases, scopes, words)?;
        Ok(act)
    }

    fn resume(
        &mut self,
        scopes: &mut Scopes,
        task: Task<Job>,
        code: Code,
        text: Text,
    ) -> Result<Act<Task<Job>>, AllocError> {
        let alloc = self.tables.alloc;
        let act = tcl_interp::resume(alloc, self, scopes, task, code, text)?;
        Ok(act)
    }

    ghost falls = { jobs_fall course calls };
}
