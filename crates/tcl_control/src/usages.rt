//! How each command is used.
ghost use Rattle.std.specs.Prelude.{◌≡◌, IfOk};
ghost use Rattle.tcl_control.specs.Commands.{misused as misused_plan};
ghost use Rattle.tcl_control.specs.Usages as spec;

use crate::plan::{Plan, fails};
use std::alloc::{AllocError, Global};
use tcl_commands::UPVAR_USAGE;
use tcl_text::Text;
use tcl_text::message::wrong_args_text;

/// A command, or a form of one, with a usage of its own.
#[derive(Clone, Copy)]
pub enum Usage {
    Break,
    Continue,
    Error,
    Catch,
    Return,
    Eval,
    Expr,
    While,
    For,
    Foreach,
    If,
    Switch,
    Proc,
    Rename,
    Uplevel,
    Upvar,
    Info,
    InfoLevel,
}

impl Usage {
    /// How the command is used.
    fn text(self) -> &'static str
        ensures { result.now ≡ spec.usage_text self }
    {
        match self {
            Usage::Break => "break",
            Usage::Continue => "continue",
            Usage::Error => "error message",
            Usage::Catch => "catch script ?name?",
            Usage::Return => "return ?-code code? ?value?",
            Usage::Eval => "eval arg ?arg ..?",
            Usage::Expr => "expr arg ?arg ..?",
            Usage::While => "while cond body",
            Usage::For => "for start cond next body",
            Usage::Foreach => "foreach names list ?names list ..? body",
            Usage::If => "if cond ?then? body ?elseif cond ?then? body ..? ?else? ?body?",
            Usage::Switch => "switch ?-exact|-glob? ?--? value pairs",
            Usage::Proc => "proc name params body",
            Usage::Rename => "rename old new",
            Usage::Uplevel => "uplevel ?level? arg ?arg ..?",
            Usage::Upvar => UPVAR_USAGE,
            Usage::Info => "info option ?arg ..?",
            Usage::InfoLevel => "info level",
        }
    }
}

/// The text of the error for a wrong number of words. It has no number.
pub fn misused_text(alloc: Global, usage: Usage) -> Result<Text, AllocError>
    ensures { IfOk result (λ text. text ≡ spec.misused_text usage) }
{
    wrong_args_text(alloc, usage.text())
}

/// A command ends with that error.
#[tactic(auto, unfolding(crate::specs::Commands::misused))]
pub fn misused(alloc: Global, usage: Usage) -> Result<Plan, AllocError>
    ensures { IfOk result (λ plan. plan ≡ misused_plan usage) }
{
    Ok(fails(misused_text(alloc, usage)?))
}
