//! The questions of `services`: what aliases reply.
//!
//! A question `KIND LIST` sets an alias up, with the configuration that is the first item of the list. `call LIST` calls it with these arguments,
//! and is answered what it replies: `=` and a result, or `!` and the text of an error.
//!
//! Beside the program's services it calls aliases of its own, of the kind `count`: those answer how many arguments they are given.
ghost use Rattle.std.specs.Prelude.{ℕ, List};
ghost use Rattle.tk_alias.specs.Replies.{IsReply};
ghost use Rattle.tk_alias.specs.declared.reply.AliasReply.{AliasReply as Reply};

use crate::counting::{Counting, count};
use anyhow::{Result, bail};
use asking::{error_of, first_word, result_of};
use std::alloc::Global;
use tcl_text::{Text, TextList};
use tk_alias::{Alias, AliasCode, AliasMeaning, AliasReply, Service, ServiceKind};

/// What is called.
#[derive(Drop)]
enum Called {
    Service(Service),
    Counting(Counting),
}

fn items_of(alloc: Global, list: &str) -> Result<TextList> {
    match Text::new(alloc, list)?.split_list(alloc) {
        Ok(items) => Ok(items),
        Err(_) => bail!("no list"),
    }
}

fn kind_of(word: &str) -> Option<ServiceKind> {
    match word {
        "const" => Some(ServiceKind::Const),
        "upper" => Some(ServiceKind::Upper),
        "table" => Some(ServiceKind::Table),
        "sum" => Some(ServiceKind::Sum),
        "fail" => Some(ServiceKind::Fail),
        _ => None,
    }
}

/// What a question sets an alias up with.
fn made(alloc: Global, kind: &str, list: &str) -> Result<Called> {
    let items = items_of(alloc, list)?;
    let [config, ..] = items.as_slice() else {
        bail!("no configuration");
    };
    let config = config.copy()?;
    match kind_of(kind) {
        Some(kind) => Ok(Called::Service(Service { kind, config })),
        None if kind == "count" => Ok(Called::Counting(Counting { unit: config })),
        None => bail!("no such kind"),
    }
}

/// What an alias replies that is set up with this and served by this closure, as a table has it.
fn told<M: AliasMeaning, F: AliasCode>(
    alloc: Global,
    config: M,
    code: F,
    args: &[Text],
) -> Result<String>
    requires callable { F.may_call code }
    requires replies { (args : List (List ℕ)) (reply : Reply) → F.may_reply code args reply → IsReply (M.answer config args) reply }
{
    let alias = Alias::new(Text::new(alloc, "called")?, config, code);
    match alias.call(args) {
        AliasReply::Ok(text) => result_of(alloc, text.as_str()),
        AliasReply::Err(text) => error_of(alloc, text.as_str()),
        AliasReply::NoMemory => bail!("memory was refused"),
    }
}

fn call_service(alloc: Global, service: &Service, args: &[Text]) -> Result<String> {
    let (kind, config, kept) = (service.kind, service.config.copy()?, service.config.copy()?);
    told(
        alloc,
        Service { kind, config },
        move |args: &[Text]| kind.reply(alloc, &kept, args),
        args,
    )
}

fn call_counting(alloc: Global, counting: &Counting, args: &[Text]) -> Result<String> {
    let (unit, kept) = (counting.unit.copy()?, counting.unit.copy()?);
    told(
        alloc,
        Counting { unit },
        move |args: &[Text]| count(alloc, &kept, args),
        args,
    )
}

fn call(alloc: Global, called: &Option<Called>, list: &str) -> Result<String> {
    let args = items_of(alloc, list)?;
    match called {
        Some(Called::Service(service)) => call_service(alloc, service, args.as_slice()),
        Some(Called::Counting(counting)) => call_counting(alloc, counting, args.as_slice()),
        None => bail!("a call of nothing"),
    }
}

/// The alias that was set up last.
pub struct Caller {
    called: Option<Called>,
}

impl Caller {
    pub fn new() -> Caller {
        Caller { called: None }
    }

    /// What a question is answered.
    pub fn answer(&mut self, alloc: Global, question: &str) -> Result<String> {
        match first_word(question) {
            ("call", list) => call(alloc, &self.called, list),
            (kind, list) => {
                self.called = Some(made(alloc, kind, list)?);
                result_of(alloc, "")
            }
        }
    }
}

/// By hand: a proof sees one call where it is dropped, and not its parts.
impl Drop for Caller {
    fn drop(self) {
        let Caller { called: _ } = self;
    }
}
