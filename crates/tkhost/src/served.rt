//! The commands that the program serves for the applications of a session, by a type that has their code.
ghost use Rattle.std.specs.Prelude.{◌≡◌, IfOk, map};
ghost use Rattle.tkhost.specs.Play.{Serve, service_of, services_in};

use std::alloc::{AllocError, Global};
use std::marker::Model;
use tcl_text::Text;
use tk_host::{Alias, AliasMeaning, AliasReply, AliasService, Aliases};
use tk_session::{AliasLine, Service, Session};

/// A service of the program, which answers an alias. Contracts see the service.
#[derive(Drop)]
pub struct Served {
    alloc: Global,
    service: Service,
}

impl Model for Served {
    ghost use Rattle.tk_alias.specs.declared.service.Service.{Service as ServiceOf};

    ghost Value = { ServiceOf };

    ghost view = { λ s. s.service };
}

impl AliasMeaning for Served {
    ghost use Rattle.tk_alias.specs.Services.{answer_of};

    ghost answer = { λ service args. answer_of service.kind service.config args };
}

impl AliasService for Served {
    fn reply(&self, args: &[Text]) -> AliasReply {
        let Service { kind, config } = &self.service;
        kind.reply(self.alloc, config, args)
    }
}

impl Served {
    /// The service of this kind and configuration.
    pub fn new(alloc: Global, service: Service) -> Served
        ensures { result ≡ service }
    {
        Served { alloc, service }
    }
}

/// The alias of a line.
fn alias_of(alloc: Global, line: &AliasLine) -> Result<Alias<Served>, AllocError>
    ensures { IfOk result (λ alias. alias ≡ service_of line.now) }
{
    let service = Service {
        kind: line.service.kind,
        config: line.service.config.copy()?,
    };
    Ok(Alias::of(line.name.copy()?, Served::new(alloc, service)))
}

/// The aliases of an application.
fn served_for(alloc: Global, lines: &[AliasLine]) -> Result<Aliases<Served>, AllocError>
    ensures { IfOk result (λ aliases. aliases ≡ map service_of lines.now) }
{
    let mut aliases = Aliases::new(alloc);
    for line in lines {
        aliases.push(alias_of(alloc, line)?)?;
    }
    Ok(aliases)
}

/// The aliases of the applications of a session, by their slots, each as its line says.
pub fn own_services(alloc: Global, session: &Session) -> Result<Vec<Aliases<Served>>, AllocError>
    ensures services { IfOk result (λ lists. lists.items ≡ map services_in session.now.apps) }
    ensures serve { IfOk result (λ lists. Serve session.now.apps lists.items) }
{
    let mut lists = Vec::new(alloc);
    for app in session.apps() {
        lists.push(served_for(alloc, app.aliases.as_slice())?)?;
    }
    Ok(lists)
}
