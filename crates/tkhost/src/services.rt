//! The commands that the program serves for the applications of a session.
ghost use Rattle.std.specs.Prelude.{◌≡◌, IfOk, map};
ghost use Rattle.tkhost.specs.Play.{MakesServices, Serve, service_of, services_in};

use std::alloc::{AllocError, Global};
use tcl_text::Text;
use tk_host::{Alias, AliasCode, Aliases, Closure};
use tk_session::{AliasLine, Service, ServiceKind, Session};

/// The aliases of an application, each with the closure that is made for its line.
fn aliases_of<F: AliasCode, K: Fn(ServiceKind, Text) -> F>(
    alloc: Global,
    lines: &[AliasLine],
    make: &K,
) -> Result<Aliases<Closure<Service, F>>, AllocError>
    requires make { K.IsAlwaysCallable make.now }
    requires services { MakesServices (K.post make.now) F.may_call F.may_reply }
    ensures { IfOk result (λ aliases. aliases ≡ map service_of lines.now) }
{
    let mut aliases = Aliases::new(alloc);
    for line in lines {
        let kind = line.service.kind;
        let config = line.service.config.copy()?;
        let code = make(kind, line.service.config.copy()?);
        aliases.push(Alias::new(line.name.copy()?, Service { kind, config }, code))?;
    }
    Ok(aliases)
}

/// The aliases of the applications of a session, by their slots: each with the closure that is made of its kind and its configuration.
pub fn services_of<F: AliasCode, K: Fn(ServiceKind, Text) -> F>(
    alloc: Global,
    session: &Session,
    make: &K,
) -> Result<Vec<Aliases<Closure<Service, F>>>, AllocError>
    requires make { K.IsAlwaysCallable make.now }
    requires services { MakesServices (K.post make.now) F.may_call F.may_reply }
    ensures services { IfOk result (λ lists. lists.items ≡ map services_in session.now.apps) }
    ensures serve { IfOk result (λ lists. Serve session.now.apps lists.items) }
{
    let mut lists = Vec::new(alloc);
    for app in session.apps() {
        lists.push(aliases_of(alloc, app.aliases.as_slice(), make)?)?;
    }
    Ok(lists)
}
