//! Panels once more, to be changed and played.

ghost use Rattle.std.specs.Prelude.{◌≡◌, IfOk};

use std::alloc::{AllocError, Global};
use tk_session::{AliasLine, AppBlock, Listing, Service};

/// The command of an alias once more.
fn alias(alias: &AliasLine) -> Result<AliasLine, AllocError>
    ensures { IfOk result (λ copy. copy ≡ alias.now) }
{
    Ok(AliasLine {
        name: alias.name.copy()?,
        service: Service {
            kind: alias.service.kind,
            config: alias.service.config.copy()?,
        },
    })
}

fn aliases(alloc: Global, aliases: &[AliasLine]) -> Result<Listing<AliasLine>, AllocError>
    ensures { IfOk result (λ copies. copies ≡ aliases.now) }
{
    let mut copies = Listing::new(alloc);
    for own in aliases {
        copies.push(alias(own)?)?;
    }
    Ok(copies)
}

/// A panel once more.
fn panel(alloc: Global, panel: &AppBlock) -> Result<AppBlock, AllocError>
    ensures { IfOk result (λ copy. copy ≡ panel.now) }
{
    Ok(AppBlock {
        name: panel.name.copy()?,
        rect: panel.rect,
        budget: panel.budget,
        aliases: aliases(alloc, panel.aliases.as_slice())?,
        script: panel.script.copy()?,
    })
}

/// The same panels once more. An error where memory is refused.
pub fn copies(alloc: Global, panels: &[AppBlock]) -> Result<Vec<AppBlock>, AllocError>
    ensures { IfOk result (λ copies. copies.items ≡ panels.now) }
{
    let mut copies = Vec::new(alloc);
    for own in panels {
        copies.push(panel(alloc, own)?)?;
    }
    Ok(copies)
}
