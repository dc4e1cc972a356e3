ghost use Rattle.std.specs.Prelude.{◌≡◌, ◌↔◌, IsTrue};
ghost use Rattle.std.specs.List.{list_all};
ghost use Rattle.tk_alias.specs.Names.{is_command_name};
ghost use Rattle.tk_route.specs.Names.{IsAppInRange};
ghost use Rattle.tk_host.specs.Spec.{are_aliases};

use tcl_text::Text;
use tk_alias::{MAX_ALIASES, is_command_name};
use tk_app::{Alias, AliasService, Aliases, Budget};
use tk_base::Rect;
use tk_route::is_app_in_range;

/// Whether each of the aliases has a name that a command may have.
fn are_command_names<M: AliasService>(aliases: &[Alias<M>]) -> bool
    ensures { result ≡ list_all (λ alias. is_command_name alias.0) aliases.now }
{
    aliases
        .iter()
        .all(|alias| is_command_name(alias.name().as_str().as_bytes()))
}

/// Whether an application may have these aliases: at most 64, by names that commands may have.
fn are_aliases<M: AliasService>(aliases: &Aliases<M>) -> bool
    ensures { result ≡ are_aliases aliases.now }
{
    let aliases = aliases.as_slice();
    aliases.len() <= MAX_ALIASES && are_command_names(aliases)
}

/// Whether what is given of an application is in the ranges that a session allows.
pub fn may_be_given<M: AliasService>(
    name: &Text,
    rect: Rect,
    budget: Budget,
    aliases: &Aliases<M>,
) -> bool
    ensures { IsTrue result ↔ IsAppInRange name.now rect budget × IsTrue (are_aliases aliases.now) }
{
    is_app_in_range(name.as_str().as_bytes(), rect, budget) && are_aliases(aliases)
}
