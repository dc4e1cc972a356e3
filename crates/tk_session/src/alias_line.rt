//! What the line of an alias says.
ghost use Rattle.std.specs.Prelude.{◌≡◌, ◌≤◌, length, option_map, IfSome};
ghost use Rattle.tk_session.specs.Reading.{alias_line_of, command_name_of, config_of, cut_service, service_kind, service_of};
ghost use Rattle.tcl_text.specs.Limits.{most_bytes};
ghost use Rattle.tk_alias.specs.Names.{most_command_name};

use crate::line::{as_text, cut, fields_behind, utf8};
use tcl_text::MAX_BYTES;
use tk_alias::{ServiceKind, is_command_name};

/// How many bytes a configuration has at most, as any text.
const MAX_CONFIG: usize = MAX_BYTES;

/// The values of the line of an alias.
#[derive(Drop)]
pub(crate) struct AliasFields<'a> {
    pub name: &'a str,
    pub kind: ServiceKind,
    pub config: &'a str,
}

fn command_name(field: &[u8]) -> Option<&str>
    ensures short { IfSome result (λ name. length name.now ≤ most_command_name) }
    ensures name { option_map (λ name. name.now) result ≡ command_name_of field.now }
{
    if !is_command_name(field) {
        return None;
    }
    Some(as_text(field))
}

fn kind(word: &[u8]) -> Option<ServiceKind>
    ensures { result ≡ service_kind word.now }
{
    if word == b"const".as_slice() {
        Some(ServiceKind::Const)
    } else if word == b"upper".as_slice() {
        Some(ServiceKind::Upper)
    } else if word == b"table".as_slice() {
        Some(ServiceKind::Table)
    } else if word == b"sum".as_slice() {
        Some(ServiceKind::Sum)
    } else if word == b"fail".as_slice() {
        Some(ServiceKind::Fail)
    } else {
        None
    }
}

fn config(text: &[u8]) -> Option<&str>
    ensures short { IfSome result (λ config. length config.now ≤ most_bytes) }
    ensures config { option_map (λ config. config.now) result ≡ config_of text.now }
{
    let config = utf8(text)?;
    if config.len() <= MAX_CONFIG {
        Some(config)
    } else {
        None
    }
}

/// Reads `KIND CONFIGURATION`, or `KIND` where the configuration is empty.
#[tactic(auto, unfolding(crate::specs::Reading::service_of))]
fn service(text: &[u8]) -> Option<(ServiceKind, &str)>
    ensures short { IfSome result (λ service. length service.1.now ≤ most_bytes) }
    ensures service { option_map (λ service. (service.0, service.1.now)) result ≡ service_of text.now }
{
    match cut(text, b' ') {
        None => Some((kind(text)?, "")),
        Some((word, rest)) => {
            let kind = kind(word)?;
            let config = config(rest)?;
            Some((kind, config))
        }
    }
}

/// Reads `alias NAME KIND CONFIGURATION`.
#[tactic(auto, unfolding(crate::specs::Reading::alias_line_of))]
pub(crate) fn alias_line(line: &[u8]) -> Option<AliasFields<'_>>
    ensures name_fits { IfSome result (λ alias. length alias.name.now ≤ most_command_name) }
    ensures config_fits { IfSome result (λ alias. length alias.config.now ≤ most_bytes) }
    ensures alias { option_map (λ alias. (alias.name.now, alias.kind, alias.config.now)) result ≡ alias_line_of line.now }
{
    let fields = fields_behind(b"alias", line)?;
    let (field, rest) = cut(fields, b' ')?;
    let name = command_name(field)?;
    let (kind, config) = service(rest)?;
    Some(AliasFields { name, kind, config })
}
