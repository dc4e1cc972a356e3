ghost use Rattle.std.specs.Prelude.{◌<◌, length};

use tcl_expr::{Numbers, VariableName};
use tcl_vars::Scopes;

/// The variables of a level, which an expression sees.
#[derive(Drop)]
pub struct Seen<'a> {
    pub scopes: &'a Scopes,
    pub level: usize,
    ghost within: { level < length scopes.now },
}

impl Numbers for Seen<'_> {
    ghost use Rattle.tcl_vars.specs.Store.{number_in};

    ghost number = { λ s. number_in s.scopes.now s.level };

    fn number(&self, name: &VariableName) -> Option<i64> {
        self.scopes.number_at(self.level, name.text(), name.hint())
    }
}
