//! Path names.
ghost use Rattle.std.specs.Prelude.{◌≡◌, option_map};
ghost use Rattle.tk_tree.specs.Path.{split_last, parent_and_name, begins_upper};

/// The path of the parent, and the name below it; none for `.` and for what is no path.
pub fn parent_and_name(path: &str) -> Option<(&str, &str)>
    ensures { option_map (λ parts. (parts.0.now, parts.1.now)) result ≡ parent_and_name path.now }
{
    let (before, name) = split_last(path)?;
    if name.is_empty() || before == "." {
        return None;
    }
    if before.is_empty() {
        return Some((".", name));
    }
    Some((before, name))
}

/// What stands before the last dot, and behind it.
fn split_last(path: &str) -> Option<(&str, &str)>
    ensures { option_map (λ parts. (parts.0.now, parts.1.now)) result ≡ split_last path.now }
{
    path.rsplit_once('.')
}

/// Whether a name begins with A to Z.
pub fn begins_upper(name: &str) -> bool
    ensures { result ≡ begins_upper name.now }
{
    match name.as_bytes() {
        [first, ..] => 65 <= *first && *first <= 90,
        [] => false,
    }
}
