//! Sections, and their first lines.

ghost use Rattle.std.specs.Prelude.{◌≡◌};
ghost use Rattle.panels_film.specs.Heads.{is_spent, line_of};
ghost use Rattle.panels_film.specs.Scenes.{section_in};

/// The first line of a section.
fn first_line(section: &str) -> &str
    ensures { result.now ≡ line_of section.now }
{
    match section.split_once('\n') {
        Some((line, _)) => line,
        None => section,
    }
}

/// The first line of a section without the word in front: the panel's name, its state and the steps that are left.
pub(crate) fn head(section: &str) -> &str {
    let line = first_line(section);
    line.strip_prefix("app ").unwrap_or(line)
}

/// Whether a panel has spent its steps by its section.
pub fn is_spent(section: &str) -> bool
    ensures { result ≡ is_spent section.now }
{
    first_line(section).as_bytes().ends_with(b" exhausted 0")
}

/// The section of the panel in a slot; an empty text where there is none.
pub fn section_in(sections: &[Vec<u8>], slot: usize) -> &[u8]
    ensures { result.now ≡ section_in sections.now slot }
{
    match sections.get(slot) {
        Some(section) => section.as_slice(),
        None => b"",
    }
}
