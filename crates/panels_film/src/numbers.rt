//! Whole numbers as texts spell them.

ghost use Rattle.std.specs.Prelude.{◌≡◌};
ghost use Rattle.panels_film.specs.Numbers.{number_in};

/// The number that a text spells in digits, with a plus in front or none, where it has 64 bits at most.
pub fn number_in(text: &str) -> Option<u64>
    ensures { result ≡ number_in text.now }
{
    match text.parse::<u64>() {
        Ok(number) => Some(number),
        Err(_) => None,
    }
}
