ghost use Rattle.std.specs.Prelude.{◌≡◌, ◌≤◌, take, length, IsUtf8};
ghost use Rattle.std.specs.Fmt.{signed_decimal};
ghost use Rattle.tcl_text.specs.Limits.{most_digits};

/// How many digits of a number are kept in place beside it, a sign among them.
pub const NUMBER_DIGITS: usize = 15;

/// An integer with its digits, which are kept in place.
#[derive(Clone, Copy)]
pub struct NumberText {
    number: i64,
    digits: [u8; NUMBER_DIGITS],
    length: u8,
    ghost fits: { length ≤ most_digits },
    ghost utf8: { ∥ IsUtf8 (take length digits) ∥₁ },
    ghost spells: { take length digits ≡ signed_decimal number },
}

impl NumberText {
    ghost use Rattle.std.specs.Prelude.{◌≡◌, ◌≤◌, length};
    ghost use Rattle.std.specs.Fmt.{signed_decimal};
    ghost use Rattle.tcl_text.specs.Limits.{most_digits};

    /// This integer, whose digits these are.
    pub fn new(number: i64, digits: &str) -> NumberText
        requires few { length digits.now ≤ most_digits }
        requires spells { digits.now ≡ signed_decimal number }
        ensures { result.number ≡ number }
    {
        let mut kept = [0; NUMBER_DIGITS];
        kept[..digits.len()].copy_from_slice(digits.as_bytes());
        NumberText {
            number,
            digits: kept,
            length: digits.len() as u8,
        }
    }

    /// The integer.
    pub fn number(&self) -> i64
        ensures { result ≡ self.now.number }
    {
        self.number
    }

    /// Its digits.
    pub fn as_str(&self) -> &str
        ensures { result.now ≡ signed_decimal self.now.number }
    {
        let digits = &self.digits[..usize::from(self.length)];
        // SAFETY: the digits are UTF-8, as the type's field `utf8` says.
        unsafe { str::from_utf8_unchecked(digits) }
    }
}
