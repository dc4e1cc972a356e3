ghost use Rattle.std.specs.Prelude.{◌≡◌, ◌≢◌, ◌<◌};

/// What a byte of a script can mean by itself, and with what stands behind it.
#[derive(Clone, Copy, PartialEq, Eq, Drop)]
pub enum Kind {
    /// Blank, tab, vertical tab, form feed or carriage return.
    Blank,
    Newline,
    Semicolon,
    Hash,
    Dollar,
    Quote,
    OpenBracket,
    /// A `]` in a script that ends at one.
    CloseBracket,
    OpenBrace,
    /// The `{` of a `{*}` before a character that doesn't end the word.
    Expansion,
    CloseBrace,
    /// A `)` in an index that ends at one.
    CloseParen,
    /// A backslash, but before a newline.
    Backslash,
    /// A backslash before a newline.
    Continuation,
    Other,
}

/// Where in a script a byte stands.
#[derive(Clone, Copy, PartialEq, Eq, Drop)]
pub enum BytePlace {
    /// A command may begin.
    Start,
    /// In a comment.
    Comment,
    /// In a command, past a word and a blank.
    Between,
    /// Past the `{*}` of a word.
    Expanded,
    /// In a text with substitution.
    Text(Mode),
    /// Past the quote that ends a word.
    PastQuotes,
    /// In a word in braces, of which so many beyond the first are open.
    InBraces(usize),
    /// Past the brace that ends a word.
    PastBraces,
}

/// Where a text with substitution stands.
#[derive(Clone, Copy, PartialEq, Eq, Drop)]
pub enum Mode {
    /// In a word without quotes and braces.
    Bare,
    /// In a word in quotes.
    Quotes,
    /// In the parentheses of `$name(index)`.
    Parens,
}

/// What a `$` is, by what stands behind it.
#[derive(Clone, Copy, Drop)]
pub enum Dollar {
    /// A text: no name follows.
    Alone,
    /// A variable, whose name has so many bytes.
    Named(usize),
    /// An element, whose array's name has so many bytes; its index follows in parentheses.
    Indexed(usize),
    /// A variable, whose name of so many bytes follows in braces.
    Braced(usize),
    /// An opening brace that has no closing one.
    Unclosed,
}

/// What is read by itself within a script, before the script goes on.
#[derive(Clone, Copy, Drop)]
pub enum Opener {
    /// A script in brackets.
    Bracket,
    /// The index of an element, behind a `$`, a name of so many bytes and a parenthesis.
    Index(usize),
}

/// How reading goes on past a byte.
#[derive(Clone, Copy, Drop)]
pub enum Step {
    /// At a place, past so many further bytes.
    On(usize, BytePlace),
    /// In what this opens; then, past that, in the text that holds it.
    Within(Opener, Mode),
    /// No further: what was read within ends here.
    Ends,
}
