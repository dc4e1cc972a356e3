ghost use Rattle.std.specs.Prelude.{◌≡◌};
ghost use Rattle.tk_patterns.specs.Specific.{first_of, is_more, is_alike, by_having, if_same};

/// How specific a sequence is beside another.
#[derive(Clone, Copy, Debug, PartialEq, Eq)]
pub(crate) enum Verdict {
    More,
    Less,
    Alike,
}

impl Verdict {
    /// This, or the later one where this tells nothing.
    pub(crate) fn or(self, later: Verdict) -> Verdict
        ensures { result ≡ first_of self later }
    {
        match self {
            Verdict::More => Verdict::More,
            Verdict::Less => Verdict::Less,
            Verdict::Alike => later,
        }
    }

    pub(crate) fn is_more(self) -> bool
        ensures { result ≡ is_more self }
    {
        match self {
            Verdict::More => true,
            Verdict::Less | Verdict::Alike => false,
        }
    }

    pub(crate) fn is_alike(self) -> bool
        ensures { result ≡ is_alike self }
    {
        match self {
            Verdict::Alike => true,
            Verdict::More | Verdict::Less => false,
        }
    }
}

/// The one that has something is more specific than the other, which lacks it.
pub(crate) fn by_having(has: bool, other_has: bool) -> Verdict
    ensures { result ≡ by_having has other_has }
{
    match (has, other_has) {
        (true, false) => Verdict::More,
        (false, true) => Verdict::Less,
        (true, true) | (false, false) => Verdict::Alike,
    }
}

/// The verdict, if it is about the same sequence.
pub(crate) fn if_same(same: bool, verdict: Verdict) -> Verdict
    ensures { result ≡ if_same same verdict }
{
    if same { verdict } else { Verdict::Alike }
}
