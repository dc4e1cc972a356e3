ghost use Rattle.std.specs.Prelude.{◌≡◌, ◌++◌, drop, IfOk};
ghost use Rattle.tcl_commands.specs.Ahead.{Follows, FollowsArm};
ghost use Rattle.tcl_commands.specs.Branches.{arms_of};
ghost use Rattle.tcl_commands.specs.IfWords.{choices_of, choices_from};

use crate::listing::Listing;
use std::alloc::{AllocError, Global};
use tcl_text::Text;

/// A body of `if` or `switch`, behind its condition or pattern; neither is read yet.
#[derive(Drop)]
pub struct Branch {
    /// The condition of `if`, an expression (expr(n)), or the pattern of `switch`.
    pub test: Text,
    /// The script that runs; `-` in `switch` stands for the body of the next arm.
    pub body: Text,
}

/// Branches in order.
pub type Branches = Listing<Branch>;

/// What `if` chooses from: its branches, and a last body.
pub struct Choices {
    pub branches: Branches,
    /// The body that runs where no condition holds, if there is one.
    pub otherwise: Option<Text>,
}

/// Where the words of `if` have come to.
#[derive(Drop)]
pub enum Clause {
    /// A condition is next.
    AtTest,
    /// Behind a condition: `then` or a body is next.
    AtThen(Text),
    /// Behind `then`: a body is next.
    AtBody(Text),
    /// Behind a body.
    Behind,
    /// Behind `else`.
    AtLast,
    /// Behind the last body.
    AtEnd(Text),
}

/// One more word of `if`; none where it doesn't fit. A body goes with its condition to the branches.
fn next_clause(
    branches: &mut Branches,
    clause: Clause,
    word: &Text,
) -> Result<Option<Clause>, AllocError>
    ensures { IfOk result (λ next. Follows clause word.now branches.old next branches.new) }
{
    match clause {
        Clause::AtTest => Ok(Some(Clause::AtThen(word.copy()?))),
        Clause::AtThen(test) => {
            if word.as_str() == "then" {
                return Ok(Some(Clause::AtBody(test)));
            }
            let body = word.copy()?;
            branches.push(Branch { test, body })?;
            Ok(Some(Clause::Behind))
        }
        Clause::AtBody(test) => {
            let body = word.copy()?;
            branches.push(Branch { test, body })?;
            Ok(Some(Clause::Behind))
        }
        Clause::Behind => {
            if word.as_str() == "elseif" {
                Ok(Some(Clause::AtTest))
            } else if word.as_str() == "else" {
                Ok(Some(Clause::AtLast))
            } else {
                Ok(Some(Clause::AtEnd(word.copy()?)))
            }
        }
        Clause::AtLast => Ok(Some(Clause::AtEnd(word.copy()?))),
        Clause::AtEnd(_) => Ok(None),
    }
}

/// What `if` chooses from, by the words behind its name (if(n)); none where a condition or a body is missing in its place, also behind
/// `else`, or words are left behind the last body. Conditions and bodies aren't read.
#[tactic(auto, unfolding(crate::specs::IfWords::choices_of))]
pub fn if_choices(alloc: Global, words: &[Text]) -> Result<Option<Choices>, AllocError>
    ensures { IfOk result (λ choices. choices ≡ choices_of words.now) }
{
    let mut branches = Listing::new(alloc);
    let mut clause = Clause::AtTest;
    for word in words {
        match next_clause(&mut branches, clause, word)? {
            Some(next) => clause = next,
            None => return Ok(None),
        }
    }
    match clause {
        Clause::Behind => Ok(Some(Choices {
            branches,
            otherwise: None,
        })),
        Clause::AtEnd(body) => Ok(Some(Choices {
            branches,
            otherwise: Some(body),
        })),
        _ => Ok(None),
    }
}

/// One more item of the pairs of `switch`: a pattern is held until its body goes with it to the arms.
fn next_arm(
    arms: &mut Branches,
    held: Option<Text>,
    item: &Text,
) -> Result<Option<Text>, AllocError>
    ensures { IfOk result (λ next. FollowsArm held item.now arms.old next arms.new) }
{
    match held {
        None => Ok(Some(item.copy()?)),
        Some(test) => {
            let body = item.copy()?;
            arms.push(Branch { test, body })?;
            Ok(None)
        }
    }
}

/// The arms of `switch` by the items of its list, patterns and bodies in turn (switch(n)); none where the last pattern has no body. A body
/// `-` is kept as it is.
#[tactic(auto, unfolding(crate::specs::Branches::arms_of))]
pub fn switch_arms(alloc: Global, items: &[Text]) -> Result<Option<Branches>, AllocError>
    ensures { IfOk result (λ arms. arms ≡ arms_of items.now) }
{
    let mut arms = Listing::new(alloc);
    let mut held = None;
    for item in items {
        held = next_arm(&mut arms, held, item)?;
    }
    match held {
        None => Ok(Some(arms)),
        Some(_) => Ok(None),
    }
}

/// By hand: a proof sees one call where it is dropped, and not its parts.
impl Drop for Choices {
    fn drop(self) {
        let Choices {
            branches: _,
            otherwise: _,
        } = self;
    }
}
