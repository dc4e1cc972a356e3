ghost use Rattle.std.specs.Prelude.{◌≡◌, ◌++◌, IfOk};
ghost use Rattle.std.specs.List.{list_any};
ghost use Rattle.tcl_text.specs.Readings.{list_of};
ghost use Rattle.tcl_commands.specs.Ahead.{FollowsGroup};
ghost use Rattle.tcl_commands.specs.Groups.{group_named, group_of, groups_from, groups_of, has_body, has_more};

use crate::listing::Listing;
use crate::names::Names;
use std::alloc::{AllocError, Global};
use tcl_text::{ListItems, SplitFault, Text};

/// A list of names of `foreach`, and the items of its list that are left (foreach(n)).
#[derive(Drop)]
pub struct Group {
    /// The variables that take the items, one each in an iteration.
    pub names: Names,
    /// The items of the iterations to come.
    pub items: ListItems,
}

/// The groups of a `foreach`, in the order of its words.
pub type Groups = Listing<Group>;

impl Listing<Group> {
    /// Whether a group has items left: `foreach` takes another iteration then (foreach(n)).
    pub fn has_more(&self) -> bool
        ensures { result ≡ list_any has_more self.now }
    {
        self.as_slice().iter().any(|group| group.items.has_more())
    }
}

/// A list of items behind its names, or the error's text.
fn group_named(alloc: Global, names: Names, items: &Text) -> Result<Result<Group, Text>, AllocError>
    ensures { IfOk result (λ group. group ≡ group_named names (list_of items.now)) }
{
    match items.list_items(alloc) {
        Ok(items) => Ok(Ok(Group { names, items })),
        Err(SplitFault::BadList(fault)) => Ok(Err(fault.told(alloc)?)),
        Err(SplitFault::NoMemory) => Err(AllocError),
    }
}

/// A list of names and a list of items, or the error's text.
fn group_of(alloc: Global, names: &Text, items: &Text) -> Result<Result<Group, Text>, AllocError>
    ensures { IfOk result (λ group. group ≡ group_of (list_of names.now) (list_of items.now)) }
{
    match Names::of(alloc, names) {
        Ok(names) => {
            if !names.has_some() {
                return Ok(Err(Text::of_short(alloc, "foreach varlist is empty")?));
            }
            group_named(alloc, names, items)
        }
        Err(SplitFault::BadList(fault)) => Ok(Err(fault.told(alloc)?)),
        Err(SplitFault::NoMemory) => Err(AllocError),
    }
}

/// One more word of `foreach`: names are held until their items go with them to the groups.
fn next_group(
    alloc: Global,
    groups: &mut Groups,
    held: Option<Text>,
    word: &Text,
) -> Result<Result<Option<Text>, Text>, AllocError>
    ensures { IfOk result (λ next. FollowsGroup held word.now groups.old next groups.new) }
{
    match held {
        None => Ok(Ok(Some(word.copy()?))),
        Some(names) => match group_of(alloc, &names, word)? {
            Ok(group) => {
                groups.push(group)?;
                Ok(Ok(None))
            }
            Err(text) => Ok(Err(text)),
        },
    }
}

/// The names and items of `foreach`, up to a last word alone, by the words behind its name (foreach(n)). Or the text of the first error: a
/// word is no list (3), or a list of names is empty.
#[tactic(auto, unfolding(crate::specs::Groups::groups_of))]
pub fn foreach_groups(alloc: Global, words: &[Text]) -> Result<Result<Groups, Text>, AllocError>
    ensures { IfOk result (λ groups. groups ≡ groups_of words.now) }
{
    let mut groups = Listing::new(alloc);
    let mut held = None;
    for word in words {
        match next_group(alloc, &mut groups, held, word)? {
            Ok(next) => held = next,
            Err(text) => return Ok(Err(text)),
        }
    }
    Ok(Ok(groups))
}

/// Whether a body stands behind the names and items of `foreach`: the words behind its name are odd in number (foreach(n)).
pub fn has_body(words: &[Text]) -> bool
    ensures { result ≡ has_body words.now }
{
    words.len() % 2 == 1
}
