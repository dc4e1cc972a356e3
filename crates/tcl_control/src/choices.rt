ghost use Rattle.std.specs.Prelude.{◌≡◌, ◌<◌, ◌≤◌, ◌+◌, ◌==◌, ◌||◌, ◌&&◌, ◌∷◌, [], ℕ, List, length, drop, take, codes, bytes_eq, IfOk, MatchOption};
ghost use Rattle.tcl_text.specs.Readings.{list_of};
ghost use Rattle.tcl_commands.specs.Branches.{arms_of};
ghost use Rattle.tcl_commands.specs.IfWords.{choices_of};
ghost use Rattle.tcl_control.specs.Arms.{paired};
ghost use Rattle.tcl_control.specs.Choices.{if_plan, ends_open, is_dash, matches, takes, body_of, arm_for, by_arms, by_pairs, switched, switched_past, switch_plan, no_body};
ghost use Rattle.tcl_control.specs.Commands.{bad_option_plan};

use crate::code::Code;
use crate::plan::{Plan, fails};
use crate::usages::{Usage, misused};
use std::alloc::{AllocError, Global};
use tcl_commands::{Branch, if_choices, switch_arms};
use tcl_table::Source;
use tcl_text::message::bad_option_text;
use tcl_text::{ListString, SplitFault, Text};

/// `if` (if(n)).
pub fn if_plan(alloc: Global, words: &[Text]) -> Result<Plan, AllocError>
    ensures { IfOk result (λ plan. plan ≡ if_plan words.now) }
{
    match if_choices(alloc, words)? {
        Some(choices) => Ok(Plan::Chooses(choices)),
        None => misused(alloc, Usage::If),
    }
}

/// How `switch` compares.
#[derive(Clone, Copy)]
pub enum Matching {
    Exact,
    Glob,
}

fn matches(matching: Matching, pattern: &Text, value: &Text) -> bool
    ensures { result ≡ matches matching pattern.now value.now }
{
    match matching {
        Matching::Exact => pattern.as_str() == value.as_str(),
        Matching::Glob => Text::glob_match(pattern, value),
    }
}

fn is_dash(body: &Text) -> bool
    ensures { result ≡ is_dash body.now }
{
    body.as_str() == "-"
}

/// Whether an arm takes a value, with these behind it.
fn takes(matching: Matching, value: &Text, arm: &Branch, behind: &[Branch]) -> bool
    ensures { result ≡ takes matching value.now arm.now behind.now }
{
    matches(matching, &arm.test, value) || (behind.is_empty() && arm.test.as_str() == "default")
}

fn ends_open(arms: &[Branch]) -> bool
    ensures { result ≡ ends_open arms.now }
{
    match arms.last() {
        Some(arm) => is_dash(&arm.body),
        None => false,
    }
}

/// The first body that stands for itself.
fn body_of(alloc: Global, arms: &[Branch]) -> Result<Plan, AllocError>
    ensures { IfOk result (λ plan. plan ≡ body_of arms.now) }
{
    for arm in arms {
        if !is_dash(&arm.body) {
            return Ok(Plan::Runs(Source::of_text(arm.body.copy()?)));
        }
    }
    Ok(Plan::Ends(Code::Normal, Text::empty()))
}

/// The body of the first arm that takes a value.
fn arm_for(
    alloc: Global,
    matching: Matching,
    value: &Text,
    arms: &[Branch],
) -> Result<Plan, AllocError>
    ensures { IfOk result (λ plan. plan ≡ arm_for matching value.now arms.now) }
{
    let mut rest = arms;
    'arms: while let [arm, behind @ ..] = rest {
        if takes(matching, value, arm, behind) {
            return body_of(alloc, rest);
        }
        rest = behind;
    }
    Ok(Plan::Ends(Code::Normal, Text::empty()))
}

fn no_body(alloc: Global) -> Result<Plan, AllocError>
    ensures { IfOk result (λ plan. plan ≡ no_body) }
{
    Ok(fails(Text::of_short(alloc, "extra switch pattern with no body")?))
}

fn by_arms(
    alloc: Global,
    matching: Matching,
    value: &Text,
    items: &[Text],
) -> Result<Plan, AllocError>
    ensures { IfOk result (λ plan. plan ≡ by_arms matching value.now (arms_of items.now)) }
{
    match switch_arms(alloc, items)? {
        Some(arms) => {
            if ends_open(arms.as_slice()) {
                return no_body(alloc);
            }
            arm_for(alloc, matching, value, arms.as_slice())
        }
        None => no_body(alloc),
    }
}

/// Half of an even number; none of an odd one.
fn half(count: usize) -> Option<usize>
    ensures { MatchOption result ((k : ℕ) × (count ≡ k + k + 1)) (λ k. count ≡ k + k) }
{
    let half = count / 2;
    if count - half == half {
        Some(half)
    } else {
        None
    }
}

/// The first body that stands for itself, of the arms of a kept list from one on.
fn body_in(alloc: Global, list: &ListString, count: usize, from: usize) -> Result<Plan, AllocError>
    requires whole { length list.now ≡ count + count }
    requires within { from ≤ count }
    ensures { IfOk result (λ plan. plan ≡ body_of (paired (drop (from + from) list.now))) }
{
    let _whole = list.len();
    let mut arm = from;
    'arms: while arm < count {
        let body = list.item(alloc, arm + arm + 1)?;
        if !is_dash(&body) {
            return Ok(Plan::Runs(Source::of_text(body)));
        }
        arm += 1;
    }
    Ok(Plan::Ends(Code::Normal, Text::empty()))
}

/// Whether the arm of this number in a kept list takes a value.
fn takes_in(
    alloc: Global,
    matching: Matching,
    value: &Text,
    list: &ListString,
    count: usize,
    arm: usize,
) -> Result<bool, AllocError>
    requires whole { length list.now ≡ count + count }
    requires within { arm < count }
    ensures { IfOk result (λ taken. (test : List ℕ) × (drop (arm + arm) (take (arm + arm + 1) list.now) ≡ test ∷ [])
        × (taken ≡ (matches matching test value.now || ((arm + 1 == count) && bytes_eq test (codes "default"))))) }
{
    let _whole = list.len();
    let test = list.item(alloc, arm + arm)?;
    Ok(matches(matching, &test, value) || (arm + 1 == count && test.as_str() == "default"))
}

/// The body of the first arm in a kept list that takes a value.
fn arm_in(
    alloc: Global,
    matching: Matching,
    value: &Text,
    list: &ListString,
    count: usize,
) -> Result<Plan, AllocError>
    requires { length list.now ≡ count + count }
    ensures { IfOk result (λ plan. plan ≡ arm_for matching value.now (paired list.now)) }
{
    let mut arm = 0;
    'arms: while arm < count {
        if takes_in(alloc, matching, value, list, count, arm)? {
            return body_in(alloc, list, count, arm);
        }
        arm += 1;
    }
    Ok(Plan::Ends(Code::Normal, Text::empty()))
}

/// Whether the last body of a kept list stands for the one behind it.
fn ends_open_in(alloc: Global, list: &ListString, count: usize) -> Result<bool, AllocError>
    requires { length list.now ≡ count + count }
    ensures { IfOk result (λ ends. ends ≡ ends_open (paired list.now)) }
{
    let _whole = list.len();
    if count == 0 {
        return Ok(false);
    }
    let last = list.item(alloc, count + count - 1)?;
    Ok(is_dash(&last))
}

/// What `switch` does with a kept list of patterns and bodies, of which only those are taken out that it needs.
fn by_kept(
    alloc: Global,
    matching: Matching,
    value: &Text,
    list: &ListString,
) -> Result<Plan, AllocError>
    ensures { IfOk result (λ plan. plan ≡ by_arms matching value.now (arms_of list.now)) }
{
    let Some(count) = half(list.len()) else {
        return no_body(alloc);
    };
    if ends_open_in(alloc, list, count)? {
        return no_body(alloc);
    }
    arm_in(alloc, matching, value, list, count)
}

fn switched(
    alloc: Global,
    matching: Matching,
    value: &Text,
    pairs: &Text,
) -> Result<Plan, AllocError>
    ensures { IfOk result (λ plan. plan ≡ switched matching value.now pairs.now) }
{
    if let Some(list) = pairs.as_list(alloc) {
        return by_kept(alloc, matching, value, list);
    }
    match pairs.split_list(alloc) {
        Ok(items) => by_arms(alloc, matching, value, items.as_slice()),
        Err(SplitFault::BadList(fault)) => Ok(fails(fault.told(alloc)?)),
        Err(SplitFault::NoMemory) => Err(AllocError),
    }
}

/// A command ends with the error that a word is no option. It has no number.
pub fn bad_option_plan(alloc: Global, word: &Text) -> Result<Plan, AllocError>
    ensures { IfOk result (λ plan. plan ≡ bad_option_plan word.now) }
{
    Ok(fails(bad_option_text(alloc, word.as_str())?))
}

/// `switch` behind one option.
fn switched_by(alloc: Global, option: &Text, value: &Text, pairs: &Text) -> Result<Plan, AllocError>
    ensures { IfOk result (λ plan. plan ≡ switch_plan (option.now ∷ value.now ∷ pairs.now ∷ [])) }
{
    let name = option.as_str();
    if name == "-exact" {
        switched(alloc, Matching::Exact, value, pairs)
    } else if name == "-glob" {
        switched(alloc, Matching::Glob, value, pairs)
    } else if name == "--" {
        switched(alloc, Matching::Exact, value, pairs)
    } else {
        bad_option_plan(alloc, option)
    }
}

fn switched_past(
    alloc: Global,
    matching: Matching,
    option: &Text,
    value: &Text,
    pairs: &Text,
) -> Result<Plan, AllocError>
    ensures { IfOk result (λ plan. plan ≡ switched_past matching option.now value.now pairs.now) }
{
    if option.as_str() == "--" {
        switched(alloc, matching, value, pairs)
    } else {
        bad_option_plan(alloc, option)
    }
}

/// `switch` behind two options.
fn switched_by_two(
    alloc: Global,
    option: &Text,
    other: &Text,
    value: &Text,
    pairs: &Text,
) -> Result<Plan, AllocError>
    ensures { IfOk result (λ plan. plan ≡ switch_plan (option.now ∷ other.now ∷ value.now ∷ pairs.now ∷ [])) }
{
    let name = option.as_str();
    if name == "-exact" {
        switched_past(alloc, Matching::Exact, other, value, pairs)
    } else if name == "-glob" {
        switched_past(alloc, Matching::Glob, other, value, pairs)
    } else if name == "--" {
        misused(alloc, Usage::Switch)
    } else {
        bad_option_plan(alloc, option)
    }
}

/// `switch` (switch(n)).
pub fn switch_plan(alloc: Global, words: &[Text]) -> Result<Plan, AllocError>
    ensures { IfOk result (λ plan. plan ≡ switch_plan words.now) }
{
    match words {
        [value, pairs] => switched(alloc, Matching::Exact, value, pairs),
        [option, value, pairs] => switched_by(alloc, option, value, pairs),
        [option, other, value, pairs] => switched_by_two(alloc, option, other, value, pairs),
        _ => misused(alloc, Usage::Switch),
    }
}
