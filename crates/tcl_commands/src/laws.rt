//! Laws of the shapes, as contracts of functions that do nothing.

ghost use Rattle.std.specs.Prelude.{◌≡◌, ℕ, ◌*◌, true, List, [], ◌∷◌, ◌++◌, length, drop, nat_lt, Some, Ok, Err};
ghost use Rattle.tcl_commands.specs.Branches.{arms_of};
ghost use Rattle.tcl_commands.specs.IfWords.{choices_of};
ghost use Rattle.tcl_commands.specs.Groups.{groups_of, has_body, has_more};
ghost use Rattle.tcl_commands.specs.Shapes.{IsIf, arm_words, AreGroups, AreFaulty, after_iterations};
ghost use Rattle.tcl_commands.specs.declared.branches.Branch.{Branch};
ghost use Rattle.tcl_commands.specs.declared.branches.Choices.{Choices};
ghost use Rattle.tcl_commands.specs.declared.groups.Group.{Group};

use tcl_text::laws::{list_faults_are_told, lists_are_read};

/// `choices_of` gives what `if` chooses from exactly where `IsIf` relates it to the words.
pub fn if_words_are_cut()
    ensures choices { (words : List (List ℕ)) (choices : Choices) → IsIf words choices → choices_of words ≡ Some choices }
    ensures only { (words : List (List ℕ)) (choices : Choices) → choices_of words ≡ Some choices → IsIf words choices }
{}

/// `arms_of` gives arms exactly where the items are their pairs.
pub fn switch_items_are_pairs()
    ensures arms { (items : List (List ℕ)) (arms : List Branch) → items ≡ arm_words arms → arms_of items ≡ Some arms }
    ensures only { (items : List (List ℕ)) (arms : List Branch) → arms_of items ≡ Some arms → items ≡ arm_words arms }
{}

/// `groups_of` gives groups, or the text of an error, exactly where the words before the body of `foreach` are those groups, or are at fault with that text.
pub fn foreach_words_are_cut()
    ensures groups { (words : List (List ℕ)) (body : List ℕ) (groups : List Group) → AreGroups words groups → groups_of (words ++ body ∷ []) ≡ Ok groups }
    ensures fault { (words : List (List ℕ)) (body text : List ℕ) → AreFaulty words text → groups_of (words ++ body ∷ []) ≡ Err text }
    ensures only_groups { (words : List (List ℕ)) (body : List ℕ) (groups : List Group) → has_body (words ++ body ∷ []) ≡ true
        → groups_of (words ++ body ∷ []) ≡ Ok groups → AreGroups words groups }
    ensures only_fault { (words : List (List ℕ)) (body text : List ℕ) → has_body (words ++ body ∷ []) ≡ true
        → groups_of (words ++ body ∷ []) ≡ Err text → AreFaulty words text }
{
    lists_are_read();
    list_faults_are_told();
}

/// After T iterations a group of N names has the items left that stand behind N times T, and asks for another iteration where there are any.
pub fn iterations_take_items()
    ensures more { (iterations : ℕ) (group : Group)
        → has_more (after_iterations iterations group) ≡ nat_lt (length group.names * iterations) (length group.items) }
    ensures items { (iterations : ℕ) (group : Group)
        → (after_iterations iterations group).items ≡ drop (length group.names * iterations) group.items }
{}
