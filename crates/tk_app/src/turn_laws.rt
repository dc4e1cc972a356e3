ghost use Rattle.std.specs.Prelude.{◌≡◌, ◌↔◌, flat_map, ◌≤◌, ◌<◌, ◌-◌, ◌*◌, ◌++◌, ℕ, List, map, length, sum, sum_by, Option, slice_index, EachIndex};
ghost use Rattle.tk_app.specs.declared.turns.Turn.{Turn};
ghost use Rattle.tk_app.specs.Passing.{brought};
ghost use Rattle.tk_app.specs.Rounds.{round, turns_of};
ghost use Rattle.tk_app.specs.Shares.{WaitsAtMost, steps_in, taken_by};
ghost use Rattle.tk_app.specs.Stages.{turns_at};
ghost use Rattle.tk_app.specs.Together.{IsAmong, IsOwnOfOne, Lightens, Quiets, Rises, passed_together, stage_moments, taken_at, turns_to};

/// The turns of a stage are a first round and then those of a stage in which each needs a slice less.
pub fn first_round_and_the_rest()
    ensures { (slice : ℕ) (needs : List ℕ) → 1 ≤ slice
        → turns_of slice needs ≡ round slice needs 0 ++ turns_of slice (map (λ need. need - slice) needs) }
{}

/// The turns of a part in a stage add up to the steps that it needs, and all turns to what is needed in all.
pub fn turns_add_up()
    ensures each { (slice slot : ℕ) (needs : List ℕ) → 1 ≤ slice → taken_by slot (turns_of slice needs) ≡ slice_index needs slot }
    ensures all { (slice : ℕ) (needs : List ℕ) → 1 ≤ slice → steps_in (turns_of slice needs) ≡ sum needs }
{}

/// Between two successive turns of a part in a stage the others take at most a slice each.
pub fn waits_a_round()
    ensures { (slice slot : ℕ) (needs : List ℕ) → 1 ≤ slice → WaitsAtMost ((length needs - 1) * slice) slot (turns_of slice needs) }
{}

/// In a stage at most the steps are taken that the parts had left at its start.
pub fn stage_is_bounded<P>()
    ensures { (next_due : P → Option ℕ) (settled : ℕ → P → P) (steps_left : P → ℕ) (slice moment : ℕ) (parts : List P) → 1 ≤ slice
        → steps_in (turns_at next_due settled steps_left slice moment parts) ≤ sum_by steps_left parts }
{}

/// A part that goes on to a moment and then to a later one comes where it comes by going on to the later one.
pub fn moment_in_two_calls<P>()
    ensures { (next_due : P → Option ℕ) (settled : ℕ → P → P) (weight : P → ℕ) → Lightens next_due settled weight
        → (first last : ℕ) (part : P) → first ≤ last
        → brought next_due settled weight last (brought next_due settled weight first part) ≡ brought next_due settled weight last part }
{}

/// Parts that pass from stage to stage together come each where it comes alone, whatever is due of the others and when.
pub fn alone_and_together<P>()
    ensures { (next_due : P → Option ℕ) (settled : ℕ → P → P) (weight : P → ℕ) → Lightens next_due settled weight
        → (last : ℕ) (parts : List P)
        → passed_together next_due settled weight last parts ≡ map (brought next_due settled weight last) parts }
{}

/// The turns up to a moment and from there to a later one are those up to the later one.
pub fn turns_in_two_calls<P>()
    ensures { (next_due : P → Option ℕ) (settled : ℕ → P → P) (weight steps_left : P → ℕ) → Lightens next_due settled weight
        → (slice first last : ℕ) (parts : List P) → first ≤ last
        → turns_to next_due settled weight steps_left slice last parts
        ≡ turns_to next_due settled weight steps_left slice first parts
        ++ turns_to next_due settled weight steps_left slice last (map (brought next_due settled weight first) parts) }
{}

/// The turns up to a moment are those of its stages, one after another: a stage for each moment that is due of some part by itself, in
/// rising order, in which each part needs the steps that it takes at that moment by itself.
pub fn stages_by_each_alone<P>()
    ensures turns { (next_due : P → Option ℕ) (settled : ℕ → P → P) (weight steps_left : P → ℕ)
        → Lightens next_due settled weight → Quiets next_due settled weight
        → (slice last : ℕ) (parts : List P)
        → turns_to next_due settled weight steps_left slice last parts
        ≡ flat_map (λ moment. turns_of slice (map (taken_at next_due settled weight steps_left moment) parts))
        (stage_moments next_due settled weight last parts) }
    ensures moments { (next_due : P → Option ℕ) (settled : ℕ → P → P) (weight : P → ℕ) → Lightens next_due settled weight
        → (last moment : ℕ) (parts : List P)
        → IsAmong moment (stage_moments next_due settled weight last parts) ↔ IsOwnOfOne next_due settled weight last moment parts }
    ensures rising { (next_due : P → Option ℕ) (settled : ℕ → P → P) (weight : P → ℕ) → Lightens next_due settled weight → Quiets next_due settled weight
        → (last : ℕ) (parts : List P) → Rises (stage_moments next_due settled weight last parts) }
{}
