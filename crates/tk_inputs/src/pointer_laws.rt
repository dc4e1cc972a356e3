//! Laws over the definitions. Each is the contract of a function that does nothing.
ghost use Rattle.std.specs.Prelude.{◌≡◌, ℕ, List, [], ◌∷◌, ◌++◌};
ghost use Rattle.tk_inputs.specs.Crossings.{GoApart, crossing, crossings_between, crossings_of};
ghost use Rattle.tk_inputs.specs.declared.pointer_event.CrossingDetail.TheVariants.{Ancestor, Nonlinear, NonlinearVirtual, Virtual};
ghost use Rattle.tk_inputs.specs.declared.pointer_event.CrossingKind.TheVariants.{Enter, Leave};

/// What two paths begin with has no part in it: only the ways from where they go apart are told.
pub fn ways_are_told()
    ensures { (shared up down : List ℕ) → GoApart up down → crossings_of (shared ++ up) (shared ++ down) ≡ crossings_between up down }
{}

/// From the main window, 0, into the child 2 of its child 1: the child is entered on the way, and the main window is told nothing.
pub fn into_a_grandchild()
    ensures { crossings_of (0 ∷ []) (0 ∷ 1 ∷ 2 ∷ []) ≡ crossing Enter Virtual 1 ∷ crossing Enter Ancestor 2 ∷ [] }
{}

/// From the child 2 of 1 out of the application's rectangle: all are left, the innermost first.
pub fn out_of_the_rectangle()
    ensures { crossings_of (0 ∷ 1 ∷ 2 ∷ []) [] ≡ crossing Leave Ancestor 2 ∷ crossing Leave Virtual 1 ∷ crossing Leave Virtual 0 ∷ [] }
{}

/// From the child 2 of 1 to the child 4 of 3: both parents lie between, and the main window, which has both, is told nothing.
pub fn between_cousins()
    ensures { crossings_of (0 ∷ 1 ∷ 2 ∷ []) (0 ∷ 3 ∷ 4 ∷ [])
        ≡ crossing Leave Nonlinear 2 ∷ crossing Leave NonlinearVirtual 1 ∷ crossing Enter NonlinearVirtual 3 ∷ crossing Enter Nonlinear 4 ∷ [] }
{}
