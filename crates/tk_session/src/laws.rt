//! Laws over the definitions of sessions. Each is the contract of a function that does nothing.
ghost use Rattle.std.specs.Prelude.{◌≡◌, ℕ, ◌⊎◌, List};
ghost use Rattle.tk_session.specs.FirstFormat.{SessionOfTheFirst};
ghost use Rattle.tk_session.specs.Session.{HasFault, IsSession, Plan};
ghost use Rattle.tk_route.specs.declared.fault.LineFault.{LineFault};

/// A text is a session, or it has a fault in one of its lines.
pub fn session_or_fault()
    ensures { (bytes : List ℕ) → ((plan : Plan) × IsSession bytes plan) ⊎ ((fault : LineFault) × (line : ℕ) × HasFault bytes fault line) }
{}

/// A text is one session at most.
pub fn one_session()
    ensures { (bytes : List ℕ) (plan other : Plan) → IsSession bytes plan → IsSession bytes other → plan ≡ other }
{}

/// A text has one fault at most, in one line.
pub fn one_fault()
    ensures { (bytes : List ℕ) (fault other : LineFault) (line other_line : ℕ) → HasFault bytes fault line → HasFault bytes other other_line
        → (fault ≡ other) × (line ≡ other_line) }
{}

/// A text that is a session has no fault.
pub fn never_both()
    ensures { (bytes : List ℕ) (plan : Plan) (fault : LineFault) (line : ℕ) → IsSession bytes plan → ¬ HasFault bytes fault line }
{}

/// A session of the first format refills no application and moves no rectangle.
pub fn first_format()
    ensures { SessionOfTheFirst }
{}
