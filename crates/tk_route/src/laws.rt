//! Laws over the definitions. Each is the contract of a function that does nothing.
ghost use Rattle.std.specs.Prelude.{◌≡◌, ◌↔◌, ℕ, IsTrue, List, [], ◌∷◌, ◌++◌, length};
ghost use Rattle.tk_base.specs.Rect.{HoldsPixel, SharePixel};
ghost use Rattle.tk_base.specs.declared.rect.Rect.{Rect};
ghost use Rattle.tk_route.specs.Added.{AllMiss, AllPassBy, lines_up, up};
ghost use Rattle.tk_route.specs.Lines.{Line};
ghost use Rattle.tk_route.specs.Routes.{routed};
ghost use Rattle.tk_route.specs.Screen.{holds, shares_pixel};
ghost use Rattle.tk_route.specs.declared.place.Point.{Point};

/// Two rectangles share a pixel where some pixel lies in both.
pub fn rectangles_share_pixels()
    ensures { (rect other : Rect) → IsTrue (shares_pixel rect other) ↔ SharePixel rect other }
{}

/// A rectangle holds a point where the point is one of its pixels.
pub fn rectangles_hold_pixels()
    ensures { (rect : Rect) (point : Point) → IsTrue (holds rect point) ↔ HoldsPixel rect point.x point.y }
{}

/// An application that comes in the next slot, and to which no line leads, changes nothing for the others: what each gets stays.
pub fn others_stay()
    ensures { (first : List Rect) (rect : Rect) (lines : List Line) → AllPassBy (length first) rect lines
        → (slot : ℕ) → routed (first ++ rect ∷ []) lines slot ≡ routed first lines slot }
{}

/// An application that comes in at any slot, and into whose rectangle no move leads, changes nothing for the others: what each gets stays,
/// where those from its slot on move up by one, in the lines too.
pub fn others_stay_where_slots_move()
    ensures { (front back : List Rect) (rect : Rect) (lines : List Line) → AllMiss rect lines
        → (slot : ℕ) → routed (front ++ rect ∷ back) (lines_up (length front) lines) (up (length front) slot) ≡ routed (front ++ back) lines slot }
{}
