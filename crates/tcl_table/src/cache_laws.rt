//! What follows of a cache whose texts are asked for one after another.

ghost use Rattle.tcl_table.specs.CacheLaws.{LastAskedFor, NoTextTwice};

/// A cache keeps each text once, and at most as many as its capacity.
pub fn no_text_twice()
    ensures { NoTextTwice }
{}

/// Of the texts `a`, `b`, `a` and `c`, asked for in this order, a cache of two keeps `c` and `a`.
pub fn last_asked_for_is_kept()
    ensures { LastAskedFor }
{}
