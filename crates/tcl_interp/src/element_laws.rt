//! How elements are read, without a count of how deep indices stand in one another. The function does nothing: its contracts are the laws.
ghost use Rattle.tcl_interp.specs.ElementLaws.{ElementsAreRead, OnlyElements};

/// The index of an element is put together, with the elements that stand in it read in the same way, and then the element is read. Nothing else meets
/// that equation. How scripts in brackets are run is given.
pub fn elements_are_read<S>()
    ensures equation { ElementsAreRead S }
    ensures only { OnlyElements S }
{}
