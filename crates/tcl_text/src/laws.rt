//! Laws over the definitions of the readings. Each is the contract of a function that does nothing.
ghost use Rattle.std.specs.Prelude.{◌≡◌, ◌↔◌, ℕ, ℤ, List, Bool, Some, Ok, Err, Result, FitsSigned};
ghost use Rattle.std.specs.Fmt.{signed_decimal};
ghost use Rattle.std.specs.Int.{w64};
ghost use Rattle.tcl_text.specs.Backslash.{Mark, marked, marks};
ghost use Rattle.tcl_text.specs.ListForm.{Joins};
ghost use Rattle.tcl_text.specs.ListFaults.{IsListFault};
ghost use Rattle.tcl_text.specs.Readings.{IsBoolean, IsInteger, IsList, boolean_of, integer_of, list_form, list_of};
ghost use Rattle.tcl_text.specs.Splitting.{Splits};
ghost use Rattle.tcl_text.specs.declared.fault.ListFault.{ListFault};

/// The marks of a text are its first one and those of what is left, and no other function is so.
pub fn texts_are_marked()
    ensures equation { (text : List ℕ) → marks text ≡ marked marks text }
    ensures only { (other : List ℕ → List Mark) → ((text : List ℕ) → other text ≡ marked other text) → (text : List ℕ) → other text ≡ marks text }
{}

/// At most one integer belongs to a text.
pub fn one_integer()
    ensures { (text : List ℕ) (m n : ℤ) → IsInteger text m → IsInteger text n → m ≡ n }
{}

/// At most one boolean belongs to a text.
pub fn one_boolean()
    ensures { (text : List ℕ) (a b : Bool) → IsBoolean text a → IsBoolean text b → a ≡ b }
{}

/// At most one list belongs to a text.
pub fn one_list()
    ensures { (text : List ℕ) (xs ys : List (List ℕ)) → IsList text xs → IsList text ys → xs ≡ ys }
{}

/// The function that reads an integer is the relation.
pub fn integers_are_read()
    ensures { (text : List ℕ) (n : ℤ) → (integer_of text ≡ Some n) ↔ IsInteger text n }
{}

/// The function that reads a boolean is the relation.
pub fn booleans_are_read()
    ensures { (text : List ℕ) (b : Bool) → (boolean_of text ≡ Some b) ↔ IsBoolean text b }
{}

/// The function that reads a list is the relation.
pub fn lists_are_read()
    ensures { (text : List ℕ) (items : List (List ℕ)) → (list_of text ≡ Ok items) ↔ IsList text items }
{}

/// `list_of` gives a fault exactly where `IsListFault` relates it to the text.
pub fn list_faults_are_told()
    ensures { (text : List ℕ) (fault : ListFault) → (list_of text ≡ Err fault) ↔ IsListFault text fault }
{}

/// A written integer reads as itself.
pub fn written_integers_are_read()
    ensures { (n : ℤ) → FitsSigned w64 n → IsInteger (signed_decimal n) n }
{}

/// The list form of items is the list of the items.
pub fn list_forms_are_read()
    ensures { (items : List (List ℕ)) → IsList (list_form items) items }
{}

/// What is joined and then split is what it was, where both succeed.
pub fn split_of_join()
    ensures { (items again : List (List ℕ)) (text : List ℕ) →
        Joins (Ok text) (list_form items) → Splits (Ok again) (list_of text) → again ≡ items }
{}
