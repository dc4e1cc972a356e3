//! Laws over the definitions. Each is the contract of a function that does nothing.
ghost use Rattle.std.specs.Prelude.{◌≡◌, ◌<◌, ℕ, List, [], ◌∷◌, ◌++◌, Some, codes, map};
ghost use Rattle.tk_base.specs.Names.{AreSilent, AreTyped, all_names, alt_left, alt_right, caps_lock, control_left, control_right, key_named, name_of, shift_left, shift_right};
ghost use Rattle.tk_base.specs.Table.{key_names};

/// The names in the table are those of the keys, in their order.
#[tactic(auto, using(crate::proofs::NamesLemmas::table_names))]
pub fn table_has_all_names()
    ensures { key_names ≡ all_names }
{}

/// The key of a key's name is that key: no two keys have one name.
pub fn names_differ()
    ensures { (key : ℕ) → key < 128 → key_named (name_of key) ≡ Some key }
{}

/// The name of the key of a name is that name.
pub fn names_are_kept()
    ensures { (name : List ℕ) (key : ℕ) → key_named name ≡ Some key → name_of key ≡ name }
{}

/// The keys that modify others have these names.
#[tactic(auto, unfolding(crate::specs::Names::all_names))]
pub fn modifiers_have_their_names()
    ensures { map name_of (shift_left ∷ shift_right ∷ control_left ∷ control_right ∷ alt_left ∷ alt_right ∷ caps_lock ∷ [])
        ≡ codes "Shift_L" ∷ codes "Shift_R" ∷ codes "Control_L" ∷ codes "Control_R" ∷ codes "Alt_L" ∷ codes "Alt_R" ∷ codes "Caps_Lock" ∷ [] }
{}

/// What keys type, by their names (keysyms(n)): a printing character of ASCII, or what Return, Tab, BackSpace, Escape and Delete type. The other keys type
/// nothing.
#[tactic(auto, unfolding(crate::specs::Names::all_names))]
pub fn keys_type_their_characters()
    ensures signs { AreTyped (codes "space exclam quotedbl numbersign dollar percent ampersand apostrophe parenleft parenright asterisk plus comma minus period slash")
        (codes " !" ++ 34 ∷ codes "#$%&'()*+,-./") }
    ensures digits { AreTyped (codes "0 1 2 3 4 5 6 7 8 9") (codes "0123456789") }
    ensures comparisons { AreTyped (codes "colon semicolon less equal greater question at") (codes ":;<=>?@") }
    ensures capitals { AreTyped (codes "A B C D E F G H I J K L M N O P Q R S T U V W X Y Z") (codes "ABCDEFGHIJKLMNOPQRSTUVWXYZ") }
    ensures brackets { AreTyped (codes "bracketleft backslash bracketright asciicircum underscore grave") (91 ∷ 92 ∷ codes "]^_`") }
    ensures letters { AreTyped (codes "a b c d e f g h i j k l m n o p q r s t u v w x y z") (codes "abcdefghijklmnopqrstuvwxyz") }
    ensures braces { AreTyped (codes "braceleft bar braceright asciitilde") (123 ∷ 124 ∷ 125 ∷ 126 ∷ []) }
    ensures controls { AreTyped (codes "Return Tab BackSpace Escape Delete") (13 ∷ 9 ∷ 8 ∷ 27 ∷ 127 ∷ []) }
    ensures cursors { AreSilent (codes "Left Right Up Down Home End Prior Next Insert") }
    ensures functions { AreSilent (codes "F1 F2 F3 F4 F5 F6 F7 F8 F9 F10 F11 F12") }
    ensures modifiers { AreSilent (codes "Shift_L Shift_R Control_L Control_R Alt_L Alt_R Caps_Lock") }
{}
