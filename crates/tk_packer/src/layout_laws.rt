//! Laws of layouts. The functions do nothing: their contracts are the laws.
ghost use Rattle.std.specs.Prelude.{◌≡◌, ℕ, List, [], map};
ghost use Rattle.tk_packer.specs.Changes.{changes_of, laid_out_shapes, unlaid};
ghost use Rattle.tk_packer.specs.Layout.{layout};
ghost use Rattle.tk_packer.specs.declared.shape.Shape.{Shape};
ghost use Rattle.tk_packer.specs.declared.packed.Packed.{Packed};

/// Where windows were laid out before, and which were mapped, doesn't change their layout.
pub fn old_places_are_no_input()
    ensures { (size : ℕ × ℕ) (packs : List Packed) (ones others : List Shape)
        → map unlaid ones ≡ map unlaid others
        → layout size packs ones ≡ layout size packs others }
{}

/// To lay out what is laid out changes nothing.
pub fn laid_out_is_settled()
    ensures { (size : ℕ × ℕ) (packs : List Packed) (shapes : List Shape)
        → changes_of (laid_out_shapes shapes (layout size packs shapes)) (layout size packs (laid_out_shapes shapes (layout size packs shapes))) ≡ [] }
{}
