//! Laws of placing. The functions do nothing: their contracts are the laws.
ghost use Rattle.std.specs.Prelude.{List, Option};
ghost use Rattle.tk_base.specs.declared.rect.Rect.{Rect};
ghost use Rattle.tk_packer.specs.Changes.{changes_of, laid_out_shapes};
ghost use Rattle.tk_packer.specs.declared.shape.Shape.{Shape};
ghost use Rattle.tk_screen.specs.Placing.{with_changes};
ghost use Rattle.tk_screen.specs.Reading.{AllRead, AreApart};
ghost use Rattle.tk_tree.specs.Own.{Tree};

/// Where shapes were read from windows, each of another, and what a layout of them changes is written into the windows, the windows lie
/// where the layout says, and are mapped where it gives them a rectangle.
pub fn laid_out_windows_lie_there()
    ensures { (own : Tree) (shapes : List Shape) (places : List (Option Rect))
        → AllRead own shapes → AreApart shapes
        → AllRead (with_changes (changes_of shapes places) own) (laid_out_shapes shapes places) }
{}
