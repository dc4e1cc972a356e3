//! The windows of an application in an order.
ghost use Rattle.std.specs.Prelude.{◌≡◌, IfOk};
ghost use Rattle.tk_screen.specs.Shapes.{pre_order};
ghost use Rattle.tk_tree.specs.Shared.{own_of as tree_of};

use std::alloc::{AllocError, Global};
use tk_base::Win;
use tk_tree::Windows;

/// The numbers of all windows of an application, each before its children, and children in the order of creation.
#[tactic(auto, unfolding(crate::specs::Shapes::pre_order))]
pub fn pre_order(alloc: Global, windows: &Windows, slot: usize) -> Result<Vec<u64>, AllocError>
    ensures { IfOk result (λ order. order.items ≡ pre_order (tree_of slot windows.now)) }
{
    match windows.find(slot, ".") {
        Some(main) => windows.subtree(Win {
            owner: slot,
            number: main.number,
        }),
        None => Ok(Vec::new(alloc)),
    }
}
