//! What values the options of `pack` take.
ghost use Rattle.std.specs.Prelude.{◌≡◌, Some, Ok, IfOk};
ghost use Rattle.tk_options.specs.Forms.{amount, amount_in};
ghost use Rattle.tk_pack_commands.specs.Values as spec;

use std::alloc::{AllocError, Global};
use tcl_text::{SplitFault, Text};
use tk_packer::{Anchor, Fill, Pads, Side};

/// The most pixels that an amount has.
const MOST: u64 = 32_767;

#[tactic(auto, unfolding(crate::specs::Values::side_in))]
pub fn side_in(text: &str) -> Option<Side>
    ensures { result ≡ spec.side_in text.now }
{
    match text {
        "top" => Some(Side::Top),
        "left" => Some(Side::Left),
        "bottom" => Some(Side::Bottom),
        "right" => Some(Side::Right),
        _ => None,
    }
}

#[tactic(auto, unfolding(crate::specs::Values::anchor_in))]
pub fn anchor_in(text: &str) -> Option<Anchor>
    ensures { result ≡ spec.anchor_in text.now }
{
    match text {
        "center" => Some(Anchor::Center),
        "n" => Some(Anchor::N),
        "ne" => Some(Anchor::Ne),
        "e" => Some(Anchor::E),
        "se" => Some(Anchor::Se),
        "s" => Some(Anchor::S),
        "sw" => Some(Anchor::Sw),
        "w" => Some(Anchor::W),
        "nw" => Some(Anchor::Nw),
        _ => None,
    }
}

#[tactic(auto, unfolding(crate::specs::Values::fill_in))]
pub fn fill_in(text: &str) -> Option<Fill>
    ensures { result ≡ spec.fill_in text.now }
{
    match text {
        "none" => Some(Fill::None),
        "x" => Some(Fill::X),
        "y" => Some(Fill::Y),
        "both" => Some(Fill::Both),
        _ => None,
    }
}

/// The pixels that a text spells; none where it spells none from 0 to 32767.
#[tactic(auto, unfolding(tk_options::specs::Forms::amount_in))]
pub fn amount_in(text: &Text) -> Option<u32>
    ensures { result ≡ amount_in text.now }
{
    match text.integer() {
        Ok(number) => amount(number),
        Err(_) => None,
    }
}

fn amount(number: i64) -> Option<u32>
    ensures { result ≡ amount (Some number) }
{
    match u64::try_from(number) {
        Ok(amount) if amount <= MOST => Some(amount as u32),
        _ => None,
    }
}

/// The pads that a text spells: an amount for both sides, or a list of two, in pixels from 0 to 32767.
#[tactic(auto, unfolding(crate::specs::Values::pads_in))]
pub fn pads_in(alloc: Global, text: &Text) -> Result<Option<Pads>, AllocError>
    ensures { IfOk result (λ pads. pads ≡ spec.pads_in text.now) }
{
    match text.split_list(alloc) {
        Ok(items) => Ok(pads_from(items.as_slice())),
        Err(SplitFault::BadList(_)) => Ok(None),
        Err(SplitFault::NoMemory) => Err(AllocError),
    }
}

fn pads_from(items: &[Text]) -> Option<Pads>
    ensures { result ≡ spec.pads_from (Ok items.now) }
{
    match items {
        [both] => {
            let amount = amount_in(both)?;
            Some(Pads {
                before: amount,
                after: amount,
            })
        }
        [before, after] => Some(Pads {
            before: amount_in(before)?,
            after: amount_in(after)?,
        }),
        _ => None,
    }
}
