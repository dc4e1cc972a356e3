//! Where windows come to stand among the slaves of their masters.
ghost use Rattle.std.specs.Prelude.{◌≡◌, ◌≤◌, length, OnOk, IsOk, None};
ghost use Rattle.tk_pack_commands.specs.Options.{last_sibling};
ghost use Rattle.tk_pack_commands.specs.Places as spec;
ghost use Rattle.tk_packer.specs.Packs.{without};
ghost use Rattle.tk_packer.specs.Shared.{own_of, LeavesOthers};

use crate::settings::{Beside, PackSetting, last_sibling, with_settings};
use crate::targets::Target;
use std::alloc::AllocError;
use tk_base::Win;
use tk_packer::{PackTable, Packed, Request};

/// The place of a window among slaves; the end where it is none of them.
fn place_of(slaves: &[Packed], number: u64) -> usize
    ensures place { result ≡ spec.place_of number slaves.now }
    ensures bound { result ≤ length slaves.now }
{
    let mut place = 0;
    for packed in slaves {
        if packed.number == number {
            return place;
        }
        place += 1;
    }
    place
}

/// The place of another window among slaves once a window is taken out; the end where it is none of them.
fn place_without(slaves: &[Packed], left_out: u64, number: u64) -> usize
    ensures place { result ≡ spec.place_of number (without left_out slaves.now) }
    ensures bound { result ≤ length slaves.now }
{
    let mut place = 0;
    for packed in slaves {
        if packed.number != left_out {
            if packed.number == number {
                return place;
            }
            place += 1;
        }
    }
    place
}

/// Where a window comes to stand among the slaves of its master.
fn place_beside(slaves: &[Packed], beside: Option<Beside>, number: u64) -> usize
    ensures { result ≡ spec.place_beside beside number slaves.now }
{
    let Some(beside) = beside else {
        return place_of(slaves, number);
    };
    if beside.number == number {
        return place_of(slaves, number);
    }
    let place = place_without(slaves, number, beside.number);
    if beside.after { place + 1 } else { place }
}

/// Packs a window.
#[tactic(auto, unfolding(crate::specs::Places::packed_one))]
fn pack_one(
    packs: &mut PackTable,
    owner: usize,
    settings: &[PackSetting],
    beside: Option<Beside>,
    target: Target,
) -> Result<(), AllocError>
    ensures own { OnOk result (own_of owner packs.new ≡ spec.packed_one settings.now beside target (own_of owner packs.old)) }
    ensures others { LeavesOthers owner packs.old packs.new }
{
    let win = Win {
        owner,
        number: target.number,
    };
    let master = Win {
        owner,
        number: target.master,
    };
    let place = place_beside(packs.packed_in(master), beside, target.number);
    let request = packs.request(win).unwrap_or(Request::new(1, 1));
    packs.put(target.master, win, place, with_settings(settings, request))
}

/// Packs windows, each after the first behind the one before it where a sibling is named.
pub fn pack_all(
    packs: &mut PackTable,
    owner: usize,
    settings: &[PackSetting],
    targets: &[Target],
) -> Result<(), AllocError>
    ensures own { OnOk result (own_of owner packs.new
        ≡ spec.packed_all settings.now (last_sibling None settings.now) targets.now (own_of owner packs.old)) }
    ensures others { LeavesOthers owner packs.old packs.new }
{
    let mut beside = last_sibling(settings);
    let mut rest = targets;
    while let Some((target, others)) = rest.split_first() {
        pack_one(packs, owner, settings, beside, *target)?;
        beside = next_beside(*target, beside);
        rest = others;
    }
    Ok(())
}

fn next_beside(target: Target, beside: Option<Beside>) -> Option<Beside>
    ensures { result ≡ spec.next_beside target beside }
{
    match beside {
        Some(_) => Some(Beside {
            number: target.number,
            after: true,
        }),
        None => None,
    }
}
