//! What windows ask for.
ghost use Rattle.std.specs.Prelude.{◌≡◌, ℕ, ◌∷◌, IfOk, nat_eq, map};
ghost use Rattle.std.specs.Map.{lookup};
ghost use Rattle.tk_packer.specs.Asked.{sized, requests_of, bounded, size_asked, sizes_asked};
ghost use Rattle.tk_packer.specs.Groups.{slaves_in};

use crate::groups::slaves_in;
use crate::shape::Shape;
use crate::{PackTable, Packed, Request, request_of};
use std::alloc::{AllocError, Global};
use std::collections::HashMap;

/// The greatest width or height that a window asks for, in pixels.
const MOST_ASKED: u64 = 2_147_483_647;

/// What each window asks for, by its number. Each window stands before its slaves, so that they are known when its turn comes.
pub fn sizes_asked(
    alloc: Global,
    packs: &PackTable,
    owner: usize,
    shapes: &[Shape],
) -> Result<HashMap<u64, (u32, u32)>, AllocError>
    ensures { IfOk result (λ sizes. (number : ℕ) → lookup (nat_eq number) sizes.entries
        ≡ lookup (nat_eq number) (sizes_asked (slaves_in owner packs.now) shapes.now)) }
{
    let mut sizes = HashMap::new(alloc);
    let mut rest = shapes;
    while let Some((shape, before)) = rest.split_last() {
        let requests = requests_of(alloc, &sizes, slaves_in(packs, owner, shape.number))?;
        sizes.insert(shape.number, size_asked(shape, requests.as_slice()))?;
        rest = before;
    }
    Ok(sizes)
}

/// The requests of slaves, each with the size that it asks for.
pub fn requests_of(
    alloc: Global,
    sizes: &HashMap<u64, (u32, u32)>,
    slaves: &[Packed],
) -> Result<Vec<Request>, AllocError>
    ensures { IfOk result (λ requests. requests.items ≡ requests_of sizes.now.entries slaves.now) }
{
    let mut requests = Vec::with_capacity(alloc, slaves.len())?;
    for packed in slaves {
        requests.push(sized(sizes, packed))?;
    }
    Ok(requests)
}

fn sized(sizes: &HashMap<u64, (u32, u32)>, packed: &Packed) -> Request
    ensures { result ≡ sized sizes.now.entries packed.now }
{
    match sizes.get(&packed.number) {
        Some(size) => Request {
            width: size.0,
            height: size.1,
            ..packed.request
        },
        None => packed.request,
    }
}

/// What a window asks for that has slaves with these requests.
#[tactic(auto, unfolding(crate::specs::Asked::size_asked))]
pub fn size_asked(shape: &Shape, requests: &[Request]) -> (u32, u32)
    ensures { result ≡ size_asked shape.now requests.now }
{
    match requests {
        [_, ..] if shape.propagates => {
            let (width, height) = request_of(requests);
            let borders = 2 * u64::from(shape.border);
            (
                bounded(u64::from(width) + borders),
                bounded(u64::from(height) + borders),
            )
        }
        _ => (
            bounded(u64::from(shape.width)),
            bounded(u64::from(shape.height)),
        ),
    }
}

/// At least a pixel, and at most the greatest size.
fn bounded(length: u64) -> u32
    ensures { result ≡ bounded length }
{
    MOST_ASKED.min(length.max(1)) as u32
}
