//! Sets of vertices below 32 as numbers, whose bits are their members.

ghost use Rattle.std.specs.Prelude.{◌≡◌, IfOk, length};

use pg_game::{Mask, Memory};
use std::alloc::Global;

pub fn bit(v: u32) -> u32 {
    if v < 32 { 1 << v } else { 0 }
}

pub fn has(set: u32, v: u32) -> bool {
    set & bit(v) != 0
}

/// The members, rising.
pub fn vertices_of(alloc: Global, set: u32) -> Result<Vec<u32>, Memory> {
    let mut vertices = Vec::new(alloc);
    for v in 0..32 {
        if has(set, v) {
            vertices.push(v)?;
        }
    }
    Ok(vertices)
}

/// The mask of length `n` with the members of a set.
pub fn mask_of(alloc: Global, n: u32, set: u32) -> Result<Mask, Memory>
    ensures { IfOk result (λ m. length m ≡ n) }
{
    let mut mask = Mask::empty(alloc, n)?;
    'vertices: for v in 0..n {
        if has(set, v) {
            mask.insert(v);
        }
    }
    Ok(mask)
}
