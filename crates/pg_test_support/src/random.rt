//! Numbers that look random, and games of them.

use crate::draft::{EVEN, ODD, Plain};
use crate::sets::bit;
use pg_game::Memory;
use std::alloc::Global;

/// The same in each run that begins with the same seed.
#[derive(Drop)]
pub struct Random {
    state: u64,
}

impl Random {
    pub fn new(seed: u64) -> Random {
        Random { state: seed }
    }

    /// A number below `n`, or 0.
    pub fn below(&mut self, n: u32) -> u32 {
        self.state = self
            .state
            .wrapping_mul(6_364_136_223_846_793_005)
            .wrapping_add(1_442_695_040_888_963_407);
        let number = ((self.state >> 33) & 0x7fff_ffff) as u32;
        number % n.max(1)
    }
}

/// A game of eight to 28 vertices with priorities below 10, which mostly leaves something to the recursion.
pub fn random_game(alloc: Global, random: &mut Random) -> Result<Vec<Plain>, Memory> {
    let n = random.below(21).saturating_add(8);
    let mut vertices = Vec::new(alloc);
    for _v in 0..n {
        let owner = if random.below(2) == 0 { EVEN } else { ODD };
        let successors = bit(random.below(n)) | bit(random.below(n));
        vertices.push((random.below(10), owner, successors))?;
    }
    Ok(vertices)
}
