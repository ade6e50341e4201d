//! Claims in arrays, and why a board refuses one.

ghost use Rattle.std.specs.Prelude.{◌≡◌, ℕ, IfOk, IfErr, OnOk};
ghost use Rattle.pg_board.specs.declared.journal.Refusal.{Refusal};
ghost use Rattle.pgboard_c.specs.declared.fault.Fault.{Fault};
ghost use Rattle.pgboard_c.specs.Posting.{claim_lists, claim_of_lists, IsClaim, IsNoClaim, refusal_fault};

use crate::arrays::choice_from;
use crate::fault::{Fault, PostFault, Structure};
use pg_board::Refusal;
use pg_dominion::{Claim, ClaimFault};
use pg_game::Player;
use std::alloc::Global;

/// A claim in arrays: vertices that rise, and the player's choice at each that he owns.
#[repr(C)]
pub struct ClaimArrays<'a> {
    pub size: usize,
    pub worker: u32,
    pub player: u32,
    pub vertices: &'a [u32],
    pub choices: &'a [u32],
}

impl<'a> ClaimArrays<'a> {
    /// The claim of the arrays, if they are one, of whatever shape.
    pub fn claim(&self, alloc: Global) -> Result<Claim, Fault>
        ensures checked { OnOk result (IsClaim (claim_lists self.now)) }
        ensures same { IfOk result (λ c. c ≡ claim_of_lists (claim_lists self.now)) }
        ensures fault { IfErr result (λ e. IsNoClaim (claim_lists self.now) e) }
    {
        self.check()?;
        let mut rows = Vec::with_capacity(alloc, self.vertices.len())?;
        for i in 0..self.vertices.len() {
            rows.push((self.vertices[i], choice_from(self.choices[i])))?;
        }
        Ok(Claim::new(Player::of_digit(self.player), rows))
    }

    /// Whether the arrays are a claim, of whatever shape.
    fn check(&self) -> Result<(), Fault>
        ensures claim { OnOk result (IsClaim (claim_lists self.now)) }
        ensures fault { IfErr result (λ e. IsNoClaim (claim_lists self.now) e) }
    {
        if self.size != Structure::Claim.size() {
            return Err(Fault::Size(Structure::Claim));
        }
        if self.player > 1 {
            return Err(Fault::Post(PostFault::Player(self.player)));
        }
        if self.vertices.len() != self.choices.len() {
            return Err(Fault::Post(PostFault::Lengths(self.vertices.len(), self.choices.len())));
        }
        Ok(())
    }
}

/// Why a board refuses a claim, as a fault. Only a checked claim can be of another game.
pub fn fault_of(refusal: Refusal) -> Fault
    requires { (v : ℕ) → refusal ≡ Refusal.Foreign v → ⊥ }
    ensures { result ≡ refusal_fault refusal }
{
    match refusal {
        Refusal::Claim(ClaimFault::Shape(row)) => Fault::Post(PostFault::Shape(row)),
        Refusal::Claim(ClaimFault::Cycle(v)) => Fault::Post(PostFault::Cycle(v)),
        Refusal::Lost(v) => Fault::Post(PostFault::Lost(v)),
        Refusal::Stale => Fault::Post(PostFault::Stale),
        Refusal::Open(v, w) => Fault::Post(PostFault::Open(v, w)),
        Refusal::Claim(ClaimFault::Memory) | Refusal::Memory => Fault::Memory,
        Refusal::Foreign(_) => unreachable!(),
    }
}
