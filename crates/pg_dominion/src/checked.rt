//! A claim that was checked, with what its game says of its vertices: so whether it is sound in another game can be judged
//! row by row, with no search for closed walks. A checked claim has a copy of the claim, and outlives it and the game.

ghost use Rattle.std.specs.Prelude.{◌≡◌, IfOk, IfErr, MatchOption, ◌↔◌, IsTrue};
ghost use Rattle.pg_dominion.specs.Claim.{IsRightRow, AreRight, IsSound};
ghost use Rattle.pg_dominion.specs.Fault.{IsClaimFault};
ghost use Rattle.pg_dominion.specs.Checked.{claim_row, claim_rows, claim_of, KeepsOne, AgreesAt, AgreesWithGame, IsForeign, AreChecked};

use crate::claim::{Claim, ClaimFault, judge_claim, kept_successors};
use pg_game::{ForwardGame, Game, Memory, Player, Sequence};
use std::alloc::Global;
use std::marker::Model;

/// A vertex of a checked claim, with what its game says of it. The kept successors are the choice alone where the
/// player owns the vertex, and all of them elsewhere.
#[derive(Drop)]
pub struct CheckedRow {
    pub vertex: u32,
    pub owner: Player,
    pub priority: u32,
    pub kept: Sequence<u32>,
}

impl CheckedRow {
    /// The row of a claim that is right in a game, with what the game says of its vertex.
    fn of(
        alloc: Global,
        game: &ForwardGame,
        player: Player,
        row: (u32, Option<u32>),
    ) -> Result<CheckedRow, Memory>
        requires { IsRightRow game.now player row }
        ensures agrees { IfOk result (AgreesAt game.now player) }
        ensures row { IfOk result (λ r. claim_row player r ≡ row) }
    {
        let vertex = row.0;
        let kept = Vec::from_slice(alloc, kept_successors(game, &row))?;
        Ok(CheckedRow {
            vertex,
            owner: game.owner(vertex),
            priority: game.priority(vertex),
            kept: Sequence::new(kept),
        })
    }

    /// Whether the row says of its vertex what the game says.
    fn agrees(&self, game: &Game, player: Player) -> bool
        requires { KeepsOne player self.now }
        ensures { IsTrue result ↔ AgreesAt game.now player self.now }
    {
        let v = self.vertex;
        if v >= game.len() || self.owner != game.owner(v) || self.priority != game.priority(v) {
            return false;
        }
        let kept = self.kept.as_slice();
        if self.owner == player {
            game.has_edge(v, kept[0])
        } else {
            kept == game.successors(v)
        }
    }
}

/// A claim that `check_claim` accepted, which alone makes such a value. Its type keeps that its rows are not empty and
/// rise, that one successor is kept at each vertex of its player, and that its kept edges make only good closed walks.
#[derive(Drop)]
pub struct Checked {
    claim: Claim,
    rows: Vec<CheckedRow>,
}

impl Model for Checked {
    ghost use Rattle.std.specs.Prelude.{◌≡◌};
    ghost use Rattle.pg_dominion.specs.Checked.{CheckedClaim, AreChecked, claim_rows};

    ghost Value = { CheckedClaim };

    ghost view = { λ c. record { player = c.claim.player; rows = c.rows.items } };

    ghost invariant = { λ c. AreChecked c.claim.player c.rows.items × (c.claim.rows ≡ claim_rows c.claim.player c.rows.items) };
}

impl Checked {
    /// A claim that is known to be sound, with what its game says of its vertices.
    pub(crate) fn of(alloc: Global, game: &ForwardGame, claim: &Claim) -> Result<Checked, Memory>
        requires { IsSound game.now claim.now.player claim.now.rows }
        ensures holds { IfOk result (λ c. claim_of c ≡ claim.now) }
        ensures agrees { IfOk result (λ c. AgreesWithGame game.now c.player c.rows) }
    {
        let rows = checked_rows(alloc, game, claim)?;
        let own = Vec::from_slice(alloc, claim.rows.as_slice())?;
        Ok(Checked {
            claim: Claim::new(claim.player, own),
            rows,
        })
    }

    /// The player who claims.
    pub fn player(&self) -> Player
        ensures { result ≡ self.now.player }
    {
        self.claim.player
    }

    /// The rows, by rising vertex. Its contract has the invariant of the type.
    pub fn rows(&self) -> &[CheckedRow]
        ensures rows { result.now ≡ self.now.rows }
        ensures checked { AreChecked self.now.player self.now.rows }
    {
        self.rows.as_slice()
    }

    /// The claim that was checked. Its contract has the invariant of the type.
    pub fn claim(&self) -> &Claim
        ensures claim { result.now ≡ claim_of self.now }
        ensures checked { AreChecked self.now.player self.now.rows }
    {
        &self.claim
    }

    /// The vertex of the first row that does not say of it what the game says; none where the claim agrees with the game.
    pub fn first_foreign(&self, game: &Game) -> Option<u32>
        ensures { MatchOption result (AgreesWithGame game.now self.now.player self.now.rows) (IsForeign game.now self.now.player self.now.rows) }
    {
        let player = self.player();
        'rows: for row in self.rows() {
            if !row.agrees(game, player) {
                return Some(row.vertex);
            }
        }
        None
    }
}

/// As `judge_claim`, with what was found, for a use where the game is not at hand or another.
pub fn check_claim(alloc: Global, game: &Game, claim: &Claim) -> Result<Checked, ClaimFault>
    ensures sound { IfOk result (λ c. IsSound game.now claim.now.player claim.now.rows) }
    ensures holds { IfOk result (λ c. claim_of c ≡ claim.now) }
    ensures agrees { IfOk result (λ c. AgreesWithGame game.now c.player c.rows) }
    ensures fault { IfErr result (λ e. IsClaimFault game.now claim.now.player claim.now.rows e) }
{
    judge_claim(alloc, game, claim)?;
    Ok(Checked::of(alloc, game.forward(), claim)?)
}

/// What the game says of the rows of a claim that are right in it.
fn checked_rows(alloc: Global, game: &ForwardGame, claim: &Claim) -> Result<Vec<CheckedRow>, Memory>
    requires { AreRight game.now claim.now.player claim.now.rows }
    ensures agree { IfOk result (λ rows. AgreesWithGame game.now claim.now.player rows.items) }
    ensures rows { IfOk result (λ rows. claim_rows claim.now.player rows.items ≡ claim.now.rows) }
{
    let claimed = claim.rows.as_slice();
    let mut rows = Vec::with_capacity(alloc, claimed.len())?;
    'rows: for row in claimed {
        rows.push(CheckedRow::of(alloc, game, claim.player, *row)?)?;
    }
    Ok(rows)
}
