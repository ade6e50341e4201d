//! What the calling thread posts before a worker starts, as worker 0: what is known of the game, Even's claim and then Odd's.

ghost use Rattle.std.specs.Prelude.{◌≡◌, ◌≤◌, ◌<◌, length, Some, IfOk, IfErr, option_map, slice_get};
ghost use Rattle.pg_game.specs.Graph.{id_of};
ghost use Rattle.pg_text.specs.Known.{known_at};
ghost use Rattle.pg_workers.specs.KnownRegions.{known_rows, HasNone, IsSolveFault, Names};
ghost use Rattle.pg_workers.specs.private.KnownPosts.{fault_of, HasKnown, IsKnownFault, SettlesKnown};

use pg_board::{Board, Refusal};
use pg_dominion::{Claim, ClaimFault, own_choice};
use pg_game::{Game, Memory, Player};
use pg_text::Known;
use std::alloc::Global;
use thiserror::Error;

/// Why a run has no outcome: the refusal of a player's known set, or refused memory.
#[derive(Clone, Copy, Debug, Drop, PartialEq, Eq)]
pub enum SolveFault {
    /// The player's known set is no region; the reason is never refused memory.
    Known(Player, Refusal),
    /// Memory was refused.
    Memory,
}

impl From<Memory> for SolveFault {
    ghost use Rattle.std.specs.Prelude.{◌≡◌};
    ghost use Rattle.pg_workers.specs.declared.known.SolveFault.{SolveFault};

    ghost from_gives = { λ _ fault. fault ≡ SolveFault.Memory };

    fn from(_error: Memory) -> SolveFault {
        SolveFault::Memory
    }
}

/// Why a player's known set is no region, by identifiers: the reason of the refused post.
#[derive(Clone, Copy, Debug, Drop, PartialEq, Eq, Error)]
pub enum KnownFault {
    /// The first vertex that the player owns without a choice, or with one that is no successor.
    #[error("bad choice or none at {0}")]
    Choice(u32),
    /// The least vertex with the opponent's parity that is the greatest on a closed walk of kept edges inside the set.
    #[error("bad cycle at {0}")]
    Cycle(u32),
    /// The least vertex of the set that the opponent attracts to his own known set.
    #[error("{0} is lost")]
    Lost(u32),
    /// The first kept edge that leads out of the set.
    #[error("{0} leaves to {1}")]
    Open(u32, u32),
}

/// The fault of the player's known set, whose post was refused for this reason.
pub fn known_fault(game: &Game, known: &Known, player: Player, refusal: Refusal) -> KnownFault
    requires { IsSolveFault game.now known.now.rows (SolveFault.Known player refusal) }
    ensures { Names game.now (known_rows game.now known.now.rows player) refusal result }
{
    // for the proof: the graph is a game, so edges end at vertices
    let _n = game.len();
    match refusal {
        Refusal::Claim(ClaimFault::Shape(row)) => {
            KnownFault::Choice(id_in_row(game, known, player, row))
        }
        Refusal::Claim(ClaimFault::Cycle(v)) => KnownFault::Cycle(game.id(v)),
        Refusal::Lost(v) => KnownFault::Lost(game.id(v)),
        Refusal::Open(v, w) => KnownFault::Open(game.id(v), game.id(w)),
        Refusal::Claim(ClaimFault::Memory) => unreachable!(),
        Refusal::Foreign(_) | Refusal::Stale | Refusal::Memory => unreachable!(),
    }
}

/// The identifier in a row of the player's known set: that of his known vertex with this many before it.
fn id_in_row(game: &Game, known: &Known, player: Player, row: u32) -> u32
    requires { row < length (known_rows game.now known.now.rows player) }
    ensures { option_map (λ r. id_of game.now r.0) (slice_get (known_rows game.now known.now.rows player) row) ≡ Some result }
{
    let mut before = 0u32;
    for v in 0..game.len() {
        if let Some((winner, _)) = known_at(known, v) {
            if winner == player {
                if before == row {
                    return game.id(v);
                }
                before += 1;
            }
        }
    }
    unreachable!()
}

/// A game, and what is known of it: no more rows than there are vertices.
#[derive(Clone, Copy)]
pub struct KnownOf<'x> {
    pub game: &'x Game,
    pub known: &'x Known,
    ghost size: { length known.now.rows ≤ length game.now },
}

/// A board after the posts of what is known: Even's set and then Odd's.
pub(crate) fn board_with<'g>(alloc: Global, of: &KnownOf<'g>) -> Result<Board<'g>, SolveFault>
    ensures game { IfOk result (λ b. b.graph ≡ of.now.game.now) }
    ensures known { IfOk result (λ b. HasKnown of.now.game.now of.now.known.now.rows b.journal) }
    ensures fault { IfErr result (λ e. IsSolveFault of.now.game.now of.now.known.now.rows e) }
{
    let board = Board::open(alloc, of.game)?;
    let with_even = with_known(alloc, board, of.known, Player::Even)?;
    with_known(alloc, with_even, of.known, Player::Odd)
}

/// The board with a post of the player's known set as worker 0, unless the set is empty.
fn with_known<'g>(
    alloc: Global,
    mut board: Board<'g>,
    known: &Known,
    player: Player,
) -> Result<Board<'g>, SolveFault>
    requires size { length known.now.rows ≤ length board.graph }
    requires none { HasNone board.journal player }
    ensures graph { IfOk result (λ b. b.graph ≡ board.entry.graph) }
    ensures settles { IfOk result (λ b. SettlesKnown board.entry b known.now.rows player) }
    ensures fault { IfErr result (λ e. IsKnownFault board.entry.graph board.entry.journal known.now.rows player e) }
{
    let claim = known_claim(alloc, board.game(), known, player)?;
    if claim.rows.as_slice().is_empty() {
        return Ok(board);
    }
    match board.post(alloc, 0, &claim) {
        Ok(_) => Ok(board),
        Err(refusal) => Err(solve_fault(player, refusal)),
    }
}

/// The player's known set as a claim: only his own vertices have choices.
fn known_claim(alloc: Global, game: &Game, known: &Known, player: Player) -> Result<Claim, Memory>
    ensures player { IfOk result (λ claim. claim.player ≡ player) }
    ensures rows { IfOk result (λ claim. claim.rows ≡ known_rows game.now known.now.rows player) }
{
    let mut rows = Vec::new(alloc);
    for v in 0..game.len() {
        if let Some((winner, choice)) = known_at(known, v) {
            if winner == player {
                rows.push((v, own_choice(game.forward(), player, v, choice)))?;
            }
        }
    }
    Ok(Claim::new(player, rows))
}

/// What is known of the vertex.
fn known_at(known: &Known, v: u32) -> Option<(Player, Option<u32>)>
    ensures { result ≡ known_at known.now.rows v }
{
    let at = v as usize;
    let rows = known.rows.as_slice();
    if at < rows.len() { rows[at] } else { None }
}

/// The fault of a run after a refused post of the player's known set.
fn solve_fault(player: Player, refusal: Refusal) -> SolveFault
    ensures { result ≡ fault_of player refusal }
{
    match refusal {
        Refusal::Memory => SolveFault::Memory,
        _ => SolveFault::Known(player, refusal),
    }
}
