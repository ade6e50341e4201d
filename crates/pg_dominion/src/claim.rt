//! Claims of a player, and the check of one: dominions without their closure (Jurdziński, Paterson and Zwick 2008).
//!
//! The rows are checked one after another. For a small claim with a vertex of the opponent's parity, a search along the rows looks
//! for a closed walk whose greatest priority is the opponent's. Any other such claim, and one that this search cannot decide, is
//! laid out by vertex as kept edges, and `cycles` looks for the walk.

ghost use Rattle.std.specs.Prelude.{◌≡◌, ℕ, ◌↔◌, ◌<◌, IfOk, IfErr, OnOk, length, true, false, ◌++◌, List, MatchOption, IsTrue};
ghost use Rattle.std.specs.List.{list_any};
ghost use Rattle.pg_game.specs.Region.{OnBadWalk};
ghost use Rattle.pg_dominion.specs.Claim.{IsSound, IsRightRow, HasShape, named, choice_in};
ghost use Rattle.pg_dominion.specs.Fault.{IsClaimFault};
ghost use Rattle.pg_dominion.specs.KeptEdges.{is_bad, ends_at, IsOnBadCycle};
ghost use Rattle.pg_game.specs.Least.{NoneHas};
ghost use Rattle.pg_game.specs.VertexSet.{In};
ghost use Rattle.pg_dominion.specs.private.ListedEnds.{LeadsToListed, AreNamed};

use crate::cycles::least_on_bad_cycle;
use crate::notes::is_bad;
use crate::strategy_graph::StrategyGraph;
use pg_game::{ForwardGame, Game, Memory, Player, Sequence};
use std::alloc::Global;
use std::slice;

/// Vertices that a player claims to win, rising, with his choice at each that he owns.
#[derive(Drop)]
pub struct Claim {
    pub player: Player,
    pub rows: Sequence<(u32, Option<u32>)>,
}

impl Claim {
    /// The player's claim of these rows.
    pub fn new(player: Player, rows: Vec<(u32, Option<u32>)>) -> Claim
        ensures player { result.player ≡ player }
        ensures rows { result.rows ≡ rows.items }
    {
        Claim {
            player,
            rows: Sequence::new(rows),
        }
    }
}

/// Why a claim is not accepted. The first that applies is returned, but `Memory` may come in place of any.
#[derive(Clone, Copy, Debug, Drop, PartialEq, Eq)]
pub enum ClaimFault {
    /// The first wrong row, from 0: its vertex is not in the game or not greater than the one before it, or its choice
    /// is not a successor exactly where the player owns the vertex. An empty claim is `Shape(0)`.
    Shape(u32),
    /// The least vertex with the opponent's parity that is the greatest on a closed walk of kept edges in the claim.
    Cycle(u32),
    /// Memory was refused.
    Memory,
}

impl From<Memory> for ClaimFault {
    ghost use Rattle.std.specs.Prelude.{◌≡◌};
    ghost use Rattle.pg_dominion.specs.declared.claim.ClaimFault.{ClaimFault};

    ghost from_gives = { λ _ f. f ≡ ClaimFault.Memory };

    fn from(_error: Memory) -> ClaimFault {
        ClaimFault::Memory
    }
}

/// Whether a claim is sound in a game: it has its shape, and the edges that it keeps inside make only closed walks
/// whose greatest priority has the player's parity. Edges that leave the claim don't count.
///
/// The refusals are those of [`ClaimFault`].
pub fn judge_claim(alloc: Global, game: &Game, claim: &Claim) -> Result<(), ClaimFault>
    ensures sound { OnOk result (IsSound game.now claim.now.player claim.now.rows) }
    ensures fault { IfErr result (λ e. IsClaimFault game.now claim.now.player claim.now.rows e) }
{
    let game = game.forward();
    if is_seen_sound(alloc, game, claim)? {
        return Ok(());
    }
    let kept = kept_of(alloc, game, claim)?;
    match least_on_bad_cycle(alloc, &kept)? {
        Some(v) => Err(ClaimFault::Cycle(v)),
        None => Ok(()),
    }
}

/// Whether a claim is seen to be sound with no table of one place a vertex: it names no bad vertex, or it is small and a
/// search along its rows finds no bad closed walk. The refusals are those of [`judge_claim`].
fn is_seen_sound(alloc: Global, game: &ForwardGame, claim: &Claim) -> Result<bool, ClaimFault>
    ensures shape { IfOk result (λ seen. HasShape game.now claim.now.player claim.now.rows) }
    ensures sound { IfOk result (λ seen. seen ≡ true → IsSound game.now claim.now.player claim.now.rows) }
    ensures fault { IfErr result (λ e. IsClaimFault game.now claim.now.player claim.now.rows e) }
{
    if !names_bad_vertex(game, claim)? {
        return Ok(true);
    }
    if claim.rows.as_slice().len() > MOST_ROWS {
        return Ok(false);
    }
    let is_shown = is_shown_small(alloc, game, claim)?;
    Ok(is_shown)
}

/// Checks the rows of a claim one after another. Whether one names a bad vertex. A wrong row is the error, which says its place.
fn names_bad_vertex(game: &ForwardGame, claim: &Claim) -> Result<bool, ClaimFault>
    ensures shape { IfOk result (λ bad. HasShape game.now claim.now.player claim.now.rows) }
    ensures bad { IfOk result (λ bad. bad ≡ list_any (λ r. is_bad game.now claim.now.player r.0) claim.now.rows) }
    ensures fault { IfErr result (λ e. IsClaimFault game.now claim.now.player claim.now.rows e) }
{
    let n = game.len();
    let rows = claim.rows.as_slice();
    if rows.is_empty() {
        return Err(ClaimFault::Shape(0));
    }
    let mut place = 0u32;
    let mut least = 0u32;
    let mut bad = false;
    'rows: for row in rows {
        if row.0 < least || row.0 >= n || !is_right_row(game, claim.player, *row) {
            return Err(ClaimFault::Shape(place));
        }
        bad |= is_bad(game, claim.player, row.0);
        least = row.0 + 1;
        place += 1;
    }
    Ok(bad)
}

/// Whether the row's choice is a successor exactly where the player owns the vertex.
fn is_right_row(game: &ForwardGame, player: Player, row: (u32, Option<u32>)) -> bool
    requires { row.0 < length game.now }
    ensures { IsTrue result ↔ IsRightRow game.now player row }
{
    let (v, choice) = row;
    let own = game.owner(v) == player;
    match choice {
        Some(w) => own && game.has_edge(v, w),
        None => !own,
    }
}

/// The greatest number of rows of a small claim.
const MOST_ROWS: usize = 64;

/// Whether the search showed that a claim has no bad closed walk. It is for small claims, since it compares rows one by one.
fn is_shown_small(alloc: Global, game: &ForwardGame, claim: &Claim) -> Result<bool, Memory>
    requires { HasShape game.now claim.now.player claim.now.rows }
    ensures { IfOk result (λ shown. shown ≡ true → NoneHas (OnBadWalk game.now claim.now.player (named claim.now.rows) (choice_in claim.now.rows))) }
{
    let rows = claim.rows.as_slice();
    let mut list = Vec::new(alloc);
    let mut steps = 0usize;
    'rows: for row in rows {
        let v = row.0;
        if is_bad(game, claim.player, v) && !never_returns(game, claim, v, &mut list, &mut steps)? {
            return Ok(false);
        }
    }
    Ok(true)
}

/// Whether the search showed that the vertex is not the greatest on a closed walk of the claim's kept edges.
fn never_returns(
    game: &ForwardGame,
    claim: &Claim,
    start: u32,
    list: &mut Vec<u32>,
    steps: &mut usize,
) -> Result<bool, Memory>
    requires shape { HasShape game.now claim.now.player claim.now.rows }
    requires start { start < length game.now }
    requires vertex { In (named claim.now.rows) start }
    ensures { IfOk result (λ shown. shown ≡ true → OnBadWalk game.now claim.now.player (named claim.now.rows) (choice_in claim.now.rows) start → ⊥) }
{
    list.clear();
    if !expand(game, claim, start, start, list, steps)? {
        return Ok(false);
    }
    'list: for next in 0..usize::MAX {
        if next >= list.len() {
            return Ok(true);
        }
        let v = list[next];
        if !expand(game, claim, start, v, list, steps)? {
            return Ok(false);
        }
    }
    Ok(false)
}

/// Lists the vertex's kept successors in the claim of at most the start's priority. Returns whether the start is not among them.
fn expand(
    game: &ForwardGame,
    claim: &Claim,
    start: u32,
    v: u32,
    list: &mut Vec<u32>,
    steps: &mut usize,
) -> Result<bool, Memory>
    requires shape { HasShape game.now claim.now.player claim.now.rows }
    requires start { start < length game.now }
    requires vertex { In (named claim.now.rows) v }
    requires named { AreNamed claim.now.rows list.old.items }
    ensures named { IfOk result (λ shown. AreNamed claim.now.rows list.new.items) }
    ensures longer { IfOk result (λ shown. (more : List ℕ) × (list.new.items ≡ list.old.items ++ more)) }
    ensures stays { IfOk result (λ shown. shown ≡ true → LeadsToListed game.now claim.now.player claim.now.rows start list.new.items v) }
{
    let rows = claim.rows.as_slice();
    let Some(choice) = choice_at(rows, v) else {
        unreachable!()
    };
    let row = (v, choice);
    let ends = kept_successors(game, &row);
    let top = game.priority(start);
    'ends: for end in ends {
        let w = *end;
        *steps = steps.saturating_add(rows.len());
        if *steps > MOST_STEPS || w == start {
            return Ok(false);
        }
        let Some(_) = choice_at(rows, w) else {
            continue;
        };
        if game.priority(w) > top || list.as_slice().contains(&w) {
            continue;
        }
        list.push(w)?;
    }
    Ok(true)
}

/// Where the kept edges of a claim's row end: in its choice alone, or without one in all successors of its vertex.
pub(crate) fn kept_successors<'a>(game: &'a ForwardGame, row: &'a (u32, Option<u32>)) -> &'a [u32]
    requires { row.now.0 < length game.now }
    ensures { result.now ≡ ends_at game.now row.now.0 row.now.1 }
{
    match &row.1 {
        Some(w) => slice::from_ref(w),
        None => game.successors(row.0),
    }
}

/// The choice in the row of the vertex; none without such a row.
fn choice_at(rows: &[(u32, Option<u32>)], v: u32) -> Option<Option<u32>>
    ensures { MatchOption result (named rows.now v ≡ false) (λ c. (named rows.now v ≡ true) × (choice_in rows.now v ≡ c)) }
{
    'rows: for row in rows {
        if row.0 == v {
            return Some(row.1);
        }
    }
    None
}

/// The greatest number of comparisons of rows.
const MOST_STEPS: usize = 16_384;

/// The kept edges of a claim with its shape, and its bad vertices.
fn kept_of<'g>(
    alloc: Global,
    game: &'g ForwardGame,
    claim: &Claim,
) -> Result<StrategyGraph<'g>, Memory>
    requires { HasShape game.now claim.now.player claim.now.rows }
    ensures bad_cycle { IfOk result (λ k. (v : ℕ) → IsOnBadCycle k v
        ↔ OnBadWalk game.now claim.now.player (named claim.now.rows) (choice_in claim.now.rows) v) }
{
    let mut kept = StrategyGraph::new(alloc, game)?;
    'rows: for row in claim.rows.as_slice() {
        let (v, choice) = *row;
        kept.keep(v, is_bad(game, claim.player, v), choice);
    }
    Ok(kept)
}
