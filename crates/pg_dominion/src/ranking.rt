//! Rankings: an order of vertices that shows that no bad vertex from one vertex on and below a limit is the greatest on a closed walk.
//!
//! Vertices have places, which they may share, and places have keys. Each such bad vertex has a place whose key is greater than
//! twice its priority, and its edges go down. Any other edge from a place goes down too, or up over keys of at most twice the
//! priority of its source. If such a bad vertex is the greatest on a closed walk, the walk goes down from it and cannot come
//! back over its place.

ghost use Rattle.std.specs.Prelude.{◌≡◌, ℕ, ◌<◌, ◌≤◌, ◌^◌, length, slice_index, IfOk, true, ◌↔◌, IsTrue};
ghost use Rattle.pg_dominion.specs.KeptEdges.{IsOnBadCycle};
ghost use Rattle.pg_dominion.specs.private.Ranking.{AreEnds, IsJudged, IsRankedRow};

use crate::strategy_graph::StrategyGraph;
use pg_game::Memory;
use std::alloc::Global;

/// Places of vertices, a key for each place, and a limit: the least bad vertex of which they show nothing. A number after the last
/// key is no place.
#[derive(Drop)]
pub struct Ranking {
    pub places: Vec<u32>,
    pub keys: Vec<u32>,
    pub limit: u32,
}

/// Whether the places show that no bad vertex from `from` on and below the limit is the greatest on a closed walk.
pub fn is_ranked(
    alloc: Global,
    kept: &StrategyGraph,
    ranking: &Ranking,
    from: u32,
) -> Result<bool, Memory>
    ensures { IfOk result (λ b. b ≡ true → (v : ℕ) → from ≤ v → v < ranking.now.limit → IsOnBadCycle kept.now v → ⊥) }
{
    let n = kept.game.len();
    if ranking.places.len() != n as usize || ranking.keys.len() > n as usize {
        return Ok(false);
    }
    let ends = next_greater(alloc, ranking.keys.as_slice())?;
    let ends = ends.as_slice();
    'vertices: for v in 0..n {
        if !is_ranked_row(kept, ranking, ends, from, v) {
            return Ok(false);
        }
    }
    Ok(true)
}

/// For each place a later one, before which no key is greater.
fn next_greater(alloc: Global, keys: &[u32]) -> Result<Vec<u32>, Memory>
    requires { length keys.now < 2 ^ 31 }
    ensures { IfOk result (λ e. AreEnds keys.now e.items) }
{
    let len = keys.len() as u32;
    let mut ends = vec![in alloc; 0u32; len as usize]?;
    'ends: for down in 0..len {
        let at = len - 1 - down;
        let end = end_of(keys, &ends, at);
        ends[at as usize] = end;
    }
    Ok(ends)
}

/// The first place after `at` with a greater key, by jumps over the known ends.
fn end_of(keys: &[u32], ends: &[u32], at: u32) -> u32
    requires short { length keys.now < 2 ^ 31 }
    requires place { at < length keys.now }
    requires ends { AreEnds keys.now ends.now }
    ensures within { result ≤ length keys.now }
    ensures covered { (q : ℕ) → at ≤ q → q < result → slice_index keys.now q ≤ slice_index keys.now at }
{
    let len = keys.len() as u32;
    let key = keys[at as usize];
    let mut end = at + 1;
    'jumps: while end < len && keys[end as usize] <= key {
        let next = ends[end as usize];
        if next <= end || next > len {
            break;
        }
        end = next;
    }
    end
}

/// Whether a vertex and its edges meet the conditions of a ranking.
fn is_ranked_row(kept: &StrategyGraph, ranking: &Ranking, ends: &[u32], from: u32, v: u32) -> bool
    requires vertex { v < length kept.now.game.now }
    requires places { length ranking.now.places.items ≡ length kept.now.game.now }
    requires ends { AreEnds ranking.now.keys.items ends.now }
    ensures { result ≡ true → IsRankedRow kept.now from ranking.now.limit ranking.now.places.items ranking.now.keys.items v }
{
    let places = ranking.places.as_slice();
    let keys = ranking.keys.as_slice();
    let at = places[v as usize] as usize;
    let is_judged = is_judged(kept, ranking, from, v);
    if at >= keys.len() {
        return !is_judged;
    }
    let mut end = 0usize;
    'edges: for w in kept.row(v) {
        end = end.max(places[*w as usize] as usize + 1);
    }
    let goes_down = end <= at;
    let twice = kept.game.priority(v) * 2;
    if is_judged {
        return goes_down && keys[at] > twice;
    }
    goes_down || (end <= ends[at] as usize && keys[at] <= twice)
}

/// Whether a vertex is bad, from `from` on and below the limit.
fn is_judged(kept: &StrategyGraph, ranking: &Ranking, from: u32, v: u32) -> bool
    requires vertex { v < length kept.now.game.now }
    ensures { IsTrue result ↔ IsJudged kept.now from ranking.now.limit v }
{
    from <= v && v < ranking.limit && kept.bad.has(v)
}
