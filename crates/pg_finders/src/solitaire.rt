//! Subgames in which one player has a single successor at each of his vertices.
//!
//! The other player then plays alone (Berwanger and Grädel 2004). If some closed walk is good for him, he wins the
//! vertices that lead to its greatest vertex over no greater priority: a breadth-first search against the edges finds
//! them. Without such a walk all closed walks are good for the player without a choice, who wins all vertices.

ghost use Rattle.std.specs.Prelude.{◌≡◌, ◌≢◌, ℕ, ◌<◌, ◌↔◌, length, Some, None, IfOk, IfSome, IsNone, IsTrue, MatchOption, ◌⊎◌, List, OnOk};
ghost use Rattle.pg_game.specs.VertexSet.{In, members};
ghost use Rattle.pg_game.specs.Graph.{owner_of, priority_of};
ghost use Rattle.pg_dominion.specs.Claim.{IsGoodIn};
ghost use Rattle.pg_finders.specs.Part.{IsOut};
ghost use Rattle.pg_finders.specs.Claims.{rows_below};
ghost use Rattle.pg_dominion.specs.KeptEdges.{own_choices};
ghost use Rattle.pg_finders.specs.Finding.{HasOneSuccessor, IsSolitaire};
ghost use Rattle.pg_finders.specs.private.solitaire.Solitaire.{HasOneAt, IsSingle, IsForcedBelow, choices_by, EdgeBelow, AreLeading, IsSeen};
ghost use Rattle.pg_game.specs.Walk.{Walk};
ghost use Rattle.pg_finders.specs.private.solitaire.Leading.{IsQueue, Follows};

use crate::inside::{Inside, View};
use pg_dominion::{Claim, StrategyGraph, is_bad, least_on_bad_cycle, own_choice};
use pg_game::{Game, Mask, Memory, Player};
use std::alloc::Global;

/// A claim of either player that is good in the subgame, if that has a vertex and one player has a single successor
/// inside at each of his vertices inside, or has no vertex inside; else none. It need not have all vertices inside. The
/// only error is `Memory`.
pub fn find_solitaire(alloc: Global, inside: &Inside) -> Result<Option<Claim>, Memory>
    ensures { IfOk result (λ found. MatchOption found (IsSolitaire inside.now.graph (members inside.now.mask) → ⊥)
        (λ claim. IsSolitaire inside.now.graph (members inside.now.mask) × IsGoodIn inside.now.graph (members inside.now.mask) claim.player claim.rows)) }
{
    let view = inside.view();
    if view.mask.is_empty() {
        return Ok(None);
    }
    if has_one_successor(&view, Player::Even) {
        let even = Solitaire {
            view,
            forced: Player::Even,
        };
        return Ok(Some(solve(alloc, &even)?));
    }
    if has_one_successor(&view, Player::Odd) {
        let odd = Solitaire {
            view,
            forced: Player::Odd,
        };
        return Ok(Some(solve(alloc, &odd)?));
    }
    Ok(None)
}

/// A subgame in which this player has a single successor at each of his vertices.
#[derive(Clone, Copy)]
struct Solitaire<'a> {
    view: View<'a>,
    forced: Player,
    ghost one: { HasOneSuccessor view.game.now (members view.mask.now) forced },
}

/// Whether the player has a single successor in the mask at each of his vertices in it.
fn has_one_successor(view: &View, player: Player) -> bool
    ensures { IsTrue result ↔ HasOneSuccessor view.now.game.now (members view.now.mask.now) player }
{
    for v in 0..view.game.len() {
        if view.mask.has(v) && view.game.owner(v) == player && single_successor(view, v).is_none() {
            return false;
        }
    }
    true
}

/// The single successor of a vertex in the mask. None if there are two, or none.
fn single_successor(view: &View, v: u32) -> Option<u32>
    requires { v < length view.now.game.now }
    ensures found { IfSome result (λ w. IsSingle view.now.game.now (members view.now.mask.now) v w) }
    ensures none { IsNone result → HasOneAt view.now.game.now (members view.now.mask.now) v → IsOut view.now.game.now (members view.now.mask.now) v }
{
    let mut single = None;
    for w in view.game.successors(v) {
        if view.mask.has(*w) {
            match single {
                Some(x) if x != *w => return None,
                _ => single = Some(*w),
            }
        }
    }
    single
}

/// A claim that is good in the subgame, which has a vertex.
fn solve(alloc: Global, solitaire: &Solitaire) -> Result<Claim, Memory>
    requires { (v : ℕ) × In (members solitaire.now.view.mask.now) v }
    ensures { IfOk result (λ claim. IsGoodIn solitaire.now.view.game.now (members solitaire.now.view.mask.now) claim.player claim.rows) }
{
    let view = &solitaire.view;
    let forced = solitaire.forced;
    let kept = kept_of(alloc, solitaire)?;
    match least_on_bad_cycle(alloc, &kept)? {
        None => claim_of_set(alloc, view.game, forced, view.mask, kept.choices.as_slice()),
        Some(goal) => {
            let lead = lead_to(alloc, view, goal)?;
            claim_of_set(
                alloc,
                view.game,
                forced.other(),
                &lead.taken,
                lead.next.as_slice(),
            )
        }
    }
}

/// The edges of the subgame, where the player has his single successors as choices, and his bad vertices.
fn kept_of<'a>(alloc: Global, solitaire: &Solitaire<'a>) -> Result<StrategyGraph<'a>, Memory>
    ensures { IfOk result (IsForcedBelow solitaire.now.view.game.now (members solitaire.now.view.mask.now) solitaire.now.forced (length solitaire.now.view.game.now)) }
{
    let view = &solitaire.view;
    let game = view.game.forward();
    let mut kept = StrategyGraph::new(alloc, game)?;
    'vertices: for v in 0..game.len() {
        if view.mask.has(v) {
            let bad = is_bad(game, solitaire.forced, v);
            kept.keep(v, bad, forced_choice(solitaire, v));
        }
    }
    Ok(kept)
}

/// The single successor of a vertex in the mask that the player owns, and none for another vertex.
fn forced_choice(solitaire: &Solitaire, v: u32) -> Option<u32>
    requires vertex { v < length solitaire.now.view.game.now }
    requires inside { In (members solitaire.now.view.mask.now) v }
    ensures own { owner_of solitaire.now.view.game.now v ≡ solitaire.now.forced
        → (w : ℕ) × (result ≡ Some w) × IsSingle solitaire.now.view.game.now (members solitaire.now.view.mask.now) v w }
    ensures other { owner_of solitaire.now.view.game.now v ≢ solitaire.now.forced → result ≡ None }
{
    if solitaire.view.game.owner(v) == solitaire.forced {
        single_successor(&solitaire.view, v)
    } else {
        None
    }
}

/// The claim of a set, with the player's choices from the list.
fn claim_of_set(
    alloc: Global,
    game: &Game,
    player: Player,
    set: &Mask,
    next: &[u32],
) -> Result<Claim, Memory>
    requires set { length set.now ≡ length game.now }
    requires next { length next.now ≡ length game.now }
    ensures player { IfOk result (λ claim. claim.player ≡ player) }
    ensures rows { IfOk result (λ claim. claim.rows ≡ rows_below (members set.now) (own_choices game.now player (choices_by next.now)) (length game.now)) }
{
    let mut rows = Vec::new(alloc);
    for v in 0..game.len() {
        if set.has(v) {
            let choice = Some(next[v as usize]);
            rows.push((v, own_choice(game.forward(), player, v, choice)))?;
        }
    }
    Ok(Claim::new(player, rows))
}

/// The vertices in the mask from which a walk leads to the goal over no greater priority than the goal's.
fn lead_to(alloc: Global, view: &View, goal: u32) -> Result<Lead, Memory>
    requires goal { goal < length view.now.game.now }
    ensures leading { IfOk result (λ lead.
        AreLeading view.now.game.now (members view.now.mask.now) (priority_of view.now.game.now goal) goal lead.taken lead.next.items) }
    ensures all { IfOk result (λ lead. (v : ℕ) (vs : List ℕ)
        → Walk (EdgeBelow view.now.game.now (members view.now.mask.now) (priority_of view.now.game.now goal)) v vs goal
        → In (members lead.taken) v) }
{
    let n = view.game.len();
    let mut lead = Lead {
        taken: Mask::empty(alloc, n)?,
        next: vec![in alloc; 0u32; n as usize]?,
    };
    let mut queue = Vec::new(alloc);
    queue.push(goal)?;
    'queue: for at in 0..usize::MAX {
        if at >= queue.len() {
            break;
        }
        let to = queue[at];
        reach_back(view, goal, to, &mut lead, &mut queue)?;
    }
    Ok(lead)
}

/// The vertices that lead to the goal, and at each of them the next vertex.
#[derive(Drop)]
struct Lead {
    taken: Mask,
    next: Vec<u32>,
}

/// Adds the vertices in the mask with an edge to `to` and no greater priority than the goal's.
fn reach_back(
    view: &View,
    goal: u32,
    to: u32,
    lead: &mut Lead,
    queue: &mut Vec<u32>,
) -> Result<(), Memory>
    requires goal { goal < length view.now.game.now }
    requires state { AreLeading view.now.game.now (members view.now.mask.now) (priority_of view.now.game.now goal) goal lead.old.taken lead.old.next.items }
    requires queue { IsQueue view.now.game.now goal lead.old.taken queue.old.items }
    requires to { (to ≡ goal) ⊎ In (members lead.old.taken) to }
    requires vertex { to < length view.now.game.now }
    ensures state { OnOk result
        (AreLeading view.now.game.now (members view.now.mask.now) (priority_of view.now.game.now goal) goal lead.new.taken lead.new.next.items) }
    ensures queue { OnOk result (IsQueue view.now.game.now goal lead.new.taken queue.new.items) }
    ensures follows { OnOk result (Follows lead.old.taken queue.old.items lead.new.taken queue.new.items) }
    ensures seen { OnOk result (IsSeen view.now.game.now (members view.now.mask.now) (priority_of view.now.game.now goal) (members lead.new.taken) to) }
{
    let top = view.game.priority(goal);
    'edges: for from in view.game.predecessors(to) {
        let v = *from;
        if !view.mask.has(v) || lead.taken.has(v) || view.game.priority(v) > top {
            continue;
        }
        queue.push(v)?;
        lead.next[v as usize] = to;
        lead.taken.insert(v);
    }
    Ok(())
}
