//! Attractors (Zielonka 1998), by attraction in place: a backward worklist over predecessors. A taken vertex is listed after those
//! that it leads to, and is no longer free.
//!
//! At an opponent's vertex a cursor in its row moves on while the successor there is outside or taken. If none is left, the player
//! takes the vertex. So the search counts nothing.

ghost use Rattle.std.specs.Prelude.{◌<◌, ◌≤◌, ℕ, length, take, OnOk, OnErr, vec_capacity, ◌≡◌, IfOk, false};
ghost use Rattle.pg_game.specs.Graph.{HasEdge};
ghost use Rattle.pg_game.specs.Predecessors.{ArePredecessors};
ghost use Rattle.pg_game.specs.VertexSet.{In, Within, all_vertices, union, members};
ghost use Rattle.pg_dominion.specs.AttractorState.{listed_by, Takes, AttractsNoFurther, IsTakenOrOpen};
ghost use Rattle.pg_game.specs.Subgame.{IsSubgame};
ghost use Rattle.pg_dominion.specs.Claim.{named};
ghost use Rattle.pg_dominion.specs.Attraction.{IsAttraction};

use crate::cursors::Cursors;
use pg_game::{Game, Mask, Memory, Player};
use std::alloc::Global;

/// The state of an attraction: the free vertices of a part of a game, some of which a player takes.
pub trait AttractorState {
    ghost use Rattle.std.specs.Prelude.{◌≡◌, ◌<◌, ◌∷◌, ◌++◌, ℕ, List, [], length, OnOk, OnErr, vec_capacity, true, false, if◌then◌else◌, ◌==◌};
    ghost use Rattle.pg_game.specs.declared.player.Player.{Player};
    ghost use Rattle.pg_game.specs.Graph.{Graph, HasEdge};
    ghost use Rattle.pg_game.specs.VertexSet.{VertexSet, In, union};
    ghost use Rattle.pg_dominion.specs.Attraction.{IsAttractedRow};
    ghost use Rattle.pg_dominion.specs.AttractorState.{listed_by};

    type Item: Copy + Drop;

    ghost vertex_of: { Self.Item → ℕ };

    ghost size: { Self → ℕ };

    ghost free: { Self → VertexSet };

    /// The list fits the state, with this capacity.
    ghost ready: { Graph → Self → List Self.Item → ℕ → Type 0 };

    /// A state and its list after the player has taken vertices.
    ghost grown: { Graph → Player → Self → List Self.Item → Self → List Self.Item → Type 0 };

    /// Whether memory may be refused.
    ghost refuses: { Type 0 };

    /// The vertex of an item of the list.
    fn vertex(item: Self::Item) -> u32
        ensures { result ≡ vertex_of item };

    /// Whether the vertex is free.
    fn is_free(&self, v: u32) -> bool
        requires { v < size self.now }
        ensures { result ≡ free self.now v };

    /// Whether a successor of the vertex is free.
    fn find_way_out(&mut self, game: &Game, list: &Vec<Self::Item>, v: u32) -> bool
        requires ready { ready game.now self.old list.now.items (vec_capacity list.now) }
        requires vertex { v < length game.now }
        ensures ready { ready game.now self.new list.now.items (vec_capacity list.now) }
        ensures grown { (p : Player) → grown game.now p self.old list.now.items self.new list.now.items }
        ensures free { (w : ℕ) → free self.new w ≡ free self.old w }
        ensures out { result ≡ true → (w : ℕ) × HasEdge game.now v w × In (free self.old) w }
        ensures none { result ≡ false → (w : ℕ) → HasEdge game.now v w → free self.old w ≡ false };

    /// Takes a free vertex, and lists it.
    fn take(
        &mut self,
        game: &Game,
        player: Player,
        v: u32,
        choice: Option<u32>,
        list: &mut Vec<Self::Item>,
    ) -> Result<(), Memory>
        requires ready { ready game.now self.old list.old.items (vec_capacity list.old) }
        requires free { In (free self.old) v }
        requires leads { IsAttractedRow game.now player (union (free self.old) (listed_by vertex_of list.old.items)) (listed_by vertex_of list.old.items)
            (v, choice) }
        ensures ready { OnOk result (ready game.now self.new list.new.items (vec_capacity list.new)) }
        ensures grown { OnOk result (grown game.now player self.old list.old.items self.new list.new.items) }
        ensures listed { OnOk result ((item : Self.Item) × (vertex_of item ≡ v) × (list.new.items ≡ list.old.items ++ item ∷ [])) }
        ensures free { OnOk result ((w : ℕ) → free self.new w ≡ (if v == w then false else free self.old w)) }
        ensures refuses { OnErr result refuses };

    ghost sized: { (g : Graph) (a : Self) (xs : List Self.Item) (n : ℕ) → ready g a xs n → size a ≡ length g };

    ghost apart: { (g : Graph) (a : Self) (xs : List Self.Item) (n v : ℕ) → ready g a xs n → In (listed_by vertex_of xs) v → free a v ≡ false };

    ghost grown_same: { (g : Graph) (p : Player) (a : Self) (xs : List Self.Item) → grown g p a xs a xs };

    ghost grown_then: { (g : Graph) (p : Player) (a b c : Self) (xs ys zs : List Self.Item) → grown g p a xs b ys → grown g p b ys c zs → grown g p a xs c zs };
}

/// Takes all that the player attracts to the list (Zielonka 1998). What is before the place has to attract nothing more. The only
/// error is `Memory`, and only where the state may refuse it.
pub fn attract_from<A: AttractorState>(
    state: &mut A,
    game: &Game,
    player: Player,
    list: &mut Vec<A::Item>,
    first: usize,
) -> Result<(), Memory>
    requires ready { A.ready game.now state.old list.old.items (vec_capacity list.old) }
    requires below { Within (union (A.free state.old) (listed_by A.vertex_of list.old.items)) (all_vertices game.now) }
    requires place { first ≤ length list.old.items }
    requires done { AttractsNoFurther game.now player (union (A.free state.old) (listed_by A.vertex_of list.old.items))
        (listed_by A.vertex_of (take first list.old.items)) (listed_by A.vertex_of list.old.items) }
    ensures ready { OnOk result (A.ready game.now state.new list.new.items (vec_capacity list.new)) }
    ensures grown { OnOk result (A.grown game.now player state.old list.old.items state.new list.new.items) }
    ensures takes { OnOk result (Takes A.vertex_of (A.free state.old) list.old.items (A.free state.new) list.new.items) }
    ensures done { OnOk result (AttractsNoFurther game.now player (union (A.free state.old) (listed_by A.vertex_of list.old.items))
        (listed_by A.vertex_of list.new.items) (listed_by A.vertex_of list.new.items)) }
    ensures refuses { OnErr result A.refuses }
{
    'list: for next in first..usize::MAX {
        if next >= list.len() {
            break;
        }
        let to = A::vertex(list[next]);
        let row = game.predecessors(to);
        attract_to(state, game, player, to, row, list)?;
    }
    Ok(())
}

/// The vertices outside the target that the player attracts to it inside a subgame, each once (Zielonka 1998).
///
/// Each row leads to the target or to a row before it: at a vertex of the player by its choice, and at a vertex of the
/// opponent, which has none, by every successor inside. The only error is `Memory`.
pub fn attract(
    alloc: Global,
    game: &Game,
    inside: &Mask,
    player: Player,
    target: &Mask,
) -> Result<Vec<(u32, Option<u32>)>, Memory>
    requires inside_length { length inside.now ≡ length game.now }
    requires target_length { length target.now ≡ length game.now }
    requires subgame { IsSubgame game.now (members inside.now) }
    requires within { Within (members target.now) (members inside.now) }
    ensures { IfOk result (λ rows. IsAttraction game.now player (members inside.now) (members target.now) rows.items) }
{
    let (free, mut rows) = free_and_target(alloc, inside, target)?;
    let mut state = FreeVertices {
        free,
        cursors: Cursors::new(alloc, game.len())?,
    };
    let front = rows.len();
    attract_from(&mut state, game, player, &mut rows, 0)?;
    let attracted = Vec::from_slice(alloc, &rows[front..])?;
    Ok(attracted)
}

/// Takes the vertices of the row that `to` attracts at once; the row is the predecessors of `to`.
fn attract_to<A: AttractorState>(
    state: &mut A,
    game: &Game,
    player: Player,
    to: u32,
    row: &[u32],
    list: &mut Vec<A::Item>,
) -> Result<(), Memory>
    requires ready { A.ready game.now state.old list.old.items (vec_capacity list.old) }
    requires row { ArePredecessors game.now to row.now }
    requires taken { In (listed_by A.vertex_of list.old.items) to }
    ensures ready { OnOk result (A.ready game.now state.new list.new.items (vec_capacity list.new)) }
    ensures grown { OnOk result (A.grown game.now player state.old list.old.items state.new list.new.items) }
    ensures takes { OnOk result (Takes A.vertex_of (A.free state.old) list.old.items (A.free state.new) list.new.items) }
    ensures settled { OnOk result ((u : ℕ) → In (union (A.free state.old) (listed_by A.vertex_of list.old.items)) u → HasEdge game.now u to
        → IsTakenOrOpen game.now player (union (A.free state.old) (listed_by A.vertex_of list.old.items)) (listed_by A.vertex_of list.old.items)
        (listed_by A.vertex_of list.new.items) u) }
    ensures refuses { OnErr result A.refuses }
{
    for from in row {
        take_if_attracted(state, game, player, *from, to, list)?;
    }
    Ok(())
}

/// Takes `from` for the player if it is his, or if the opponent has no way out.
fn take_if_attracted<A: AttractorState>(
    state: &mut A,
    game: &Game,
    player: Player,
    from: u32,
    to: u32,
    list: &mut Vec<A::Item>,
) -> Result<(), Memory>
    requires ready { A.ready game.now state.old list.old.items (vec_capacity list.old) }
    requires vertex { from < length game.now }
    requires edge { HasEdge game.now from to }
    requires taken { In (listed_by A.vertex_of list.old.items) to }
    ensures ready { OnOk result (A.ready game.now state.new list.new.items (vec_capacity list.new)) }
    ensures grown { OnOk result (A.grown game.now player state.old list.old.items state.new list.new.items) }
    ensures takes { OnOk result (Takes A.vertex_of (A.free state.old) list.old.items (A.free state.new) list.new.items) }
    ensures settled { OnOk result (In (union (A.free state.old) (listed_by A.vertex_of list.old.items)) from
        → IsTakenOrOpen game.now player (union (A.free state.old) (listed_by A.vertex_of list.old.items)) (listed_by A.vertex_of list.old.items)
        (listed_by A.vertex_of list.new.items) from) }
    ensures refuses { OnErr result A.refuses }
{
    if !state.is_free(from) {
        return Ok(());
    }
    if game.owner(from) == player {
        return state.take(game, player, from, Some(to), list);
    }
    if state.find_way_out(game, list, from) {
        return Ok(());
    }
    state.take(game, player, from, None, list)
}

/// The vertices inside that are not in the target, and a row for each vertex of the target.
fn free_and_target(
    alloc: Global,
    inside: &Mask,
    target: &Mask,
) -> Result<(Mask, Vec<(u32, Option<u32>)>), Memory>
    requires size { length target.now ≡ length inside.now }
    requires within { Within (members target.now) (members inside.now) }
    ensures size { IfOk result (λ b. length b.0 ≡ length inside.now) }
    ensures same { IfOk result (λ b. (v : ℕ) → union (members b.0) (named b.1.items) v ≡ members inside.now v) }
    ensures apart { IfOk result (λ b. (v : ℕ) → In (named b.1.items) v → members b.0 v ≡ false) }
    ensures named { IfOk result (λ b. (v : ℕ) → named b.1.items v ≡ members target.now v) }
{
    let mut free = inside.copy(alloc)?;
    let mut rows = Vec::new(alloc);
    'targets: for v in 0..target.len() {
        if !target.has(v) {
            continue;
        }
        rows.push((v, None))?;
        free.remove(v);
    }
    Ok((free, rows))
}

/// The free vertices, with cursors.
#[derive(Drop)]
struct FreeVertices {
    free: Mask,
    cursors: Cursors,
}

impl AttractorState for FreeVertices {
    ghost use Rattle.pg_game.specs.VertexSet.{members};
    ghost use Rattle.pg_dominion.specs.private.FreeVertices.{IsFree};
    ghost use Rattle.pg_dominion.specs.ExtendedRows.{Extends, extends_same, extends_then};

    type Item = (u32, Option<u32>);

    ghost vertex_of = { λ r. r.0 };

    ghost size = { λ s. length s.free };

    ghost free = { λ s. members s.free };

    ghost ready = { λ g s rows capacity. IsFree g s.free s.cursors rows };

    ghost grown = { λ g p s rows s' rows'. Extends g p (members s.free) rows (members s'.free) rows' };

    ghost refuses = { Unit {0} };

    fn vertex(item: (u32, Option<u32>)) -> u32 {
        item.0
    }

    fn is_free(&self, v: u32) -> bool {
        self.free.has(v)
    }

    fn find_way_out(&mut self, game: &Game, _list: &Vec<(u32, Option<u32>)>, v: u32) -> bool {
        self.cursors.find_successor(game, &self.free, v)
    }

    fn take(
        &mut self,
        _game: &Game,
        _player: Player,
        v: u32,
        choice: Option<u32>,
        list: &mut Vec<(u32, Option<u32>)>,
    ) -> Result<(), Memory> {
        list.push((v, choice))?;
        self.free.remove(v);
        Ok(())
    }

    ghost sized = { λ g s rows capacity a. a.size };

    ghost apart = { λ g s rows capacity v a. a.apart v };

    ghost grown_same = { λ g p s rows. extends_same g p (members s.free) rows };

    ghost grown_then = { λ g p a b c xs ys zs. extends_then g p (members a.free) (members b.free) (members c.free) xs ys zs };
}
