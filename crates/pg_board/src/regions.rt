//! What a board stores beside its journal: for each vertex its winner and choice, and the mask of the unsettled vertices.
//! Attraction changes them in place (Zielonka 1998): an attracted vertex is settled at once, and a cursor at each vertex of the
//! opponent keeps the place of an unsettled successor.

ghost use Rattle.std.specs.Prelude.{◌≡◌, ◌<◌, ◌==◌, ◌≤◌, if◌then◌else◌, ℕ, [], length, nat_eq, true, false, Some, None, IfOk, MatchOption};
ghost use Rattle.std.specs.Prelude.{slice_set, slice_get, vec_capacity};
ghost use Rattle.std.specs.List.{IsDistinct};
ghost use Rattle.std.specs.List.Sorted.{IsStrictlyIncreasing};
ghost use Rattle.pg_board.specs.State.{settled, is_unsettled, rest_of};
ghost use Rattle.pg_board.specs.private.Regions.{table_state, AreRegions, state_with};
ghost use Rattle.pg_board.specs.private.VertexState.{state_in};
ghost use Rattle.pg_game.specs.Graph.{Graph, IsGame};
ghost use Rattle.pg_game.specs.Subgame.{IsSubgame};
ghost use Rattle.pg_game.specs.VertexSet.{members, In, Within, union, without};
ghost use Rattle.pg_dominion.specs.Claim.{vertices, named, IsRightRow, AreRight};
ghost use Rattle.pg_dominion.specs.AttractorState.{AttractsNoFurther};
ghost use Rattle.pg_board.specs.private.WrittenRows.{open_before, HasWritten, WritesInTurn};
ghost use Rattle.pg_board.specs.Refusal.{IsLost, IsOpenEdge};
ghost use Rattle.pg_game.specs.Least.{NoneHas, IsFirstEdge, IsLeast};
ghost use Rattle.pg_board.specs.private.OpenEdges.{AreTakenOut, EndsOutside};

use pg_dominion::{AttractorState, Claim, Cursors, attract_from};
use pg_game::{Game, Mask, Memory, Player};
use std::alloc::Global;
use std::mem::size_of;

/// Both players' regions, and the vertices that are in neither.
#[derive(Drop)]
pub struct Regions {
    pub table: Vec<VertexState>,
    pub unsettled: Mask,
    pub cursors: Cursors,
}

impl Regions {
    /// The tables of a game with `n` vertices, of which none is settled.
    pub fn open(alloc: Global, n: u32) -> Result<Regions, Memory>
        ensures regions { IfOk result (λ r. (g : Graph) → length g ≡ n → AreRegions g r) }
        ensures nothing { IfOk result (λ r. (v : ℕ) → table_state r.table.items v ≡ None) }
    {
        Ok(Regions {
            table: vec![in alloc; VertexState::Unsettled; n as usize]?,
            unsettled: Mask::full(alloc, n)?,
            cursors: Cursors::new(alloc, n)?,
        })
    }

    /// A copy of the tables, with new cursors. The only error is `Memory`.
    pub fn copy(&self, alloc: Global) -> Result<Regions, Memory>
        ensures table { IfOk result (λ r. r.table.items ≡ self.now.table.items) }
        ensures mask { IfOk result (λ r. r.unsettled ≡ self.now.unsettled) }
        ensures cursors { IfOk result (λ r. length r.cursors.places.items ≡ length self.now.unsettled) }
    {
        Ok(Regions {
            table: Vec::from_slice(alloc, self.table.as_slice())?,
            unsettled: self.unsettled.copy(alloc)?,
            cursors: Cursors::new(alloc, self.unsettled.len())?,
        })
    }

    /// The winner of the vertex, and the choice; none if it is unsettled or no vertex.
    pub fn at(&self, v: u32) -> Option<(Player, Option<u32>)>
        ensures { result ≡ table_state self.now.table.items v }
    {
        let at = v as usize;
        if at < self.table.len() {
            self.table[at].get()
        } else {
            None
        }
    }

    /// The least vertex of the claim that is settled for the opponent.
    pub fn first_lost(&self, claim: &Claim) -> Option<u32>
        requires { IsStrictlyIncreasing (vertices claim.now.rows) }
        ensures { MatchOption result (NoneHas (IsLost (table_state self.now.table.items) claim.now.player claim.now.rows))
            (IsLeast (IsLost (table_state self.now.table.items) claim.now.player claim.now.rows)) }
    {
        let opponent = claim.player.other();
        'rows: for row in claim.rows.as_slice() {
            if self.is_settled_for(opponent, row.0) {
                return Some(row.0);
            }
        }
        None
    }

    /// Writes the unsettled rows of the claim.
    pub fn rest_of(&self, claim: &Claim, rest: &mut Vec<(u32, Option<u32>)>)
        requires none { rest.old.items ≡ [] }
        requires spare { length claim.now.rows ≤ vec_capacity rest.old }
        ensures rows { rest.new.items ≡ rest_of (table_state self.now.table.items) claim.now.rows }
        ensures spare { vec_capacity rest.new ≡ vec_capacity rest.old }
    {
        'rows: for row in claim.rows.as_slice() {
            if self.is_unsettled(row.0) {
                rest.push_reserved(*row);
            }
        }
    }

    /// The first kept edge of a claim's rest that ends neither in it nor at the player's vertices. During the search the
    /// rest is not in the mask.
    pub fn first_open(
        &mut self,
        game: &Game,
        player: Player,
        rest: &[(u32, Option<u32>)],
    ) -> Option<(u32, u32)>
        requires game { IsGame game.now }
        requires regions { AreRegions game.now self.old }
        requires right { AreRight game.now player rest.now }
        requires unsettled { Within (named rest.now) (members self.old.unsettled) }
        ensures regions { AreRegions game.now self.new }
        ensures table { self.new.table.items ≡ self.old.table.items }
        ensures edge { MatchOption result
            ((v w : ℕ) → IsOpenEdge game.now (table_state self.old.table.items) player rest.now v w → ⊥)
            (λ e. IsFirstEdge (IsOpenEdge game.now (table_state self.old.table.items) player rest.now) e.0 e.1) }
    {
        remove_named(&mut self.unsettled, rest);
        let bounds = Bounds {
            game,
            regions: self,
            player,
            rest,
        };
        let edge = bounds.first_edge();
        insert_named(&mut self.unsettled, rest);
        edge
    }

    /// Settles the vertices of given rows, which are known to be unsettled.
    pub fn write_rows(&mut self, game: &Game, player: Player, rows: &[(u32, Option<u32>)])
        requires regions { AreRegions game.now self.old }
        requires unsettled { Within (named rows.now) (members self.old.unsettled) }
        requires distinct { IsDistinct nat_eq (vertices rows.now) }
        ensures growing { HasWritten game.now self.new rows.now (length game.now) }
        ensures same { (v : ℕ) → open_before self.new rows.now v ≡ members self.old.unsettled v }
        ensures written { (v : ℕ) → table_state self.new.table.items v ≡ state_with (table_state self.old.table.items) player rows.now v }
    {
        'rows: for row in rows {
            self.write_row(player, *row);
        }
    }

    /// Settles all that the rows' vertices attract from the unsettled part, with rows that lead to earlier ones. A full
    /// board has no such part, and no search.
    pub fn attract(
        &mut self,
        game: &Game,
        player: Player,
        rows: &mut Vec<(u32, Option<u32>)>,
        is_full: bool,
    )
        requires full { is_full ≡ true → (v : ℕ) → members self.old.unsettled v ≡ false }
        requires growing { HasWritten game.now self.old rows.old.items (vec_capacity rows.old) }
        requires subgame { IsSubgame game.now (open_before self.old rows.old.items) }
        ensures growing { HasWritten game.now self.new rows.new.items (vec_capacity rows.new) }
        ensures grows { WritesInTurn game.now player self.old rows.old.items self.new rows.new.items }
        ensures done { AttractsNoFurther game.now player (open_before self.old rows.old.items) (named rows.new.items) (named rows.new.items) }
    {
        if is_full {
            return;
        }
        // there is capacity for all rows, so no memory is refused
        let Ok(()) = attract_from(self, game, player, rows, 0) else {
            unreachable!()
        };
    }

    /// The state of all vertices, one after another.
    pub fn rows(&self, alloc: Global) -> Result<Vec<(Player, Option<u32>)>, Memory>
        requires { (v : ℕ) → v < length self.now.table.items → is_unsettled (table_state self.now.table.items v) ≡ false }
        ensures size { IfOk result (λ rows. length rows.items ≡ length self.now.table.items) }
        ensures each { IfOk result (λ rows. (v : ℕ) → v < length self.now.table.items → slice_get rows.items v ≡ table_state self.now.table.items v) }
    {
        let mut rows = Vec::with_capacity(alloc, self.table.len())?;
        'table: for state in self.table.as_slice() {
            if let Some(row) = state.get() {
                rows.push(row)?;
            }
        }
        Ok(rows)
    }

    /// Whether the vertex is settled for the player.
    fn is_settled_for(&self, player: Player, v: u32) -> bool
        ensures { result ≡ settled (table_state self.now.table.items) player v }
    {
        match self.at(v) {
            Some((winner, _)) => winner == player,
            None => false,
        }
    }

    /// Whether the vertex is unsettled, or no vertex.
    fn is_unsettled(&self, v: u32) -> bool
        ensures { result ≡ is_unsettled (table_state self.now.table.items v) }
    {
        match self.at(v) {
            Some(_) => false,
            None => true,
        }
    }

    /// Settles one vertex.
    fn write_row(&mut self, player: Player, row: (u32, Option<u32>))
        requires table { row.0 < length self.old.table.items }
        requires mask { row.0 < length self.old.unsettled }
        ensures size { length self.new.table.items ≡ length self.old.table.items }
        ensures table { (v : ℕ) → table_state self.new.table.items v
            ≡ (if row.0 == v then Some (player, row.1) else table_state self.old.table.items v) }
        ensures mask { self.new.unsettled ≡ slice_set self.old.unsettled row.0 false }
        ensures cursors { self.new.cursors ≡ self.old.cursors }
    {
        self.table[row.0 as usize] = VertexState::of(player, row.1);
        self.unsettled.remove(row.0);
    }
}

impl AttractorState for Regions {
    ghost use Rattle.std.specs.Prelude.{length, refl};
    ghost use Rattle.pg_game.specs.VertexSet.{members};
    ghost use Rattle.pg_board.specs.private.WrittenRows.{HasWritten, WritesInTurn};
    ghost use Rattle.pg_board.specs.private.WrittenInTurn.{WritesInTurn-same, WritesInTurn-then};

    type Item = (u32, Option<u32>);

    ghost vertex_of = { λ r. r.0 };

    ghost size = { λ s. length s.unsettled };

    ghost free = { λ s. members s.unsettled };

    ghost ready = { λ g s rows spare. HasWritten g s rows spare };

    ghost grown = { λ g p s rows s' rows'. WritesInTurn g p s rows s' rows' };

    ghost refuses = { ⊥ };

    fn vertex(item: (u32, Option<u32>)) -> u32 {
        item.0
    }

    fn is_free(&self, v: u32) -> bool {
        self.unsettled.has(v)
    }

    fn find_way_out(&mut self, game: &Game, _list: &Vec<(u32, Option<u32>)>, v: u32) -> bool {
        self.cursors.find_successor(game, &self.unsettled, v)
    }

    fn take(
        &mut self,
        _game: &Game,
        player: Player,
        v: u32,
        choice: Option<u32>,
        list: &mut Vec<(u32, Option<u32>)>,
    ) -> Result<(), Memory> {
        list.push_reserved((v, choice));
        self.write_row(player, (v, choice));
        Ok(())
    }

    ghost sized = { λ g s rows spare a. a.regions.mask_size };

    ghost apart = { λ g s rows spare v a. a.apart v };

    ghost grown_same = { λ g p s rows. WritesInTurn-same g p s s rows refl refl };

    ghost grown_then = { λ g p a b c xs ys zs. WritesInTurn-then g p a b c xs ys zs };
}

/// The state of a vertex in 8 bytes; `Option<(Player, Option<u32>)>` takes 16. One tag says both whether the vertex is settled
/// and whether it has a choice. The player is before the choice, in one word with the tag; after it he would need his own word.
#[derive(Clone, Copy)]
pub enum VertexState {
    Unsettled,
    /// Won by the player, without a choice.
    Won(Player),
    /// Won by the player, by a choice.
    Chosen(Player, u32),
}

impl VertexState {
    /// That of a vertex which the player wins, with this choice if there is one.
    pub fn of(player: Player, choice: Option<u32>) -> VertexState
        ensures { state_in result ≡ Some (player, choice) }
    {
        match choice {
            Some(w) => VertexState::Chosen(player, w),
            None => VertexState::Won(player),
        }
    }

    /// The winner of the vertex, and the choice; none if it is unsettled.
    pub fn get(self) -> Option<(Player, Option<u32>)>
        ensures { result ≡ state_in self }
    {
        match self {
            VertexState::Unsettled => None,
            VertexState::Won(player) => Some((player, None)),
            VertexState::Chosen(player, w) => Some((player, Some(w))),
        }
    }
}

const _: () = prove!(size_of::<VertexState>() == 8);

/// Removes the rows' vertices from the mask.
fn remove_named(mask: &mut Mask, rows: &[(u32, Option<u32>)])
    requires { (v : ℕ) → In (named rows.now) v → v < length mask.old }
    ensures length { length mask.new ≡ length mask.old }
    ensures members { (v : ℕ) → members mask.new v ≡ without (members mask.old) (named rows.now) v }
{
    'rows: for row in rows {
        mask.remove(row.0);
    }
}

/// Where an edge may end: at the vertices of the rest, which are not in the mask of unsettled ones meanwhile, and at those
/// that are settled for the player.
#[derive(Clone, Copy)]
struct Bounds<'a> {
    game: &'a Game,
    regions: &'a Regions,
    player: Player,
    rest: &'a [(u32, Option<u32>)],
    ghost is_game: { IsGame game.now },
    ghost size: { length regions.now.table.items ≡ length game.now },
    ghost mask_size: { length regions.now.unsettled ≡ length game.now },
    ghost taken_out: { AreTakenOut rest.now regions.now },
}

impl<'a> Bounds<'a> {
    /// Whether the vertex is in the rest, or settled for the player.
    fn has(&self, w: u32) -> bool
        requires { w < length self.now.game.now }
        ensures { result ≡ union (named self.now.rest.now) (settled (table_state self.now.regions.now.table.items) self.now.player) w }
    {
        !self.regions.unsettled.has(w) && !self.regions.is_settled_for(self.player.other(), w)
    }

    /// The first kept edge of the row that ends outside, by its end.
    fn first_end(&self, row: (u32, Option<u32>)) -> Option<u32>
        requires { IsRightRow self.now.game.now self.now.player row }
        ensures { MatchOption result ((w : ℕ) → EndsOutside self.now.game.now self.now.player
            (union (named self.now.rest.now) (settled (table_state self.now.regions.now.table.items) self.now.player)) row w → ⊥)
            (IsLeast (EndsOutside self.now.game.now self.now.player (union (named self.now.rest.now)
            (settled (table_state self.now.regions.now.table.items) self.now.player)) row)) }
    {
        if let Some(w) = row.1 {
            return if self.has(w) { None } else { Some(w) };
        }
        'row: for w in self.game.successors(row.0) {
            if !self.has(*w) {
                return Some(*w);
            }
        }
        None
    }

    /// The first kept edge of the rest that ends outside.
    fn first_edge(&self) -> Option<(u32, u32)>
        requires { AreRight self.now.game.now self.now.player self.now.rest.now }
        ensures { MatchOption result ((v w : ℕ) → IsOpenEdge self.now.game.now
            (table_state self.now.regions.now.table.items) self.now.player self.now.rest.now v w → ⊥)
            (λ e. IsFirstEdge (IsOpenEdge self.now.game.now
            (table_state self.now.regions.now.table.items) self.now.player self.now.rest.now) e.0 e.1) }
    {
        'rows: for row in self.rest {
            if let Some(w) = self.first_end(*row) {
                return Some((row.0, w));
            }
        }
        None
    }
}

/// Adds the rows' vertices to the mask.
fn insert_named(mask: &mut Mask, rows: &[(u32, Option<u32>)])
    requires { (v : ℕ) → In (named rows.now) v → v < length mask.old }
    ensures length { length mask.new ≡ length mask.old }
    ensures members { (v : ℕ) → members mask.new v ≡ union (members mask.old) (named rows.now) v }
{
    'rows: for row in rows {
        mask.insert(row.0);
    }
}
