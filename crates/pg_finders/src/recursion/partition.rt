//! Attractions during the recursion (Zielonka 1998), which take active vertices and, where the recursion goes back, some that are
//! settled: each call is passed what is free. Then what was won stays won where nothing on which it rests has changed, as the crate's page
//! explains (Lapauw, Bruynooghe and Denecker 2020). A player attracts in place: a vertex that he takes is free no more, and is listed after
//! those that it leads to.

ghost use Rattle.std.specs.Prelude.{◌≡◌, ◌==◌, ◌<◌, ◌≤◌, ◌++◌, ◌∷◌, ℕ, [], length, take, All, IfOk, IfSome, IsNone, OnOk, Some, false, true, slice_index};
ghost use Rattle.std.specs.List.{filter};
ghost use Rattle.pg_game.specs.Graph.{HasEdge, owner_of};
ghost use Rattle.pg_game.specs.Player.{opponent};
ghost use Rattle.pg_game.specs.VertexSet.{In, members, union, without};
ghost use Rattle.pg_dominion.specs.AttractorState.{AttractsNoFurther};
ghost use Rattle.pg_finders.specs.Part.{IsOut};
ghost use Rattle.pg_finders.specs.private.recursion.Subgame.{listed, Once, active_of};
ghost use Rattle.pg_finders.specs.private.recursion.Settled.{settled_of, since};
ghost use Rattle.pg_finders.specs.private.recursion.Partition.{IsTarget, HasTested, free_of, IsPartition, FitsPartition, HasFewerFree, MovesCursors, Puts, RestsOn, HasOpened, AttractsFree, BeginsAgain, GivesActive};

use crate::recursion::settled::{Settled, Tail};
use crate::recursion::subgame::{Subgame, remove_all};
use pg_dominion::{AttractorState, attract_from};
use pg_game::{Game, Mask, Memory, Player};

/// Each vertex of the subgame: active, settled for a player, or neither, and then it is set aside.
#[derive(Drop)]
pub struct Partition {
    pub subgame: Subgame,
    pub settled: Settled,
    /// The settled vertices that the attraction under way may take beside the active ones.
    free: Tail,
}

impl Partition {
    /// A subgame with its settled vertices.
    pub fn new(subgame: Subgame, settled: Settled) -> Partition
        ensures subgame { result.subgame ≡ subgame }
        ensures settled { result.settled ≡ settled }
    {
        let free = settled.end(Player::Even);
        Partition {
            subgame,
            settled,
            free,
        }
    }

    /// Parts 1 and 4 of going back: settles for the target's player what he attracts to the target, and lists it. He may take the
    /// active vertices and those of the tail `free`. The caller knows that he attracts none of them at once but the given ones, and
    /// that the tail is his opponent's or empty.
    pub fn attract(
        &mut self,
        game: &Game,
        free: Tail,
        target: Tail,
        vertices: &[u32],
        list: &mut Vec<u32>,
    ) -> Result<(), Memory>
        requires partition { IsPartition (length game.now) self.old }
        requires target { IsTarget free target self.old }
        requires below { All (λ v. v < length game.now) vertices.now }
        requires from { target.from ≤ length (settled_of self.old.settled target.player) }
        requires at_most { AttractsNoFurther game.now target.player (union (free_of free self.old) (listed (since target self.old.settled)))
            (listed (since target self.old.settled)) (listed (since target self.old.settled ++ vertices.now)) }
        ensures partition { OnOk result (IsPartition (length game.now) self.new) }
        ensures attracts { OnOk result (AttractsFree game.now free target self.old self.new list.new.items) }
    {
        list.clear();
        self.test_all(game, free, target, vertices, list)?;
        self.free = free;
        attract_from(self, game, target.player, list, 0)?;
        self.settled.add_all(target.player, list)?;
        Ok(())
    }

    /// Takes the free ones of these vertices that the target's player attracts at once.
    fn test_all(
        &mut self,
        game: &Game,
        free: Tail,
        target: Tail,
        vertices: &[u32],
        list: &mut Vec<u32>,
    ) -> Result<(), Memory>
        requires fit { FitsPartition (length game.now) free self.old list.old.items }
        requires target { IsTarget free target self.old }
        requires below { All (λ v. v < length game.now) vertices.now }
        ensures { OnOk result (HasTested game.now free target vertices.now self.old list.old.items self.new list.new.items) }
    {
        for v in vertices {
            self.test(game, free, target, *v, list)?;
        }
        Ok(())
    }

    /// Takes a free vertex for the target's player: one of his that leads to the target, or one of the opponent's that leads to no
    /// free vertex.
    fn test(
        &mut self,
        game: &Game,
        free: Tail,
        target: Tail,
        v: u32,
        list: &mut Vec<u32>,
    ) -> Result<(), Memory>
        requires fit { FitsPartition (length game.now) free self.old list.old.items }
        requires target { IsTarget free target self.old }
        requires vertex { v < length game.now }
        ensures { OnOk result (HasTested game.now free target (v ∷ []) self.old list.old.items self.new list.new.items) }
    {
        if !self.has_free(free, v) {
            return Ok(());
        }
        if game.owner(v) == target.player {
            let Some(w) = self.won_successor(game, target, v) else {
                return Ok(());
            };
            self.put(free, target.player, v, Some(w), list)?;
            return Ok(());
        }
        if self.free_successor(game, free, v).is_some() {
            return Ok(());
        }
        self.put(free, target.player, v, None, list)?;
        Ok(())
    }

    /// A successor of the vertex in the target.
    fn won_successor(&self, game: &Game, target: Tail, v: u32) -> Option<u32>
        requires partition { IsPartition (length game.now) self.now }
        requires vertex { v < length game.now }
        ensures found { IfSome result (λ w. HasEdge game.now v w × In (listed (since target self.now.settled)) w) }
        ensures none { IsNone result → IsOut game.now (listed (since target self.now.settled)) v }
    {
        for w in game.successors(v) {
            if self.settled.has(target, *w) {
                return Some(*w);
            }
        }
        None
    }

    /// Begins a subgame; this is part 2 of going back too (A'). Lists the active ones of these vertices for the player of the tail, and
    /// then all active vertices that he attracts to them, which are no longer active. Returns the number of the first ones. Their
    /// choices may also lead to what he has won in the tail.
    pub fn begin(
        &mut self,
        game: &Game,
        won: Tail,
        vertices: &[u32],
        list: &mut Vec<u32>,
    ) -> Result<usize, Memory>
        requires partition { IsPartition (length game.now) self.old }
        requires below { All (λ v. v < length game.now) vertices.now }
        requires once { Once vertices.now }
        requires tops { (v : ℕ) → In (listed vertices.now) v → In (active_of self.old.subgame) v → (w : ℕ) × HasEdge game.now v w × In (free_of won self.old) w }
        requires others { (v : ℕ) → In (active_of self.old.subgame) v → listed vertices.now v ≡ false → owner_of game.now v ≡ opponent won.player
            → (w : ℕ) × HasEdge game.now v w × In (active_of self.old.subgame) w }
        ensures partition { OnOk result (IsPartition (length game.now) self.new) }
        ensures begins { IfOk result (λ k. BeginsAgain game.now won vertices.now self.old self.new list.new.items k) }
    {
        list.clear();
        self.give_active(game, won, vertices, list)?;
        let tops = list.len();
        remove_all(&mut self.subgame.active, list);
        self.free = self.settled.end(won.player);
        attract_from(self, game, won.player, list, 0)?;
        Ok(tops)
    }

    /// Gives the active ones of these vertices to the player of the tail, and lists them. The choice of each is a successor that is active
    /// or in the tail.
    fn give_active(
        &mut self,
        game: &Game,
        won: Tail,
        vertices: &[u32],
        list: &mut Vec<u32>,
    ) -> Result<(), Memory>
        requires partition { IsPartition (length game.now) self.old }
        requires below { All (λ v. v < length game.now) vertices.now }
        requires leads { (v : ℕ) → In (listed vertices.now) v → In (active_of self.old.subgame) v
            → (w : ℕ) × HasEdge game.now v w × In (free_of won self.old) w }
        ensures { OnOk result (GivesActive game.now won vertices.now self.old self.new list.old.items list.new.items) }
    {
        for v in vertices {
            if self.subgame.active.has(*v) {
                let choice = self.free_successor(game, won, *v);
                self.subgame.plan.write(*v, won.player, choice);
                list.push(*v)?;
            }
        }
        Ok(())
    }

    /// Part 3 of going back: makes active the vertices of the tail `won` that rest on a listed one, or on one that the other player has
    /// newly taken, and lists them, and so on.
    pub fn open(
        &mut self,
        game: &Game,
        won: Tail,
        taken: Tail,
        list: &mut Vec<u32>,
    ) -> Result<(), Memory>
        requires partition { IsPartition (length game.now) self.old }
        requires taken { taken.player ≡ opponent won.player }
        requires below { All (λ v. v < length game.now) list.old.items }
        ensures partition { OnOk result (IsPartition (length game.now) self.new) }
        ensures opened { OnOk result (HasOpened won self.old list.old.items self.new list.new.items) }
        ensures none { OnOk result ((v w : ℕ) → In (union (listed (since taken self.old.settled)) (listed list.new.items)) w
            → RestsOn game.now won self.new v w → ⊥) }
    {
        if self.settled.count(won.player) == won.from {
            return Ok(());
        }
        self.open_before_taken(game, won, taken, list)?;
        self.open_before_listed(game, won, list)
    }

    /// Makes active what rests on a vertex of the tail `taken`, and lists it.
    fn open_before_taken(
        &mut self,
        game: &Game,
        won: Tail,
        taken: Tail,
        list: &mut Vec<u32>,
    ) -> Result<(), Memory>
        requires partition { IsPartition (length game.now) self.old }
        requires taken { taken.player ≡ opponent won.player }
        ensures partition { OnOk result (IsPartition (length game.now) self.new) }
        ensures opened { OnOk result (HasOpened won self.old list.old.items self.new list.new.items) }
        ensures none { OnOk result ((v w : ℕ) → In (listed (since taken self.old.settled)) w → RestsOn game.now won self.new v w → ⊥) }
    {
        for place in taken.from..self.settled.count(taken.player) {
            let to = self.settled.list(taken.player)[place];
            self.open_before(game, won, to, list)?;
        }
        Ok(())
    }

    /// Makes active what rests on a listed vertex, and lists it too, and so on.
    fn open_before_listed(
        &mut self,
        game: &Game,
        won: Tail,
        list: &mut Vec<u32>,
    ) -> Result<(), Memory>
        requires partition { IsPartition (length game.now) self.old }
        requires below { All (λ v. v < length game.now) list.old.items }
        ensures partition { OnOk result (IsPartition (length game.now) self.new) }
        ensures opened { OnOk result (HasOpened won self.old list.old.items self.new list.new.items) }
        ensures none { OnOk result ((v w : ℕ) → In (listed list.new.items) w → RestsOn game.now won self.new v w → ⊥) }
    {
        'list: for next in 0..usize::MAX {
            if next >= list.len() {
                break;
            }
            let to = list[next];
            self.open_before(game, won, to, list)?;
        }
        Ok(())
    }

    /// Makes active the vertices of the tail that rest on the vertex, and lists them.
    fn open_before(
        &mut self,
        game: &Game,
        won: Tail,
        to: u32,
        list: &mut Vec<u32>,
    ) -> Result<(), Memory>
        requires partition { IsPartition (length game.now) self.old }
        requires vertex { to < length game.now }
        ensures partition { OnOk result (IsPartition (length game.now) self.new) }
        ensures opened { OnOk result (HasOpened won self.old list.old.items self.new list.new.items) }
        ensures none { OnOk result ((v : ℕ) → RestsOn game.now won self.new v to → ⊥) }
    {
        for v in game.predecessors(to) {
            if self.rests_on(game, won, *v, to) {
                self.settled.remove(won.player, *v);
                self.subgame.active.insert(*v);
                list.push(*v)?;
            }
        }
        Ok(())
    }

    /// Whether the vertex is in the tail, and the tail's player needs that its edge to the other one stays inside.
    fn rests_on(&self, game: &Game, won: Tail, v: u32, to: u32) -> bool
        requires partition { IsPartition (length game.now) self.now }
        requires vertex { v < length game.now }
        requires edge { HasEdge game.now v to }
        ensures yes { result ≡ true → RestsOn game.now won self.now v to }
        ensures no { RestsOn game.now won self.now v to → result ≡ true }
    {
        self.settled.has(won, v)
            && (game.owner(v) != won.player || self.subgame.plan.row(v).1 == Some(to))
    }

    /// Takes a free vertex for the player, with this choice, and lists it. Each vertex of each attraction comes here.
    #[inline(always)]
    fn put(
        &mut self,
        free: Tail,
        player: Player,
        v: u32,
        choice: Option<u32>,
        list: &mut Vec<u32>,
    ) -> Result<(), Memory>
        requires fit { (n : ℕ) × FitsPartition n free self.old list.old.items }
        requires free { In (free_of free self.old) v }
        ensures items { OnOk result (list.new.items ≡ list.old.items ++ v ∷ []) }
        ensures fit { OnOk result ((n : ℕ) → FitsPartition n free self.old list.old.items → FitsPartition n free self.new list.new.items) }
        ensures puts { OnOk result (Puts free player v choice self.old self.new) }
        ensures same { OnOk result (self.new.free ≡ self.old.free) }
    {
        list.push(v)?;
        self.remove(free, v);
        self.subgame.plan.write(v, player, choice);
        Ok(())
    }

    /// A vertex that is free is so no more: it is not active, or not settled.
    fn remove(&mut self, free: Tail, v: u32)
        requires partition { (n : ℕ) × IsPartition n self.old }
        requires free { In (free_of free self.old) v }
        ensures partition { (n : ℕ) → IsPartition n self.old → IsPartition n self.new }
        ensures fewer { HasFewerFree free self.old self.new }
        ensures free { (w : ℕ) → free_of free self.new w ≡ without (free_of free self.old) (λ u. v == u) w }
        ensures plan { self.new.subgame.plan ≡ self.old.subgame.plan }
        ensures same { self.new.free ≡ self.old.free }
    {
        if self.subgame.active.has(v) {
            self.subgame.active.remove(v);
            return;
        }
        self.settled.remove(free.player, v);
    }

    /// Whether the vertex is free: active or in the tail.
    fn has_free(&self, free: Tail, v: u32) -> bool
        requires active { v < length self.now.subgame.active }
        requires places { v < length self.now.settled.places.items }
        ensures { result ≡ free_of free self.now v }
    {
        self.subgame.active.has(v) || self.settled.has(free, v)
    }

    /// A free successor of the vertex. The search begins where the last one ended, and ends there.
    #[inline(always)]
    fn free_successor(&mut self, game: &Game, free: Tail, v: u32) -> Option<u32>
        requires partition { IsPartition (length game.now) self.old }
        requires vertex { v < length game.now }
        ensures partition { IsPartition (length game.now) self.new }
        ensures moved { MovesCursors self.old self.new }
        ensures found { IfSome result (λ w. HasEdge game.now v w × In (free_of free self.old) w) }
        ensures none { IsNone result → IsOut game.now (free_of free self.old) v }
    {
        let successors = game.successors(v);
        let end = successors.len() as u32;
        let begin = self.subgame.cursors.places[v as usize].min(end);
        let mut at = self.first_free(free, successors, begin, end);
        if at == end {
            at = self.first_free(free, successors, 0, begin);
            if at == begin {
                return None;
            }
        }
        self.subgame.cursors.places[v as usize] = at;
        Some(successors[at as usize])
    }

    /// The first place from `begin` on of a free vertex, or `end`.
    fn first_free(&self, free: Tail, vertices: &[u32], begin: u32, end: u32) -> u32
        requires active { (k : ℕ) → k < length vertices.now → slice_index vertices.now k < length self.now.subgame.active }
        requires places { (k : ℕ) → k < length vertices.now → slice_index vertices.now k < length self.now.settled.places.items }
        requires begin { begin ≤ end }
        requires end { end ≤ length vertices.now }
        ensures begin { begin ≤ result }
        ensures end { result ≤ end }
        ensures passed { (k : ℕ) → begin ≤ k → k < result → free_of free self.now (slice_index vertices.now k) ≡ false }
        ensures found { result < end → In (free_of free self.now) (slice_index vertices.now result) }
    {
        'places: for at in begin..end {
            if self.has_free(free, vertices[at as usize]) {
                return at;
            }
        }
        end
    }
}

impl AttractorState for Partition {
    ghost use Rattle.std.specs.Prelude.{length, min};
    ghost use Rattle.pg_finders.specs.private.recursion.Partition.{free_of, FitsPartition, KeepsFree};
    ghost use Rattle.pg_finders.specs.private.AttractorLaws.{partition_sized, keeps_same, keeps_then};

    type Item = u32;

    ghost vertex_of = { λ v. v };

    ghost size = { λ x. min (length x.subgame.active) (length x.settled.places.items) };

    ghost free = { λ x. free_of x.free x };

    ghost ready = { λ g x list capacity. FitsPartition (length g) x.free x list };

    ghost grown = { λ g p x list x' list'. KeepsFree g p x list x' list' };

    ghost refuses = { Unit {0} };

    fn vertex(item: u32) -> u32 {
        item
    }

    fn is_free(&self, v: u32) -> bool {
        self.has_free(self.free, v)
    }

    fn find_way_out(&mut self, game: &Game, _list: &Vec<u32>, v: u32) -> bool {
        self.free_successor(game, self.free, v).is_some()
    }

    fn take(
        &mut self,
        _game: &Game,
        player: Player,
        v: u32,
        choice: Option<u32>,
        list: &mut Vec<u32>,
    ) -> Result<(), Memory> {
        self.put(self.free, player, v, choice, list)?;
        Ok(())
    }

    ghost sized = { λ g x list capacity a. partition_sized g x list a };

    ghost apart = { λ g x list capacity v a. a.apart v };

    ghost grown_same = { λ g p x list. keeps_same g p x list };

    ghost grown_then = { λ g p x y z list list' list'' a b. keeps_then g p x y z list list' list'' a b };
}

/// Lists the active ones of the vertices.
pub fn list_active(active: &Mask, vertices: &[u32], list: &mut Vec<u32>) -> Result<(), Memory>
    requires { All (λ v. v < length active.now) vertices.now }
    ensures { OnOk result (list.new.items ≡ list.old.items ++ filter (λ v. members active.now v) vertices.now) }
{
    for v in vertices {
        if active.has(*v) {
            list.push(*v)?;
        }
    }
    Ok(())
}
