//! The settled vertices: a list for each player, and the place of each vertex in its list. Vertices are appended. One that is no
//! longer won is removed, and the last one of the list takes its place.

ghost use Rattle.std.specs.Prelude.{◌≡◌, ◌<◌, ◌+◌, ◌^◌, ◌++◌, ℕ, List, length, [], IfOk, OnOk, All, slice_index_or, false};
ghost use Rattle.pg_game.specs.Player.{opponent};
ghost use Rattle.pg_game.specs.VertexSet.{In};
ghost use Rattle.pg_finders.specs.private.recursion.Subgame.{listed, Once, Apart};
ghost use Rattle.pg_finders.specs.private.recursion.Settled.{settled_of, since, IsPlaced, IsWithout, HasPlaces, is_listed_from};

use pg_game::{Memory, Player};
use std::alloc::Global;

/// The vertices that are settled for a player from a place of his list on.
#[derive(Clone, Copy)]
pub struct Tail {
    pub player: Player,
    pub from: usize,
}

/// The lists and the places.
#[derive(Drop)]
pub struct Settled {
    even: Vec<u32>,
    odd: Vec<u32>,
    places: Vec<u32>,
}

impl Settled {
    /// Nothing is settled, of n vertices. There is capacity for so many vertices of each player.
    pub fn new(alloc: Global, n: u32, capacity: u32) -> Result<Settled, Memory>
        ensures none { IfOk result (λ settled. (p : Player) → settled_of settled p ≡ []) }
        ensures placed { IfOk result (λ settled. IsPlaced n settled) }
    {
        Ok(Settled {
            even: Vec::with_capacity(alloc, capacity as usize)?,
            odd: Vec::with_capacity(alloc, capacity as usize)?,
            places: vec![in alloc; 0u32; n as usize]?,
        })
    }

    /// The player's vertices.
    pub fn list(&self, player: Player) -> &[u32]
        ensures { result.now ≡ settled_of self.now player }
    {
        match player {
            Player::Even => &self.even,
            Player::Odd => &self.odd,
        }
    }

    /// The number of the player's vertices.
    pub fn count(&self, player: Player) -> usize
        ensures { result ≡ length (settled_of self.now player) }
    {
        self.list(player).len()
    }

    /// The end of the player's list, where nothing is settled.
    pub fn end(&self, player: Player) -> Tail
        ensures player { result.player ≡ player }
        ensures from { result.from ≡ length (settled_of self.now player) }
    {
        Tail {
            player,
            from: self.count(player),
        }
    }

    /// Whether the vertex is in the tail.
    pub fn has(&self, tail: Tail, v: u32) -> bool
        requires { v < length self.now.places.items }
        ensures place { result ≡ is_listed_from self.now.places.items (settled_of self.now tail.player) tail.from v }
        ensures listed { (n : ℕ) → IsPlaced n self.now → result ≡ listed (since tail self.now) v }
    {
        let list = self.list(tail.player);
        if tail.from >= list.len() {
            return false;
        }
        let place = self.places[v as usize] as usize;
        if place < tail.from {
            return false;
        }
        if place >= list.len() {
            return false;
        }
        list[place] == v
    }

    /// Gives the vertices to the player.
    pub fn add_all(&mut self, player: Player, vertices: &[u32]) -> Result<(), Memory>
        requires placed { (n : ℕ) × IsPlaced n self.old × All (λ v. v < n) vertices.now }
        requires once { Once vertices.now }
        requires fresh { (p : Player) → Apart (settled_of self.old p) vertices.now }
        ensures own { OnOk result (settled_of self.new player ≡ settled_of self.old player ++ vertices.now) }
        ensures other { OnOk result (settled_of self.new (opponent player) ≡ settled_of self.old (opponent player)) }
        ensures placed { OnOk result ((n : ℕ) → IsPlaced n self.old → All (λ v. v < n) vertices.now → IsPlaced n self.new) }
    {
        match player {
            Player::Even => {
                append(&mut self.even, &mut self.places, vertices)?;
                Ok(())
            }
            Player::Odd => {
                append(&mut self.odd, &mut self.places, vertices)?;
                Ok(())
            }
        }
    }

    /// Removes a vertex of the player's list. The last one of it takes its place.
    pub fn remove(&mut self, player: Player, v: u32)
        requires placed { (n : ℕ) × IsPlaced n self.old × (v < n) }
        requires listed { In (listed (settled_of self.old player)) v }
        ensures own { IsWithout v (settled_of self.old player) (settled_of self.new player) }
        ensures other { settled_of self.new (opponent player) ≡ settled_of self.old (opponent player) }
        ensures placed { (n : ℕ) → IsPlaced n self.old → IsPlaced n self.new }
    {
        match player {
            Player::Even => remove_from(&mut self.even, &mut self.places, v),
            Player::Odd => remove_from(&mut self.odd, &mut self.places, v),
        }
    }
}

/// Appends the vertices to the list, and writes their places.
fn append(list: &mut Vec<u32>, places: &mut Vec<u32>, vertices: &[u32]) -> Result<(), Memory>
    requires below { All (λ v. v < length places.old.items) vertices.now }
    requires few { length list.old.items + length vertices.now < 2 ^ 32 }
    requires once { Once vertices.now }
    requires places { HasPlaces places.old.items list.old.items }
    requires fresh { Apart list.old.items vertices.now }
    ensures items { OnOk result (list.new.items ≡ list.old.items ++ vertices.now) }
    ensures len { length places.new.items ≡ length places.old.items }
    ensures places { OnOk result (HasPlaces places.new.items list.new.items) }
    ensures others { (ys : List ℕ) → HasPlaces places.old.items ys → Apart ys vertices.now → HasPlaces places.new.items ys }
{
    let from = list.len();
    list.extend_from_slice(vertices)?;
    place_all(places, vertices, from);
    Ok(())
}

/// Writes the places of the vertices, which are in a list from a place on.
fn place_all(places: &mut Vec<u32>, vertices: &[u32], from: usize)
    requires below { All (λ v. v < length places.old.items) vertices.now }
    requires few { from + length vertices.now < 2 ^ 32 }
    requires once { Once vertices.now }
    ensures len { length places.new.items ≡ length places.old.items }
    ensures here { (k : ℕ) → k < length vertices.now → slice_index_or places.new.items (slice_index_or vertices.now k 0) 0 ≡ from + k }
    ensures elsewhere { (v : ℕ) → listed vertices.now v ≡ false → slice_index_or places.new.items v 0 ≡ slice_index_or places.old.items v 0 }
{
    let mut place = from as u32;
    for v in vertices {
        places[*v as usize] = place;
        place += 1;
    }
}

/// Removes the vertex from its place in the list, which the last one takes.
fn remove_from(list: &mut Vec<u32>, places: &mut Vec<u32>, v: u32)
    requires below { All (λ v. v < length places.old.items) list.old.items }
    requires places { HasPlaces places.old.items list.old.items }
    requires listed { In (listed list.old.items) v }
    ensures without { IsWithout v list.old.items list.new.items }
    ensures len { length places.new.items ≡ length places.old.items }
    ensures places { HasPlaces places.new.items list.new.items }
    ensures others { (ys : List ℕ) → HasPlaces places.old.items ys → Apart ys list.old.items → HasPlaces places.new.items ys }
{
    let place = places[v as usize];
    let last = list[list.len() - 1];
    list.swap_remove(place as usize);
    places[last as usize] = place;
}
