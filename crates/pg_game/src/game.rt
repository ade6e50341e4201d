//! Parity games in the terms of PGSolver's manual. Vertices go by rising identifier. A `ForwardGame` has successors alone,
//! and a `Game` has predecessors too. `builder` makes both of specifications.

ghost use Rattle.std.specs.Prelude.{◌≡◌, ◌<◌, ◌^◌, ◌↔◌, ℕ, length, slice_index, IfOk, IsTrue, IfSome, IfNone};
ghost use Rattle.pg_game.specs.Predecessors.{ArePredecessors};
ghost use Rattle.pg_game.specs.private.Stored.{IsStored};
ghost use Rattle.pg_game.specs.View.{graph_of};
ghost use Rattle.pg_game.specs.Limits.{IsWithinLimits};
ghost use Rattle.pg_game.specs.Graph.{IsGame, id_of, priority_of, owner_of, successors_of, HasEdge};

use crate::Memory;
use crate::adjacency::Adjacency;
use crate::identifiers::Identifiers;
use crate::player::Player;
use std::alloc::Global;
use std::marker::Model;

/// A parity game.
pub struct Game {
    forward: ForwardGame,
    predecessors: Adjacency,
}

impl Model for Game {
    ghost use Rattle.pg_game.specs.Graph.{Graph};

    ghost Value = { Graph };

    ghost use Rattle.pg_game.specs.private.Stored.{HasPredecessors};

    ghost view = { λ g. g.forward };

    ghost invariant = { λ g. HasPredecessors g.forward g.predecessors };
}

impl Game {
    /// The same game with predecessors. `Memory` is its only error.
    pub fn of_forward(alloc: Global, forward: ForwardGame) -> Result<Game, Memory>
        ensures { IfOk result (λ g. g ≡ forward) }
    {
        let predecessors = forward.successors.reversed(alloc)?;
        Ok(Game {
            forward,
            predecessors,
        })
    }

    /// The same game without predecessors.
    #[inline]
    pub fn forward(&self) -> &ForwardGame
        ensures { result.now ≡ self.now }
    {
        &self.forward
    }

    /// How many vertices there are: from 1 to 1,048,576.
    #[inline]
    pub fn len(&self) -> u32
        ensures number { result ≡ length self.now }
        ensures game { IsGame self.now }
        ensures limits { IsWithinLimits self.now }
    {
        self.forward.len()
    }

    /// The identifier of a vertex.
    #[inline]
    pub fn id(&self, v: u32) -> u32
        requires { v < length self.now }
        ensures { result ≡ id_of self.now v }
    {
        self.forward.id(v)
    }

    /// The vertex with this identifier, or none.
    #[inline]
    pub fn vertex_of(&self, id: u32) -> Option<u32>
        ensures found { IfSome result (λ v. (v < length self.now) × (id_of self.now v ≡ id)) }
        ensures missing { IfNone result ((v : ℕ) → v < length self.now → id_of self.now v ≡ id → ⊥) }
    {
        self.forward.vertex_of(id)
    }

    /// The priority of a vertex.
    #[inline]
    pub fn priority(&self, v: u32) -> u32
        requires { v < length self.now }
        ensures { result ≡ priority_of self.now v }
    {
        self.forward.priority(v)
    }

    /// The owner of a vertex.
    #[inline]
    pub fn owner(&self, v: u32) -> Player
        requires { v < length self.now }
        ensures { result ≡ owner_of self.now v }
    {
        self.forward.owner(v)
    }

    /// The successors of a vertex: one or more vertices, rising, each once.
    #[inline]
    pub fn successors(&self, v: u32) -> &[u32]
        requires { v < length self.now }
        ensures all { result.now ≡ successors_of self.now v }
        ensures below { (k : ℕ) → k < length result.now → slice_index result.now k < length self.now }
        ensures short { length result.now < 2 ^ 32 }
    {
        self.forward.successors(v)
    }

    /// Whether there is an edge from `v` to `w`.
    pub fn has_edge(&self, v: u32, w: u32) -> bool
        requires { v < length self.now }
        ensures { IsTrue result ↔ HasEdge self.now v w }
    {
        self.forward.has_edge(v, w)
    }

    /// The predecessors of a vertex: rising, each once.
    #[inline]
    pub fn predecessors(&self, v: u32) -> &[u32]
        requires { v < length self.now }
        ensures { ArePredecessors self.now v result.now }
    {
        self.predecessors.row(v)
    }
}

/// By hand, so that freeing a game is one step in the proofs of callers, and not one for each part of each field.
impl Drop for Game {
    fn drop(self) {
        let Game {
            forward: _forward,
            predecessors: _predecessors,
        } = self;
    }
}

impl PartialEq for Game {
    ghost use Rattle.std.specs.Prelude.{◌≡◌, ◌↔◌, IsTrue};
    ghost use Rattle.std.specs.Cmp.{and_per, on_per, partial_equiv_from_equiv, nat_eq_equiv};
    ghost use Rattle.std.specs.Cmp.Lexicographic.{lists_per};
    ghost use Rattle.pg_game.specs.Player.{digit_of};
    ghost use Rattle.pg_game.specs.Same.{same_graph};

    ghost eq = { same_graph };

    ghost laws = { lists_per (and_per (on_per (λ x. x.id) (partial_equiv_from_equiv nat_eq_equiv))
        (and_per (on_per (λ x. x.priority) (partial_equiv_from_equiv nat_eq_equiv))
        (and_per (on_per (λ x. digit_of x.owner) (partial_equiv_from_equiv nat_eq_equiv))
        (on_per (λ x. x.successors) (lists_per (partial_equiv_from_equiv nat_eq_equiv)))))) };

    /// Whether both have the same vertices, with the same identifiers, priorities, owners and successors.
    fn eq(&self, other: &Game) -> bool
        ensures test { result ≡ same_graph self.now other.now }
        ensures exact { IsTrue result ↔ (self.now ≡ other.now) }
    {
        self.forward.is_same(&other.forward)
    }
}

/// A parity game without predecessors: what reading, writing and judging need. `Game::of_forward` adds them.
pub struct ForwardGame {
    identifiers: Identifiers,
    priorities: Vec<u32>,
    owners: Vec<Player>,
    successors: Adjacency,
}

impl Model for ForwardGame {
    ghost use Rattle.pg_game.specs.Graph.{Graph};

    ghost Value = { Graph };

    ghost use Rattle.pg_game.specs.View.{graph_of};
    ghost use Rattle.pg_game.specs.private.Stored.{IsStored};

    ghost view = { λ g. graph_of g.identifiers g.priorities.items g.owners.items g.successors };

    ghost invariant = { λ g. IsStored g.identifiers g.priorities.items g.owners.items g.successors };
}

impl ForwardGame {
    /// The game with these parts.
    pub(crate) fn of_parts(
        identifiers: Identifiers,
        priorities: Vec<u32>,
        owners: Vec<Player>,
        successors: Adjacency,
    ) -> ForwardGame
        requires { IsStored identifiers priorities.items owners.items successors }
        ensures { result ≡ graph_of identifiers priorities.items owners.items successors }
    {
        ForwardGame {
            identifiers,
            priorities,
            owners,
            successors,
        }
    }

    /// How many vertices there are: from 1 to 1,048,576.
    #[inline]
    pub fn len(&self) -> u32
        ensures number { result ≡ length self.now }
        ensures game { IsGame self.now }
        ensures limits { IsWithinLimits self.now }
    {
        self.identifiers.len()
    }

    /// The identifier of a vertex.
    #[inline]
    pub fn id(&self, v: u32) -> u32
        requires { v < length self.now }
        ensures { result ≡ id_of self.now v }
    {
        self.identifiers.id(v)
    }

    /// The vertex with this identifier, or none.
    #[inline]
    pub fn vertex_of(&self, id: u32) -> Option<u32>
        ensures found { IfSome result (λ v. (v < length self.now) × (id_of self.now v ≡ id)) }
        ensures missing { IfNone result ((v : ℕ) → v < length self.now → id_of self.now v ≡ id → ⊥) }
    {
        self.identifiers.place_of(id)
    }

    /// The priority of a vertex.
    #[inline]
    pub fn priority(&self, v: u32) -> u32
        requires { v < length self.now }
        ensures { result ≡ priority_of self.now v }
    {
        self.priorities[v as usize]
    }

    /// The owner of a vertex.
    #[inline]
    pub fn owner(&self, v: u32) -> Player
        requires { v < length self.now }
        ensures { result ≡ owner_of self.now v }
    {
        self.owners[v as usize]
    }

    /// The successors of a vertex: one or more vertices, rising, each once.
    #[inline]
    pub fn successors(&self, v: u32) -> &[u32]
        requires { v < length self.now }
        ensures all { result.now ≡ successors_of self.now v }
        ensures below { (k : ℕ) → k < length result.now → slice_index result.now k < length self.now }
        ensures short { length result.now < 2 ^ 32 }
    {
        self.successors.row(v)
    }

    /// Whether there is an edge from `v` to `w`.
    pub fn has_edge(&self, v: u32, w: u32) -> bool
        requires { v < length self.now }
        ensures { IsTrue result ↔ HasEdge self.now v w }
    {
        for x in self.successors(v) {
            if *x == w {
                return true;
            }
        }
        false
    }

    /// Whether both games have the same vertices.
    pub(crate) fn is_same(&self, other: &ForwardGame) -> bool
        ensures { IsTrue result ↔ (self.now ≡ other.now) }
    {
        let same_identifiers = self.identifiers.is_same(&other.identifiers);
        if !same_identifiers {
            return false;
        }
        let priorities = self.priorities.as_slice();
        let other_priorities = other.priorities.as_slice();
        let priorities_differ = priorities != other_priorities;
        if priorities_differ {
            return false;
        }
        let owners = self.owners.as_slice();
        let other_owners = other.owners.as_slice();
        let owners_differ = owners != other_owners;
        if owners_differ {
            return false;
        }
        self.successors.is_same(&other.successors)
    }
}

/// By hand, so that freeing one is one step in the proofs of callers, and not one for each part of each field.
impl Drop for ForwardGame {
    fn drop(self) {
        let ForwardGame {
            identifiers: _identifiers,
            priorities: _priorities,
            owners: _owners,
            successors: _successors,
        } = self;
    }
}
