//! The edges that are kept of a game, read in place: no edge is copied.

ghost use Rattle.std.specs.Prelude.{◌≡◌, ℕ, ◌<◌, ◌^◌, length, slice_index, IfOk, IfSome};
ghost use Rattle.pg_dominion.specs.Kept.{IsKept};

use crate::notes::note_test;
use pg_game::{ForwardGame, Mask, Memory};
use std::alloc::Global;

/// The edges that are kept of a game: from a vertex with a choice the edge to it, from another vertex
/// inside all edges, and none from a vertex outside. A vertex is bad where its priority has the wrong parity.
pub struct StrategyGraph<'g> {
    pub game: &'g ForwardGame,
    pub inside: Mask,
    pub chosen: Mask,
    pub choices: Vec<u32>,
    pub bad: Mask,
    pub ghost shape: { IsKept game.now inside chosen choices.items bad },
}

impl<'g> StrategyGraph<'g> {
    ghost use Rattle.pg_dominion.specs.KeptEdges.{kept_row, KeepsNothing, IsKeptWith};

    /// No edge is kept yet, and no vertex is bad. The only error is refused memory.
    pub fn new(alloc: Global, game: &'g ForwardGame) -> Result<StrategyGraph<'g>, Memory>
        ensures game { IfOk result (λ k. k.game.now ≡ game.now) }
        ensures nothing { IfOk result KeepsNothing }
    {
        let n = game.len();
        Ok(StrategyGraph {
            game,
            inside: Mask::empty(alloc, n)?,
            chosen: Mask::empty(alloc, n)?,
            choices: vec![in alloc; 0u32; n as usize]?,
            bad: Mask::empty(alloc, n)?,
        })
    }

    /// Keeps the edge from a vertex to the choice, or without a choice all its edges, and notes whether the vertex is bad.
    pub fn keep(&mut self, v: u32, bad: bool, choice: Option<u32>)
        requires vertex { v < length self.old.game.now }
        requires choice { IfSome choice (λ w. w < length self.old.game.now) }
        ensures { IsKeptWith self.old v bad choice self.new }
    {
        self.inside.insert(v);
        note_test(bad, &mut self.bad, v);
        self.choices[v as usize] = choice.unwrap_or(0);
        note_test(choice.is_some(), &mut self.chosen, v);
    }

    /// Where the kept edges of a vertex end.
    pub fn row(&self, v: u32) -> &[u32]
        requires { v < length self.now.game.now }
        ensures all { result.now ≡ kept_row self.now v }
        ensures below { (i : ℕ) → i < length result.now → slice_index result.now i < length self.now.game.now }
        ensures short { length result.now < 2 ^ 32 }
    {
        let at = v as usize;
        if self.chosen.has(v) {
            return &self.choices[at..at + 1];
        }
        if self.inside.has(v) {
            return self.game.successors(v);
        }
        &self.choices[at..at]
    }
}

/// Written by hand, so that dropping a value is one step in the proofs of callers, and not one for each list.
impl<'g> Drop for StrategyGraph<'g> {
    fn drop(self) {
        let StrategyGraph {
            inside: _inside,
            chosen: _chosen,
            choices: _choices,
            bad: _bad,
            game: _game,
        } = self;
    }
}
