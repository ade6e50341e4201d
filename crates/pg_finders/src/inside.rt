//! What the finders search and what they make: a part of a game that is a subgame of it, and the claims in it.

ghost use Rattle.std.specs.Prelude.{◌≡◌, ◌<◌, length, IfOk, IfErr, IfSome, IsNone};
ghost use Rattle.pg_game.specs.Graph.{HasEdge};
ghost use Rattle.pg_game.specs.VertexSet.{In, members};
ghost use Rattle.pg_game.specs.Subgame.{IsSubgame};
ghost use Rattle.pg_game.specs.Least.{IsLeast};
ghost use Rattle.pg_finders.specs.Part.{IsPart, IsDeadEnd, IsOut};
ghost use Rattle.pg_finders.specs.private.DeadEnds.{HasNoDeadEnd};

use pg_game::{Game, Mask};
use std::marker::Model;

/// A game and a subgame of it.
#[derive(Drop)]
pub struct Inside<'g> {
    game: &'g Game,
    mask: Mask,
}

impl<'g> Model for Inside<'g> {
    ghost use Rattle.pg_finders.specs.Part.{Part, IsPart};

    ghost Value = { Part };

    ghost view = { λ a. record { graph = a.game.now; mask = a.mask } };

    ghost invariant = { λ a. IsPart (record { graph = a.game.now; mask = a.mask }) };
}

impl<'g> Inside<'g> {
    /// The part of the game in the mask. If the mask is no subgame, the error returns it, with the least vertex of it
    /// without a successor in it.
    pub fn new(game: &'g Game, mask: Mask) -> Result<Inside<'g>, (Mask, u32)>
        requires { length mask ≡ length game.now }
        ensures part { IfOk result (λ part. (part.graph ≡ game.now) × (part.mask ≡ mask) × IsPart part) }
        ensures refused { IfErr result (λ e. (e.0 ≡ mask) × IsLeast (IsDeadEnd game.now (members mask)) e.1) }
    {
        for v in 0..game.len() {
            if mask.has(v) && successor_in(game, &mask, v).is_none() {
                return Err((mask, v));
            }
        }
        Ok(Inside { game, mask })
    }

    /// The part of the game in a mask that is known to be a subgame. Looks at no edge.
    pub fn of_subgame(game: &'g Game, mask: Mask) -> Inside<'g>
        requires size { length mask ≡ length game.now }
        requires subgame { IsSubgame game.now (members mask) }
        ensures graph { result.graph ≡ game.now }
        ensures mask { result.mask ≡ mask }
        ensures part { IsPart result }
    {
        Inside { game, mask }
    }

    /// Borrows the game and the mask.
    pub(crate) fn view(&self) -> View<'_>
        ensures graph { result.game.now ≡ self.now.graph }
        ensures mask { result.mask.now ≡ self.now.mask }
        ensures part { IsPart self.now }
    {
        View {
            game: self.game,
            mask: &self.mask,
        }
    }

    /// The game.
    pub fn game(&self) -> &'g Game
        ensures graph { result.now ≡ self.now.graph }
        ensures part { IsPart self.now }
    {
        self.game
    }

    /// The mask, which is a subgame of the game.
    pub fn mask(&self) -> &Mask
        ensures { result.now ≡ self.now.mask }
    {
        &self.mask
    }
}

/// A game and a subgame of it, borrowed: what the finders' own functions pass on.
#[derive(Clone, Copy)]
pub(crate) struct View<'a> {
    pub game: &'a Game,
    pub mask: &'a Mask,
    ghost size: { length mask.now ≡ length game.now },
    ghost no_dead_end: { HasNoDeadEnd game.now (members mask.now) },
}

/// A copy of the unsettled part of a board, with the number of its entries and the number of settled vertices.
#[derive(Drop)]
pub struct Copied<'g> {
    pub inside: Inside<'g>,
    pub at: u64,
    pub settled: u64,
}

/// A successor of the vertex in the mask.
pub fn successor_in(game: &Game, inside: &Mask, v: u32) -> Option<u32>
    requires size { length inside.now ≡ length game.now }
    requires vertex { v < length game.now }
    ensures found { IfSome result (λ w. HasEdge game.now v w × In (members inside.now) w) }
    ensures none { IsNone result → IsOut game.now (members inside.now) v }
{
    for w in game.successors(v) {
        if inside.has(*w) {
            return Some(*w);
        }
    }
    None
}
