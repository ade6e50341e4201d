//! Whether masks meet what `attract` asks.

ghost use Rattle.std.specs.Prelude.{◌≡◌, ℕ, ◌<◌, length, IsTrue, true};
ghost use Rattle.pg_game.specs.Graph.{HasEdge};
ghost use Rattle.pg_game.specs.VertexSet.{In, Within, members};
ghost use Rattle.pg_game.specs.Subgame.{IsSubgame};

use pg_game::{Game, Mask};

fn has_successor_in(game: &Game, mask: &Mask, v: u32) -> bool
    requires size { length mask.now ≡ length game.now }
    requires vertex { v < length game.now }
    ensures { IsTrue result → (w : ℕ) × HasEdge game.now v w × In (members mask.now) w }
{
    // for the proof: the graph is a game, so the ends of edges are vertices
    let _n = game.len();
    for w in game.successors(v) {
        if mask.has(*w) {
            return true;
        }
    }
    false
}

/// Whether each vertex of the mask has a successor in it.
pub fn is_subgame(game: &Game, mask: &Mask) -> bool
    requires { length mask.now ≡ length game.now }
    ensures { result ≡ true → IsSubgame game.now (members mask.now) }
{
    'vertices: for v in 0..game.len() {
        if mask.has(v) && !has_successor_in(game, mask, v) {
            return false;
        }
    }
    true
}

/// Whether the members of the first mask are among those of the second.
pub fn is_within(first: &Mask, second: &Mask, n: u32) -> bool
    requires first { length first.now ≡ n }
    requires second { length second.now ≡ n }
    ensures { result ≡ true → Within (members first.now) (members second.now) }
{
    'vertices: for v in 0..n {
        if first.has(v) && !second.has(v) {
            return false;
        }
    }
    true
}
