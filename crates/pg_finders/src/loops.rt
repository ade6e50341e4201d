//! Dominions of a single vertex.
//!
//! A vertex alone is a player's dominion in a subgame if its priority has his parity and the play can stay there: by
//! his own loop, or because the opponent has no other successor inside. All of them together are one claim.

ghost use Rattle.std.specs.Prelude.{◌≡◌, ℕ, ◌<◌, ◌↔◌, ◌&&◌, length, IfOk, IsTrue, Some};
ghost use Rattle.pg_game.specs.declared.player.Player.{Player};
ghost use Rattle.pg_game.specs.Player.{of_parity};
ghost use Rattle.pg_game.specs.Graph.{HasEdge};
ghost use Rattle.pg_game.specs.VertexSet.{In, members};
ghost use Rattle.pg_finders.specs.Claims.{rows_below};
ghost use Rattle.pg_dominion.specs.KeptEdges.{own_choices};
ghost use Rattle.pg_finders.specs.Jobs.{AreLoopsOf};
ghost use Rattle.pg_finders.specs.Part.{IsPart};
ghost use Rattle.pg_finders.specs.private.Singles.{itself, loops};

use crate::inside::Inside;
use pg_dominion::{Claim, own_choice};
use pg_game::{Memory, Player};
use std::alloc::Global;

/// The vertices that alone are the player's dominions, each with itself as the choice if he owns it.
/// None if there is no such vertex. The only error is `Memory`.
pub fn find_loop(alloc: Global, inside: &Inside, player: Player) -> Result<Option<Claim>, Memory>
    ensures { IfOk result (AreLoopsOf inside.now.graph (members inside.now.mask) player) }
{
    let game = inside.game();
    let mut rows = Vec::new(alloc);
    for v in 0..game.len() {
        if is_loop(inside, player, v) {
            rows.push((v, own_choice(game.forward(), player, v, Some(v))))?;
        }
    }
    Ok(claim_of_loops(inside, player, rows))
}

/// Whether a vertex alone is the player's dominion.
fn is_loop(inside: &Inside, player: Player, v: u32) -> bool
    requires { v < length inside.now.graph }
    ensures { result ≡ loops inside.now.graph (members inside.now.mask) player v }
{
    let game = inside.game();
    let mask = inside.mask();
    if !mask.has(v) || Player::of_parity(game.priority(v)) != player {
        return false;
    }
    if game.owner(v) == player {
        game.has_edge(v, v)
    } else {
        has_no_other_successor(inside, v)
    }
}

/// Whether a vertex is its own only successor in the mask, or has none there.
fn has_no_other_successor(inside: &Inside, v: u32) -> bool
    requires { v < length inside.now.graph }
    ensures { IsTrue result ↔ ((w : ℕ) → HasEdge inside.now.graph v w → In (members inside.now.mask) w → w ≡ v) }
{
    let mask = inside.mask();
    for w in inside.game().successors(v) {
        if *w != v && mask.has(*w) {
            return false;
        }
    }
    true
}

/// The claim of a player's rows of loops; none if there are none.
fn claim_of_loops(inside: &Inside, player: Player, rows: Vec<(u32, Option<u32>)>) -> Option<Claim>
    requires part { IsPart inside.now }
    requires rows { rows.items ≡ rows_below (loops inside.now.graph (members inside.now.mask) player) (own_choices inside.now.graph player itself)
        (length inside.now.graph) }
    ensures { AreLoopsOf inside.now.graph (members inside.now.mask) player result }
{
    if rows.is_empty() {
        return None;
    }
    Some(Claim::new(player, rows))
}
