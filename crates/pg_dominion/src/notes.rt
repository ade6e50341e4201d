//! What the checks of claims and of solutions note of a vertex: whether it is bad, and the choice there.

ghost use Rattle.std.specs.Prelude.{◌≡◌, ◌<◌, length, slice_set};
ghost use Rattle.pg_dominion.specs.KeptEdges.{own_choices, is_bad};

use pg_game::{ForwardGame, Mask, Player};

/// The choice, if the player owns the vertex; else none.
pub fn own_choice(game: &ForwardGame, player: Player, v: u32, choice: Option<u32>) -> Option<u32>
    requires { v < length game.now }
    ensures { result ≡ own_choices game.now player (λ x. choice) v }
{
    if game.owner(v) == player {
        choice
    } else {
        None
    }
}

/// Whether the vertex's priority has the parity of the player's opponent.
pub fn is_bad(game: &ForwardGame, player: Player, v: u32) -> bool
    requires { v < length game.now }
    ensures { result ≡ is_bad game.now player v }
{
    Player::of_parity(game.priority(v)) == player.other()
}

/// Notes in a mask whether a vertex passes a test. It is written in either case, since no processor foretells which.
pub fn note_test(test: bool, mask: &mut Mask, v: u32)
    requires { v < length mask.old }
    ensures { mask.new ≡ slice_set mask.old v test }
{
    if test {
        mask.insert(v);
    } else {
        mask.remove(v);
    }
}
