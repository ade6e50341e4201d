//! The code of README.md, which `tests/pages/pages.py` of the repository looks for here.

ghost use Rattle.std.specs.Prelude.{◌≡◌, length};
ghost use Rattle.pg_game.specs.Subgame.{IsSubgame};
ghost use Rattle.pg_game.specs.VertexSet.{Within, members};

use crate::tests::asserting::made;
use crate::tests::games::{claim_of, game_made, mask_made};
use crate::tests::subgames::{is_subgame, is_within};
use pg_dominion::{Checked, Claim, ClaimFault, attract, check_claim};
use pg_game::{Game, Mask, Player, Sequence};
use pg_test_support::{EVEN, ODD, Vertex, check, check_eq};
use std::alloc::{AllocError, Global};
use std::process::Abort;

/// What is said of the claim on what Even attracts.
fn said(alloc: Global, game: &Game, inside: &Mask, target: &Mask) -> Result<String, AllocError>
    requires inside_length { length inside.now ≡ length game.now }
    requires target_length { length target.now ≡ length game.now }
    requires subgame { IsSubgame game.now (members inside.now) }
    requires within { Within (members target.now) (members inside.now) }
{
    let rows = attract(alloc, game, inside, Player::Even, target)?;
    let claim = Claim {
        player: Player::Even,
        rows: Sequence::new(rows),
    };
    match check_claim(alloc, game, &claim) {
        // the claim, with what its game says of its vertices
        Ok(checked) => format!(in alloc; "{} rows", checked.rows().len()),
        // i is the index of the first wrong row of the claim
        Err(ClaimFault::Shape(i)) => format!(in alloc; "the row at index {i} is wrong"),
        // v is the least vertex whose priority is bad and the greatest on a closed walk
        Err(ClaimFault::Cycle(v)) => format!(in alloc; "a bad closed walk of {v}"),
        Err(ClaimFault::Memory) => Err(AllocError),
    }
}

/// Compares what is said of the claim on what Even attracts to a target inside.
fn compare_said(
    rt: &impl Abort,
    alloc: Global,
    game: &Game,
    inside: &Mask,
    target: &Mask,
    want: &str,
)
    requires inside_length { length inside.now ≡ length game.now }
    requires target_length { length target.now ≡ length game.now }
{
    if is_subgame(game, inside) && is_within(target, inside, game.len()) {
        let found = made(rt, said(alloc, game, inside, target));
        check_eq!(*rt; found.as_str(), want);
    } else {
        check!(*rt; false, "the masks are no subgame and target");
    }
}

const LAYERED: &[Vertex] = &[(0, EVEN, &[0]), (3, EVEN, &[0, 1]), (3, ODD, &[1])];

/// A target among all vertices, and what is said of the claim.
const TARGETS: &[(u32, &str)] = &[(0b001, "2 rows"), (0b111, "the row at index 0 is wrong")];

#[test]
fn what_is_attracted_is_claimed(rt: HostRuntime) {
    let game = game_made(&rt, rt.alloc(), LAYERED);
    for case in TARGETS {
        let inside = mask_made(&rt, rt.alloc(), game.len(), 0b111);
        let target = mask_made(&rt, rt.alloc(), game.len(), case.0);
        compare_said(&rt, rt.alloc(), &game, &inside, &target, case.1);
    }
}

/// What another game is, to a checked claim.
fn said_of_another(alloc: Global, checked: &Checked, other: &Game) -> Result<String, AllocError> {
    match checked.first_foreign(other) {
        // each row says of its vertex what the other game says
        None => format!(in alloc; "the claim is sound there, too"),
        // v is the vertex of the first row that does not
        Some(v) => format!(in alloc; "vertex {v} is another one there"),
    }
}

/// Compares what is said of the claim of a loop that was checked on the first game.
fn compare_another(rt: &impl Abort, alloc: Global, game: &Game, other: &Game) {
    let claim = claim_of(rt, alloc, EVEN, &[(0, Some(0))]);
    let checked = made(rt, check_claim(alloc, game, &claim));
    compare_held(rt, alloc, &checked, game, "the claim is sound there, too");
    compare_held(rt, alloc, &checked, other, "vertex 0 is another one there");
}

fn compare_held(rt: &impl Abort, alloc: Global, checked: &Checked, other: &Game, want: &str) {
    let found = made(rt, said_of_another(alloc, checked, other));
    check_eq!(*rt; found.as_str(), want);
}

#[test]
fn a_checked_claim_is_held_against_another_game(rt: HostRuntime) {
    let game = game_made(&rt, rt.alloc(), &[(0, EVEN, &[0])]);
    let other = game_made(&rt, rt.alloc(), &[(1, EVEN, &[0])]);
    compare_another(&rt, rt.alloc(), &game, &other);
}
