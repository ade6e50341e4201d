//! The code of README.md, which `tests/pages/pages.py` of the repository looks for here.

ghost use Rattle.std.specs.Prelude.{◌≡◌, ◌<◌, length};

use crate::tests::games::{game, mask};
use pg_finders::{Inside, Small, find_small, zielonka};
use pg_game::{Game, Mask, Player};
use pg_test_support::{EVEN, ODD, Vertex, check_eq};
use std::alloc::{AllocError, Global};
use std::process::Abort;

/// What is said of a part of a game, with a search for a dominion of Even's that holds the seed.
fn said(alloc: Global, game: &Game, mask: Mask, seed: u32) -> Result<String, AllocError>
    requires size { length mask ≡ length game.now }
    requires seed { seed < length game.now }
{
    let Ok(inside) = Inside::new(game, mask) else {
        return format!(in alloc; "no subgame");
    };
    // solved.even and solved.odd are claims that share the mask out
    let solved = zielonka(alloc, &inside)?;
    let won = solved.even.rows.as_slice().len();
    said_of_small(alloc, inside, seed, won)
}

/// What is said of a search that begins at the seed.
fn said_of_small(alloc: Global, inside: Inside, seed: u32, won: usize) -> Result<String, AllocError>
    requires { seed < length inside.graph }
{
    let seeds = [seed];
    match find_small(alloc, &inside, Player::Even, seeds.as_slice(), 4, 10_000)? {
        // a claim of at most four vertices, with a seed among them
        Small::Found(claim) => {
            let rows = claim.rows.as_slice().len();
            format!(in alloc; "Even wins {won}; a claim has {rows}")
        }
        // proved: there is none
        Small::Nothing => format!(in alloc; "Even wins {won}; no small claim has a seed"),
        // the budget ended the search
        Small::GaveUp => format!(in alloc; "Even wins {won}; nothing was found"),
    }
}

/// Compares what is said of the part of a game that a set of its vertices is.
fn compare_said(rt: &impl Abort, alloc: Global, game: &Game, members: u32, want: &str) {
    assert!(*rt; game.len() > 0);
    let found = said(alloc, game, mask(rt, alloc, game, members), 0).expect(rt, "memory");
    check_eq!(*rt; found.as_str(), want);
}

const VERTICES: &[Vertex] = &[(2, EVEN, &[0, 1]), (1, ODD, &[1]), (0, ODD, &[0])];

const SAID: &[(u32, &str)] = &[
    (0b111, "Even wins 2; a claim has 1"),
    (0b100, "no subgame"),
    (0b10, "Even wins 0; no small claim has a seed"),
];

#[test]
fn a_part_of_a_game_is_solved_and_searched(rt: HostRuntime) {
    let alloc = rt.alloc();
    let game = game(&rt, alloc, VERTICES);
    for (members, want) in SAID {
        compare_said(&rt, alloc, &game, *members, *want);
    }
}
