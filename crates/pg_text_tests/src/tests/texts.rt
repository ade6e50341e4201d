//! Texts that are read and written. A call that was refused memory returns the same the second time.

ghost use Rattle.std.specs.Prelude.{IfOk};
ghost use Rattle.pg_text.specs.Solution.{AreSolutionRows};

use crate::tests::asserting::made;
use pg_game::{Game, Player};
use pg_test_support::{EVEN, ODD, check_eq, twice};
use pg_text::{
    Solution, SolutionTextFault, TextFault, read_game, read_known, read_solution, write_game,
    write_solution, write_winners,
};
use std::alloc::Global;
use std::process::Abort;

const WRITTEN_GAME: &[u8] =
    b"parity 9;\n0 6 1 2,9;\n1 8 1 2,3,9;\n2 7 0 0,1,3,9;\n3 6 0 2,9;\n9 5 1 0;\n";

fn game(rt: &impl Abort, alloc: Global) -> Game {
    let text = b"parity 9; 0 6 1 9,2 \"Africa\"; 9 5 1 0; 1 8 1 2,9,3; 3 6 0 9,2; 2 7 0 3,1,0,9;";
    made(rt, twice!(read_game(alloc, text), TextFault::Memory))
}

#[test]
fn a_game_is_read_and_written_after_a_refusal(rt: HostRuntime) {
    let game = game(&rt, rt.alloc());
    let text = made(&rt, twice!(write_game(rt.alloc(), &game)));
    check_eq!(rt; text.as_slice(), WRITTEN_GAME);
}

/// The winners and choices of a text.
const ROWS: &[(Player, Option<u32>)] = &[
    (EVEN, None),
    (EVEN, None),
    (EVEN, Some(1)),
    (EVEN, Some(4)),
    (EVEN, None),
];

const WRITTEN_SOLUTION: &[u8] = b"paritysol 9;\n0 0;\n1 0;\n2 0 1;\n3 0 9;\n9 0;\n";

const WRITTEN_WINNERS: &[u8] = b"paritysol 9;\n0 0;\n1 0;\n2 0;\n3 0;\n9 0;\n";

fn solution(alloc: Global, game: &Game) -> Result<Solution, SolutionTextFault>
    ensures { IfOk result (λ s. AreSolutionRows game.now s.rows) }
{
    let text = b"paritysol 9; 9 0; 2 0 1; 0 0; 3 0 9; 1 0;";
    twice!(read_solution(alloc, game, text), SolutionTextFault::Memory)
}

fn compare_written(rt: &impl Abort, alloc: Global, game: &Game, solution: &Solution)
    requires { AreSolutionRows game.now solution.now.rows }
{
    let text = made(rt, twice!(write_solution(alloc, game, solution)));
    check_eq!(*rt; text.as_slice(), WRITTEN_SOLUTION);
    let winners = made(rt, twice!(write_winners(alloc, game, solution)));
    check_eq!(*rt; winners.as_slice(), WRITTEN_WINNERS);
}

#[test]
fn a_solution_is_read_and_written_after_a_refusal(rt: HostRuntime) {
    let game = game(&rt, rt.alloc());
    let solution = solution(rt.alloc(), &game).expect(&rt, "a solution");
    check_eq!(rt; solution.rows.as_slice(), ROWS);
    compare_written(&rt, rt.alloc(), &game, &solution);
}

const KNOWN_ROWS: &[Option<(Player, Option<u32>)>] = &[
    Some((ODD, Some(4))),
    None,
    Some((EVEN, Some(1))),
    None,
    Some((ODD, None)),
];

#[test]
fn what_is_known_is_read_after_a_refusal(rt: HostRuntime) {
    let game = game(&rt, rt.alloc());
    let text = b"2 0 1; 9 1; 0 1 9;";
    let known = twice!(
        read_known(rt.alloc(), &game, text),
        SolutionTextFault::Memory
    );
    let known = made(&rt, known);
    check_eq!(rt; known.rows.as_slice(), KNOWN_ROWS);
}
