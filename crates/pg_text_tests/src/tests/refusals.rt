//! What the readers refuse as calls: a row for each fault. The order of faults and all places are tested of the
//! built program.

use crate::tests::asserting::made;
use pg_game::GameFault;
use pg_test_support::check_eq;
use pg_text::{SolutionTextFault, TextFault, read_game, read_known, read_solution};
use std::alloc::Global;
use std::process::Abort;

const GAMES: &[(&[u8], TextFault)] = &[
    (b"0 0 0 0; -", TextFault::Lexical(9)),
    (b"0 0 0 ;", TextFault::Syntax(6)),
    (b"0 0 0 2147483648;", TextFault::Number(6)),
    (b"0 0 2 0;", TextFault::Owner(4)),
    (b"0 0 0 7;", TextFault::Game(GameFault::Unknown(0, 7))),
];

fn compare_game(rt: &impl Abort, alloc: Global, text: &[u8], fault: TextFault) {
    assert!(*rt; text.len() <= 1_000);
    check_eq!(*rt; read_game(alloc, text).err(), Some(fault));
}

#[test]
fn each_fault_of_a_game_text_is_returned(rt: HostRuntime) {
    for case in GAMES {
        compare_game(&rt, rt.alloc(), case.0, case.1);
    }
}

/// A text, its fault as a solution, and as what is known.
type Case<'a> = (
    &'a [u8],
    Option<SolutionTextFault>,
    Option<SolutionTextFault>,
);

const LEXICAL: Option<SolutionTextFault> = Some(SolutionTextFault::Lexical(7));

const SYNTAX: Option<SolutionTextFault> = Some(SolutionTextFault::Syntax(5));

const NUMBER: Option<SolutionTextFault> = Some(SolutionTextFault::Number(4));

const WINNER: Option<SolutionTextFault> = Some(SolutionTextFault::Winner(9));

const STRANGER: Option<SolutionTextFault> = Some(SolutionTextFault::Stranger(7));

const TWICE: Option<SolutionTextFault> = Some(SolutionTextFault::Twice(1));

const MISSING: Option<SolutionTextFault> = Some(SolutionTextFault::Missing(1));

const SOLUTIONS: &[Case] = &[
    (b"0 0 0; -", LEXICAL, LEXICAL),
    (b"0 0 0", SYNTAX, SYNTAX),
    (b"0 0 2147483648;", NUMBER, NUMBER),
    (b"0 0 0; 1 2;", WINNER, WINNER),
    (b"0 0 7; 1 1 1;", STRANGER, STRANGER),
    (b"1 1 1; 0 0 0; 1 1 1;", TWICE, TWICE),
    (b"0 0 0;", MISSING, None),
];

fn compare_solution(rt: &impl Abort, alloc: Global, case: &Case) {
    let game = made(rt, read_game(alloc, b"0 2 0 0,1; 1 1 1 1;"));
    assert!(*rt; case.0.len() <= 1_000);
    check_eq!(*rt; read_solution(alloc, &game, case.0).err(), case.1);
    check_eq!(*rt; read_known(alloc, &game, case.0).err(), case.2);
}

#[test]
fn each_fault_of_a_solution_text_is_returned(rt: HostRuntime) {
    for case in SOLUTIONS {
        compare_solution(&rt, rt.alloc(), case);
    }
}
