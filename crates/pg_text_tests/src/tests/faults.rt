//! The line that each fault is shown with.

use crate::tests::asserting::made;
use pg_game::GameFault;
use pg_test_support::check_eq;
use pg_text::{SolutionTextFault, TextFault};
use std::alloc::Global;
use std::fmt::Display;
use std::process::Abort;

/// A fault is shown with this line.
fn compare_line<E: Display + Drop>(rt: &impl Abort, alloc: Global, fault: E, line: &str) {
    let text = made(rt, fault.to_string(alloc));
    check_eq!(*rt; text.as_str(), line);
}

const LINES: &[(TextFault, &str)] = &[
    (TextFault::Lexical(8), "byte 8: no token"),
    (TextFault::Syntax(17), "byte 17: not expected"),
    (TextFault::Number(7), "byte 7: number too large"),
    (TextFault::Owner(4), "byte 4: owner is not 0 or 1"),
    (TextFault::Game(GameFault::NoVertex), "no vertex"),
    (
        TextFault::Game(GameFault::TooManyVertices),
        "too many vertices",
    ),
    (
        TextFault::Game(GameFault::Twice(3)),
        "vertex 3: specified twice",
    ),
    (
        TextFault::Game(GameFault::NoSuccessor(3)),
        "vertex 3: no successor",
    ),
    (TextFault::Game(GameFault::TooManyEdges), "too many edges"),
    (
        TextFault::Game(GameFault::Unknown(0, 7)),
        "vertex 0: successor 7 is not specified",
    ),
    (TextFault::Game(GameFault::Memory), "no memory"),
    (TextFault::Memory, "no memory"),
];

#[test]
fn each_fault_of_a_game_text_has_its_line(rt: HostRuntime) {
    for case in LINES {
        compare_line(&rt, rt.alloc(), case.0, case.1);
    }
}

const SOLUTION_LINES: &[(SolutionTextFault, &str)] = &[
    (SolutionTextFault::Lexical(8), "byte 8: no token"),
    (SolutionTextFault::Syntax(17), "byte 17: not expected"),
    (SolutionTextFault::Number(7), "byte 7: number too large"),
    (SolutionTextFault::Winner(4), "byte 4: winner is not 0 or 1"),
    (SolutionTextFault::Stranger(2), "vertex 2: not in the game"),
    (SolutionTextFault::Twice(2), "vertex 2: written twice"),
    (SolutionTextFault::Missing(2), "vertex 2: not written"),
    (SolutionTextFault::Memory, "no memory"),
];

#[test]
fn each_fault_of_a_solution_text_has_its_line(rt: HostRuntime) {
    for case in SOLUTION_LINES {
        compare_line(&rt, rt.alloc(), case.0, case.1);
    }
}
