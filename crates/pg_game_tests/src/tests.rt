//! Worked games, the refusals in their order, and both sides of each limit. A call that was refused memory returns
//! the same the second time.

ghost use Rattle.std.specs.Prelude.{◌≡◌, All, IfOk, length};
ghost use Rattle.pg_game.specs.Specification.{AreNumbers};

mod allocations;
mod asserting;
mod readme;

use crate::tests::asserting::made;
use pg_game::{ForwardGame, Game, GameBuilder, GameFault, Mask, Memory, Player, Sequence, Spec};
use pg_test_support::{EVEN, ODD, check_eq, twice};
use std::alloc::Global;
use std::process::Abort;

type Row<'a> = (u32, u32, Player, &'a [u32]);

/// In order, so that flat lists are the game as they are.
const IN_ORDER: &[Row] = &[(0, 2, EVEN, &[0, 1]), (1, 1, ODD, &[1])];

/// What is returned of a vertex: its row, which names its successors as vertices, and its predecessors.
type Expected<'a> = (Row<'a>, &'a [u32]);

/// The vertices of `IN_ORDER`.
const EXPECTED_IN_ORDER: &[Expected] = &[
    ((0, 2, EVEN, &[0, 1]), &[0]),
    ((1, 1, ODD, &[1]), &[0, 1]),
];

/// Adds a specification, with numbers cut down to the greatest.
fn add(
    specs: &mut Vec<Spec>,
    id: u32,
    priority: u32,
    owner: Player,
    successors: Vec<u32>,
) -> Result<(), Memory>
    requires { All AreNumbers specs.old.items }
    ensures { All AreNumbers specs.new.items }
{
    specs.push(spec_of(id, priority, owner, Sequence::new(successors)))?;
    Ok(())
}

/// A specification, with numbers cut down to the greatest.
fn spec_of(id: u32, priority: u32, owner: Player, successors: Sequence<u32>) -> Spec
    ensures { AreNumbers result }
{
    Spec {
        id: id.min(2_147_483_647),
        priority: priority.min(2_147_483_647),
        owner,
        successors,
    }
}

/// Adds the specification of a row.
fn add_row(alloc: Global, specs: &mut Vec<Spec>, row: Row) -> Result<(), Memory>
    requires { All AreNumbers specs.old.items }
    ensures { All AreNumbers specs.new.items }
{
    let successors = Vec::from_slice(alloc, row.3)?;
    add(specs, row.0, row.1, row.2, successors)
}

fn specs_of(alloc: Global, rows: &[Row]) -> Result<Vec<Spec>, Memory>
    ensures { IfOk result (λ specs. All AreNumbers specs.items) }
{
    let mut specs = Vec::new(alloc);
    'rows: for row in rows {
        add_row(alloc, &mut specs, *row)?;
    }
    Ok(specs)
}

/// Adds a row to flat lists, with numbers cut down to the greatest.
fn add_flat(flat: &mut GameBuilder, row: Row) -> Result<(), Memory>
    requires { All AreNumbers flat.old }
    ensures { All AreNumbers flat.new }
{
    let id = row.0.min(2_147_483_647);
    let priority = row.1.min(2_147_483_647);
    flat.push(id, priority, row.2, row.3)
}

/// As `Game::from_specs`, without its contract.
fn from_specs(alloc: Global, specs: Vec<Spec>) -> Result<Game, GameFault>
    requires { All AreNumbers specs.items }
{
    Game::from_specs(alloc, specs)
}

/// The game of flat lists, without a contract.
fn from_builder(alloc: Global, specs: GameBuilder) -> Result<Game, GameFault>
    requires { All AreNumbers specs }
{
    let forward = ForwardGame::from_builder(alloc, specs)?;
    Ok(Game::of_forward(alloc, forward)?)
}

fn game_of(alloc: Global, rows: &[Row]) -> Result<Game, GameFault> {
    from_specs(alloc, specs_of(alloc, rows)?)
}

/// All that is returned of a vertex.
fn look_at(rt: &impl Abort, game: &Game, v: u32, expected: Expected) {
    assert!(*rt; v < game.len());
    let row = (
        game.id(v),
        game.priority(v),
        game.owner(v),
        game.successors(v),
    );
    check_eq!(*rt; (row, game.predecessors(v)), expected, v);
    check_eq!(*rt; game.vertex_of(row.0), Some(v), v);
}

/// How many vertices a game has, and all that is returned of them.
fn look(rt: &impl Abort, game: &Game, vertices: &[Expected]) {
    check_eq!(*rt; game.len() as usize, vertices.len());
    let mut v = 0u32;
    for expected in vertices {
        look_at(rt, game, v, *expected);
        v = v.wrapping_add(1);
    }
}

/// Rows and their first fault.
const REFUSED: &[(&[Row], GameFault)] = &[
    (&[], GameFault::NoVertex),
    (
        &[(0, 0, EVEN, &[]), (5, 1, ODD, &[7]), (5, 1, ODD, &[0])],
        GameFault::Twice(5),
    ),
    (
        &[(0, 0, EVEN, &[7]), (5, 1, ODD, &[])],
        GameFault::NoSuccessor(5),
    ),
    (
        &[(4, 0, EVEN, &[4]), (1, 1, ODD, &[4, 8, 7])],
        GameFault::Unknown(1, 8),
    ),
];

#[test]
fn faults_come_in_their_order(rt: HostRuntime) {
    for case in REFUSED {
        check_eq!(rt; game_of(rt.alloc(), case.0).err(), Some(case.1));
    }
}

/// The numbers below `n`.
fn numbers_below(alloc: Global, n: u32) -> Result<Vec<u32>, Memory> {
    let mut numbers = Vec::new(alloc);
    for number in 0..n {
        numbers.push(number)?;
    }
    Ok(numbers)
}

/// As many vertices, each with the first `degree` as successors and its number as priority, but at most the
/// last.
fn dense(alloc: Global, n: u32, degree: u32, last: u32) -> Result<Vec<Spec>, Memory>
    ensures { IfOk result (λ specs. All AreNumbers specs.items) }
{
    let first = numbers_below(alloc, degree)?;
    let mut specs = Vec::new(alloc);
    'vertices: for v in 0..n {
        add(
            &mut specs,
            v,
            v.min(last),
            EVEN,
            Vec::from_slice(alloc, first.as_slice())?,
        )?;
    }
    Ok(specs)
}

/// How many vertices a dense list has, how many successors each has, the greatest priority, and its fault.
type Dense = (u32, u32, u32, Option<GameFault>);

fn compare_dense(rt: &impl Abort, alloc: Global, (n, degree, last, wanted): Dense) {
    let specs = dense(alloc, n, degree, last).expect(rt, "memory");
    check_eq!(*rt; from_specs(alloc, specs).err(), wanted, n);
}

const LIMITS: &[Dense] = &[
    (1_048_577, 0, 0, Some(GameFault::TooManyVertices)),
    (1_048_576, 0, 0, Some(GameFault::NoSuccessor(0))),
    (1_048_576, 1, 1_048_575, None),
    (4_096, 4_096, 0, None),
    (4_097, 4_096, 9_999, Some(GameFault::TooManyEdges)),
];

#[test]
fn vertices_are_limited_before_all_else_and_edges_before_their_ends(rt: HostRuntime) {
    for case in LIMITS {
        compare_dense(&rt, rt.alloc(), *case);
    }
}

/// The full mask of three numbers.
fn full_mask(rt: &impl Abort, alloc: Global) -> Mask
    ensures { length result ≡ 3 }
{
    match Mask::full(alloc, 3) {
        Ok(mask) => mask,
        Err(_) => Mask::full(alloc, 3).expect(rt, "memory"),
    }
}

/// Its copy.
fn copy_of(rt: &impl Abort, alloc: Global, mask: &Mask) -> Mask
    requires { length mask.now ≡ 3 }
    ensures { length result ≡ 3 }
{
    match mask.copy(alloc) {
        Ok(copy) => copy,
        Err(_) => mask.copy(alloc).expect(rt, "memory"),
    }
}

#[test]
fn a_copy_of_a_mask_changes_alone_after_a_refusal(rt: HostRuntime) {
    let full = full_mask(&rt, rt.alloc());
    let mut copy = copy_of(&rt, rt.alloc(), &full);
    copy.remove(2);
    let empty = made(&rt, twice!(Mask::empty(rt.alloc(), 3)));
    check_eq!(rt; (copy.count(), full.count(), empty.count()), (2, 3, 0));
}

/// With a gap and a repeated successor.
const WITH_A_GAP: &[Row] = &[(9, 2, ODD, &[3, 3, 9]), (3, 1, EVEN, &[9])];

/// Its vertices.
const EXPECTED: &[Expected] = &[((3, 1, EVEN, &[1]), &[1]), ((9, 2, ODD, &[0, 1]), &[0, 1])];

#[test]
fn a_game_is_made_after_a_refusal(rt: HostRuntime) {
    let game = made(
        &rt,
        twice!(game_of(rt.alloc(), WITH_A_GAP), GameFault::Memory),
    );
    look(&rt, &game, EXPECTED);
}
