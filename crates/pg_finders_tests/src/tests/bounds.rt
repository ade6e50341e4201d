//! `zielonka_within` on a recursive ladder (Friedmann 2011), and on a game that was made to take many steps: with
//! enough of them it gives the claims of `zielonka`, and with fewer none. Another recursion would need other numbers of
//! steps. And on small games, which never take more than the proved bound.

use crate::tests::asserting::made;
use crate::tests::games::{game, mask, whole};
use pg_finders::{Advanced, Inside, Recursion, Solved, zielonka, zielonka_within};
use pg_test_support::{EVEN, ODD, Plain, Random, Row, Vertex, bit, check, check_eq, game_of_sets};
use std::alloc::Global;
use std::process::Abort;
use std::sync::Arc;

/// Four levels, of which each has a vertex of each of five kinds.
const LADDER: &[Vertex] = &[
    (0, EVEN, &[4, 12]),
    (1, ODD, &[5, 13]),
    (0, EVEN, &[6, 14]),
    (1, ODD, &[7, 15]),
    (0, ODD, &[0, 9]),
    (1, EVEN, &[1, 10]),
    (0, ODD, &[2, 11]),
    (1, EVEN, &[3]),
    (5, ODD, &[4, 12]),
    (8, EVEN, &[5, 13]),
    (11, ODD, &[6, 14]),
    (14, EVEN, &[7, 15]),
    (4, EVEN, &[13, 16]),
    (7, ODD, &[12, 14, 17]),
    (10, EVEN, &[13, 15, 18]),
    (13, ODD, &[14, 19]),
    (3, ODD, &[12]),
    (6, EVEN, &[4, 13]),
    (9, ODD, &[5, 14]),
    (12, EVEN, &[6, 15]),
];

/// Ten vertices, found by a search for games of many steps.
const MANY_STEPS: &[Vertex] = &[
    (2, EVEN, &[0, 4]),
    (6, ODD, &[0, 2, 5]),
    (1, EVEN, &[2, 4, 8]),
    (10, EVEN, &[2]),
    (0, ODD, &[0, 1, 4]),
    (3, EVEN, &[5, 6, 9]),
    (7, ODD, &[0, 8]),
    (4, ODD, &[2, 3, 7]),
    (5, ODD, &[2, 3]),
    (11, EVEN, &[0, 4, 9]),
];

fn rows_of(solved: &Solved) -> (&[Row], &[Row]) {
    (solved.even.rows.as_slice(), solved.odd.rows.as_slice())
}

/// The claims with so many steps are those without a bound, or there are none.
fn assert_within(rt: &impl Abort, alloc: Global, inside: &Inside, steps: u64, is_enough: bool) {
    let claims = made(rt, zielonka(alloc, inside));
    match made(rt, zielonka_within(alloc, inside, Some(steps))) {
        Some(solved) => {
            check!(*rt; is_enough, steps);
            check_eq!(*rt; rows_of(&solved), rows_of(&claims), steps);
        }
        None => check!(*rt; !is_enough, steps),
    }
}

/// Just so many steps are enough.
fn assert_needs(rt: &impl Abort, alloc: Global, vertices: &[Vertex], steps: u64) {
    let game = game(rt, alloc, vertices);
    let inside = whole(rt, alloc, &game);
    for fewer in 0..steps {
        assert_within(rt, alloc, &inside, fewer, false);
    }
    assert_within(rt, alloc, &inside, steps, true);
    assert_within(rt, alloc, &inside, u64::MAX, true);
}

#[test]
fn a_ladder_of_four_levels_needs_13_steps(rt: HostRuntime) {
    assert_needs(&rt, rt.alloc(), LADDER, 13);
}

#[test]
fn a_game_of_ten_vertices_needs_20_steps(rt: HostRuntime) {
    assert_needs(&rt, rt.alloc(), MANY_STEPS, 20);
}

/// A run on a part without a vertex ends at once, whether it may take steps or not.
fn assert_nothing(rt: &impl Abort, alloc: Global, given: u64) {
    let game = made(rt, Arc::new(alloc, game(rt, alloc, LADDER)));
    let Ok(inside) = Inside::new(&game, mask(rt, alloc, &game, 0)) else {
        panic!(*rt; "no subgame")
    };
    // (the contract of `game` says that the mask is a subgame)
    check_eq!(*rt; inside.game().len(), game.len());
    let none = inside.mask().copy(alloc).expect(rt, "memory");
    let run = made(rt, Recursion::begin(alloc, &game, none));
    let mut steps = given;
    match made(rt, run.advance(alloc, &mut steps)) {
        Advanced::Solved(solved) =>
            check_eq!(*rt; rows_of(&solved), ([].as_slice(), [].as_slice())),
        Advanced::Running(_) => panic!(*rt; "steps remain"),
    }
    check_eq!(*rt; steps, given);
}

#[test]
fn a_run_without_a_vertex_ends_at_once(rt: HostRuntime) {
    assert_nothing(&rt, rt.alloc(), 0);
    assert_nothing(&rt, rt.alloc(), 7);
}

/// The proved bound for `n` vertices of `d` different priorities: 3 * (C(n, 0) + .. + C(n, d)) - 2.
fn most_steps(d: u32, n: u32) -> u64 {
    let mut choices = 1_u64;
    let mut sum = 1_u64;
    for k in 1..=d.min(n) {
        choices = choices.saturating_mul(u64::from(n - k + 1)) / u64::from(k);
        sum = sum.saturating_add(choices);
    }
    sum.saturating_mul(3).saturating_sub(2)
}

/// The bound is enough for a game whose priorities are below 32.
fn assert_bounded(rt: &impl Abort, alloc: Global, rows: &[Plain]) {
    let mut priorities = 0_u32;
    for (priority, _owner, _set) in rows {
        priorities |= bit(*priority);
    }
    let game = made(rt, game_of_sets(alloc, rows));
    let steps = most_steps(priorities.count_ones(), game.len());
    let solved = made(
        rt,
        zielonka_within(alloc, &whole(rt, alloc, &game), Some(steps)),
    );
    check!(*rt; solved.is_some(), steps);
}

/// How many rows a vertex of a game of `n` may have, if its priority is below six.
fn row_count(n: u32) -> u32 {
    bit(n).saturating_sub(1).saturating_mul(12)
}

/// The row with this number. A vertex has some successor.
fn row(n: u32, number: u32) -> Plain {
    let owner = if number % 2 == 0 { EVEN } else { ODD };
    let set = number / 12 % bit(n).saturating_sub(1).max(1);
    (number / 2 % 6, owner, set.saturating_add(1))
}

/// Three priorities have each order and each parity below six.
#[test]
fn no_game_of_three_vertices_needs_more_steps_than_the_bound(rt: HostRuntime) {
    let alloc = rt.alloc();
    for a in 0..row_count(1) {
        assert_bounded(&rt, alloc, [row(1, a)].as_slice());
    }
    for a in 0..row_count(2) {
        for b in 0..row_count(2) {
            assert_bounded(&rt, alloc, [row(2, a), row(2, b)].as_slice());
        }
    }
    for a in 0..row_count(3) {
        for b in 0..row_count(3) {
            for c in 0..row_count(3) {
                assert_bounded(&rt, alloc, [row(3, a), row(3, b), row(3, c)].as_slice());
            }
        }
    }
}

/// Of one to 12 vertices, and of one to 12 priorities.
#[test]
fn no_random_game_needs_more_steps_than_the_bound(rt: HostRuntime) {
    let alloc = rt.alloc();
    let mut random = Random::new(1);
    for _game in 0..100_000 {
        let n = random.below(12).saturating_add(1);
        let priorities = random.below(12).saturating_add(1);
        let mut rows = Vec::new(alloc);
        for _v in 0..n {
            let owner = if random.below(2) == 0 { EVEN } else { ODD };
            let set = (random.below(bit(n)) & random.below(bit(n))) | bit(random.below(n));
            made(&rt, rows.push((random.below(priorities), owner, set)));
        }
        assert_bounded(&rt, alloc, rows.as_slice());
    }
}
