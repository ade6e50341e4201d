//! That rankings are accepted: else searches from each bad vertex continue, which would take minutes in a
//! ladder so long that each of them looks at some of 150,000 levels.

ghost use Rattle.std.specs.Prelude.{◌≡◌, ◌≤◌, length};

use crate::tests::asserting::made;
use crate::tests::games::Hostile;
use crate::tests::kept::{least_on_cycle, odd_vertices};
use pg_game::{Game, Mask};
use pg_test_support::{Draft, Random, check_eq};
use std::alloc::Global;
use std::process::Abort;

const LONG: Hostile = Hostile::Ladder(150_000, None);

/// What is after the ladder; random games follow.
const HOSTILE: &[Hostile] = &[
    Hostile::Cycle(300, 2),
    Hostile::Cycle(300, 1),
    Hostile::Cycle(300, 3),
    Hostile::Downward(200),
    Hostile::Ladder(60, None),
    Hostile::Ladder(60, Some(0)),
    Hostile::Ladder(60, Some(30)),
    Hostile::Ladder(60, Some(59)),
    Hostile::Dense(40, 2),
    Hostile::Dense(40, 1),
    Hostile::Cycle(1, 1),
    Hostile::Cycle(2, 2),
    Hostile::Cycle(5_000, 2),
];

/// A part of a game after the ladder: its first vertex, the one after it, and its least bad vertex on a
/// closed walk, if there is one.
type Part = (u32, u32, Option<u32>);

/// Adds a part, and notes where it is, and the answer to it alone, which is so small that no ranking has to
/// be accepted.
fn add_part(
    rt: &impl Abort,
    alloc: Global,
    draft: &mut Draft,
    parts: &mut Vec<Part>,
    hostile: Hostile,
) {
    let first = draft.len();
    hostile.add(rt, alloc, draft);
    let answer = match least_odd_on_cycle(rt, alloc, &hostile.game(rt, alloc)) {
        Some(v) => Some(v.saturating_add(first)),
        None => None,
    };
    made(rt, parts.push((first, draft.len(), answer)));
}

/// The least vertex of Odd's parity on a bad closed walk of all edges.
fn least_odd_on_cycle(rt: &impl Abort, alloc: Global, game: &Game) -> Option<u32> {
    least_on_cycle(rt, alloc, game, odd_vertices(rt, alloc, game))
}

fn add_hostile(rt: &impl Abort, alloc: Global, draft: &mut Draft, parts: &mut Vec<Part>) {
    for hostile in HOSTILE {
        add_part(rt, alloc, draft, parts, *hostile);
    }
}

fn add_random(rt: &impl Abort, alloc: Global, draft: &mut Draft, parts: &mut Vec<Part>) {
    let mut seeds = Random::new(20_241_122);
    for _round in 0..3_000u32 {
        let seed = u64::from(seeds.below(u32::MAX));
        add_part(rt, alloc, draft, parts, Hostile::Random(seed));
    }
}

/// The ladder with all parts, and notes where these are.
fn long_game(rt: &impl Abort, alloc: Global, parts: &mut Vec<Part>) -> Game {
    let mut draft = Draft::new(alloc);
    LONG.add(rt, alloc, &mut draft);
    add_hostile(rt, alloc, &mut draft, parts);
    add_random(rt, alloc, &mut draft, parts);
    made(rt, draft.game(alloc))
}

/// The vertices with odd priorities, without those of parts that have an answer, but for the part at
/// `chosen`.
fn bad_vertices(rt: &impl Abort, alloc: Global, game: &Game, parts: &[Part], chosen: usize) -> Mask
    ensures { length result ≡ length game.now }
{
    let mut bad = odd_vertices(rt, alloc, game);
    let n = game.len();
    let mut place = 0usize;
    'parts: for part in parts {
        if part.2.is_some() && place != chosen {
            clear(&mut bad, part.0, part.1.min(n));
        }
        place = place.wrapping_add(1);
    }
    bad
}

/// Removes the numbers from one on, before another.
fn clear(mask: &mut Mask, first: u32, end: u32)
    requires { end ≤ length mask.old }
    ensures { length mask.new ≡ length mask.old }
{
    'numbers: for v in first..end {
        mask.remove(v);
    }
}

/// The answer of a part, where no other part has a bad closed walk.
fn compare_part(
    rt: &impl Abort,
    alloc: Global,
    game: &Game,
    parts: &[Part],
    chosen: usize,
    want: Option<u32>,
) {
    let bad = bad_vertices(rt, alloc, game, parts, chosen);
    check_eq!(*rt; least_on_cycle(rt, alloc, game, bad), want);
}

/// No part has a bad closed walk, and then each hostile one that has an answer and each four-hundredth random
/// one alone has its.
fn compare_parts(rt: &impl Abort, alloc: Global, game: &Game, parts: &[Part]) {
    compare_part(rt, alloc, game, parts, parts.len(), None);
    let mut place = 0usize;
    for part in parts {
        if part.2.is_some() && (place < HOSTILE.len() || place % 400 == 0) {
            compare_part(rt, alloc, game, parts, place, part.2);
        }
        place = place.wrapping_add(1);
    }
}

#[test]
fn a_ranking_is_accepted_of_each_game_behind_a_long_ladder(rt: HostRuntime) {
    let mut parts = Vec::new(rt.alloc());
    let game = long_game(&rt, rt.alloc(), &mut parts);
    compare_parts(&rt, rt.alloc(), &game, parts.as_slice());
}

/// The least bad vertex of a long ladder with a turned level.
fn compare_turned(rt: &impl Abort, alloc: Global, level: u32, want: u32) {
    let game = Hostile::Ladder(150_000, Some(level)).game(rt, alloc);
    check_eq!(*rt; least_odd_on_cycle(rt, alloc, &game), Some(want));
}

#[test]
fn a_ranking_is_accepted_of_a_long_ladder_with_a_turned_level(rt: HostRuntime) {
    compare_turned(&rt, rt.alloc(), 0, 150_002);
    compare_turned(&rt, rt.alloc(), 75_000, 300_002);
    compare_turned(&rt, rt.alloc(), 149_999, 450_000);
}
