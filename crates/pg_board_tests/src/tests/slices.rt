//! Sessions that are settled in slices, against `finish` on a session of the same game with the same posts.

use crate::tests::asserting::made;
use crate::tests::games::plain_game;
use pg_board::{Entry, Session};
use pg_dominion::Claim;
use pg_game::{Player, Sequence};
use pg_test_support::{EVEN, ODD, Plain, Random, Row, check, check_eq, has, random_game, size_of};
use std::alloc::Global;
use std::process::Abort;

/// More slices than a game of 28 vertices needs.
const MOST_SLICES: u32 = 100_000;

/// Mostly a member of a set of numbers below `n`.
fn random_member(random: &mut Random, set: u32, n: u32) -> u32 {
    for _try in 0..32 {
        let v = random.below(n);
        if has(set, v) {
            return v;
        }
    }
    0
}

/// A claim of random vertices, mostly with right rows.
fn random_claim(rt: &impl Abort, alloc: Global, random: &mut Random, game: &[Plain]) -> Claim {
    let player = if random.below(2) == 0 { EVEN } else { ODD };
    let density = random.below(4);
    let mut rows = Vec::new(alloc);
    let mut v = 0u32;
    for vertex in game {
        if random.below(4) <= density {
            let mut choice = None;
            if vertex.1 == player {
                choice = Some(random_member(random, vertex.2, size_of(game)));
            }
            made(rt, rows.push((v, choice)));
        }
        v = v.saturating_add(1);
    }
    Claim {
        player,
        rows: Sequence::new(rows),
    }
}

/// A number that changes with whatever an entry says.
fn digest_of(entries: &[Entry]) -> u64 {
    let mut digest = 1u64;
    for entry in entries {
        digest = mixed(digest, entry.worker);
        digest = mixed(digest, u32::from(entry.player == ODD));
        digest = mixed(digest, entry.claimed);
        digest = with_rows(digest, entry.rows.as_slice());
    }
    digest
}

fn with_rows(mut digest: u64, rows: &[Row]) -> u64 {
    for row in rows {
        digest = mixed(digest, row.0);
        digest = mixed(digest, row.1.unwrap_or(u32::MAX));
    }
    digest
}

fn mixed(digest: u64, number: u32) -> u64 {
    digest
        .wrapping_add(u64::from(number))
        .wrapping_add(1)
        .wrapping_mul(6_364_136_223_846_793_005)
        .rotate_left(29)
}

fn session_of(rt: &impl Abort, alloc: Global, plain: &[Plain]) -> Session {
    made(rt, Session::open(alloc, plain_game(rt, alloc, plain)))
}

/// Takes slices of at most two steps until all is settled. Returns how many steps they took.
fn steps_of_slices(
    rt: &impl Abort,
    alloc: Global,
    random: &mut Random,
    session: &mut Session,
) -> u64 {
    let mut taken = 0u64;
    for _slice in 0..MOST_SLICES {
        let given = u64::from(random.below(3));
        let mut left = given;
        let is_full = made(rt, session.advance(alloc, &mut left));
        taken = taken.wrapping_add(given.wrapping_sub(left));
        if is_full {
            return taken;
        }
    }
    panic!(*rt; "the slices do not end")
}

/// Compares what slices add, and the steps that they take, with a session that is finished at once.
fn compare_with_whole(
    rt: &impl Abort,
    alloc: Global,
    random: &mut Random,
    mut whole: Session,
    mut sliced: Session,
) -> u64 {
    let taken = steps_of_slices(rt, alloc, random, &mut sliced);
    if taken > 0 {
        check!(*rt; !made(rt, whole.finish(alloc, Some(taken.wrapping_sub(1)))));
    }
    check!(*rt; made(rt, whole.finish(alloc, Some(taken))));
    check_eq!(*rt; digest_of(sliced.entries()), digest_of(whole.entries()));
    taken
}

/// Posts some random claims to two sessions of a game, and settles the rest of one in slices and of the other at once. Returns the
/// steps.
fn compare_game(rt: &impl Abort, alloc: Global, random: &mut Random) -> u64 {
    let plain = made(rt, random_game(alloc, random));
    let mut whole = session_of(rt, alloc, plain.as_slice());
    let mut sliced = session_of(rt, alloc, plain.as_slice());
    for _post in 0..random.below(4) {
        let claim = random_claim(rt, alloc, random, plain.as_slice());
        let found = whole.post(alloc, 7, &claim);
        check_eq!(*rt; sliced.post(alloc, 7, &claim), found);
    }
    compare_with_whole(rt, alloc, random, whole, sliced)
}

#[test]
fn slices_post_the_same_as_finish_and_take_as_many_steps(rt: HostRuntime) {
    let mut random = Random::new(20_261_129);
    let mut of_many_steps = 0u32;
    for _game in 0..1_000 {
        if compare_game(&rt, rt.alloc(), &mut random) > 3 {
            of_many_steps = of_many_steps.saturating_add(1);
        }
    }
    check!(rt; of_many_steps > 50, of_many_steps);
}

/// A session with the same entries, of which each is posted anew.
fn replayed(rt: &impl Abort, alloc: Global, plain: &[Plain], entries: &[Entry]) -> Session {
    let mut session = session_of(rt, alloc, plain);
    for entry in entries {
        let mut rows = Vec::new(alloc);
        for row in entry.rows.as_slice().iter().take(entry.claimed as usize) {
            made(rt, rows.push(*row));
        }
        let claim = Claim {
            player: entry.player,
            rows: Sequence::new(rows),
        };
        check!(*rt; session.post(alloc, entry.worker, &claim).is_ok());
    }
    check_eq!(*rt; digest_of(session.entries()), digest_of(entries));
    session
}

/// All that a player wins, with the choices of a session that was finished.
fn region_of(rt: &impl Abort, alloc: Global, plain: &[Plain], player: Player) -> Claim {
    let mut session = session_of(rt, alloc, plain);
    check!(*rt; made(rt, session.finish(alloc, None)));
    let mut rows = Vec::new(alloc);
    for v in 0..session.game().len() {
        if let Some((winner, choice)) = session.state(v) {
            if winner == player {
                made(rt, rows.push((v, choice)));
            }
        }
    }
    Claim {
        player,
        rows: Sequence::new(rows),
    }
}

/// Takes some slices and posts all that a player wins. The slices that follow add what `finish` adds to a session with the same
/// entries. Returns whether something of it was unsettled.
fn compare_with_post_between(rt: &impl Abort, alloc: Global, random: &mut Random) -> bool {
    let plain = made(rt, random_game(alloc, random));
    let mut sliced = session_of(rt, alloc, plain.as_slice());
    for _slice in 0..random.below(8) {
        let mut steps = u64::from(random.below(3));
        let _is_full = made(rt, sliced.advance(alloc, &mut steps));
    }
    let player = if random.below(2) == 0 { EVEN } else { ODD };
    let claim = region_of(rt, alloc, plain.as_slice(), player);
    if sliced.post(alloc, 7, &claim).is_err() {
        return false;
    }
    let whole = replayed(rt, alloc, plain.as_slice(), sliced.entries());
    let _taken = compare_with_whole(rt, alloc, random, whole, sliced);
    true
}

#[test]
fn slices_begin_anew_after_a_post(rt: HostRuntime) {
    let mut random = Random::new(20_261_130);
    let mut accepted = 0u32;
    for _game in 0..2_000 {
        if compare_with_post_between(&rt, rt.alloc(), &mut random) {
            accepted = accepted.saturating_add(1);
        }
    }
    check!(rt; accepted > 300, accepted);
}

/// The searches before the recursion on a game of at most 64 vertices.
const SEARCHES: u32 = 4;

/// How many slices a game needs, the first of which have so many steps, and the others all that there are.
fn slices_of(rt: &impl Abort, alloc: Global, plain: &[Plain], first: u64) -> u32 {
    let mut session = session_of(rt, alloc, plain);
    for slice in 0..MOST_SLICES {
        let mut steps = if slice < SEARCHES { first } else { u64::MAX };
        if made(rt, session.advance(alloc, &mut steps)) {
            return slice.saturating_add(1);
        }
    }
    panic!(*rt; "the slices do not end")
}

#[test]
fn a_game_needs_one_slice_for_each_search_and_for_the_recursion(rt: HostRuntime) {
    let mut random = Random::new(20_261_131);
    let mut most = (0u32, 0u32);
    for _game in 0..1_000 {
        let plain = made(&rt, random_game(rt.alloc(), &mut random));
        most = (
            most.0.max(slices_of(&rt, rt.alloc(), plain.as_slice(), 0)),
            most.1
                .max(slices_of(&rt, rt.alloc(), plain.as_slice(), u64::MAX)),
        );
    }
    check_eq!(rt; most, (5, 5));
}
