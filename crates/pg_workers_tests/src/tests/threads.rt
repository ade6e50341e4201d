//! One office whose shares are on threads of their own, each of which posts every claim of a finder.

ghost use Rattle.std.specs.Prelude.{◌≡◌, []};

use crate::tests::finders::Singles;
use crate::tests::games::{continents, game_of, two_loops};
use pg_board::{Board, Office, Opening, Share};
use pg_dominion::Claim;
use pg_finders::{Finder, Job};
use pg_game::Game;
use pg_test_support::check_eq;
use std::alloc::Global;
use std::marker::Brand;
use std::process::Abort;
use std::sync::Wait;
use std::sync::ledger::Blank;
use std::thread;
use std::thread::Threads;

/// What `Singles` claims on a new board of the game.
fn singles_of(rt: &impl Abort, alloc: Global, game: &Game) -> Vec<Claim> {
    let board = Board::open(alloc, game).expect(rt, "memory");
    let copied = board.copy(alloc).expect(rt, "memory");
    let found = Singles.find(alloc, &copied, &Job::Loops);
    found.expect(rt, "memory").claims
}

/// Posts the claims in order, whatever is answered.
fn post_each<L: Opening, R: Wait>(
    rt: &R,
    alloc: Global,
    office: &Office<L>,
    share: &mut Share<L>,
    worker: u32,
    claims: &[Claim],
) {
    for claim in claims {
        let _ = office.post(rt, alloc, share, worker, claim);
    }
}

/// The sum of the shares' amounts.
fn sum_of<L: Opening>(shares: &[Share<L>]) -> u64 {
    let mut sum = 0u64;
    for share in shares {
        sum = sum.wrapping_add(share.amount());
    }
    sum
}

/// Compares the number settled at the closing with what the shares' amounts add up to, and with what is wanted.
fn compare_sum<L: Opening + Send + Sync, R: Threads + Wait + Abort + Sync>(
    rt: &R,
    alloc: Global,
    blank: Blank,
    game: &Game,
    want: u64,
)
    requires name { blank.name ≡ L.name }
    requires parts { (blank.parts ≡ L.parts) × (blank.parts ≡ 8) }
    requires opened { record { graph = game.now; journal = [] } ≡ L.opened }
{
    let found = singles_of(rt, alloc, game);
    let claims = found.as_slice();
    let (office, mut shares) = Office::<L>::open(alloc, blank, game, 8).expect(rt, "memory");
    let shared = &office;
    let post = |place: usize, share: &mut Share<L>| {
        post_each(rt, alloc, shared, share, (place % 64) as u32 + 1, claims)
    };
    thread::for_each_mut(rt, shares.as_mut_slice(), 8, &post);
    let sum = sum_of(shares.as_slice());
    let board = office.close(shares);
    check_eq!(*rt; (board.settled(), sum), (want, want));
}

fn compare_once<R: Threads + Wait + Abort + Sync>(rt: &R, alloc: Global, game: &Game, want: u64) {
    let blank = Blank::new(8);
    compare_sum::<Brand, R>(rt, alloc, blank, game, want);
}

fn compare_often<R: Threads + Wait + Abort + Sync>(rt: &R, alloc: Global, text: &[u8], want: u64) {
    let game = game_of(rt, alloc, text);
    for _time in 0..50 {
        compare_once(rt, alloc, &game, want);
    }
}

#[test]
fn what_threads_settle_through_their_shares_adds_up(rt: HostRuntime) {
    compare_often(&rt, rt.alloc(), two_loops(), 2);
    compare_often(&rt, rt.alloc(), continents(), 0);
}
