//! Claims and copies through the shares of an office.

ghost use Rattle.std.specs.Prelude.{◌≡◌, ◌≤◌, ◌<◌, [], vec_len};

use crate::tests::asserting::made;
use crate::tests::boards::{Case, FULL, HALF, LAYERS, NEW, compare_copy};
use crate::tests::calls::Call;
use crate::tests::games::{DIVIDED, LAYERED, SHARED, claim_of, game_made, new_board};
use pg_board::{Board, Office, Opening, Refusal, Share};
use pg_dominion::ClaimFault;
use pg_finders::Copied;
use pg_game::{Game, Player};
use pg_test_support::{EVEN, ODD, Row, Vertex, check, check_eq, lacking};
use std::alloc::Global;
use std::marker::Brand;
use std::process::Abort;
use std::sync::Wait;
use std::sync::ledger::Blank;
use std::test::Fail;

/// A worker's claim of one row, its answer, the share's amount then, and what a copy of the board then has.
type Put<'a> = (u32, Player, Row, Result<u32, Refusal>, u64, &'a Case<'a>);

/// What is asked of an office through the share of a seat.
enum Step<'a> {
    /// A claim, by the call that is tried.
    Put(Put<'a>),
    /// A claim that was checked on another game, and is settled.
    Foreign(&'a [Vertex<'a>], Put<'a>),
    /// The amount.
    Amount(u64),
    /// A copy.
    Copy(&'a Case<'a>),
}

/// What the board has at the closing: how many vertices are settled, whether these are all, and how many of them by the
/// workers 0, 1 and 2.
type Closed = (u64, bool, (u64, u64, u64));

/// A game, a claim that is posted by worker 0 before an office opens with the board, what a copy then has, the number of
/// seats, what is asked through the share of which seat, and the board at the closing.
pub struct Run<'a> {
    pub game: &'a [Vertex<'a>],
    posted: Option<(Player, Row)>,
    first: &'a Case<'a>,
    seats: u32,
    steps: &'a [(usize, Step<'a>)],
    closed: Closed,
}

const STALE: Result<u32, Refusal> = Err(Refusal::Stale);

const NO_SHAPE: Result<u32, Refusal> = Err(Refusal::Claim(ClaimFault::Shape(0)));

const BAD_CYCLE: Result<u32, Refusal> = Err(Refusal::Claim(ClaimFault::Cycle(0)));

const OPEN: Result<u32, Refusal> = Err(Refusal::Open(1, 0));

pub const RUNS: &[Run] = &[
    // a copy has what was settled through the share; a claim that is refused leaves the board as it is
    Run {
        game: SHARED,
        posted: None,
        first: NEW,
        seats: 2,
        steps: &[
            (0, Step::Copy(NEW)),
            (0, Step::Put((1, EVEN, (0, Some(2)), NO_SHAPE, 0, NEW))),
            (0, Step::Put((1, ODD, (0, None), BAD_CYCLE, 0, NEW))),
            (0, Step::Put((1, EVEN, (1, None), OPEN, 0, NEW))),
            (0, Step::Put((1, EVEN, (0, Some(0)), Ok(2), 2, HALF))),
            (0, Step::Copy(HALF)),
            (
                1,
                Step::Put((2, ODD, (1, Some(0)), Err(Refusal::Lost(1)), 0, HALF)),
            ),
            (1, Step::Put((2, ODD, (2, Some(2)), Ok(1), 1, FULL))),
            (1, Step::Put((2, ODD, (2, Some(2)), STALE, 1, FULL))),
            (0, Step::Copy(FULL)),
        ],
        closed: (3, true, (0, 2, 1)),
    },
    // a claim that was checked on another game is foreign, and the same claim may be accepted
    Run {
        game: LAYERED,
        posted: None,
        first: NEW,
        seats: 1,
        steps: &[
            (
                0,
                Step::Foreign(
                    DIVIDED,
                    (1, EVEN, (0, Some(0)), Err(Refusal::Foreign(0)), 0, NEW),
                ),
            ),
            (0, Step::Put((1, EVEN, (0, Some(0)), Ok(3), 3, LAYERS))),
        ],
        closed: (3, true, (0, 3, 0)),
    },
    // an office opens with a board with what is settled on it
    Run {
        game: SHARED,
        posted: Some((EVEN, (0, Some(0)))),
        first: HALF,
        seats: 2,
        steps: &[
            (0, Step::Amount(2)),
            (1, Step::Amount(0)),
            (0, Step::Copy(HALF)),
        ],
        closed: (2, false, (2, 0, 0)),
    },
];

/// Takes the steps in an office of a board of the game; ends the test where memory is refused to the office.
pub fn run_through<R: Wait + Abort>(
    rt: &R,
    alloc: Global,
    call: Call,
    game: &Game,
    run: &Run,
) -> Result<(), Fail> {
    let seats = run.seats.clamp(1, 64);
    let blank = Blank::new(u64::from(seats));
    match run.posted {
        None => run_new::<Brand, R>(rt, alloc, blank, seats, call, game, run),
        Some((player, row)) => {
            let board = board_of_post(rt, alloc, game, player, row);
            run_opened::<Brand, R>(rt, alloc, blank, board, seats, call, game, run)
        }
    }
}

/// Takes the steps in an office of a new board.
fn run_new<L: Opening, R: Wait + Abort>(
    rt: &R,
    alloc: Global,
    blank: Blank,
    seats: u32,
    call: Call,
    game: &Game,
    run: &Run,
) -> Result<(), Fail>
    requires name { blank.name ≡ L.name }
    requires parts { (blank.parts ≡ L.parts) × (blank.parts ≡ seats) }
    requires seats { (1 ≤ seats) × (seats ≤ 64) }
    requires opened { record { graph = game.now; journal = [] } ≡ L.opened }
{
    let Ok((office, shares)) = Office::<L>::open(alloc, blank, game, seats) else {
        return Err(lacking());
    };
    run_in(rt, alloc, call, game, office, shares, run);
    Ok(())
}

/// Takes the steps in an office of this board.
fn run_opened<L: Opening, R: Wait + Abort>(
    rt: &R,
    alloc: Global,
    blank: Blank,
    board: Board,
    seats: u32,
    call: Call,
    game: &Game,
    run: &Run,
) -> Result<(), Fail>
    requires name { blank.name ≡ L.name }
    requires parts { (blank.parts ≡ L.parts) × (blank.parts ≡ seats) }
    requires seats { (1 ≤ seats) × (seats ≤ 64) }
    requires opened { board ≡ L.opened }
{
    let Ok((office, shares)) = Office::<L>::open_with(alloc, blank, board, seats) else {
        return Err(lacking());
    };
    run_in(rt, alloc, call, game, office, shares, run);
    Ok(())
}

/// Takes the steps in this office, and closes it.
fn run_in<'g, L: Opening, R: Wait + Abort>(
    rt: &R,
    alloc: Global,
    call: Call,
    game: &Game,
    office: Office<'g, L>,
    mut shares: Vec<Share<L>>,
    run: &Run,
)
    requires { (vec_len shares ≡ L.parts) × (0 < L.parts) }
{
    take_all(rt, alloc, call, game, &office, shares.as_mut_slice(), run);
    compare_closed(rt, &office.close(shares), &run.closed);
}

/// A board on which a claim of worker 0 is settled.
fn board_of_post<'g>(
    rt: &impl Abort,
    alloc: Global,
    game: &'g Game,
    player: Player,
    row: Row,
) -> Board<'g>
    ensures { result.graph ≡ game.now }
{
    let mut board = new_board(rt, alloc, game);
    let claim = claim_of(rt, alloc, player, &[row]);
    if board.post(alloc, 0, &claim).is_err() {
        check!(*rt; board.post(alloc, 0, &claim).is_ok());
    }
    board
}

/// Takes the steps, each after what the last claim left.
fn take_all<'g, L: Opening, R: Wait + Abort>(
    rt: &R,
    alloc: Global,
    call: Call,
    game: &Game,
    office: &Office<'g, L>,
    shares: &mut [Share<L>],
    run: &Run,
) {
    let mut before = run.first;
    for step in run.steps {
        match shares.get_mut(step.0) {
            Some(share) => take(rt, alloc, call, game, office, share, before, &step.1),
            None => check!(*rt; false, "there is no such share"),
        }
        before = after(before, &step.1);
    }
}

/// What a copy has after a step.
fn after<'a>(before: &'a Case<'a>, step: &Step<'a>) -> &'a Case<'a> {
    match step {
        Step::Put(put) => put.5,
        Step::Foreign(_, put) => put.5,
        _ => before,
    }
}

fn take<'g, L: Opening, R: Wait + Abort>(
    rt: &R,
    alloc: Global,
    call: Call,
    game: &Game,
    office: &Office<'g, L>,
    share: &mut Share<L>,
    before: &Case,
    step: &Step,
) {
    match step {
        Step::Put(put) => put_row(rt, alloc, call, game, office, share, before, put),
        Step::Foreign(vertices, put) => {
            let other = game_made(rt, alloc, *vertices);
            put_row(rt, alloc, Call::Settle, &other, office, share, before, put);
        }
        Step::Amount(want) => check_eq!(*rt; share.amount(), *want),
        Step::Copy(want) => compare_copy(rt, &copied_through(rt, alloc, office, share), *want),
    }
}

/// Puts a claim of one row, which is checked on this game. Compares the answer, and the share's amount and a copy then. Where
/// memory is refused, the amount and a copy are as before, and the claim is put once more.
fn put_row<L: Opening, R: Wait + Abort>(
    rt: &R,
    alloc: Global,
    call: Call,
    game: &Game,
    office: &Office<L>,
    share: &mut Share<L>,
    before: &Case,
    put: &Put,
) {
    let claim = claim_of(rt, alloc, put.1, &[put.2]);
    let amount = share.amount();
    let mut found = call.put_through(rt, alloc, office, share, put.0, game, &claim);
    if found == Err(Refusal::Memory) {
        check_eq!(*rt; share.amount(), amount);
        compare_copy(rt, &copied_through(rt, alloc, office, share), before);
        found = call.put_through(rt, alloc, office, share, put.0, game, &claim);
    }
    check_eq!(*rt; (found, share.amount()), (put.3, put.4));
    compare_copy(rt, &copied_through(rt, alloc, office, share), put.5);
}

/// A copy through a share, taken once more where memory was refused.
fn copied_through<'g, L: Opening, R: Wait + Abort>(
    rt: &R,
    alloc: Global,
    office: &Office<'g, L>,
    share: &Share<L>,
) -> Copied<'g> {
    match office.copy(rt, alloc, share) {
        Ok(copied) => copied,
        Err(_) => made(rt, office.copy(rt, alloc, share)),
    }
}

fn compare_closed(rt: &impl Abort, board: &Board, want: &Closed) {
    let by = (
        board.settled_by(0),
        board.settled_by(1),
        board.settled_by(2),
    );
    check_eq!(*rt; &(board.settled(), board.is_full(), by), want);
}
