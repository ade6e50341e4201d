//! The exports on a board that a C program holds: each is the call of a session, through the handle. After any answer but 0 the
//! board is unchanged, except by `pgboard_board_advance`, and the call writes only `report`.

ghost use Rattle.std.specs.Prelude.{◌≡◌, ◌≤◌, None, Some, [], IfOk, length};
ghost use Rattle.pgboard_c.specs.Numbers.{Returns};
ghost use Rattle.pgboard_c.specs.Arrays.{game_lists, IsGameOfArrays};
ghost use Rattle.pgboard_c.specs.Answers.{IsArraysFault};
ghost use Rattle.pgboard_c.specs.Board.{session_in, number_settled_on, number_of_entries, winner_number, chosen_number, AreStates};
ghost use Rattle.pgboard_c.specs.Board.{OnHandle, IsOpenOutcome, IsStateOutcome, IsFinishOutcome, IsAdvanceOutcome, IsSolutionOutcome};
ghost use Rattle.pgboard_c.specs.Entries.{entry_lists, AreEntryRows, IsEntryOutcome};
ghost use Rattle.pgboard_c.specs.Posting.{claim_lists, IsPostOutcome};

use crate::arrays::{GameArrays, Results, number_of, write_results};
use crate::claims::{ClaimArrays, fault_of};
use crate::fault::{BoardFault, Fault, Report, reported};
use crate::held::Handle;
use crate::known::NO_WINNER;
use pg_board::Session;
use pg_game::{ForwardGame, Game, Memory, Player};
use std::alloc::Global;

/// Opens a board of the game of the arrays, on which nothing is settled. Keeps none of the arrays.
#[unsafe(no_mangle)]
pub extern "C" fn pgboard_board_open(
    alloc: Global,
    board: &mut Handle,
    game: &GameArrays,
    report: &mut Report,
) -> u32
    ensures { Returns (IsOpenOutcome (IsGameOfArrays (game_lists game.now)) (IsArraysFault (game_lists game.now)) board.old board.new) result report.new }
{
    reported(report, open(alloc, board, game))
}

/// Posts a claim: if it is good on the board's present state, the board gains one entry. Else the answer is the first reason.
#[unsafe(no_mangle)]
pub extern "C" fn pgboard_board_post(
    alloc: Global,
    board: &mut Handle,
    claim: &ClaimArrays,
    posted: &mut PostedNumbers,
    report: &mut Report,
) -> u32
    ensures { Returns (OnHandle (IsPostOutcome (claim_lists claim.now) posted.old posted.new) board.old board.new) result report.new }
{
    reported(report, post(alloc, board, claim, posted))
}

/// Writes the winner and the choice of each settled vertex, and of the others that they have none.
#[unsafe(no_mangle)]
pub extern "C" fn pgboard_board_state(
    alloc: Global,
    board: &mut Handle,
    results: &mut Results,
    report: &mut Report,
) -> u32
    ensures { Returns (OnHandle (IsStateOutcome results.old results.new) board.old board.new) result report.new }
{
    reported(report, state(alloc, board, results))
}

/// The number of settled vertices; 0 of a closed board.
#[unsafe(no_mangle)]
pub extern "C" fn pgboard_board_settled(alloc: Global, board: &mut Handle) -> u64
    ensures number { result ≡ number_settled_on (session_in board.old) }
    ensures unchanged { session_in board.new ≡ session_in board.old }
{
    let Ok(session) = board.take(alloc) else {
        return 0;
    };
    let settled = session.settled();
    *board = Handle::holding(session);
    settled
}

/// The number of journal entries; 0 of a closed board.
#[unsafe(no_mangle)]
pub extern "C" fn pgboard_board_entries(alloc: Global, board: &mut Handle) -> u64
    ensures number { result ≡ number_of_entries (session_in board.old) }
    ensures unchanged { session_in board.new ≡ session_in board.old }
{
    let Ok(session) = board.take(alloc) else {
        return 0;
    };
    let count = session.entries().len();
    *board = Handle::holding(session);
    count as u64
}

/// Writes the entry's numbers, and its rows to the front of the two arrays.
#[unsafe(no_mangle)]
pub extern "C" fn pgboard_board_entry(
    alloc: Global,
    board: &mut Handle,
    number: u64,
    entry: &mut EntryNumbers,
    vertices: &mut [u32],
    choices: &mut [u32],
    report: &mut Report,
) -> u32
    ensures { Returns (OnHandle (IsEntryOutcome number (entry_lists entry.old vertices.old choices.old) (entry_lists entry.new vertices.new choices.new))
        board.old board.new) result report.new }
{
    reported(
        report,
        read_entry(alloc, board, number, entry, vertices, choices),
    )
}

/// Settles all vertices that are left, as worker 0: by the searches of [`pgboard_solve`](crate::on_arrays::pgboard_solve), and then by the recursion.
#[unsafe(no_mangle)]
pub extern "C" fn pgboard_board_finish(
    alloc: Global,
    board: &mut Handle,
    report: &mut Report,
) -> u32
    ensures { Returns (OnHandle (IsFinishOutcome None) board.old board.new) result report.new }
{
    reported(report, finish(alloc, board, None))
}

/// The same as [`pgboard_board_finish`], unless the recursion needs more steps than these. A step begins a subgame. If the call
/// gives up, the answer is that of [`Fault::GaveUp`].
#[unsafe(no_mangle)]
pub extern "C" fn pgboard_board_finish_within(
    alloc: Global,
    board: &mut Handle,
    steps: u64,
    report: &mut Report,
) -> u32
    ensures { Returns (OnHandle (IsFinishOutcome (Some steps)) board.old board.new) result report.new }
{
    reported(report, finish(alloc, board, Some(steps)))
}

/// Settles more of what is left, as worker 0: one search of [`pgboard_board_finish`], or after the last search up to so many steps of
/// the recursion. Leaves how many steps are left. The answer is 0 once all is settled, and that of [`BoardFault::Unsettled`] before.
/// What it has settled stays, whatever the answer. Called again it goes on where it was; an accepted post in between has it begin anew.
/// While vertices are unsettled, each call with a step to take leaves fewer slices.
#[unsafe(no_mangle)]
pub extern "C" fn pgboard_board_advance(
    alloc: Global,
    board: &mut Handle,
    steps: &mut u64,
    report: &mut Report,
) -> u32
    ensures { Returns (OnHandle (IsAdvanceOutcome steps.old steps.new) board.old board.new) result report.new }
{
    reported(report, advance(alloc, board, steps))
}

/// Writes the solution of a full board: each vertex's winner, and his choice if he owns the vertex.
#[unsafe(no_mangle)]
pub extern "C" fn pgboard_board_solution(
    alloc: Global,
    board: &mut Handle,
    results: &mut Results,
    report: &mut Report,
) -> u32
    ensures { Returns (OnHandle (IsSolutionOutcome results.old results.new) board.old board.new) result report.new }
{
    reported(report, solution(alloc, board, results))
}

/// Frees the board, if it is open.
#[unsafe(no_mangle)]
pub extern "C" fn pgboard_board_close(alloc: Global, board: &mut Handle)
    ensures { session_in board.new ≡ None }
{
    *board = Handle::closed(alloc);
}

/// The numbers of a post: the entry's number from 0, the number of claimed vertices that were unsettled, and the number of
/// vertices that the entry settles.
#[repr(C)]
#[derive(Clone, Copy)]
pub struct PostedNumbers {
    pub entry: u64,
    pub claimed: u64,
    pub settled: u64,
}

/// The numbers of an entry: its worker and player, the number of rows that were claimed, which are the first, and of all rows.
#[repr(C)]
#[derive(Clone, Copy)]
pub struct EntryNumbers {
    pub worker: u32,
    pub player: u32,
    pub claimed: u64,
    pub rows: u64,
}

/// Opens a board of the game of the arrays in a closed handle.
fn open(alloc: Global, board: &mut Handle, arrays: &GameArrays) -> Result<(), Fault>
    ensures { IsOpenOutcome (IsGameOfArrays (game_lists arrays.now)) (IsArraysFault (game_lists arrays.now)) board.old board.new result }
{
    if board.is_open() {
        return Err(Fault::Board(BoardFault::Open));
    }
    let forward = arrays.forward_game(alloc)?;
    *board = Handle::holding(session_of(alloc, forward)?);
    Ok(())
}

/// A session of the game, on which nothing is settled. The only error is `Memory`.
pub(crate) fn session_of(alloc: Global, forward: ForwardGame) -> Result<Box<Session>, Memory>
    ensures { IfOk result (λ b. b.value.board ≡ record { graph = forward; journal = [] }) }
{
    let game = Game::of_forward(alloc, forward)?;
    Ok(Box::new(alloc, Session::open(alloc, game)?)?)
}

/// Posts the claim on the board of the handle.
fn post(
    alloc: Global,
    board: &mut Handle,
    claim: &ClaimArrays,
    posted: &mut PostedNumbers,
) -> Result<(), Fault>
    ensures { OnHandle (IsPostOutcome (claim_lists claim.now) posted.old posted.new) board.old board.new result }
{
    let mut session = board.take(alloc)?;
    let answer = post_on(alloc, &mut session, claim, posted);
    *board = Handle::holding(session);
    answer
}

/// Posts the claim of the arrays on a session, and writes the numbers of the post.
fn post_on(
    alloc: Global,
    session: &mut Session,
    given: &ClaimArrays,
    posted: &mut PostedNumbers,
) -> Result<(), Fault>
    ensures { IsPostOutcome (claim_lists given.now) posted.old posted.new (Some session.old) (Some session.new) result }
{
    let claim = given.claim(alloc)?;
    match session.post(alloc, given.worker, &claim) {
        Ok(made) => {
            *posted = PostedNumbers {
                entry: made.entry,
                claimed: u64::from(made.claimed),
                settled: u64::from(made.settled),
            };
            Ok(())
        }
        Err(refusal) => Err(fault_of(refusal)),
    }
}

/// Writes the state of the board of the handle.
fn state(alloc: Global, board: &mut Handle, results: &mut Results) -> Result<(), Fault>
    ensures { OnHandle (IsStateOutcome results.old results.new) board.old board.new result }
{
    let session = board.take(alloc)?;
    let answer = write_state(&session, results);
    *board = Handle::holding(session);
    answer
}

/// Writes the state of a session, if the arrays for results have its size.
fn write_state(session: &Session, results: &mut Results) -> Result<(), Fault>
    ensures { IsStateOutcome results.old results.new (Some session.now) (Some session.now) result }
{
    results.check_lengths(session.game().forward())?;
    write_states(session, results.winners, results.choices);
    Ok(())
}

/// Writes the winner and the choice of each vertex, or that it has none.
fn write_states(session: &Session, winners: &mut [u8], choices: &mut [u32])
    requires winners { length winners.old ≡ length session.now.board.graph }
    requires choices { length choices.old ≡ length session.now.board.graph }
    ensures { AreStates session.now.board winners.new choices.new }
{
    for v in 0..session.game().len() {
        let (winner, choice) = numbers_of(session.state(v));
        winners[v as usize] = winner;
        choices[v as usize] = choice;
    }
}

/// The winner and the choice of a vertex as numbers.
fn numbers_of(state: Option<(Player, Option<u32>)>) -> (u8, u32)
    ensures { result ≡ (winner_number state, chosen_number state) }
{
    match state {
        Some((winner, choice)) => (winner.digit(), number_of(choice)),
        None => (NO_WINNER, number_of(None)),
    }
}

/// Writes an entry of the board of the handle.
fn read_entry(
    alloc: Global,
    board: &mut Handle,
    number: u64,
    entry: &mut EntryNumbers,
    vertices: &mut [u32],
    choices: &mut [u32],
) -> Result<(), Fault>
    ensures { OnHandle (IsEntryOutcome number (entry_lists entry.old vertices.old choices.old) (entry_lists entry.new vertices.new choices.new))
        board.old board.new result }
{
    let session = board.take(alloc)?;
    let answer = write_entry(&session, number, entry, vertices, choices);
    *board = Handle::holding(session);
    answer
}

/// Writes the numbers of an entry of a session, and its rows to the front of the arrays.
fn write_entry(
    session: &Session,
    number: u64,
    entry: &mut EntryNumbers,
    vertices: &mut [u32],
    choices: &mut [u32],
) -> Result<(), Fault>
    ensures { IsEntryOutcome number (entry_lists entry.old vertices.old choices.old) (entry_lists entry.new vertices.new choices.new)
        (Some session.now) (Some session.now) result }
{
    let entries = session.entries();
    if number >= entries.len() as u64 {
        return Err(Fault::Board(BoardFault::Entry(entries.len())));
    }
    let found = &entries[number as usize];
    let rows = found.rows.as_slice();
    if vertices.len() < rows.len() || choices.len() < rows.len() {
        return Err(Fault::Capacity(rows.len()));
    }
    write_rows(rows, vertices, choices);
    *entry = EntryNumbers {
        worker: found.worker,
        player: u32::from(found.player.digit()),
        claimed: u64::from(found.claimed),
        rows: rows.len() as u64,
    };
    Ok(())
}

/// Writes the rows of an entry to the front of the arrays.
fn write_rows(rows: &[(u32, Option<u32>)], vertices: &mut [u32], choices: &mut [u32])
    requires { (length rows.now ≤ length vertices.old) × (length rows.now ≤ length choices.old) }
    ensures { AreEntryRows rows.now vertices.old choices.old vertices.new choices.new }
{
    for i in 0..rows.len() {
        let (v, choice) = rows[i];
        vertices[i] = v;
        choices[i] = number_of(choice);
    }
}

/// Settles all vertices of the board of the handle that are left, unless there is a limit and the recursion needs more steps.
fn finish(alloc: Global, board: &mut Handle, limit: Option<u64>) -> Result<(), Fault>
    ensures { OnHandle (IsFinishOutcome limit) board.old board.new result }
{
    let mut session = board.take(alloc)?;
    let answer = session.finish(alloc, limit);
    *board = Handle::holding(session);
    if answer? { Ok(()) } else { Err(Fault::GaveUp) }
}

/// Settles more of what is left on the board of the handle.
fn advance(alloc: Global, board: &mut Handle, steps: &mut u64) -> Result<(), Fault>
    ensures { OnHandle (IsAdvanceOutcome steps.old steps.new) board.old board.new result }
{
    let mut session = board.take(alloc)?;
    let is_full = session.advance(alloc, steps);
    let unsettled = u64::from(session.game().len()) - session.settled();
    *board = Handle::holding(session);
    if is_full? {
        return Ok(());
    }
    Err(Fault::Board(BoardFault::Unsettled(unsettled)))
}

/// Writes the solution of the board of the handle.
fn solution(alloc: Global, board: &mut Handle, results: &mut Results) -> Result<(), Fault>
    ensures { OnHandle (IsSolutionOutcome results.old results.new) board.old board.new result }
{
    let session = board.take(alloc)?;
    let answer = write_solution(alloc, &session, results);
    *board = Handle::holding(session);
    answer
}

/// Writes the solution of a session, if it is full and the arrays for results have its size.
fn write_solution(alloc: Global, session: &Session, results: &mut Results) -> Result<(), Fault>
    ensures { IsSolutionOutcome results.old results.new (Some session.now) (Some session.now) result }
{
    let game = session.game();
    results.check_lengths(game.forward())?;
    let Some(solution) = session.solution(alloc)? else {
        let unsettled = u64::from(game.len()) - session.settled();
        return Err(Fault::Board(BoardFault::Unsettled(unsettled)));
    };
    write_results(&solution, results.winners, results.choices);
    Ok(())
}
