//! The exports that open a board of a game's text, and write the solution of a full board as text.

ghost use Rattle.std.specs.Prelude.{Some};
ghost use Rattle.pg_text.specs.Reading.{IsTextOf};
ghost use Rattle.pgboard_c.specs.Numbers.{Returns};
ghost use Rattle.pgboard_c.specs.Texts.{text_buffer, IsRefusedGameText};
ghost use Rattle.pgboard_c.specs.Board.{IsOpenOutcome, OnHandle};
ghost use Rattle.pgboard_c.specs.BoardTexts.{IsSolutionTextOutcome};

use crate::board::session_of;
use crate::fault::{BoardFault, Fault, Report, reported};
use crate::held::Handle;
use crate::on_texts::{copy_to_front, forward_game_of};
use pg_board::Session;
use pg_text::write_solution;
use std::alloc::Global;

/// Opens a board of the game that a text spells, on which nothing is settled. Keeps nothing of the text.
#[unsafe(no_mangle)]
pub extern "C" fn pgboard_board_open_text(
    alloc: Global,
    board: &mut Handle,
    game: &[u8],
    report: &mut Report,
) -> u32
    ensures { Returns (IsOpenOutcome (IsTextOf game.now) (IsRefusedGameText game.now) board.old board.new) result report.new }
{
    reported(report, open(alloc, board, game))
}

/// Writes the solution's text of a full board to the front of the buffer, and its size.
#[unsafe(no_mangle)]
pub extern "C" fn pgboard_board_solution_text(
    alloc: Global,
    board: &mut Handle,
    into: &mut [u8],
    size: &mut usize,
    report: &mut Report,
) -> u32
    ensures { Returns (OnHandle (IsSolutionTextOutcome (text_buffer into.old size.old) (text_buffer into.new size.new)) board.old board.new) result report.new }
{
    reported(report, solution(alloc, board, into, size))
}

/// Opens a board of the text's game in a closed handle.
fn open(alloc: Global, board: &mut Handle, text: &[u8]) -> Result<(), Fault>
    ensures { IsOpenOutcome (IsTextOf text.now) (IsRefusedGameText text.now) board.old board.new result }
{
    if board.is_open() {
        return Err(Fault::Board(BoardFault::Open));
    }
    let forward = forward_game_of(alloc, text)?;
    *board = Handle::holding(session_of(alloc, forward)?);
    Ok(())
}

/// Writes the solution's text of the board of the handle, and its size.
fn solution(
    alloc: Global,
    board: &mut Handle,
    into: &mut [u8],
    size: &mut usize,
) -> Result<(), Fault>
    ensures { OnHandle (IsSolutionTextOutcome (text_buffer into.old size.old) (text_buffer into.new size.new)) board.old board.new result }
{
    let session = board.take(alloc)?;
    let answer = write_text(alloc, &session, into, size);
    *board = Handle::holding(session);
    answer
}

/// Writes the solution's text of a session, if it is full and the buffer is large enough, and its size.
fn write_text(
    alloc: Global,
    session: &Session,
    into: &mut [u8],
    size: &mut usize,
) -> Result<(), Fault>
    ensures { IsSolutionTextOutcome (text_buffer into.old size.old) (text_buffer into.new size.new) (Some session.now) (Some session.now) result }
{
    let game = session.game();
    let Some(solution) = session.solution(alloc)? else {
        let unsettled = u64::from(game.len()) - session.settled();
        return Err(Fault::Board(BoardFault::Unsettled(unsettled)));
    };
    let answer = write_solution(alloc, game, &solution)?;
    copy_to_front(answer.as_slice(), into, size)
}
