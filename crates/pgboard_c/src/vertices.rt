//! The exports that read the game of a board: how many vertices it has, and what it says of each.

ghost use Rattle.std.specs.Prelude.{◌≡◌, Some};
ghost use Rattle.pgboard_c.specs.Numbers.{Returns};
ghost use Rattle.pgboard_c.specs.Board.{session_in, OnHandle};
ghost use Rattle.pgboard_c.specs.Vertices.{number_of_vertices, vertex_lists, IsVertexOutcome};

use crate::fault::{BoardFault, Fault, Report, reported};
use crate::held::Handle;
use pg_board::Session;
use std::alloc::Global;

/// The numbers of a vertex: its identifier, its priority, the digit of its owner, and how many successors it has.
#[repr(C)]
#[derive(Clone, Copy)]
pub struct VertexNumbers {
    pub id: u32,
    pub priority: u32,
    pub owner: u32,
    pub successors: u32,
}

/// The number of vertices of the board's game; 0 of a closed board.
#[unsafe(no_mangle)]
pub extern "C" fn pgboard_board_vertices(alloc: Global, board: &mut Handle) -> u64
    ensures number { result ≡ number_of_vertices (session_in board.old) }
    ensures unchanged { session_in board.new ≡ session_in board.old }
{
    let Ok(session) = board.take(alloc) else {
        return 0;
    };
    let count = session.game().len();
    *board = Handle::holding(session);
    u64::from(count)
}

/// Writes the numbers of a vertex, and its successors, which rise, to the front of the array.
#[unsafe(no_mangle)]
pub extern "C" fn pgboard_board_vertex(
    alloc: Global,
    board: &mut Handle,
    vertex: u32,
    into: &mut VertexNumbers,
    successors: &mut [u32],
    report: &mut Report,
) -> u32
    ensures { Returns (OnHandle (IsVertexOutcome vertex (vertex_lists into.old successors.old) (vertex_lists into.new successors.new))
        board.old board.new) result report.new }
{
    reported(report, read_vertex(alloc, board, vertex, into, successors))
}

/// Writes a vertex of the board of the handle.
fn read_vertex(
    alloc: Global,
    board: &mut Handle,
    vertex: u32,
    into: &mut VertexNumbers,
    successors: &mut [u32],
) -> Result<(), Fault>
    ensures { OnHandle (IsVertexOutcome vertex (vertex_lists into.old successors.old) (vertex_lists into.new successors.new)) board.old board.new result }
{
    let session = board.take(alloc)?;
    let answer = write_vertex(&session, vertex, into, successors);
    *board = Handle::holding(session);
    answer
}

/// Writes the numbers of a vertex of a session's game, and its successors to the front of the array.
fn write_vertex(
    session: &Session,
    vertex: u32,
    into: &mut VertexNumbers,
    successors: &mut [u32],
) -> Result<(), Fault>
    ensures { IsVertexOutcome vertex (vertex_lists into.old successors.old) (vertex_lists into.new successors.new)
        (Some session.now) (Some session.now) result }
{
    let game = session.game();
    if vertex >= game.len() {
        return Err(Fault::Board(BoardFault::Vertex(game.len())));
    }
    let row = game.successors(vertex);
    let count = row.len();
    if successors.len() < count {
        return Err(Fault::Capacity(count));
    }
    successors[..count].copy_from_slice(row);
    *into = VertexNumbers {
        id: game.id(vertex),
        priority: game.priority(vertex),
        owner: u32::from(game.owner(vertex).digit()),
        successors: count as u32,
    };
    Ok(())
}
