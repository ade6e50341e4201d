//! The one written spelling of games, solutions and winners: a header with the greatest identifier, and then one line for each
//! vertex in rising identifier. Numbers have no leading zeros; there is no start line and no name. A line is written from its
//! end, so that `itoa` writes digits where they stay: a writer of a part returns where it begins.

ghost use Rattle.std.specs.Prelude.{◌≡◌, ◌<◌, ◌≤◌, ◌+◌, ◌*◌, ◌^◌, ◌++◌, ◌∷◌, [], ℕ, length, drop, slice_index, codes, map, max, IfOk, OnOk, OnErr, IfSome};
ghost use Rattle.std.specs.List.{join_with_byte};
ghost use Rattle.pg_game.specs.Graph.{id_of, priority_of, owner_of, successors_of, vertex_at};
ghost use Rattle.pg_game.specs.Player.{digit_of};
ghost use Rattle.pg_text.specs.Written.{HasSpaceBefore, IsWrittenBefore};
ghost use Rattle.pg_text.specs.Written.{greatest_id, numeral, written_game, written_vertex, written_solution, written_rows, written_winners, written_choice};
ghost use Rattle.pg_text.specs.Lengths.{greatest_game_text, greatest_solution_text, greatest_winners_text};
ghost use Rattle.pg_text.specs.Solution.{AreSolutionRows, SolutionRows};

use crate::solution_text::Solution;
use itoa::{Buffer, write_digits};
use pg_game::{ForwardGame, Game, Memory, Player};
use std::alloc::Global;

/// The written winners and choices of a game, with a choice where the solution has one: at most 26,214,422 bytes. Refused with
/// `Memory` alone.
pub fn write_solution(alloc: Global, game: &Game, solution: &Solution) -> Result<Vec<u8>, Memory>
    requires { AreSolutionRows game.now solution.now.rows }
    ensures text { IfOk result (λ text. text.items ≡ written_solution game.now solution.now.rows) }
    ensures short { IfOk result (λ text. length text.items ≤ greatest_solution_text) }
{
    let mut out = Vec::with_capacity(alloc, solution_capacity(game))?;
    put_header(&mut out, b"paritysol ", game.forward())?;
    let rows = solution.rows.as_slice();
    'rows: for v in 0..game.len() {
        put_row(&mut out, game, v, rows[v as usize])?;
    }
    Ok(out)
}

/// The written winners of a game, without any choice: at most 14,680,086 bytes. Refused with `Memory` alone.
pub fn write_winners(alloc: Global, game: &Game, solution: &Solution) -> Result<Vec<u8>, Memory>
    requires { AreSolutionRows game.now solution.now.rows }
    ensures text { IfOk result (λ text. text.items ≡ written_winners game.now solution.now.rows) }
    ensures short { IfOk result (λ text. length text.items ≤ greatest_winners_text) }
{
    let mut out = Vec::with_capacity(alloc, solution_capacity(game))?;
    put_header(&mut out, b"paritysol ", game.forward())?;
    let rows = solution.rows.as_slice();
    'rows: for v in 0..game.len() {
        put_row(&mut out, game, v, (rows[v as usize].0, None))?;
    }
    Ok(out)
}

/// The one written spelling of a game: at most 210,763,795 bytes. Refused with `Memory` alone.
pub fn write_game(alloc: Global, game: &Game) -> Result<Vec<u8>, Memory>
    ensures text { IfOk result (λ text. text.items ≡ written_game game.now) }
    ensures short { IfOk result (λ text. length text.items ≤ greatest_game_text) }
{
    write_forward_game(alloc, game.forward())
}

/// The same as [`write_game`], of a game without predecessors.
pub fn write_forward_game(alloc: Global, game: &ForwardGame) -> Result<Vec<u8>, Memory>
    ensures text { IfOk result (λ text. text.items ≡ written_game game.now) }
    ensures short { IfOk result (λ text. length text.items ≤ greatest_game_text) }
{
    let mut out = Vec::with_capacity(alloc, game_capacity(game))?;
    let mut line = Vec::new(alloc);
    put_header(&mut out, b"parity ", game)?;
    'vertices: for v in 0..game.len() {
        extend_line(&mut line, game.successors(v).len())?;
        put_vertex(&mut out, line.as_mut_slice(), game, v)?;
    }
    Ok(out)
}

/// Adds a number in decimal digits. The only error is `Memory`, after which the output is unchanged.
pub fn put_number(out: &mut Vec<u8>, n: u64) -> Result<(), Memory>
    ensures added { OnOk result (out.new.items ≡ out.old.items ++ numeral n) }
    ensures unchanged { OnErr result (out.new.items ≡ out.old.items) }
{
    let mut buffer = Buffer::new();
    out.extend_from_slice(buffer.format(n).as_bytes())
}

/// Writes a number whose digits end at a place of the line, with ten bytes at least before it, and returns where they begin.
#[inline]
pub fn number_before(line: &mut [u8], end: usize, n: u32) -> usize
    requires { HasSpaceBefore 10 line.old end }
    ensures { IsWrittenBefore 10 line.old line.new end result (numeral n ++ drop end line.old) }
{
    write_digits(u64::from(n), line, end)
}

/// Writes the end of a line, and returns where it begins.
#[inline]
pub fn end_before(line: &mut [u8]) -> usize
    requires { 2 ≤ length line.old }
    ensures line { IsWrittenBefore 2 line.old line.new (length line.old) result (codes ";\n") }
    ensures place { result + 2 ≡ length line.old }
{
    let end = line.len();
    let at = byte_before(line, end, b'\n');
    byte_before(line, at, b';')
}

/// Writes a space and the choice's identifier before a place of the line, where there is a choice, with eleven bytes at
/// least before it, and returns where they begin.
#[inline]
pub fn choice_before(line: &mut [u8], end: usize, game: &Game, choice: Option<u32>) -> usize
    requires space { HasSpaceBefore 11 line.old end }
    requires choice { IfSome choice (λ w. w < length game.now) }
    ensures { IsWrittenBefore 11 line.old line.new end result (written_choice game.now choice ++ drop end line.old) }
{
    match choice {
        Some(w) => {
            let at = number_before(line, end, game.id(w));
            byte_before(line, at, b' ')
        }
        None => end,
    }
}

/// The capacity for the text of a solution or of winners, at most seven times its length.
fn solution_capacity(game: &Game) -> usize
    ensures { (rows : SolutionRows) → length rows ≡ length game.now → result ≤ 7 * length (written_solution game.now rows) }
{
    HEADER + ROW * game.len() as usize
}

/// The longest first line: a word, a space, a number, a semicolon and a line feed.
const HEADER: usize = 22;

/// The longest line of a solution text: two numbers, a winner, two spaces, a semicolon and a line feed.
const ROW: usize = 34;

/// A word, a space, the greatest identifier and the end of the line.
fn put_header(out: &mut Vec<u8>, word: &[u8], game: &ForwardGame) -> Result<(), Memory>
    ensures { OnOk result (out.new.items ≡ out.old.items ++ (word.now ++ (numeral (greatest_id game.now) ++ codes ";\n"))) }
{
    out.extend_from_slice(word)?;
    let last = game.len() - 1;
    put_number(out, u64::from(game.id(last)))?;
    out.extend_from_slice(b";\n")
}

/// The line of one vertex in a solution text.
fn put_row(out: &mut Vec<u8>, game: &Game, v: u32, row: (Player, Option<u32>)) -> Result<(), Memory>
    requires vertex { v < length game.now }
    requires choice { IfSome row.1 (λ w. w < length game.now) }
    ensures { OnOk result (out.new.items ≡ out.old.items ++ written_rows game.now (vertex_at game.now v ∷ []) (row ∷ [])) }
{
    let mut buffer = [0u8; ROW];
    let line = buffer.as_mut_slice();
    let at = end_before(line);
    let at = choice_before(line, at, game, row.1);
    let at = number_before(line, at, u32::from(row.0.digit()));
    let at = field_before(line, at, game.id(v));
    out.extend_from_slice(&line[at..])
}

/// Writes a number and a space before a place of the line, and returns where they begin.
#[inline]
fn field_before(line: &mut [u8], end: usize, n: u32) -> usize
    requires { HasSpaceBefore 11 line.old end }
    ensures { IsWrittenBefore 11 line.old line.new end result (numeral n ++ 32 ∷ drop end line.old) }
{
    let at = byte_before(line, end, b' ');
    number_before(line, at, n)
}

/// Writes a byte before a place of the line, and returns where it is.
#[inline]
fn byte_before(line: &mut [u8], end: usize, byte: u8) -> usize
    requires { HasSpaceBefore 1 line.old end }
    ensures line { IsWrittenBefore 1 line.old line.new end result (byte ∷ drop end line.old) }
    ensures place { result + 1 ≡ end }
{
    line[end - 1] = byte;
    end - 1
}

/// The capacity for the text of a game, at most six times its length. So many bytes are allocated once, and nothing written is
/// moved.
fn game_capacity(game: &ForwardGame) -> usize
    ensures { result ≤ 6 * length (written_game game.now) }
{
    let mut capacity = HEADER;
    'lines: for v in 0..game.len() {
        capacity = capacity.saturating_add(40 + 11 * game.successors(v).len());
    }
    capacity
}

/// Makes the line long enough for a vertex with so many successors.
fn extend_line(line: &mut Vec<u8>, successors: usize) -> Result<(), Memory>
    requires { successors < 2 ^ 32 }
    ensures enough { OnOk result (40 + 11 * successors ≤ length line.new.items) }
    ensures bound { OnOk result (length line.new.items ≤ max (length line.old.items) (40 + 11 * successors)) }
{
    let size = 40 + 11 * successors;
    if line.len() < size {
        line.resize(size, 0)?;
    }
    Ok(())
}

/// The line of one vertex in a game text, which is written from its end into a line that is long enough.
fn put_vertex(out: &mut Vec<u8>, line: &mut [u8], game: &ForwardGame, v: u32) -> Result<(), Memory>
    requires vertex { v < length game.now }
    requires some { 0 < length (successors_of game.now v) }
    requires capacity { 40 + 11 * length (successors_of game.now v) ≤ length line.old }
    ensures text { OnOk result (out.new.items ≡ out.old.items ++ written_vertex game.now (vertex_at game.now v)) }
    ensures size { length line.new ≡ length line.old }
{
    let at = end_before(line);
    let at = list_before(line, at, game, game.successors(v));
    let at = fields_before(line, at, game, v);
    out.extend_from_slice(&line[at..])
}

/// Writes identifiers of these vertices, separated by commas, before a place of the line.
fn list_before(line: &mut [u8], end: usize, game: &ForwardGame, vertices: &[u32]) -> usize
    requires some { 0 < length vertices.now }
    requires below { (k : ℕ) → k < length vertices.now → slice_index vertices.now k < length game.now }
    requires space { HasSpaceBefore (11 * length vertices.now) line.old end }
    ensures { IsWrittenBefore (11 * length vertices.now) line.old line.new end result (join_with_byte 44 (map (λ w. numeral (id_of game.now w)) vertices.now) ++ drop end line.old) }
{
    let mut at = end;
    let mut left = vertices.len();
    'vertices: while left > 1 {
        left -= 1;
        at = number_before(line, at, game.id(vertices[left]));
        at = byte_before(line, at, b',');
    }
    let first = game.id(vertices[0]);
    number_before(line, at, first)
}

/// Writes identifier, priority and owner of a vertex before a place of the line, each with a space after it.
#[inline]
fn fields_before(line: &mut [u8], end: usize, game: &ForwardGame, v: u32) -> usize
    requires vertex { v < length game.now }
    requires space { HasSpaceBefore 33 line.old end }
    ensures { IsWrittenBefore 33 line.old line.new end result (numeral (id_of game.now v)
        ++ (32 ∷ numeral (priority_of game.now v) ++ (32 ∷ numeral (digit_of (owner_of game.now v)) ++ (32 ∷ drop end line.old)))) }
{
    let owner = field_before(line, end, u32::from(game.owner(v).digit()));
    let priority = field_before(line, owner, game.priority(v));
    field_before(line, priority, game.id(v))
}
