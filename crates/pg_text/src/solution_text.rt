//! What a solution text says (PGSolver's manual), and the rows that its lines say of a game's vertices. One pass looks each
//! identifier up once. A line of a stranger ends it, but a second line of a vertex is only noted, since a stranger
//! further on is named before it.

ghost use Rattle.std.specs.Prelude.{◌≡◌, ◌<◌, ◌≤◌, ◌++◌, ◌∷◌, [], List, length, map, slice_index_or, true, false, if◌then◌else◌};
ghost use Rattle.std.specs.Prelude.{IfOk, IfErr, MatchResult, Some, None};
ghost use Rattle.pg_text.specs.Reading.{max_text, SpellsSolution, IsSomeSolutionText};
ghost use Rattle.pg_text.specs.private.Parsing.{IsParseFaultOf};
ghost use Rattle.pg_text.specs.private.SolutionReads.{ReadsSolution, line_of};
ghost use Rattle.pg_game.specs.declared.player.Player.TheVariants.{Even};
ghost use Rattle.pg_game.specs.VertexSet.{members};
ghost use Rattle.pg_game.specs.Graph.{Graph};
ghost use Rattle.pg_text.specs.Solution.{AreSolutionRows};
ghost use Rattle.pg_text.specs.SolutionText.{WrittenSolutionLine, BeginsSolutionText, IsBeforeWinner};
ghost use Rattle.pg_text.specs.SolutionLines.{is_id, row_of_line, first_stranger, AreLinesOf};
ghost use Rattle.pg_text.specs.private.SolutionTable.{HoldsTable, IsNamed, IsStrangerOf, IsLookUpFaultOf, IsRowFaultOf, IsKnownRowFaultOf};
ghost use Rattle.pg_text.specs.Known.{AreKnownLinesOf};

use crate::fault::{ParseFault, SolutionTextFault};
use crate::lexer::TokenKind;
use crate::reader::{Grammar, State, read_lines};
use pg_game::{ForwardGame, Mask, Memory, Player, Sequence};
use std::alloc::Global;

/// A solution text that is being read.
#[derive(Drop)]
pub struct SolutionText {
    lines: Vec<SolutionLine>,
    id: u32,
    winner: Player,
    choice: Option<u32>,
}

impl SolutionText {
    /// Nothing was read.
    pub fn new(alloc: Global) -> SolutionText
        ensures { ReadsSolution true [] State.Start result }
    {
        SolutionText {
            lines: Vec::new(alloc),
            id: 0,
            winner: Player::Even,
            choice: None,
        }
    }
}

impl Grammar for SolutionText {
    ghost use Rattle.std.specs.Prelude.{map};
    ghost use Rattle.pg_text.specs.SolutionText.{BeginsSolutionText, IsBeforeWinner};
    ghost use Rattle.pg_text.specs.Reading.{IsSomeSolutionText};
    ghost use Rattle.pg_text.specs.private.Machine.{weaker};
    ghost use Rattle.pg_text.specs.private.SolutionReads.{ReadsSolution, SaysLines, line_of};

    type Lines = Vec<SolutionLine>;

    ghost IsText = { IsSomeSolutionText };

    ghost BeginsText = { BeginsSolutionText };

    ghost IsBeforePlayer = { IsBeforeWinner };

    ghost Says = { λ ts lines. SaysLines ts (map line_of lines.items) };

    ghost Reads = { ReadsSolution };

    #[inline(always)]
    fn take(&mut self, state: State, kind: TokenKind) -> Result<Option<State>, Memory> {
        match (kind, state) {
            (TokenKind::Number(id), State::Start | State::Headed | State::Ready) => {
                self.id = id;
                Ok(Some(State::Id))
            }
            (TokenKind::Number(digit), State::Id) => {
                self.winner = Player::of_digit(digit);
                self.choice = None;
                Ok(Some(State::Player))
            }
            (TokenKind::Number(choice), State::Player) => {
                self.choice = Some(choice);
                Ok(Some(State::Vertex))
            }
            (TokenKind::Semicolon, State::Player | State::Vertex) => {
                self.lines.push(SolutionLine {
                    id: self.id,
                    winner: self.winner,
                    choice: self.choice,
                })?;
                Ok(Some(State::Ready))
            }
            (TokenKind::Paritysol, State::Start) => Ok(Some(State::HeadWord)),
            (TokenKind::Number(_), State::HeadWord) => Ok(Some(State::HeadNumber)),
            (TokenKind::Semicolon, State::HeadNumber) => Ok(Some(State::Headed)),
            _ => Ok(None),
        }
    }

    fn is_complete(state: State) -> bool {
        match state {
            State::Start | State::Headed | State::Ready => true,
            _ => false,
        }
    }

    fn lines(self) -> Vec<SolutionLine> {
        self.lines
    }

    ghost weaker = { λ sound later ts s it h k. weaker h k };
}

/// One line of a solution text.
#[derive(Drop)]
pub struct SolutionLine {
    pub id: u32,
    pub winner: Player,
    pub choice: Option<u32>,
}

/// The lines that a solution text spells.
pub fn solution_lines(alloc: Global, text: &[u8]) -> Result<Vec<SolutionLine>, ParseFault>
    requires { length text.now ≤ max_text }
    ensures lines { IfOk result (λ lines. SpellsSolution text.now (map line_of lines.items)) }
    ensures fault { IfErr result (λ e. IsParseFaultOf BeginsSolutionText IsSomeSolutionText IsBeforeWinner text.now e) }
{
    read_lines(SolutionText::new(alloc), text)
}

/// For each vertex, in order, its winner, and a choice (a vertex) or none. A check has to show that the winners do win.
#[derive(Drop)]
pub struct Solution {
    pub rows: Sequence<(Player, Option<u32>)>,
}

/// For each vertex, in order, what is known of it: its winner, and a choice (a vertex) or none; or nothing. A board checks
/// whether the winners do win.
#[derive(Drop)]
pub struct Known {
    pub rows: Sequence<Option<(Player, Option<u32>)>>,
}

/// What these lines say of the game's vertices, each of which has one.
pub fn solution_of(
    alloc: Global,
    game: &ForwardGame,
    lines: &[SolutionLine],
) -> Result<Solution, SolutionTextFault>
    ensures fit { IfOk result (λ s. AreSolutionRows game.now s.rows) }
    ensures rows { MatchResult result (λ s. AreLinesOf game.now (map line_of lines.now) s.rows) (λ e. IsRowFaultOf game.now (map line_of lines.now) e) }
{
    table_of(alloc, game, lines)?.into_solution(game)
}

/// What these lines say that is known of the game's vertices.
pub fn known_of(
    alloc: Global,
    game: &ForwardGame,
    lines: &[SolutionLine],
) -> Result<Known, SolutionTextFault>
    ensures size { IfOk result (λ k. length k.rows ≡ length game.now) }
    ensures rows { MatchResult result (λ k. AreKnownLinesOf game.now (map line_of lines.now) k.rows)
        (λ e. IsKnownRowFaultOf game.now (map line_of lines.now) e) }
{
    table_of(alloc, game, lines)?.into_known(alloc, game)
}

/// The table of these lines.
fn table_of(
    alloc: Global,
    game: &ForwardGame,
    lines: &[SolutionLine],
) -> Result<Table, SolutionTextFault>
    ensures { MatchResult result (λ table. HoldsTable game.now (map line_of lines.now) table) (λ e. IsLookUpFaultOf game.now (map line_of lines.now) e) }
{
    let mut table = Table::new(alloc, game)?;
    'lines: for line in lines {
        table.add_line(game, line)?;
    }
    Ok(table)
}

/// What the lines read so far say.
#[derive(Drop)]
struct Table {
    rows: Vec<(Player, Option<u32>)>,
    said: Mask,
    twice: Option<u32>,
}

impl Table {
    /// No line was read.
    fn new(alloc: Global, game: &ForwardGame) -> Result<Table, Memory>
        ensures { IfOk result (λ table. HoldsTable game.now [] table) }
    {
        let n = game.len();
        Ok(Table {
            rows: vec![in alloc; (Player::Even, None); n as usize]?,
            said: Mask::empty(alloc, n)?,
            twice: None,
        })
    }

    /// Adds a line, whose identifiers are looked up.
    fn add_line(&mut self, game: &ForwardGame, line: &SolutionLine) -> Result<(), SolutionTextFault>
        requires rows { length self.old.rows.items ≡ length game.now }
        requires marks { length self.old.said ≡ length game.now }
        ensures { (lines : List WrittenSolutionLine) → HoldsTable game.now lines self.old
            → MatchResult result (λ _. HoldsTable game.now (lines ++ line_of line.now ∷ []) self.new) (λ e. IsStrangerOf game.now (line_of line.now) e) }
    {
        let v = look_up(game, line.id)?;
        let choice = match line.choice {
            Some(id) => Some(look_up(game, id)?),
            None => None,
        };
        self.add_row(v, line.id, (line.winner, choice));
        Ok(())
    }

    /// Adds the row of a vertex, or notes that it has one.
    fn add_row(&mut self, v: u32, id: u32, row: (Player, Option<u32>))
        requires row { v < length self.old.rows.items }
        requires mark { v < length self.old.said }
        ensures { (g : Graph) (lines : List WrittenSolutionLine) (l : WrittenSolutionLine) → HoldsTable g lines self.old → IsNamed g l.id v → l.id ≡ id
            → row ≡ row_of_line g l → first_stranger g (l ∷ []) ≡ None → HoldsTable g (lines ++ l ∷ []) self.new }
    {
        if self.said.has(v) {
            if self.twice.is_none() {
                self.twice = Some(id);
            }
        } else {
            self.said.insert(v);
            self.rows[v as usize] = row;
        }
    }

    /// The rows, where each vertex has one line.
    fn into_solution(self, game: &ForwardGame) -> Result<Solution, SolutionTextFault>
        requires { length self.said ≡ length game.now }
        ensures { (lines : List WrittenSolutionLine) → HoldsTable game.now lines self
            → MatchResult result (λ s. AreLinesOf game.now lines s.rows) (λ e. IsRowFaultOf game.now lines e) }
    {
        if let Some(id) = self.twice {
            return Err(SolutionTextFault::Twice(id));
        }
        'vertices: for v in 0..game.len() {
            if !self.said.has(v) {
                return Err(SolutionTextFault::Missing(game.id(v)));
            }
        }
        Ok(Solution {
            rows: Sequence::new(self.rows),
        })
    }

    /// What is said of a vertex.
    fn row(&self, v: u32) -> Option<(Player, Option<u32>)>
        requires row { v < length self.now.rows.items }
        requires mark { v < length self.now.said }
        ensures { result ≡ (if members self.now.said v then Some (slice_index_or self.now.rows.items v (Even, None)) else None) }
    {
        if self.said.has(v) {
            Some(self.rows[v as usize])
        } else {
            None
        }
    }

    /// What is said of each vertex, where none has two lines.
    fn into_known(self, alloc: Global, game: &ForwardGame) -> Result<Known, SolutionTextFault>
        requires rows { length self.rows.items ≡ length game.now }
        requires marks { length self.said ≡ length game.now }
        ensures { (lines : List WrittenSolutionLine) → HoldsTable game.now lines self
            → MatchResult result (λ k. AreKnownLinesOf game.now lines k.rows) (λ e. IsKnownRowFaultOf game.now lines e) }
    {
        if let Some(id) = self.twice {
            return Err(SolutionTextFault::Twice(id));
        }
        let n = game.len();
        let mut rows = Vec::with_capacity(alloc, n as usize)?;
        'vertices: for v in 0..n {
            rows.push_reserved(self.row(v));
        }
        Ok(Known {
            rows: Sequence::new(rows),
        })
    }
}

/// The vertex with an identifier of a text.
fn look_up(game: &ForwardGame, id: u32) -> Result<u32, SolutionTextFault>
    ensures { MatchResult result (λ v. IsNamed game.now id v) (λ e. (e ≡ SolutionTextFault.Stranger id) × (is_id game.now id ≡ false)) }
{
    game.vertex_of(id).ok_or(SolutionTextFault::Stranger(id))
}
