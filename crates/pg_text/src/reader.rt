//! One reader for the texts of all grammars, in one pass over the tokens (PGSolver's manual). A grammar says which state
//! follows, and keeps what a token says. A number above the limit or a player above 1 is only noted, since the grammar is
//! judged first. A token that is not allowed where it is ends the pass, and the rest is searched once for a byte that begins
//! no token.

ghost use Rattle.std.specs.Prelude.{◌≡◌, ℕ, ◌≤◌, true, length, IfOk, MatchResult, List, [], Bool};
ghost use Rattle.pg_text.specs.Token.{Placed, Spells, Token};
ghost use Rattle.pg_text.specs.Reading.{max_text};
ghost use Rattle.pg_text.specs.private.Lexeme.{IsRangeOf, value_in};
ghost use Rattle.pg_text.specs.private.Parsing.{KeepsReader, ReaderTakes, IsUnexpected, SpellsLines, IsParseFaultOf};
ghost use Rattle.pg_text.specs.private.FirstFault.{first_at, wrong_in};

use crate::fault::ParseFault;
use crate::lexer::{Lexeme, TokenKind, first_invalid, next_token};
use pg_game::Memory;

/// What a text of a grammar says, read up to some token.
pub trait Grammar {
    ghost use Rattle.std.specs.Prelude.{◌≡◌, Bool, true, List, IfOk};
    ghost use Rattle.pg_text.specs.Token.{Token};
    ghost use Rattle.pg_text.specs.declared.reader.State.{State};
    ghost use Rattle.pg_text.specs.private.Machine.{Takes, IsComplete};

    /// What a text says.
    type Lines;

    /// The tokens are a text.
    ghost IsText: { List Token → Type 0 };

    /// The tokens begin a text.
    ghost BeginsText: { List Token → Type 0 };

    /// The tokens come before a player.
    ghost IsBeforePlayer: { List Token → Type 0 };

    /// The tokens are a text that says this, and its players are 0 and 1.
    ghost Says: { List Token → Self.Lines → Type 0 };

    /// These tokens lead to the state. Where the flag is true, this holds what they say, and the players so far are 0 and 1.
    ghost Reads: { Bool → List Token → State → Self → Type 0 };

    /// Takes a token. The next state; none where the token is not allowed.
    fn take(&mut self, state: State, kind: TokenKind) -> Result<Option<State>, Memory>
        ensures { IfOk result (λ next. Takes Reads BeginsText IsBeforePlayer self.old self.new state kind next) };

    /// Whether a text may end in this state.
    fn is_complete(state: State) -> bool
        ensures { (sound : Bool) (ts : List Token) (it : Self) → Reads sound ts state it → IsComplete BeginsText IsText ts result };

    /// What the text says.
    fn lines(self) -> Self::Lines
        ensures { (ts : List Token) (s : State) → Reads true ts s self → IsText ts → Says ts result };

    ghost weaker: { (sound later : Bool) (ts : List Token) (s : State) (it : Self) → (later ≡ true → sound ≡ true) → Reads sound ts s it
        → Reads later ts s it };
}

/// What a text of a grammar says, of which nothing is read yet.
pub fn read_lines<G: Grammar + Drop>(grammar: G, text: &[u8]) -> Result<G::Lines, ParseFault>
    requires size { length text.now ≤ max_text }
    requires start { G.Reads true [] State.Start grammar }
    ensures { MatchResult result (λ lines. SpellsLines G.Says text.now lines)
        (λ e. IsParseFaultOf G.BeginsText G.IsText G.IsBeforePlayer text.now e) }
{
    let mut reader = Reader {
        state: State::Start,
        grammar,
        large: None,
        wrong: None,
    };
    let mut at = 0;
    'tokens: loop {
        let lexeme = next_token(text, at);
        match lexeme.kind {
            TokenKind::End => return reader.finish(text.len() as u32),
            TokenKind::Invalid => return Err(ParseFault::Lexical(lexeme.from as u32)),
            _ => {}
        }
        if !reader.take(lexeme)? {
            return Err(unexpected::<G>(text, lexeme.from, lexeme.to));
        }
        at = lexeme.to;
    }
}

/// What was read last.
#[derive(Clone, Copy)]
pub enum State {
    Start,
    HeadWord,
    HeadNumber,
    Headed,
    StartWord,
    StartNumber,
    Started,
    Ready,
    Id,
    Priority,
    Player,
    Listing,
    Vertex,
    Named,
}

/// A text that is being read, the first number above the limit, and the first player above 1.
#[derive(Drop)]
struct Reader<G> {
    state: State,
    grammar: G,
    large: Option<u32>,
    wrong: Option<u32>,
}

impl<G: Grammar + Drop> Reader<G> {
    /// Takes a token; false where it is not allowed.
    #[inline(always)]
    fn take(&mut self, lexeme: Lexeme) -> Result<bool, Memory>
        requires { lexeme.from ≤ max_text }
        ensures { IfOk result (λ taken. ReaderTakes G.Reads G.BeginsText G.IsBeforePlayer self.old self.new taken lexeme) }
    {
        let place = lexeme.from as u32;
        note_first(&mut self.large, lexeme.kind.is_large(), place);
        match self.grammar.take(self.state, lexeme.kind)? {
            Some(state) => {
                self.state = state;
                note_first(&mut self.wrong, is_wrong(state, lexeme.kind), place);
                Ok(true)
            }
            None => Ok(false),
        }
    }

    /// What was read, at the end of the text.
    fn finish(self, end: u32) -> Result<G::Lines, ParseFault>
        ensures { (text : List ℕ) (ts : List Placed) → Spells 0 text ts → end ≡ length text → KeepsReader G.Reads G.IsBeforePlayer ts self
            → MatchResult result (λ lines. SpellsLines G.Says text lines) (λ e. IsParseFaultOf G.BeginsText G.IsText G.IsBeforePlayer text e) }
    {
        if !G::is_complete(self.state) {
            return Err(ParseFault::Syntax(end));
        }
        if let Some(at) = self.large {
            return Err(ParseFault::Number(at));
        }
        if let Some(at) = self.wrong {
            return Err(ParseFault::Player(at));
        }
        Ok(self.grammar.lines())
    }
}

/// Whether a player above 1 was read.
#[inline(always)]
fn is_wrong(state: State, kind: TokenKind) -> bool
    ensures { result ≡ wrong_in state (value_in kind) }
{
    match (state, kind) {
        (State::Player, TokenKind::Number(value)) => 1 < value,
        _ => false,
    }
}

/// Notes the place of a fault where one was found, unless an earlier one is known.
#[inline(always)]
fn note_first(known: &mut Option<u32>, found: bool, place: u32)
    ensures { known.new ≡ first_at known.old found place }
{
    if found && known.is_none() {
        *known = Some(place);
    }
}

/// The fault of a text whose token between the places can't be there.
#[inline(never)]
fn unexpected<G: Grammar>(text: &[u8], from: usize, to: usize) -> ParseFault
    requires size { length text.now ≤ max_text }
    requires range { IsRangeOf text.now from to }
    ensures { IsUnexpected G.BeginsText text.now from to → IsParseFaultOf G.BeginsText G.IsText G.IsBeforePlayer text.now result }
{
    match first_invalid(text, to) {
        Some(bad) => ParseFault::Lexical(bad as u32),
        None => ParseFault::Syntax(from as u32),
    }
}
