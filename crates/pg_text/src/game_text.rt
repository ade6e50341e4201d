//! What a game text says (PGSolver's manual): the lines that were read, and the parts of the line begun.

ghost use Rattle.std.specs.Prelude.{IfOk, true, []};
ghost use Rattle.pg_text.specs.private.GameReads.{ReadsGame};

use crate::lexer::TokenKind;
use crate::reader::{Grammar, State};
use pg_game::{GameBuilder, IncrementalBuilder, Memory, Player};
use std::alloc::Global;

/// A game text that is being read.
#[derive(Drop)]
pub struct GameText {
    specs: IncrementalBuilder,
    id: u32,
    priority: u32,
    owner: Player,
}

impl GameText {
    /// Nothing was read.
    pub fn new(alloc: Global) -> Result<GameText, Memory>
        ensures { IfOk result (λ text. ReadsGame true [] State.Start text) }
    {
        Ok(GameText {
            specs: IncrementalBuilder::new(alloc)?,
            id: 0,
            priority: 0,
            owner: Player::Even,
        })
    }
}

impl Grammar for GameText {
    ghost use Rattle.pg_text.specs.GameText.{BeginsGameText, IsBeforeOwner};
    ghost use Rattle.pg_text.specs.Reading.{IsSomeGameText};
    ghost use Rattle.pg_text.specs.private.Machine.{weaker};
    ghost use Rattle.pg_text.specs.private.GameReads.{ReadsGame, SaysSpecs};

    type Lines = GameBuilder;

    ghost IsText = { IsSomeGameText };

    ghost BeginsText = { BeginsGameText };

    ghost IsBeforePlayer = { IsBeforeOwner };

    ghost Says = { SaysSpecs };

    ghost Reads = { ReadsGame };

    #[inline(always)]
    fn take(&mut self, state: State, kind: TokenKind) -> Result<Option<State>, Memory> {
        match (kind, state) {
            (TokenKind::Number(id), State::Start | State::Headed | State::Started | State::Ready) =>
                {
                    self.id = id;
                    Ok(Some(State::Id))
                }
            (TokenKind::Number(priority), State::Id) => {
                self.priority = priority;
                Ok(Some(State::Priority))
            }
            (TokenKind::Number(digit), State::Priority) => {
                self.owner = Player::of_digit(digit);
                self.specs.clear();
                Ok(Some(State::Player))
            }
            (TokenKind::Number(successor), State::Player | State::Listing) => {
                self.specs.push(successor)?;
                Ok(Some(State::Vertex))
            }
            (TokenKind::Comma, State::Vertex) => Ok(Some(State::Listing)),
            (TokenKind::Name, State::Vertex) => Ok(Some(State::Named)),
            (TokenKind::Semicolon, State::Vertex | State::Named) => {
                self.specs.close(self.id, self.priority, self.owner)?;
                Ok(Some(State::Ready))
            }
            (TokenKind::Parity, State::Start) => Ok(Some(State::HeadWord)),
            (TokenKind::Number(_), State::HeadWord) => Ok(Some(State::HeadNumber)),
            (TokenKind::Semicolon, State::HeadNumber) => Ok(Some(State::Headed)),
            (TokenKind::Start, State::Start | State::Headed) => Ok(Some(State::StartWord)),
            (TokenKind::Number(_), State::StartWord) => Ok(Some(State::StartNumber)),
            (TokenKind::Semicolon, State::StartNumber) => Ok(Some(State::Started)),
            _ => Ok(None),
        }
    }

    fn is_complete(state: State) -> bool {
        match state {
            State::Ready => true,
            _ => false,
        }
    }

    fn lines(self) -> GameBuilder {
        self.specs.into_builder()
    }

    ghost weaker = { λ sound later ts s it h k. weaker h k };
}
