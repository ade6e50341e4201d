//! A game and its board, which nothing borrows: each call that posts makes a `Board` of them for its own time. So a session can
//! be kept where no lifetime can be, as behind a handle in C.

ghost use Rattle.std.specs.Prelude.{◌≡◌, ◌+◌, ◌-◌, ◌≤◌, ◌<◌, ◌↔◌, [], IfOk, OnErr, Ok, IsTrue, ℕ, true, false};
ghost use Rattle.pg_game.specs.VertexSet.{In};
ghost use Rattle.pg_board.specs.State.{unsettled};
ghost use Rattle.pg_board.specs.Journal.{state_of, IsLawful, number_settled};
ghost use Rattle.pg_board.specs.Full.{IsFull};
ghost use Rattle.pg_board.specs.Board.{IsLawfulBoard, IsSolutionOf};
ghost use Rattle.pg_board.specs.Finish.{IsContinued, IsFinishAnswer};
ghost use Rattle.pg_board.specs.Post.{IsPostAnswer};
ghost use Rattle.pg_board.specs.Slices.{most_slices, most_steps, IsSearch, IsCharged, IsLastCharged};
ghost use Rattle.pg_board.specs.private.Contents.{IsContentsOf, board_record};

use crate::advance::Stage;
use crate::board::Board;
use crate::contents::Contents;
use crate::journal::{Entry, Posted, Refusal};
use pg_dominion::Claim;
use pg_game::{Game, Memory, Player};
use pg_text::Solution;
use std::alloc::Global;
use std::marker::Model;
use std::mem::replace;
use std::sync::Arc;

/// A game and its board, and where the slices of `advance` are. There are no contents only while a call has a board of them.
#[derive(Drop)]
pub struct Session {
    game: Arc<Game>,
    contents: Option<Contents>,
    stage: Stage,
}

impl Model for Session {
    ghost use Rattle.pg_board.specs.BoardRecord.{SessionRecord, journal_of};
    ghost use Rattle.pg_board.specs.Slices.{slices_left};
    ghost use Rattle.std.specs.Arc.{arc_value};
    ghost use Rattle.pg_board.specs.private.Contents.{AreContentsOf};
    ghost use Rattle.pg_board.specs.private.Stage.{IsStageOf};

    ghost Value = { SessionRecord };

    ghost view = { λ s. record { board = record { graph = arc_value s.game; journal = journal_of s.contents }; slices = slices_left (arc_value s.game) s.stage } };

    ghost invariant = { λ s. AreContentsOf (arc_value s.game) s.contents × IsStageOf (arc_value s.game) (journal_of s.contents) s.stage };
}

impl Session {
    /// A session of this game, in which nothing is settled. The only error is `Memory`, which uses up the game.
    pub fn open(alloc: Global, game: Game) -> Result<Session, Memory>
        ensures { IfOk result (λ s. s.board ≡ record { graph = game; journal = [] }) }
    {
        let contents = Board::open(alloc, &game)?.detach();
        Ok(Session {
            game: Arc::new(alloc, game)?,
            contents: Some(contents),
            stage: Stage::Search(0),
        })
    }

    /// Checks the claim on the present state, as `Board::post` does. If it is good, the journal gains one entry. Else the error
    /// is the first reason that applies, in the order of `Refusal`, or `Memory`. After an error nothing has changed.
    pub fn post(&mut self, alloc: Global, worker: u32, claim: &Claim) -> Result<Posted, Refusal>
        ensures answer { IsPostAnswer self.old.board self.new.board worker claim.now result }
        ensures unchanged { OnErr result (self.new ≡ self.old) }
    {
        let mut board = Board::attach(&self.game, self.contents.take().unwrap());
        let answer = board.post(alloc, worker, claim);
        self.contents = Some(board.detach());
        let posted = answer?;
        self.stage = Stage::Search(0);
        Ok(posted)
    }

    /// Settles all that is unsettled, as `Board::finish` does: by the searches and then by the recursion, as worker 0. False if it
    /// gave up. After that or an error nothing has changed. The only error is `Memory`.
    pub fn finish(&mut self, alloc: Global, limit: Option<u64>) -> Result<bool, Memory>
        ensures answer { IsFinishAnswer limit self.old.board self.new.board result }
        ensures gave_up { IfOk result (λ done. done ≡ false → self.new ≡ self.old) }
        ensures unchanged { OnErr result (self.new ≡ self.old) }
    {
        let mut board = Board::attach(&self.game, self.contents.take().unwrap());
        let answer = board.finish(alloc, limit);
        self.contents = Some(board.detach());
        if !answer? {
            return Ok(false);
        }
        self.stage = Stage::Search(0);
        Ok(true)
    }

    /// Settles more of what is unsettled, as worker 0: one search of `finish`, or after the last search up to so many steps of the
    /// recursion. Leaves how many steps are left. True if nothing is unsettled then. What it has settled stays. Called again, it
    /// goes on where it was; after a post it begins with the first search. While something is unsettled, each call with a step
    /// to take leaves fewer slices. The only error is `Memory`, after which it begins anew.
    pub fn advance(&mut self, alloc: Global, steps: &mut u64) -> Result<bool, Memory>
        ensures lawful { IsLawful self.new.board.graph self.new.board.journal }
        ensures continued { IsContinued self.old.board self.new.board }
        ensures full { IfOk result (λ done. IsTrue done ↔ IsFull self.new.board.graph (state_of self.new.board.journal)) }
        ensures steps { steps.new ≤ steps.old }
        ensures nearer { IfOk result (λ done. done ≡ false → 0 < steps.old → self.new.slices < self.old.slices) }
        ensures taken { IfOk result (λ done. done ≡ false → self.new.slices + (steps.old - steps.new) ≤ self.old.slices) }
        ensures charged { IfOk result (λ done. done ≡ false → IsCharged (most_steps self.old.board.graph) self.old.slices self.new.slices steps.old steps.new) }
        ensures last { IfOk result (λ done. done ≡ true → (v : ℕ) → In (unsettled self.old.board.graph (state_of self.old.board.journal)) v
            → IsLastCharged (most_steps self.old.board.graph) self.old.slices steps.old steps.new) }
        ensures refused { OnErr result (IsSearch (most_steps self.old.board.graph) self.old.slices → steps.new ≡ steps.old) }
        ensures whole { IsFull self.old.board.graph (state_of self.old.board.journal) → (result ≡ Ok true) × (self.new ≡ self.old) × (steps.new ≡ steps.old) }
    {
        let mut board = Board::attach(&self.game, self.contents.take().unwrap());
        let stage = replace(&mut self.stage, Stage::Search(0));
        let answer = board.advance(alloc, &self.game, stage, steps);
        self.contents = Some(board.detach());
        self.stage = answer?;
        Ok(self.contents().is_full(&self.game))
    }

    /// The game. The contract of this call states the invariant of the type.
    pub fn game(&self) -> &Game
        ensures graph { result.now ≡ self.now.board.graph }
        ensures board { IsLawfulBoard self.now.board }
        ensures slices { self.now.slices ≤ most_slices self.now.board.graph }
    {
        &self.game
    }

    /// The winner of the vertex, and the choice with which it was settled; none if it is unsettled or no vertex.
    pub fn state(&self, v: u32) -> Option<(Player, Option<u32>)>
        ensures { result ≡ state_of self.now.board.journal v }
    {
        self.contents().regions.at(v)
    }

    /// The number of settled vertices.
    pub fn settled(&self) -> u64
        ensures { result ≡ number_settled self.now.board.journal }
    {
        u64::from(self.contents().number)
    }

    /// The journal, the oldest entry first.
    pub fn entries(&self) -> &[Entry]
        ensures { result.now ≡ self.now.board.journal }
    {
        self.contents().entries.as_slice()
    }

    /// Winners and choices of all vertices, exactly where all are settled. A vertex has a choice exactly where its winner owns
    /// it. The only error is `Memory`.
    pub fn solution(&self, alloc: Global) -> Result<Option<Solution>, Memory>
        ensures { IfOk result (IsSolutionOf self.now.board) }
    {
        self.contents().solution(alloc, &self.game)
    }

    /// What is stored beside the game.
    fn contents(&self) -> &Contents
        ensures contents { IsContentsOf self.now.board.graph result.now }
        ensures same { board_record self.now.board.graph result.now ≡ self.now.board }
    {
        match &self.contents {
            Some(contents) => contents,
            None => unreachable!(),
        }
    }
}
