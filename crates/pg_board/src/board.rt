//! The board: a game, the journal of its settled vertices, and tables of the journal's state.
//! The invariant of its type is that the journal is lawful, so every board has a lawful one.

ghost use Rattle.std.specs.Prelude.{◌≡◌, [], take, IfOk, IfErr, OnErr, IsTrue, ◌↔◌};
ghost use Rattle.pg_dominion.specs.Claim.{IsSound};
ghost use Rattle.pg_board.specs.State.{IsGoodOn, choices, winner_in};
ghost use Rattle.pg_board.specs.Journal.{state_of, number_settled, settled_by};
ghost use Rattle.pg_board.specs.Full.{IsFull};
ghost use Rattle.pg_board.specs.Board.{IsLawfulBoard, IsCopyOf, IsSolutionOf};
ghost use Rattle.pg_board.specs.private.Contents.{IsContentsOf, board_record};
ghost use Rattle.pg_board.specs.private.Regions.{IsBoard};
ghost use Rattle.pg_board.specs.Refusal.{Refuses, IsOfState};
ghost use Rattle.pg_board.specs.Post.{Adds, IsPostAnswer, IsSettleAnswer};

use crate::contents::Contents;
use crate::journal::{Entry, Posted, Refusal};
use crate::regions::Regions;
use pg_dominion::{Checked, Claim, judge_claim};
use pg_finders::{Copied, Inside};
use pg_game::{Game, Memory, Player};
use pg_text::Solution;
use std::alloc::Global;
use std::marker::Model;

/// A game, and the journal of its settled vertices. The board checks every claim.
#[derive(Drop)]
pub struct Board<'g> {
    pub(crate) game: &'g Game,
    pub(crate) contents: Contents,
}

impl<'g> Model for Board<'g> {
    ghost use Rattle.pg_board.specs.BoardRecord.{BoardRecord};
    ghost use Rattle.pg_board.specs.private.Regions.{IsBoard};

    ghost Value = { BoardRecord };

    ghost view = { λ b. record { graph = b.game.now; journal = b.contents.entries.items } };

    ghost invariant = { λ b. IsBoard b.game.now b.contents.entries.items b.contents.regions b.contents.number };
}

impl<'g> Board<'g> {
    /// A board on which nothing is settled. The only error is `Memory`.
    pub fn open(alloc: Global, game: &'g Game) -> Result<Board<'g>, Memory>
        ensures graph { IfOk result (λ b. b.graph ≡ game.now) }
        ensures journal { IfOk result (λ b. b.journal ≡ []) }
    {
        let n = game.len();
        Ok(Board {
            game,
            contents: Contents {
                entries: Vec::new(alloc),
                regions: Regions::open(alloc, n)?,
                number: 0,
            },
        })
    }

    /// A board of these contents.
    pub(crate) fn attach(game: &'g Game, contents: Contents) -> Board<'g>
        requires { IsContentsOf game.now contents }
        ensures { result ≡ board_record game.now contents }
    {
        Board { game, contents }
    }

    /// The contents, without their game.
    pub(crate) fn detach(self) -> Contents
        ensures contents { IsContentsOf self.entry.graph result }
        ensures board { board_record self.entry.graph result ≡ self.entry }
    {
        self.contents
    }

    /// The unsettled part, the number of entries and the number settled. Looks at no edge. The only error is `Memory`.
    pub fn copy(&self, alloc: Global) -> Result<Copied<'g>, Memory>
        ensures { IfOk result (IsCopyOf self.now) }
    {
        let mask = self.contents.regions.unsettled.copy(alloc)?;
        Ok(Copied {
            inside: Inside::of_subgame(self.game, mask),
            at: self.contents.entries.len() as u64,
            settled: self.settled(),
        })
    }

    /// Checks the claim, and settles it on the present state. If it is good, the journal gains one entry: the claim's rest,
    /// and then the unsettled vertices that the claim's player attracts to his (Zielonka 1998). Else the error is the first
    /// reason that applies, in the order of `Refusal`, or `Memory`. After an error nothing has changed.
    pub fn post(&mut self, alloc: Global, worker: u32, claim: &Claim) -> Result<Posted, Refusal>
        ensures { IsPostAnswer self.old self.new worker claim.now result }
    {
        judge_claim(alloc, self.game, claim)?;
        self.settle_sound(alloc, worker, claim)
    }

    /// The same as `post` for a checked claim, of whatever game. The error is `Foreign` if it does not agree with the board's
    /// game. Makes no search for closed walks: its time is linear in the rows and edges of the claim and of what it settles.
    pub fn settle(
        &mut self,
        alloc: Global,
        worker: u32,
        checked: &Checked,
    ) -> Result<Posted, Refusal>
        ensures { IsSettleAnswer self.old self.new worker checked.now result }
    {
        if let Some(v) = checked.first_foreign(self.game) {
            return Err(Refusal::Foreign(v));
        }
        self.settle_sound(alloc, worker, checked.claim())
    }

    /// The game. The contract of this call states the invariant of the type.
    pub fn game(&self) -> &'g Game
        ensures graph { result.now ≡ self.now.graph }
        ensures board { IsLawfulBoard self.now }
    {
        self.game
    }

    /// The player for whom the vertex is settled; none if it is unsettled or no vertex.
    pub fn winner(&self, v: u32) -> Option<Player>
        ensures { result ≡ winner_in (state_of self.now.journal v) }
    {
        let (winner, _) = self.contents.regions.at(v)?;
        Some(winner)
    }

    /// The choice with which the vertex was settled; none if it has none.
    pub fn choice(&self, v: u32) -> Option<u32>
        ensures { result ≡ choices (state_of self.now.journal) v }
    {
        let (_, choice) = self.contents.regions.at(v)?;
        choice
    }

    /// The number of settled vertices.
    pub fn settled(&self) -> u64
        ensures number { result ≡ number_settled self.now.journal }
        ensures board { IsLawfulBoard self.now }
    {
        u64::from(self.contents.number)
    }

    /// The number of vertices that the entries of one worker settled.
    pub fn settled_by(&self, worker: u32) -> u64
        ensures { result ≡ settled_by self.now.journal worker }
    {
        let mut total = 0;
        'entries: for entry in &self.contents.entries {
            if entry.worker == worker {
                total += entry.rows.as_slice().len() as u64;
            }
        }
        total
    }

    /// The journal, the oldest entry first.
    pub fn entries(&self) -> &[Entry]
        ensures { result.now ≡ self.now.journal }
    {
        self.contents.entries.as_slice()
    }

    /// Whether no vertex is unsettled.
    pub fn is_full(&self) -> bool
        ensures { IsTrue result ↔ IsFull self.now.graph (state_of self.now.journal) }
    {
        self.contents.is_full(self.game)
    }

    /// Winners and choices of all vertices, exactly where the board is full. A vertex has a choice exactly where its winner
    /// owns it. The only error is `Memory`.
    pub fn solution(&self, alloc: Global) -> Result<Option<Solution>, Memory>
        ensures { IfOk result (IsSolutionOf self.now) }
    {
        self.contents.solution(alloc, self.game)
    }

    /// The journal; the board is given up.
    pub fn into_entries(self) -> Vec<Entry>
        ensures { result.items ≡ self.entry.journal }
    {
        self.detach().entries
    }

    /// Takes the board back to the time when it had so many entries, and these tables.
    pub(crate) fn rewind(&mut self, entries: usize, regions: Regions, number: u32)
        requires { IsBoard self.old.graph (take entries self.old.journal) regions number }
        ensures graph { self.new.graph ≡ self.old.graph }
        ensures journal { self.new.journal ≡ take entries self.old.journal }
    {
        self.contents.entries.truncate(entries);
        self.contents.regions = regions;
        self.contents.number = number;
    }

    /// Settles a claim that is known to be sound.
    fn settle_sound(&mut self, alloc: Global, worker: u32, claim: &Claim) -> Result<Posted, Refusal>
        requires { IsSound self.old.graph claim.now.player claim.now.rows }
        ensures game { self.new.graph ≡ self.old.graph }
        ensures posted { IfOk result (λ posted. IsGoodOn self.old.graph (state_of self.old.journal) claim.now.player claim.now.rows
            × Adds self.old self.new worker claim.now posted) }
        ensures refused { IfErr result (λ e. Refuses self.old.graph (state_of self.old.journal) claim.now.player claim.now.rows e) }
        ensures of_state { IfErr result IsOfState }
        ensures unchanged { OnErr result (self.new ≡ self.old) }
    {
        let n = self.game.len();
        if let Some(v) = self.contents.regions.first_lost(claim) {
            return Err(Refusal::Lost(v));
        }
        let mut rows = Vec::with_capacity(alloc, n as usize)?;
        self.contents.regions.rest_of(claim, &mut rows);
        if rows.is_empty() {
            return Err(Refusal::Stale);
        }
        let edge = self
            .contents
            .regions
            .first_open(self.game, claim.player, rows.as_slice());
        if let Some((v, w)) = edge {
            return Err(Refusal::Open(v, w));
        }
        self.contents.entries.reserve(1)?;
        Ok(self.contents.enter(self.game, worker, claim.player, rows))
    }
}
