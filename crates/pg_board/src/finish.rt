//! How a board settles all that is left, as worker 0: it posts what the searches of the standard finder find, and then what
//! Zielonka's recursion (1998) finds in the rest. The board checks these claims as it checks any other.

ghost use Rattle.std.specs.Prelude.{◌≡◌, ◌≢◌, ◌<◌, ◌∷◌, ℕ, [], length, IfOk, OnOk, true, false};
ghost use Rattle.pg_game.specs.declared.player.Player.TheVariants.{Even, Odd};
ghost use Rattle.pg_finders.specs.Claims.{AreClaims};
ghost use Rattle.pg_board.specs.declared.journal.Refusal.{Refusal};
ghost use Rattle.pg_board.specs.State.{unsettled};
ghost use Rattle.pg_board.specs.Journal.{state_of, IsLawful, IsDominionAfter};
ghost use Rattle.pg_board.specs.Full.{IsFull};
ghost use Rattle.pg_board.specs.Finish.{IsContinued, IsLater, IsFinishAnswer, MayGiveUp, number_unsettled, priorities_unsettled};
ghost use Rattle.pg_board.specs.private.Contents.{Settles};

use crate::board::Board;
use crate::journal::Refusal;
use crate::options::{BUDGET, Options};
use pg_dominion::Claim;
use pg_finders::{Finder, Found, Job, Solved, Standard, zielonka_within};
use pg_game::Memory;
use std::alloc::{AllocError, Global};

impl<'g> Board<'g> {
    /// Settles all that is unsettled, as worker 0. It posts what the searches before the recursion find (`Options::job`), job
    /// after job, and then the rest (`post_rest`). False if it gave up. After that or an error nothing has changed.
    pub fn finish(&mut self, alloc: Global, limit: Option<u64>) -> Result<bool, Memory>
        ensures { IsFinishAnswer limit self.old self.new result }
    {
        if self.contents.is_full(self.game) {
            return Ok(true);
        }
        let entries = self.contents.entries.len();
        let regions = self.contents.regions.copy(alloc)?;
        let number = self.contents.number;
        match self.post_all(alloc, limit) {
            Ok(true) => Ok(true),
            refused => {
                self.rewind(entries, regions, number);
                refused
            }
        }
    }

    /// Solves what is unsettled by Zielonka's recursion (1998), and posts Even's claim and then Odd's as worker 0, unless they have
    /// no rows. False if there is a limit and the recursion needs more steps (`zielonka_within`). The only error is `Memory`, after
    /// which the board may have either entry, or both.
    pub fn post_rest(&mut self, alloc: Global, limit: Option<u64>) -> Result<bool, Memory>
        ensures lawful { IsLawful self.new.graph self.new.journal }
        ensures later { IsLater (Even ∷ Odd ∷ []) self.old self.new }
        ensures full { IfOk result (λ done. done ≡ true → IsFull self.new.graph (state_of self.new.journal)) }
        ensures gave_up { IfOk result (λ done. done ≡ false → self.new ≡ self.old) }
        ensures limited { IfOk result (λ done. done ≡ false → MayGiveUp limit (priorities_unsettled self.old) (number_unsettled self.old)) }
    {
        if self.contents.is_full(self.game) {
            return Ok(true);
        }
        let copied = self.copy(alloc)?;
        let Some(solved) = zielonka_within(alloc, &copied.inside, limit)? else {
            return Ok(false);
        };
        self.post_solved(alloc, &solved)?;
        Ok(true)
    }

    /// What the searches find and then the rest. The entries stay, whatever the answer.
    fn post_all(&mut self, alloc: Global, limit: Option<u64>) -> Result<bool, Memory>
        ensures lawful { IfOk result (λ _. IsLawful self.new.graph self.new.journal) }
        ensures continued { IsContinued self.old self.new }
        ensures full { IfOk result (λ done. done ≡ true → IsFull self.new.graph (state_of self.new.journal)) }
        ensures limited { IfOk result (λ done. done ≡ false → MayGiveUp limit (priorities_unsettled self.old) (number_unsettled self.old)) }
    {
        self.post_jobs(alloc)?;
        self.post_rest(alloc, limit)
    }

    /// Posts what the standard finder finds for each job but the last, which is the recursion, until the board is full.
    fn post_jobs(&mut self, alloc: Global) -> Result<(), Memory>
        ensures { IsContinued self.old self.new }
    {
        let n = self.game().len();
        'jobs: for number in 0..SEARCHES.total(n) - 1 {
            if self.is_full() {
                return Ok(());
            }
            self.post_job(alloc, &SEARCHES.job(n, number))?;
        }
        Ok(())
    }

    /// Posts what the standard finder finds for a job on a copy of the unsettled part.
    pub(crate) fn post_job(&mut self, alloc: Global, job: &Job) -> Result<(), Memory>
        ensures { IsContinued self.old self.new }
    {
        let copied = self.copy(alloc)?;
        let Found { claims, gave_up: _ } = Standard.find(alloc, &copied, job)?;
        'claims: for claim in claims {
            self.post_own(alloc, &claim)?;
        }
        Ok(())
    }

    /// Posts two claims that share out the unsettled part.
    pub(crate) fn post_solved(&mut self, alloc: Global, solved: &Solved) -> Result<(), Memory>
        requires { AreClaims self.old.graph (unsettled self.old.graph (state_of self.old.journal)) solved.now.even solved.now.odd }
        ensures lawful { IsLawful self.new.graph self.new.journal }
        ensures later { IsLater (Even ∷ Odd ∷ []) self.old self.new }
        ensures full { OnOk result (IsFull self.new.graph (state_of self.new.journal)) }
    {
        // for the proof: the graph is a game, and the journal is lawful
        let _game = self.game();
        self.post_part(alloc, &solved.even)?;
        self.post_part(alloc, &solved.odd)
    }

    /// Posts a claim that was a dominion at some time, unless it has no rows.
    fn post_part(&mut self, alloc: Global, claim: &Claim) -> Result<(), Memory>
        requires lawful { IsLawful self.old.graph self.old.journal }
        requires dominion { 0 < length claim.now.rows
            → (k : ℕ) × IsDominionAfter self.old.graph self.old.journal k claim.now.player claim.now.rows }
        ensures lawful { IsLawful self.new.graph self.new.journal }
        ensures later { IsLater (claim.now.player ∷ []) self.old self.new }
        ensures settles { OnOk result (Settles self.new.journal claim.now.player claim.now.rows) }
    {
        if claim.rows.as_slice().is_empty() {
            return Ok(());
        }
        self.post_own(alloc, claim)
    }

    /// Posts a claim as worker 0. A refused claim is dropped, as a worker drops it. The only error is `Memory`.
    pub(crate) fn post_own(&mut self, alloc: Global, claim: &Claim) -> Result<(), Memory>
        ensures lawful { IsLawful self.new.graph self.new.journal }
        ensures later { IsLater (claim.now.player ∷ []) self.old self.new }
        ensures settles { (k : ℕ) → IsDominionAfter self.old.graph self.old.journal k claim.now.player claim.now.rows
            → OnOk result (Settles self.new.journal claim.now.player claim.now.rows) }
    {
        match self.post(alloc, 0, claim) {
            Ok(_) => Ok(()),
            Err(refusal) => dropped(refusal),
        }
    }
}

/// The answer to a refused claim, which is dropped.
fn dropped(refusal: Refusal) -> Result<(), Memory>
    ensures { OnOk result (refusal ≢ Refusal.Memory) }
{
    match refusal {
        Refusal::Memory => Err(AllocError),
        _ => Ok(()),
    }
}

/// The options of the searches, with the bound that the program has by default. The last job is the recursion.
pub const SEARCHES: Options = Options {
    workers: 1,
    bound: 4,
    budget: BUDGET,
};
