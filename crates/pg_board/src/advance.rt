//! How a session settles all that is left in slices, as worker 0. The slices run the searches of `Board::finish` in the same order,
//! and then the recursion, whose state they keep.

ghost use Rattle.std.specs.Prelude.{◌≡◌, ◌+◌, ◌-◌, ◌<◌, ◌≤◌, ℕ, IfOk, OnErr, Ok};
ghost use Rattle.std.specs.Arc.{arc_value};
ghost use Rattle.pg_game.specs.VertexSet.{In};
ghost use Rattle.pg_board.specs.State.{unsettled};
ghost use Rattle.pg_board.specs.Journal.{state_of};
ghost use Rattle.pg_board.specs.Full.{IsFull};
ghost use Rattle.pg_board.specs.Finish.{IsContinued};
ghost use Rattle.pg_board.specs.Slices.{slices_left, most_steps, IsSearch, IsCharged, IsLastCharged};
ghost use Rattle.pg_board.specs.private.Stage.{IsRunOn, IsStageOf};

use crate::board::Board;
use crate::finish::SEARCHES;
use pg_finders::{Advanced, Recursion};
use pg_game::{Game, Memory};
use std::alloc::Global;
use std::sync::Arc;

/// Where the slices of a board are.
#[derive(Drop)]
pub enum Stage {
    /// The number of the next search. After the last search the recursion is to begin.
    Search(u64),
    /// The recursion on what is unsettled, which has more steps to take.
    Recursion(Recursion),
}

impl<'g> Board<'g> {
    /// The next slice: a search, or after the last search so many steps of the recursion. The only error is `Memory`; the entries
    /// stay also then.
    pub(crate) fn advance(
        &mut self,
        alloc: Global,
        game: &Arc<Game>,
        stage: Stage,
        steps: &mut u64,
    ) -> Result<Stage, Memory>
        requires game { arc_value game.now ≡ self.old.graph }
        requires stage { IsStageOf self.old.graph self.old.journal stage }
        ensures continued { IsContinued self.old self.new }
        ensures steps { steps.new ≤ steps.old }
        ensures stage { IfOk result (λ s. IsStageOf self.new.graph self.new.journal s) }
        ensures nearer { IfOk result (λ s. (IsFull self.new.graph (state_of self.new.journal) → ⊥) → 0 < steps.old
            → slices_left self.old.graph s < slices_left self.old.graph stage) }
        ensures taken { IfOk result (λ s. (IsFull self.new.graph (state_of self.new.journal) → ⊥)
            → slices_left self.old.graph s + (steps.old - steps.new) ≤ slices_left self.old.graph stage) }
        ensures charged { IfOk result (λ s. (IsFull self.new.graph (state_of self.new.journal) → ⊥)
            → IsCharged (most_steps self.old.graph) (slices_left self.old.graph stage) (slices_left self.old.graph s) steps.old steps.new) }
        ensures last { IfOk result (λ s. IsFull self.new.graph (state_of self.new.journal) → (v : ℕ) → In (unsettled self.old.graph (state_of self.old.journal)) v
            → IsLastCharged (most_steps self.old.graph) (slices_left self.old.graph stage) steps.old steps.new) }
        ensures refused { OnErr result (IsSearch (most_steps self.old.graph) (slices_left self.old.graph stage) → steps.new ≡ steps.old) }
        ensures whole { IsFull self.old.graph (state_of self.old.journal) → (result ≡ Ok stage) × (self.new ≡ self.old) × (steps.new ≡ steps.old) }
    {
        let n = self.game().len();
        if self.is_full() {
            return Ok(stage);
        }
        match stage {
            Stage::Search(number) if number < SEARCHES.total(n) - 1 => {
                self.post_job(alloc, &SEARCHES.job(n, number))?;
                Ok(Stage::Search(number + 1))
            }
            Stage::Search(_) => {
                let recursion = self.recursion(alloc, game)?;
                self.post_steps(alloc, recursion, steps)
            }
            Stage::Recursion(recursion) => self.post_steps(alloc, recursion, steps),
        }
    }

    /// Takes so many steps of the recursion. Posts its claims once it is done; else it is returned.
    fn post_steps(
        &mut self,
        alloc: Global,
        recursion: Recursion,
        steps: &mut u64,
    ) -> Result<Stage, Memory>
        requires { IsRunOn self.old.graph self.old.journal recursion }
        ensures continued { IsContinued self.old self.new }
        ensures steps { steps.new ≤ steps.old }
        ensures stage { IfOk result (λ s. IsStageOf self.new.graph self.new.journal s) }
        ensures nearer { IfOk result (λ s. (IsFull self.new.graph (state_of self.new.journal) → ⊥)
            → slices_left self.old.graph s + steps.old ≤ recursion.remaining) }
        ensures spent { IfOk result (λ s. (IsFull self.new.graph (state_of self.new.journal) → ⊥) → steps.new ≡ 0) }
        ensures last { IfOk result (λ s. IsFull self.new.graph (state_of self.new.journal) → (v : ℕ)
            → In (unsettled self.old.graph (state_of self.old.journal)) v → steps.new < steps.old) }
    {
        match recursion.advance(alloc, steps)? {
            Advanced::Running(recursion) => Ok(Stage::Recursion(recursion)),
            Advanced::Solved(solved) => {
                self.post_solved(alloc, &solved)?;
                Ok(Stage::Search(0))
            }
        }
    }

    /// The recursion on what is unsettled.
    fn recursion(&self, alloc: Global, game: &Arc<Game>) -> Result<Recursion, Memory>
        requires { arc_value game.now ≡ self.now.graph }
        ensures { IfOk result (λ r. IsRunOn self.now.graph self.now.journal r) }
    {
        let copied = self.copy(alloc)?;
        Recursion::begin(alloc, game, copied.inside.mask().copy(alloc)?)
    }
}
