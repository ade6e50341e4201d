//! Games, winners and choices in arrays. A game is in compressed sparse rows: owners, priorities, and the targets of all edges in
//! rows. A vertex is its place, from 0 on, and winners and choices have an entry for each vertex.

ghost use Rattle.std.specs.Prelude.{◌≡◌, OnOk, IfErr, ◌<◌, ◌≤◌, length, IfOk, MatchOption, All, ℕ, IfSome};
ghost use Rattle.pgboard_c.specs.Arrays.{game_lists, result_lists, solution_lists, array_specs, no_choice, choice_from, choice_number};
ghost use Rattle.pgboard_c.specs.Arrays.{HaveLengths, IsBadRow, IsBadOwner, IsBadPriority, AreWellFormed, IsGameOfArrays, AreResults, IsBadWinner};
ghost use Rattle.pgboard_c.specs.Answers.{IsArraysFault, HaveSize, AreUnfitResults, IsUnfitSolution};
ghost use Rattle.pg_game.specs.Specification.{AreNumbers};
ghost use Rattle.pg_game.specs.Least.{NoneHas, IsLeast};
ghost use Rattle.pg_game.specs.Player.{digit_of};
ghost use Rattle.pg_text.specs.Solution.{choice_of};

use crate::fault::{ArrayName, Fault, Structure};
use pg_game::{ForwardGame, GameBuilder, GameFault, Memory, Player, Sequence};
use pg_text::Solution;
use std::alloc::Global;

/// Owners, priorities, and the targets of all edges in rows: vertex `v` has those from `starts[v]` on, before
/// `starts[v + 1]`. The size is that of this struct, so that a later version knows its fields.
#[repr(C)]
pub struct GameArrays<'a> {
    pub size: usize,
    pub owners: &'a [u8],
    pub priorities: &'a [u32],
    pub starts: &'a [u32],
    pub targets: &'a [u32],
}

/// The arrays for results: a winner and a choice for each vertex.
#[repr(C)]
pub struct Results<'a> {
    pub size: usize,
    pub winners: &'a mut [u8],
    pub choices: &'a mut [u32],
}

/// Winners and choices of all vertices, for a check.
#[repr(C)]
pub struct SolutionArrays<'a> {
    pub size: usize,
    pub winners: &'a [u8],
    pub choices: &'a [u32],
}

impl<'a> GameArrays<'a> {
    /// The game of the arrays, without predecessors.
    pub fn forward_game(&self, alloc: Global) -> Result<ForwardGame, Fault>
        ensures game { IfOk result (λ g. IsGameOfArrays (game_lists self.now) g) }
        ensures fault { IfErr result (λ e. IsArraysFault (game_lists self.now) e) }
    {
        let specs = self.specs(alloc)?;
        match ForwardGame::from_builder(alloc, specs) {
            Ok(game) => Ok(game),
            Err(GameFault::Memory) => Err(Fault::Memory),
            Err(fault) => Err(Fault::Game(fault)),
        }
    }

    /// The vertices of the arrays, if these make a game, whatever the edges.
    fn specs(&self, alloc: Global) -> Result<GameBuilder, Fault>
        ensures formed { OnOk result (AreWellFormed (game_lists self.now)) }
        ensures specs { IfOk result (λ specs. specs ≡ array_specs (game_lists self.now)) }
        ensures numbers { IfOk result (λ specs. All AreNumbers specs) }
        ensures fault { IfErr result (λ e. IsArraysFault (game_lists self.now) e) }
    {
        self.check()?;
        let n = self.owners.len();
        if n > MAX_IDS {
            return Err(Fault::Game(GameFault::TooManyVertices));
        }
        let mut specs = GameBuilder::with_capacity(alloc, n, self.starts[n] as usize)?;
        for v in 0..n {
            let row = &self.targets[self.starts[v] as usize..self.starts[v + 1] as usize];
            let owner = Player::of_digit(u32::from(self.owners[v]));
            specs.push(v as u32, self.priorities[v], owner, row)?;
        }
        Ok(specs)
    }

    /// The first reason why the arrays are no game, whatever the edges.
    fn check(&self) -> Result<(), Fault>
        ensures formed { OnOk result (AreWellFormed (game_lists self.now)) }
        ensures fault { IfErr result (λ e. IsArraysFault (game_lists self.now) e) }
    {
        self.check_lengths()?;
        let fitting = FittingArrays { arrays: self };
        if let Some(v) = fitting.first_bad_row() {
            return Err(Fault::Row(v));
        }
        if let Some(v) = self.first_bad_owner() {
            return Err(Fault::Owner(v));
        }
        if let Some(v) = fitting.first_bad_priority() {
            return Err(Fault::Priority(v));
        }
        Ok(())
    }

    /// Whether the struct has its size, and the arrays fit one another.
    fn check_lengths(&self) -> Result<(), Fault>
        ensures fit { OnOk result (HaveLengths (game_lists self.now)) }
        ensures fault { IfErr result (λ e. IsArraysFault (game_lists self.now) e) }
    {
        if self.size != Structure::Game.size() {
            return Err(Fault::Size(Structure::Game));
        }
        let n = self.owners.len();
        if self.priorities.len() != n {
            return Err(Fault::Lengths(ArrayName::Priorities));
        }
        if self.starts.is_empty() || self.starts.len() - 1 != n || self.starts[0] != 0 {
            return Err(Fault::Lengths(ArrayName::Starts));
        }
        if self.starts[n] as usize != self.targets.len() {
            return Err(Fault::Lengths(ArrayName::Targets));
        }
        Ok(())
    }

    /// The first vertex whose owner is neither 0 nor 1.
    fn first_bad_owner(&self) -> Option<usize>
        ensures { MatchOption result (NoneHas (IsBadOwner (game_lists self.now))) (IsLeast (IsBadOwner (game_lists self.now))) }
    {
        for v in 0..self.owners.len() {
            if self.owners[v] > 1 {
                return Some(v);
            }
        }
        None
    }
}

/// The arrays of a game, which fit one another.
#[derive(Clone, Copy)]
struct FittingArrays<'a> {
    arrays: &'a GameArrays<'a>,
    ghost lengths: { HaveLengths (game_lists arrays.now) },
}

impl<'a> FittingArrays<'a> {
    /// The first vertex whose row is no part of the targets.
    fn first_bad_row(&self) -> Option<usize>
        ensures { MatchOption result (NoneHas (IsBadRow (game_lists self.now.arrays.now)))
            (IsLeast (IsBadRow (game_lists self.now.arrays.now))) }
    {
        for v in 0..self.arrays.owners.len() {
            let from = self.arrays.starts[v];
            let to = self.arrays.starts[v + 1];
            if to < from || self.arrays.targets.len() < to as usize {
                return Some(v);
            }
        }
        None
    }

    /// The first vertex whose priority is too large.
    fn first_bad_priority(&self) -> Option<usize>
        ensures { MatchOption result (NoneHas (IsBadPriority (game_lists self.now.arrays.now)))
            (IsLeast (IsBadPriority (game_lists self.now.arrays.now))) }
    {
        for v in 0..self.arrays.owners.len() {
            if self.arrays.priorities[v] > MAX_NUMBER {
                return Some(v);
            }
        }
        None
    }
}

impl<'a> Results<'a> {
    /// Whether the struct has its size, and the arrays an entry for each vertex of the game.
    pub fn check_lengths(&self, game: &ForwardGame) -> Result<(), Fault>
        ensures fit { OnOk result (HaveSize game.now (result_lists self.now)) }
        ensures few { OnOk result (length game.now ≤ no_choice) }
        ensures fault { IfErr result (λ e. AreUnfitResults game.now (result_lists self.now) e) }
    {
        let n = game.len() as usize;
        if self.size != Structure::Results.size() {
            return Err(Fault::Size(Structure::Results));
        }
        if self.winners.len() != n {
            return Err(Fault::Results(ArrayName::Winners));
        }
        if self.choices.len() != n {
            return Err(Fault::Results(ArrayName::Choices));
        }
        Ok(())
    }
}

impl<'a> SolutionArrays<'a> {
    /// Whether the struct has its size, and the arrays an entry for each vertex of the game.
    pub fn check_lengths(&self, game: &ForwardGame) -> Result<(), Fault>
        ensures fit { OnOk result (HaveSize game.now (solution_lists self.now)) }
        ensures fault { IfErr result (λ e. IsUnfitSolution game.now (solution_lists self.now) e) }
    {
        let n = game.len() as usize;
        if self.size != Structure::Solution.size() {
            return Err(Fault::Size(Structure::Solution));
        }
        if self.winners.len() != n {
            return Err(Fault::Solution(ArrayName::Winners));
        }
        if self.choices.len() != n {
            return Err(Fault::Solution(ArrayName::Choices));
        }
        Ok(())
    }
}

/// Writes the winner and the choice of each vertex.
#[tactic(auto, using(crate::proofs::arrays::ChoiceNumbers::choice_again))]
pub fn write_results(solution: &Solution, winners: &mut [u8], choices: &mut [u32])
    requires winners { length winners.old ≡ length solution.now.rows }
    requires choices { length choices.old ≡ length solution.now.rows }
    requires below { (v : ℕ) → v < length solution.now.rows → IfSome (choice_of solution.now.rows v) (λ w. w < no_choice) }
    ensures { AreResults winners.new choices.new solution.now.rows }
{
    let rows = solution.rows.as_slice();
    for v in 0..rows.len() {
        let (winner, choice) = rows[v];
        winners[v] = winner.digit();
        choices[v] = number_of(choice);
    }
}

/// The first vertex whose winner is neither 0 nor 1.
pub fn first_bad_winner(winners: &[u8]) -> Option<usize>
    ensures { MatchOption result (NoneHas (IsBadWinner winners.now)) (IsLeast (IsBadWinner winners.now)) }
{
    for v in 0..winners.len() {
        if winners[v] > 1 {
            return Some(v);
        }
    }
    None
}

/// The winners and choices of the arrays. The only error is `Memory`.
pub fn read_results(alloc: Global, winners: &[u8], choices: &[u32]) -> Result<Solution, Memory>
    requires size { length choices.now ≡ length winners.now }
    requires digits { NoneHas (IsBadWinner winners.now) }
    ensures { IfOk result (λ s. AreResults winners.now choices.now s.rows) }
{
    let mut rows = Vec::with_capacity(alloc, winners.len())?;
    for v in 0..winners.len() {
        let winner = Player::of_digit(u32::from(winners[v]));
        rows.push((winner, choice_from(choices[v])))?;
    }
    Ok(Solution {
        rows: Sequence::new(rows),
    })
}

/// The choice of an entry.
pub fn choice_from(number: u32) -> Option<u32>
    ensures { result ≡ choice_from number }
{
    if number == NO_CHOICE {
        None
    } else {
        Some(number)
    }
}

/// The number of a choice, or of none.
pub fn number_of(choice: Option<u32>) -> u32
    ensures { result ≡ choice_number choice }
{
    match choice {
        Some(w) => w,
        None => NO_CHOICE,
    }
}

/// The greatest number of vertices that have identifiers: the numbers from 0 to the greatest.
const MAX_IDS: usize = 2_147_483_648;

/// The greatest priority.
const MAX_NUMBER: u32 = 2_147_483_647;

/// The number for no choice.
const NO_CHOICE: u32 = u32::MAX;
