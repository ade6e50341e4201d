//! Finders that the tests share.

use pg_dominion::Claim;
use pg_finders::{Copied, Finder, Found, Job, Solved, zielonka};
use pg_game::{Game, Memory, Player, Sequence};
use std::alloc::{AllocError, Global};
use std::sync::OnceLock;
use std::sync::atomic::{AtomicU64, Ordering};

/// Claims every vertex alone, for Even and then for Odd, with its least successor as the choice.
#[derive(Drop)]
pub struct Singles;

/// The least successor of a vertex that the player owns.
fn least_choice(game: &Game, v: u32, player: Player) -> Option<u32> {
    if v < game.len() && game.owner(v) == player {
        game.successors(v).first().copied()
    } else {
        None
    }
}

/// Adds the claim of a vertex alone.
fn add_single(
    alloc: Global,
    claims: &mut Vec<Claim>,
    game: &Game,
    v: u32,
    player: Player,
) -> Result<(), Memory> {
    add(alloc, claims, player, &[(v, least_choice(game, v, player))])
}

fn add_singles(alloc: Global, claims: &mut Vec<Claim>, game: &Game) -> Result<(), Memory> {
    for v in 0..game.len() {
        add_single(alloc, claims, game, v, Player::Even)?;
        add_single(alloc, claims, game, v, Player::Odd)?;
    }
    Ok(())
}

impl Finder for Singles {
    fn find(&self, alloc: Global, copied: &Copied, _job: &Job) -> Result<Found, Memory> {
        let mut claims = Vec::new(alloc);
        let added = add_singles(alloc, &mut claims, copied.inside.game());
        answer(claims, added)
    }
}

/// What a finder answers once it has added claims, or was refused memory.
fn answer(claims: Vec<Claim>, added: Result<(), Memory>) -> Result<Found, Memory> {
    match added {
        Ok(()) => Ok(Found {
            claims,
            gave_up: false,
        }),
        Err(memory) => Err(memory),
    }
}

/// Adds a claim of these rows.
fn add(
    alloc: Global,
    claims: &mut Vec<Claim>,
    player: Player,
    rows: &[(u32, Option<u32>)],
) -> Result<(), Memory> {
    let rows = Sequence::new(Vec::from_slice(alloc, rows)?);
    claims.push(Claim { player, rows })?;
    Ok(())
}

/// Adds a claim of all vertices, with least successors as choices.
fn add_whole(
    alloc: Global,
    claims: &mut Vec<Claim>,
    game: &Game,
    player: Player,
) -> Result<(), Memory> {
    let mut rows = Vec::new(alloc);
    for v in 0..game.len() {
        rows.push((v, least_choice(game, v, player)))?;
    }
    add(alloc, claims, player, rows.as_slice())
}

fn add_wholes(alloc: Global, claims: &mut Vec<Claim>, game: &Game) -> Result<(), Memory> {
    add_whole(alloc, claims, game, Player::Even)?;
    add_whole(alloc, claims, game, Player::Odd)
}

/// Claims all vertices for each player.
#[derive(Drop)]
pub struct Wholes;

impl Finder for Wholes {
    fn find(&self, alloc: Global, copied: &Copied, _job: &Job) -> Result<Found, Memory> {
        let mut claims = Vec::new(alloc);
        let added = add_wholes(alloc, &mut claims, copied.inside.game());
        answer(claims, added)
    }
}

fn add_misshapen(alloc: Global, claims: &mut Vec<Claim>, game: &Game) -> Result<(), Memory> {
    let n = game.len();
    add(alloc, claims, Player::Even, &[])?;
    add(alloc, claims, Player::Odd, &[(1, None), (0, None)])?;
    add(
        alloc,
        claims,
        Player::Even,
        &[(n, None), (n.saturating_add(1), Some(n))],
    )
}

/// Gives an empty claim, falling rows, and rows of what is no vertex.
#[derive(Drop)]
pub struct Misshapen;

impl Finder for Misshapen {
    fn find(&self, alloc: Global, copied: &Copied, _job: &Job) -> Result<Found, Memory> {
        let mut claims = Vec::new(alloc);
        let added = add_misshapen(alloc, &mut claims, copied.inside.game());
        answer(claims, added)
    }
}

/// Gives the solution of the first copy that it sees for ever.
#[derive(Drop)]
pub struct FirstSolution {
    solution: OnceLock<[Claim; 2]>,
}

/// The solution of a copy, of which nothing is said.
fn both_regions(alloc: Global, copied: &Copied) -> Result<[Claim; 2], Memory> {
    let Solved { even, odd } = zielonka(alloc, &copied.inside)?;
    Ok([even, odd])
}

fn add_copies(alloc: Global, claims: &mut Vec<Claim>, copies: &[Claim]) -> Result<(), Memory> {
    for claim in copies {
        add(alloc, claims, claim.player, claim.rows.as_slice())?;
    }
    Ok(())
}

impl FirstSolution {
    pub fn new() -> FirstSolution {
        FirstSolution {
            solution: OnceLock::new(),
        }
    }

    /// Adds the solution of the first copy.
    fn add_solution(
        &self,
        alloc: Global,
        claims: &mut Vec<Claim>,
        copied: &Copied,
    ) -> Result<(), Memory> {
        if self.solution.get().is_none() {
            let _ = self.solution.try_set(both_regions(alloc, copied)?);
        }
        match self.solution.get() {
            Some(solution) => add_copies(alloc, claims, solution.as_slice()),
            None => Ok(()),
        }
    }
}

impl Finder for FirstSolution {
    fn find(&self, alloc: Global, copied: &Copied, _job: &Job) -> Result<Found, Memory> {
        let mut claims = Vec::new(alloc);
        let added = self.add_solution(alloc, &mut claims, copied);
        answer(claims, added)
    }
}

/// Answers every job with out of memory.
#[derive(Drop)]
pub struct NoMemory;

impl Finder for NoMemory {
    fn find(&self, _alloc: Global, _copied: &Copied, _job: &Job) -> Result<Found, Memory> {
        Err(AllocError)
    }
}

/// Finds nothing, and keeps the bound and the budget of the last search for small dominions that it was asked for.
#[derive(Drop)]
pub struct Recorder {
    pub bound: AtomicU64,
    pub budget: AtomicU64,
}

impl Recorder {
    pub fn new() -> Recorder {
        Recorder {
            bound: AtomicU64::new(0),
            budget: AtomicU64::new(0),
        }
    }
}

impl Finder for Recorder {
    fn find(&self, alloc: Global, _copied: &Copied, job: &Job) -> Result<Found, Memory> {
        if let Job::Small { bound, budget, .. } = *job {
            self.bound.store(u64::from(bound), Ordering::SeqCst);
            self.budget.store(budget, Ordering::SeqCst);
        }
        Ok(Found {
            claims: Vec::new(alloc),
            gave_up: false,
        })
    }
}
