//! Finders that claim what they like, and finders that note what they are given.

use pg_dominion::Claim;
use pg_finders::{Copied, Finder, Found, Job, Standard};
use pg_game::{Game, Memory, Player, Sequence};
use pg_test_support::{EVEN, ODD, Row, check_eq};
use std::alloc::Global;
use std::process::Abort;
use std::sync::OnceLock;

fn claim_of(alloc: Global, player: Player, rows: &[Row]) -> Result<Claim, Memory> {
    Ok(Claim {
        player,
        rows: Sequence::new(Vec::from_slice(alloc, rows)?),
    })
}

/// Adds a claim of these rows.
fn add(alloc: Global, claims: &mut Vec<Claim>, player: Player, rows: &[Row]) -> Result<(), Memory> {
    claims.push(claim_of(alloc, player, rows)?)?;
    Ok(())
}

/// The game of a copy, of which nothing is said.
fn game_in<'a>(copied: &'a Copied) -> &'a Game {
    copied.inside.game()
}

/// What a finder answers once it has added claims, or was refused memory.
pub fn answer(claims: Vec<Claim>, added: Result<(), Memory>) -> Result<Found, Memory> {
    match added {
        Ok(()) => Ok(Found {
            claims,
            gave_up: false,
        }),
        Err(memory) => Err(memory),
    }
}

/// A vertex with its least successor as the choice where the player owns it.
fn least_row(game: &Game, v: u32, player: Player) -> Row {
    if v < game.len() && game.owner(v) == player {
        (v, game.successors(v).first().copied())
    } else {
        (v, None)
    }
}

/// Adds a claim of a vertex alone.
fn add_single(
    alloc: Global,
    claims: &mut Vec<Claim>,
    game: &Game,
    v: u32,
    player: Player,
) -> Result<(), Memory> {
    add(alloc, claims, player, &[least_row(game, v, player)])
}

fn add_singles(alloc: Global, claims: &mut Vec<Claim>, game: &Game) -> Result<(), Memory> {
    for v in 0..game.len() {
        add_single(alloc, claims, game, v, EVEN)?;
        add_single(alloc, claims, game, v, ODD)?;
    }
    Ok(())
}

/// Claims every vertex alone, for Even and then for Odd, with its least successor as the choice.
pub struct Singles;

impl Finder for Singles {
    fn find(&self, alloc: Global, copied: &Copied, _job: &Job) -> Result<Found, Memory> {
        let mut claims = Vec::new(alloc);
        let added = add_singles(alloc, &mut claims, game_in(copied));
        answer(claims, added)
    }
}

/// Answers every job with out of memory.
pub struct NoMemory;

impl Finder for NoMemory {
    fn find(&self, _alloc: Global, _copied: &Copied, _job: &Job) -> Result<Found, Memory> {
        Err(std::alloc::AllocError)
    }
}

/// Gives the same claims for each job, this many times.
#[derive(Drop)]
pub struct Fixed<'a> {
    pub claims: &'a [(Player, &'a [Row])],
    pub times: u32,
}

impl Fixed<'_> {
    fn add_once(&self, alloc: Global, claims: &mut Vec<Claim>) -> Result<(), Memory> {
        for (player, rows) in self.claims {
            add(alloc, claims, *player, *rows)?;
        }
        Ok(())
    }

    fn add_claims(&self, alloc: Global, claims: &mut Vec<Claim>) -> Result<(), Memory> {
        for _time in 0..self.times {
            self.add_once(alloc, claims)?;
        }
        Ok(())
    }
}

impl Finder for Fixed<'_> {
    fn find(&self, alloc: Global, _copied: &Copied, _job: &Job) -> Result<Found, Memory> {
        let mut claims = Vec::new(alloc);
        let added = self.add_claims(alloc, &mut claims);
        answer(claims, added)
    }
}

/// Has no memory for `Solitaire`. Claims Even's loop in each `Small` search for Even, and says that it gave up.
pub struct Halting;

impl Finder for Halting {
    fn find(&self, alloc: Global, copied: &Copied, job: &Job) -> Result<Found, Memory> {
        if *job == Job::Solitaire {
            return Err(std::alloc::AllocError);
        }
        let gave_up = matches!(
            job,
            Job::Small {
                player: Player::Even,
                ..
            }
        );
        let times = u32::from(gave_up);
        let claims: &[(Player, &[Row])] = &[(EVEN, &[(0, Some(0))])];
        let Found { claims, .. } = Fixed { claims, times }.find(alloc, copied, job)?;
        Ok(Found { claims, gave_up })
    }
}

/// Notes the jobs that it is given, in order, and finds nothing.
#[derive(Drop)]
pub struct Recorder {
    pub jobs: Vec<OnceLock<Job>>,
}

impl Recorder {
    /// Capacity for this many jobs.
    pub fn with_places(alloc: Global, count: u32) -> Result<Recorder, Memory> {
        let mut jobs = Vec::new(alloc);
        for _job in 0..count {
            jobs.push(OnceLock::new())?;
        }
        Ok(Recorder { jobs })
    }

    /// Notes a job in the first free place, and returns the number of jobs before.
    fn note(&self, job: &Job) -> u32 {
        let mut before = 0u32;
        for place in self.jobs.iter() {
            if place.try_set(*job).is_ok() {
                break;
            }
            before = before.saturating_add(1);
        }
        before
    }

    /// How many jobs were noted before this one.
    pub fn before(&self, rt: &impl Abort, job: Job) -> u32 {
        let mut before = 0u32;
        for place in self.jobs.iter() {
            if place.get().copied() == Some(job) {
                return before;
            }
            before = before.saturating_add(1);
        }
        panic!(*rt; "a job that no worker was given: {job:?}")
    }
}

impl Finder for Recorder {
    fn find(&self, alloc: Global, _copied: &Copied, job: &Job) -> Result<Found, Memory> {
        let _before = self.note(job);
        answer(Vec::new(alloc), Ok(()))
    }
}

/// Notes the jobs, and claims vertices alone: as many, and it gives up or has no memory, as `numbers_of` says for the number of jobs
/// before.
#[derive(Drop)]
pub struct Numbered {
    pub recorder: Recorder,
}

/// The number of claims, and whether the search gives up; none if it has no memory.
pub fn numbers_of(before: u32) -> Option<(u32, bool)> {
    if before % 5 == 4 {
        return None;
    }
    Some((before.wrapping_mul(17) % 60, before % 3 == 0))
}

impl Numbered {
    fn add_claims(
        &self,
        alloc: Global,
        claims: &mut Vec<Claim>,
        game: &Game,
        count: u32,
    ) -> Result<(), Memory> {
        for v in 0..count {
            let player = if v % 3 == 0 { ODD } else { EVEN };
            add_single(alloc, claims, game, v, player)?;
        }
        Ok(())
    }
}

impl Finder for Numbered {
    fn find(&self, alloc: Global, copied: &Copied, job: &Job) -> Result<Found, Memory> {
        let Some((count, gave_up)) = numbers_of(self.recorder.note(job)) else {
            return Err(std::alloc::AllocError);
        };
        let mut claims = Vec::new(alloc);
        let added = self.add_claims(alloc, &mut claims, game_in(copied), count);
        let Found { claims, .. } = answer(claims, added)?;
        Ok(Found { claims, gave_up })
    }
}

/// The product's finder, which notes how many vertices were settled in the copy of the first search for small dominions.
#[derive(Drop)]
pub struct Watcher {
    pub settled: OnceLock<u64>,
}

impl Watcher {
    /// What was noted is this.
    pub fn compare_settled(&self, rt: &impl Abort, want: u64) {
        check_eq!(*rt; self.settled.get().copied(), Some(want));
    }
}

impl Finder for Watcher {
    fn find(&self, alloc: Global, copied: &Copied, job: &Job) -> Result<Found, Memory> {
        if let Job::Small { .. } = job {
            let _ = self.settled.try_set(copied.settled);
        }
        Standard.find(alloc, copied, job)
    }
}
