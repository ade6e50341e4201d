//! Jobs for workers, and finders, which search for dominions: the standard one has for each kind of job the search of that
//! name.

ghost use Rattle.std.specs.Prelude.{◌≡◌, ℕ, ◌<◌, ◌++◌, min, false, true, length, slice_index, IfOk};
ghost use Rattle.std.specs.Option.{option_to_list};
ghost use Rattle.pg_game.specs.VertexSet.{members};
ghost use Rattle.pg_finders.specs.Jobs.{IfLoops, IfSolitaire, IfSmall, IfRecursion, is_small, AreLoops, AreOfSolitaire, AreOfRecursion, IsOfSmall, seeds_of};
ghost use Rattle.pg_finders.specs.Jobs.{with_rows};

use crate::inside::{Copied, Inside};
use crate::loops::find_loop;
use crate::recursion::zielonka;
use crate::small::{Small, find_small};
use crate::solitaire::find_solitaire;
use pg_dominion::Claim;
use pg_game::{Memory, Player};
use std::alloc::Global;

/// A job for a worker.
#[derive(Clone, Copy, Debug, Drop, PartialEq, Eq)]
pub enum Job {
    /// The dominions of one vertex, for both players.
    Loops,
    /// The whole part, if one player has nothing to choose.
    Solitaire,
    /// A dominion of the player with at most `bound` vertices, one of them among the `count` vertices from `first` on; the
    /// search tries at most `budget` choices.
    Small {
        player: Player,
        first: u32,
        count: u32,
        bound: u32,
        budget: u64,
    },
    /// The whole part, by Zielonka's recursion.
    Recursion,
}

/// The result of a finder: claims, and whether it gave up although there may be another.
#[derive(Drop)]
pub struct Found {
    pub claims: Vec<Claim>,
    pub gave_up: bool,
}

/// Searches for dominions in a copy. No contract promises anything of its claims.
pub trait Finder: Sync {
    /// Claims for a job on a copy. The only error is `Memory`.
    fn find(&self, alloc: Global, copied: &Copied, job: &Job) -> Result<Found, Memory>;
}

/// Searches by the finders of this crate. It is safe for any job on any copy.
///
/// `Loops` and `Recursion` give up to two claims, Even's first, and `Solitaire` and `Small` at most one. A `Small` job skips
/// seeds that are no vertices of the copy's game. Its bound counts as 8 if it is greater, and bound 0 finds nothing.
#[derive(Clone, Copy, Debug, Drop)]
pub struct Standard;

impl Finder for Standard {
    fn find(&self, alloc: Global, copied: &Copied, job: &Job) -> Result<Found, Memory>
        ensures loops { IfOk result (λ found. IfLoops job.now (AreLoops copied.now.inside.graph (members copied.now.inside.mask) found.claims.items)) }
        ensures solitaire { IfOk result (λ found. IfSolitaire job.now
            (AreOfSolitaire copied.now.inside.graph (members copied.now.inside.mask) found.claims.items)) }
        ensures small { IfOk result (λ found. IfSmall job.now
            (λ player first count bound budget. IsOfSmall copied.now.inside.graph (members copied.now.inside.mask) player
            (seeds_of (length copied.now.inside.graph) first count) (min bound 8) budget found.claims.items found.gave_up)) }
        ensures recursion { IfOk result (λ found. IfRecursion job.now
            (AreOfRecursion copied.now.inside.graph (members copied.now.inside.mask) found.claims.items)) }
        ensures gave_up { IfOk result (λ found. found.gave_up ≡ true → is_small job.now ≡ true) }
    {
        let inside = &copied.inside;
        match *job {
            Job::Loops => {
                let even = find_loop(alloc, inside, Player::Even)?;
                let odd = find_loop(alloc, inside, Player::Odd)?;
                all_of(alloc, even, odd)
            }
            Job::Solitaire => all_of(alloc, find_solitaire(alloc, inside)?, None),
            Job::Small {
                player,
                first,
                count,
                bound,
                budget,
            } => {
                let seeds = batch(alloc, inside.game().len(), first, count)?;
                small_of(alloc, inside, player, seeds.as_slice(), bound, budget)
            }
            Job::Recursion => {
                let solved = zielonka(alloc, inside)?;
                all_of(alloc, if_some(solved.even), if_some(solved.odd))
            }
        }
    }
}

/// The claims, in order, without giving up.
fn all_of(alloc: Global, first: Option<Claim>, second: Option<Claim>) -> Result<Found, Memory>
    ensures claims { IfOk result (λ found. found.claims.items ≡ option_to_list first ++ option_to_list second) }
    ensures gave_up { IfOk result (λ found. found.gave_up ≡ false) }
{
    let mut claims = Vec::with_capacity(alloc, 2)?;
    if let Some(claim) = first {
        claims.push(claim)?;
    }
    if let Some(claim) = second {
        claims.push(claim)?;
    }
    Ok(Found {
        claims,
        gave_up: false,
    })
}

/// The vertices below `n` from `first` on, at most `count` of them.
fn batch(alloc: Global, n: u32, first: u32, count: u32) -> Result<Vec<u32>, Memory>
    ensures seeds { IfOk result (λ seeds. seeds.items ≡ seeds_of n first count) }
    ensures below { IfOk result (λ seeds. (k : ℕ) → k < length seeds.items → slice_index seeds.items k < n) }
{
    let end = first.saturating_add(count).min(n);
    let mut seeds = Vec::new(alloc);
    for v in first..end {
        seeds.push(v)?;
    }
    Ok(seeds)
}

/// A `Small` job with these seeds. Bound 0 finds nothing, and a bound above 8 is 8.
fn small_of(
    alloc: Global,
    inside: &Inside,
    player: Player,
    seeds: &[u32],
    bound: u32,
    budget: u64,
) -> Result<Found, Memory>
    requires { (k : ℕ) → k < length seeds.now → slice_index seeds.now k < length inside.now.graph }
    ensures { IfOk result (λ found. IsOfSmall inside.now.graph (members inside.now.mask) player seeds.now
        (min bound 8) budget found.claims.items found.gave_up) }
{
    if bound == 0 {
        return all_of(alloc, None, None);
    }
    match find_small(alloc, inside, player, seeds, bound.min(8), budget)? {
        Small::Found(claim) => all_of(alloc, Some(claim), None),
        Small::Nothing => all_of(alloc, None, None),
        Small::GaveUp => Ok(Found {
            claims: Vec::new(alloc),
            gave_up: true,
        }),
    }
}

/// The claim, if it has rows.
fn if_some(claim: Claim) -> Option<Claim>
    ensures { result ≡ with_rows claim }
{
    if claim.rows.as_slice().is_empty() {
        None
    } else {
        Some(claim)
    }
}
