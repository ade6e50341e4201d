//! Games that are hostile to searches, and random ones. Their vertices are Odd's, so that Even's claim of
//! them all keeps all edges. Each is added after the vertices of a draft.

ghost use Rattle.std.specs.Prelude.{◌≡◌, length};

use crate::tests::asserting::made;
use pg_dominion::Claim;
use pg_game::{Game, Mask, Player, Sequence};
use pg_test_support::{Draft, ODD, Random, Row, Vertex, game_of, mask_of, twice};
use std::alloc::Global;
use std::process::Abort;

/// The game of a table, made once more if memory was refused.
pub fn game_made(rt: &impl Abort, alloc: Global, vertices: &[Vertex]) -> Game {
    made(rt, twice!(game_of(alloc, vertices)))
}

/// A claim, made once more if memory was refused.
pub fn claim_of(rt: &impl Abort, alloc: Global, player: Player, rows: &[Row]) -> Claim {
    let rows = made(rt, twice!(Vec::from_slice(alloc, rows)));
    Claim {
        player,
        rows: Sequence::new(rows),
    }
}

/// The mask of length `n` with the members of a set, made once more if memory was refused.
pub fn mask_made(rt: &impl Abort, alloc: Global, n: u32, set: u32) -> Mask
    ensures { length result ≡ n }
{
    match mask_of(alloc, n, set) {
        Ok(mask) => mask,
        Err(_) => mask_of(alloc, n, set).expect(rt, "no memory"),
    }
}

/// Adds a vertex.
fn add(
    rt: &impl Abort,
    alloc: Global,
    draft: &mut Draft,
    priority: u32,
    owner: Player,
    successors: &[u32],
) {
    made(rt, draft.add(alloc, priority, owner, successors));
}

/// The numbers from one on, before another.
fn numbers(rt: &impl Abort, alloc: Global, from: u32, to: u32) -> Vec<u32> {
    let mut numbers = Vec::new(alloc);
    for number in from..to {
        made(rt, numbers.push(number));
    }
    numbers
}

/// A hostile game.
#[derive(Clone, Copy)]
pub enum Hostile {
    /// One cycle through this many vertices, with the priority at the last of them and 1 at the others.
    Cycle(u32, u32),
    /// This many bad vertices that lead to all below them, and a good one at the end.
    Downward(u32),
    /// A ring with a good vertex for each level on a cycle through it, and a bad one below that on which
    /// nothing lies: each component lies in that of the next level. Where a level is turned, its bad vertex
    /// has a priority above all.
    Ladder(u32, Option<u32>),
    /// Each of this many vertices leads to each, and vertex v has the priority `step * v`.
    Dense(u32, u32),
    /// A bad vertex that leads to a cycle of this many good ones, this many of which lead to the next but
    /// one, too; after it two bad ones of greater priorities that lead to 11 of them, and this many vertices
    /// on a cycle of their own. Nothing leads to the first three.
    Chords(u32, u32, u32),
    /// This many bad vertices of rising priorities, each with one edge, to the first vertex of a cycle of
    /// this many good ones.
    Spokes(u32, u32),
    /// One to 24 vertices with one to three random successors each, the same for the same number.
    Random(u64),
}

impl Hostile {
    /// Adds its vertices.
    pub fn add(self, rt: &impl Abort, alloc: Global, draft: &mut Draft) {
        match self {
            Hostile::Cycle(n, priority) => add_cycle(rt, alloc, draft, n, priority),
            Hostile::Downward(n) => add_downward(rt, alloc, draft, n),
            Hostile::Ladder(levels, turned) => add_ladder(rt, alloc, draft, levels, turned),
            Hostile::Dense(n, step) => add_dense(rt, alloc, draft, n, step),
            Hostile::Chords(n, more, others) => {
                add_chords(rt, alloc, draft, n, more);
                add_cycle(rt, alloc, draft, others, 2);
            }
            Hostile::Spokes(n, rim) => add_spokes(rt, alloc, draft, n, rim),
            Hostile::Random(seed) => add_random(rt, alloc, draft, seed),
        }
    }

    fn draft(self, rt: &impl Abort, alloc: Global) -> Draft {
        let mut draft = Draft::new(alloc);
        self.add(rt, alloc, &mut draft);
        draft
    }

    /// The game alone.
    pub fn game(self, rt: &impl Abort, alloc: Global) -> Game {
        made(rt, self.draft(rt, alloc).game(alloc))
    }
}

fn add_cycle(rt: &impl Abort, alloc: Global, draft: &mut Draft, n: u32, priority: u32) {
    let first = draft.len();
    for _v in 0..n.saturating_sub(1) {
        let next = draft.len().saturating_add(1);
        add(rt, alloc, draft, 1, ODD, &[next]);
    }
    add(rt, alloc, draft, priority, ODD, &[first]);
}

fn add_downward(rt: &impl Abort, alloc: Global, draft: &mut Draft, n: u32) {
    let first = draft.len();
    add(rt, alloc, draft, 0, ODD, &[first]);
    for v in 1..n {
        let below = numbers(rt, alloc, first, draft.len());
        let priority = v.saturating_mul(2).saturating_sub(1);
        add(rt, alloc, draft, priority, ODD, below.as_slice());
    }
}

fn add_ladder(rt: &impl Abort, alloc: Global, draft: &mut Draft, levels: u32, turned: Option<u32>) {
    let first = draft.len();
    add_ring(rt, alloc, draft, levels);
    let mut below = first;
    for level in 0..levels {
        let good = draft.len();
        let next = first.saturating_add(level).saturating_add(1);
        let priority = level.saturating_mul(2).saturating_add(2);
        add(
            rt,
            alloc,
            draft,
            priority,
            ODD,
            &[next, good.saturating_add(1)],
        );
        let bad = if turned == Some(level) {
            levels.saturating_mul(2).saturating_add(3)
        } else {
            priority.saturating_sub(1)
        };
        add(rt, alloc, draft, bad, ODD, &[below]);
        below = good;
    }
}

/// The ring of a ladder.
fn add_ring(rt: &impl Abort, alloc: Global, draft: &mut Draft, levels: u32) {
    let first = draft.len();
    let good = first.saturating_add(levels).saturating_add(1);
    for v in 0..levels {
        let next = draft.len().saturating_add(1);
        let up = good.saturating_add(v.saturating_mul(2));
        add(rt, alloc, draft, 0, ODD, &[next, up]);
    }
    add(rt, alloc, draft, 0, ODD, &[first]);
}

fn add_dense(rt: &impl Abort, alloc: Global, draft: &mut Draft, n: u32, step: u32) {
    let first = draft.len();
    let all = numbers(rt, alloc, first, first.saturating_add(n));
    for v in 0..n {
        add(
            rt,
            alloc,
            draft,
            v.saturating_mul(step),
            ODD,
            all.as_slice(),
        );
    }
}

fn add_spokes(rt: &impl Abort, alloc: Global, draft: &mut Draft, n: u32, rim: u32) {
    let first = draft.len();
    for v in 0..rim {
        let next = on_cycle(first, rim, v.saturating_add(1));
        add(rt, alloc, draft, 0, ODD, &[next]);
    }
    for v in 0..n {
        let priority = v.saturating_mul(2).saturating_add(1);
        add(rt, alloc, draft, priority, ODD, &[first]);
    }
}

/// The vertex of a cycle of this many at this distance from its first one.
fn on_cycle(first: u32, n: u32, at: u32) -> u32 {
    let place = if at < n { at } else { at.saturating_sub(n) };
    first.saturating_add(place)
}

/// Capacity for a few vertices.
fn room_for(rt: &impl Abort, alloc: Global, few: u8) -> Vec<u32> {
    made(rt, Vec::with_capacity(alloc, usize::from(few)))
}

/// A few numbers from one on.
fn numbers_from(rt: &impl Abort, alloc: Global, first: u32, few: u8) -> Vec<u32> {
    let mut numbers = room_for(rt, alloc, few);
    for number in first..first.saturating_add(u32::from(few)) {
        made(rt, numbers.push(number));
    }
    numbers
}

/// The vertices from one to this many places, at most two, after one of a cycle.
fn next_on_cycle(
    rt: &impl Abort,
    alloc: Global,
    first: u32,
    n: u32,
    v: u32,
    many: u32,
) -> Vec<u32> {
    let mut next = room_for(rt, alloc, 2);
    for at in 0..many {
        let place = v.saturating_add(at).saturating_add(1);
        made(rt, next.push(on_cycle(first, n, place)));
    }
    next
}

fn add_chords(rt: &impl Abort, alloc: Global, draft: &mut Draft, n: u32, more: u32) {
    let first = draft.len().saturating_add(1);
    add(rt, alloc, draft, 1, ODD, &[first]);
    for v in 0..n {
        let many = if v < more { 2 } else { 1 };
        let next = next_on_cycle(rt, alloc, first, n, v, many);
        add(rt, alloc, draft, 0, ODD, next.as_slice());
    }
    let some = numbers_from(rt, alloc, first, 11);
    add(rt, alloc, draft, 3, ODD, some.as_slice());
    add(rt, alloc, draft, 5, ODD, some.as_slice());
}

fn add_random(rt: &impl Abort, alloc: Global, draft: &mut Draft, seed: u64) {
    let mut random = Random::new(seed);
    let n = random.below(24).saturating_add(1);
    let degree = random.below(3).saturating_add(1);
    let priorities = random.below(12).saturating_add(1);
    let first = draft.len();
    for _v in 0..n {
        let successors = random_successors(rt, alloc, &mut random, first, n, degree);
        let priority = random.below(priorities);
        add(rt, alloc, draft, priority, ODD, successors.as_slice());
    }
}

/// So many of the `n` numbers from one on, some of which may be the same.
fn random_successors(
    rt: &impl Abort,
    alloc: Global,
    random: &mut Random,
    first: u32,
    n: u32,
    degree: u32,
) -> Vec<u32> {
    let mut successors = Vec::new(alloc);
    for _successor in 0..degree {
        made(rt, successors.push(first.saturating_add(random.below(n))));
    }
    successors
}
