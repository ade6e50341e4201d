//! The least vertex on a bad cycle: a bad vertex that is the greatest on a closed walk of kept edges.
//!
//! The plain body searches from each bad vertex for a way back below its priority. In most games the searches end soon. If they take
//! long, a ranking of the vertices (`peeling`) gives the answer in near-linear time: a pass over the edges checks every ranking
//! (`ranking`), and one search confirms the vertex that it names. If either fails, the plain body continues.
//!
//! A search without a way back has reached a set. A closed walk under its priority that meets this set stays in it. So its
//! vertices get a level and a group: a later search of a lesser priority from outside the group passes over them. From a
//! place in the queue before the first that was reached twice, each edge leads to a later place. Such a vertex is on no such
//! closed walk, and gets a group of its own: it needs no search up to the level.

ghost use Rattle.std.specs.Prelude.{◌≡◌, ℕ, ◌<◌, ◌≤◌, IfOk, IfSome, MatchOption, Some, None, length, true, false, ◌≢◌, ◌^◌, ◌⊎◌, ◌↔◌, IsTrue, slice_index};
ghost use Rattle.pg_game.specs.Least.{NoneHas, IsLeast};
ghost use Rattle.pg_dominion.specs.KeptEdges.{IsOnBadCycle};
ghost use Rattle.pg_dominion.specs.private.KeptEdges.{Reaches, IsBounded, Leads, AreLabelled, GoesOn, AreNoted, IsSearched, label_lists, reached_lists};
ghost use Rattle.pg_game.specs.Graph.{priority_of};

use crate::peeling::find_ranking;
use crate::ranking::is_ranked;
use crate::strategy_graph::StrategyGraph;
use pg_game::Memory;
use std::alloc::Global;

/// The least vertex on a bad cycle: one with the opponent's parity that is the greatest on a closed walk of kept edges. The
/// graph's `bad` says which have that parity.
///
/// In most games a search from each bad vertex ends soon. If searches look again and again at reached vertices, a ranking
/// gives the result in near-linear time, with the memory of their tables. The only error is refused memory.
pub fn least_on_bad_cycle(alloc: Global, kept: &StrategyGraph) -> Result<Option<u32>, Memory>
    ensures { IfOk result (λ least. MatchOption least (NoneHas (IsOnBadCycle kept.now)) (IsLeast (IsOnBadCycle kept.now))) }
{
    let patience = u64::from(kept.game.len()) / 4;
    let from = match search_from(alloc, kept, 0, patience)? {
        SearchProgress::All(least) => return Ok(least),
        SearchProgress::Before(v) => v,
    };
    if let Some(least) = first_by_ranking(alloc, kept, from)? {
        return Ok(least);
    }
    match search_from(alloc, kept, from, u64::MAX)? {
        SearchProgress::All(least) => Ok(least),
        SearchProgress::Before(_) => unreachable!(),
    }
}

/// Searches from each bad vertex, from `from` on, until more repeats are left than the patience. A patience of the greatest
/// number has no limit.
fn search_from(
    alloc: Global,
    kept: &StrategyGraph,
    from: u32,
    patience: u64,
) -> Result<SearchProgress, Memory>
    requires none { (v : ℕ) → v < from → IsOnBadCycle kept.now v → ⊥ }
    ensures { IfOk result (IsSearched kept.now patience) }
{
    let Some(first) = first_bad(kept, from) else {
        return Ok(SearchProgress::All(None));
    };
    let mut searches = Searches::new(alloc, kept)?;
    'starts: for v in first..kept.game.len() {
        if searches.find_bad_cycle(v)? {
            return Ok(SearchProgress::All(Some(v)));
        }
        if searches.repeat_more_than(patience) {
            return Ok(SearchProgress::Before(v + 1));
        }
    }
    Ok(SearchProgress::All(None))
}

/// The result of searches from one bad vertex after another.
#[derive(Clone, Copy)]
enum SearchProgress {
    /// The least vertex on a bad cycle, or that there is none.
    All(Option<u32>),
    /// There is none before this vertex, and the searches ended there.
    Before(u32),
}

/// The first bad vertex, from `from` on. Without one, no search needs tables.
fn first_bad(kept: &StrategyGraph, from: u32) -> Option<u32>
    requires none { (v : ℕ) → v < from → IsOnBadCycle kept.now v → ⊥ }
    ensures { MatchOption result (NoneHas (IsOnBadCycle kept.now)) (λ first. (v : ℕ) → v < first → IsOnBadCycle kept.now v → ⊥) }
{
    'vertices: for v in from..kept.game.len() {
        if kept.bad.has(v) {
            return Some(v);
        }
    }
    None
}

/// Searches from one bad vertex after another.
#[derive(Drop)]
struct Searches<'k, 'g> {
    labels: Labels<'k, 'g>,
    search: WalkSearch,
    ghost size: { length search.places.items ≡ length labels.kept.now.game.now },
}

impl<'k, 'g> Searches<'k, 'g> {
    /// No search has been made yet.
    fn new(alloc: Global, kept: &'k StrategyGraph<'g>) -> Result<Searches<'k, 'g>, Memory>
        ensures { IfOk result (λ s. s.labels.kept.now ≡ kept.now) }
    {
        Ok(Searches {
            labels: Labels::new(alloc, kept)?,
            search: WalkSearch::new(alloc, kept.game.len())?,
        })
    }

    /// Whether the vertex is bad and the greatest on a closed walk through it. Each search takes about twice its first edges off
    /// the repeats, so that many short searches do not pay for long ones.
    fn find_bad_cycle(&mut self, v: u32) -> Result<bool, Memory>
        requires { v < length self.old.labels.kept.now.game.now }
        ensures graph { self.new.labels.kept.now ≡ self.old.labels.kept.now }
        ensures bad_cycle { IfOk result (λ found. IsTrue found ↔ IsOnBadCycle self.old.labels.kept.now v) }
    {
        let kept = self.labels.kept;
        if !kept.bad.has(v) || self.labels.is_alone(v) {
            return Ok(false);
        }
        let first_edges = kept.row(v).len() as u64;
        self.search.repeats = self.search.repeats.saturating_sub(4 + 2 * first_edges);
        self.walks_back(v)
    }

    /// Whether a vertex is the greatest on a closed walk through it.
    fn walks_back(&mut self, start: u32) -> Result<bool, Memory>
        requires { start < length self.old.labels.kept.now.game.now }
        ensures graph { self.new.labels.kept.now ≡ self.old.labels.kept.now }
        ensures back { IfOk result (λ found. IsTrue found ↔ Reaches self.old.labels.kept.now start start) }
    {
        let kept = self.labels.kept;
        let top = kept.game.priority(start);
        let own = self.labels.group_above(start, top);
        self.search.queue.clear();
        self.search.queue.push(start)?;
        self.search.places[start as usize] = 0;
        self.search.first_repeated = usize::MAX;
        if self.labels.finds_back(top, own, &mut self.search)? {
            return Ok(true);
        }
        if own == 0 {
            let labels = &mut self.labels;
            note(
                &mut labels.levels,
                &mut labels.groups,
                &self.search,
                top + 1,
                start,
            );
        }
        Ok(false)
    }

    /// Whether more repeats are left than the patience.
    fn repeat_more_than(&self, patience: u64) -> bool
        ensures { result ≡ true → IsBounded patience }
    {
        self.search.repeats > patience
    }
}

/// What searches have shown. All vertices on a closed walk with a vertex, of priorities below its level, have its group and
/// its level. If the group is the vertex's own number and one more, there is no such walk.
struct Labels<'k, 'g> {
    kept: &'k StrategyGraph<'g>,
    levels: Vec<u32>,
    groups: Vec<u32>,
    ghost shown: { AreLabelled kept.now levels.items groups.items },
}

impl<'k, 'g> Labels<'k, 'g> {
    ghost use Rattle.pg_dominion.specs.private.Labels.{HasReached, IsSpreadAt};

    /// No search has shown anything yet.
    fn new(alloc: Global, kept: &'k StrategyGraph<'g>) -> Result<Labels<'k, 'g>, Memory>
        ensures { IfOk result (λ l. l.kept.now ≡ kept.now) }
    {
        let n = kept.game.len();
        Ok(Labels {
            kept,
            levels: vec![in alloc; 0u32; n as usize]?,
            groups: vec![in alloc; 0u32; n as usize]?,
        })
    }

    /// Whether searches have shown that the vertex is not the greatest on a closed walk through it.
    fn is_alone(&self, v: u32) -> bool
        requires { v < length self.now.kept.now.game.now }
        ensures { result ≡ true → Reaches self.now.kept.now v v → ⊥ }
    {
        self.levels[v as usize] > self.kept.game.priority(v) && self.groups[v as usize] == v + 1
    }

    /// The group of a vertex if its level is above the priority, else 0.
    fn group_above(&self, v: u32, top: u32) -> u32
        requires { v < length self.now.kept.now.game.now }
        ensures above { top < slice_index self.now.levels.items v → slice_index self.now.groups.items v ≡ result }
        ensures none { slice_index self.now.levels.items v ≤ top → result ≡ 0 }
    {
        if self.levels[v as usize] > top {
            self.groups[v as usize]
        } else {
            0
        }
    }

    /// Searches for a way back to the first vertex of the queue. Returns whether there is one.
    fn finds_back(&self, top: u32, own: u32, search: &mut WalkSearch) -> Result<bool, Memory>
        requires { HasReached self.now top own search.old }
        ensures state { HasReached self.now top own search.new }
        ensures first { IfOk result (λ found. slice_index search.new.queue.items 0 ≡ slice_index search.old.queue.items 0) }
        ensures back { IfOk result (λ found. found ≡ true
            → Leads self.now.kept.now top (slice_index search.old.queue.items 0) (slice_index search.old.queue.items 0)) }
        ensures spread { IfOk result (λ found. found ≡ false → (i : ℕ) → i < length search.new.queue.items → IsSpreadAt self.now top own search.new i) }
    {
        'queue: for next in 0..usize::MAX {
            if next >= search.queue.len() {
                break;
            }
            if self.spread(top, own, next, search)? {
                return Ok(true);
            }
        }
        Ok(false)
    }

    /// Continues the search for a way back to the queue's first vertex from a place of the queue. Returns whether there is one.
    fn spread(&self, top: u32, own: u32, at: usize, search: &mut WalkSearch) -> Result<bool, Memory>
        requires place { at < length search.old.queue.items }
        requires state { HasReached self.now top own search.old }
        ensures state { HasReached self.now top own search.new }
        ensures later { IfOk result (λ found. GoesOn search.old.queue.items search.old.first_repeated search.new.queue.items search.new.first_repeated) }
        ensures back { IfOk result (λ found. found ≡ true
            → Leads self.now.kept.now top (slice_index search.old.queue.items 0) (slice_index search.old.queue.items 0)) }
        ensures spread { IfOk result (λ found. found ≡ false → IsSpreadAt self.now top own search.new at) }
    {
        let v = search.queue[at];
        let row = self.kept.row(v);
        search.repeats = self.count_repeats(v, row.len(), search.repeats);
        'row: for w in row {
            let to = *w;
            if self.passes_over(top, own, to) {
                continue;
            }
            let end = search.queue.len();
            let place = search.places[to as usize] as usize;
            if place < end && search.queue[place] == to {
                if place == 0 {
                    return Ok(true);
                }
                search.first_repeated = search.first_repeated.min(place);
                continue;
            }
            search.queue.push(to)?;
            search.places[to as usize] = end as u32;
        }
        Ok(false)
    }

    /// Adds this many edges to the repeats, if an earlier search has reached their source.
    fn count_repeats(&self, v: u32, edges: usize, repeats: u64) -> u64
        requires { v < length self.now.kept.now.game.now }
    {
        if self.levels[v as usize] > 0 {
            repeats.saturating_add(edges as u64)
        } else {
            repeats
        }
    }

    /// Whether a search of this priority, from this group or from none, passes over a vertex: its own priority is greater, or its
    /// level is, and it has another group. The test has no branch, which a processor could not predict.
    fn passes_over(&self, top: u32, own: u32, v: u32) -> bool
        requires { v < length self.now.kept.now.game.now }
        ensures over { result ≡ true → (top < priority_of self.now.kept.now.game.now v)
            ⊎ ((top < slice_index self.now.levels.items v) × (slice_index self.now.groups.items v ≢ own)) }
        ensures into { result ≡ false → (priority_of self.now.kept.now.game.now v ≤ top)
            × (top < slice_index self.now.levels.items v → slice_index self.now.groups.items v ≡ own) }
    {
        let is_greater = self.kept.game.priority(v) > top;
        let is_shown = self.levels[v as usize] > top;
        let is_apart = self.groups[v as usize] != own;
        is_greater | (is_shown & is_apart)
    }
}

/// Written by hand, so that dropping a value is one step in the proofs of callers, and not one for each list.
impl<'k, 'g> Drop for Labels<'k, 'g> {
    fn drop(self) {
        let Labels {
            kept: _kept,
            levels: _levels,
            groups: _groups,
        } = self;
    }
}

/// The tables of one search after another.
struct WalkSearch {
    /// The reached vertices, from the start on, and the place of each vertex there, if it has one.
    queue: Vec<u32>,
    places: Vec<u32>,
    /// The least place that was reached twice.
    first_repeated: usize,
    /// The number of edges from vertices of earlier searches that searches have looked at again, less what searches took off.
    repeats: u64,
}

impl WalkSearch {
    /// The tables of a graph with this number of vertices.
    fn new(alloc: Global, n: u32) -> Result<WalkSearch, Memory>
        ensures { IfOk result (λ s. length s.places.items ≡ n) }
    {
        // The queue has capacity for all vertices, so that it frees no small blocks. The allocator would keep those, and the
        // memory below them.
        Ok(WalkSearch {
            queue: Vec::with_capacity(alloc, n as usize)?,
            places: vec![in alloc; 0u32; n as usize]?,
            first_repeated: usize::MAX,
            repeats: 0,
        })
    }
}

/// Written by hand, so that dropping a value is one step in the proofs of callers, and not one for each list.
impl Drop for WalkSearch {
    fn drop(self) {
        let WalkSearch {
            queue: _queue,
            places: _places,
            first_repeated: _first_repeated,
            repeats: _repeats,
        } = self;
    }
}

/// Gives the reached vertices the level, and groups: each before the least place its own, and the others one group.
fn note(levels: &mut Vec<u32>, groups: &mut Vec<u32>, search: &WalkSearch, level: u32, start: u32)
    requires levels { length levels.old.items ≡ length search.now.places.items }
    requires groups { length groups.old.items ≡ length search.now.places.items }
    requires start { start < length search.now.places.items }
    requires short { length search.now.places.items < 2 ^ 32 }
    requires below { (i : ℕ) → i < length search.now.queue.items → slice_index search.now.queue.items i < length search.now.places.items }
    requires placed { (i : ℕ) → i < length search.now.queue.items → slice_index search.now.places.items (slice_index search.now.queue.items i) ≡ i }
    ensures { AreNoted (label_lists levels.old.items groups.old.items)
        (reached_lists search.now.places.items search.now.queue.items search.now.first_repeated) level start (length search.now.queue.items)
        (label_lists levels.new.items groups.new.items) }
{
    'queue: for at in 0..search.queue.len() {
        let v = search.queue[at];
        let group = if at < search.first_repeated {
            v + 1
        } else {
            start + 1
        };
        levels[v as usize] = level;
        groups[v as usize] = group;
    }
}

/// Whether the vertex is the greatest on a closed walk through it, by a search with tables of its own.
fn leads_back(alloc: Global, kept: &StrategyGraph, v: u32) -> Result<bool, Memory>
    requires { v < length kept.now.game.now }
    ensures { IfOk result (λ found. found ≡ true → Reaches kept.now v v) }
{
    let mut searches = Searches::new(alloc, kept)?;
    searches.walks_back(v)
}

/// The least vertex on a bad cycle, if a ranking shows it. Searches have shown that there is none before `from`.
fn first_by_ranking(
    alloc: Global,
    kept: &StrategyGraph,
    from: u32,
) -> Result<Option<Option<u32>>, Memory>
    requires none { (v : ℕ) → v < from → IsOnBadCycle kept.now v → ⊥ }
    ensures { IfOk result (λ shown. IfSome shown (λ least. MatchOption least (NoneHas (IsOnBadCycle kept.now)) (IsLeast (IsOnBadCycle kept.now)))) }
{
    let n = kept.game.len();
    let ranking = find_ranking(alloc, kept, from)?;
    let limit = ranking.limit;
    if !is_ranked(alloc, kept, &ranking, from)? {
        return Ok(None);
    }
    if limit >= n {
        return Ok(Some(None));
    }
    if !kept.bad.has(limit) {
        return Ok(None);
    }
    if leads_back(alloc, kept, limit)? {
        return Ok(Some(Some(limit)));
    }
    Ok(None)
}
