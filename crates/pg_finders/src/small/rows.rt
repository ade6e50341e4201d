//! The rows of an unfinished small claim: a few vertices in the order in which they were added, each with a choice or none;
//! the vertices of which earlier searches have shown that no small claim has one; and whether the rows have a closed walk
//! that their player loses. All without memory of its own.

ghost use Rattle.std.specs.Prelude.{◌≡◌, ◌≢◌, ℕ, ◌≤◌, ◌<◌, ◌++◌, ◌∷◌, [], length, slice_set, take, None, IsTrue, IsFalse, ◌+◌, ◌^◌, ◌↔◌, ◌⊎◌};
ghost use Rattle.std.specs.Prelude.{IfSome, IsNone};
ghost use Rattle.std.proofs.Props.{props};
ghost use Rattle.pg_dominion.specs.Claim.{row_at, named, choice_in};
ghost use Rattle.pg_finders.specs.private.small.Partial.{AreFew};
ghost use Rattle.pg_finders.specs.private.small.Search.{search_in};
ghost use Rattle.pg_finders.specs.private.small.Excluded.{IsBetween, NoClaimHasBetween};
ghost use Rattle.pg_game.specs.Region.{OnlyGoodWalks};
ghost use Rattle.pg_finders.specs.private.small.Walked.{RowLeadsTo, IsReachedNext, IsReached, WalksBack};

use pg_game::{Game, Mask, Player};
use std::marker::Model;

/// At most eight vertices, each with a choice or none.
///
/// Most vertices that a search asks for are not there. Their numbers modulo 64 show this without a look at the rows.
#[derive(Drop)]
pub struct Chosen {
    rows: [(u32, Option<u32>); 8],
    len: usize,
    /// For each place up to `len`, the numbers modulo 64 of the vertices before it, as bits.
    bits: [u64; 9],
}

impl Model for Chosen {
    ghost use Rattle.std.specs.Prelude.{List, ℕ, Option, take};

    ghost Value = { List (ℕ × Option ℕ) };

    ghost view = { λ c. take c.len c.rows };

    ghost use Rattle.pg_finders.specs.private.small.Few.{IsFew, HaveBits};

    ghost invariant = { λ c. IsFew c.rows c.len × HaveBits c.rows c.len c.bits };
}

impl Chosen {
    /// No vertices.
    pub fn new() -> Chosen
        ensures { result ≡ [] }
    {
        Chosen {
            rows: [(0, None); 8],
            len: 0,
            bits: [0; 9],
        }
    }

    /// The number of vertices.
    pub fn len(&self) -> usize
        ensures number { result ≡ length self.now }
        ensures few { result ≤ 8 }
    {
        self.len
    }

    /// The vertex at a place.
    pub fn vertex(&self, at: usize) -> u32
        requires { at < length self.now }
        ensures { result ≡ (row_at self.now at).0 }
    {
        self.row(at).0
    }

    /// The choice at a place.
    pub fn choice(&self, at: usize) -> Option<u32>
        requires { at < length self.now }
        ensures { result ≡ (row_at self.now at).1 }
    {
        self.row(at).1
    }

    /// Whether the vertex is there.
    #[inline]
    pub fn has(&self, v: u32) -> bool
        ensures { result ≡ named self.now v }
    {
        let bits = self.bits[self.len];
        if (bits >> (v % 64)) & 1 == 0 {
            return false;
        }
        self.has_row(v)
    }

    /// Whether the vertex is before the place.
    pub fn has_before(&self, end: usize, v: u32) -> bool
        requires { end ≤ length self.now }
        ensures found { IsTrue result → (k : ℕ) × (k < end) × ((row_at self.now k).0 ≡ v) }
        ensures none { IsFalse result → (k : ℕ) → k < end → (row_at self.now k).0 ≢ v }
    {
        for at in 0..end {
            if self.vertex(at) == v {
                return true;
            }
        }
        false
    }

    /// Adds a vertex at the end, without a choice.
    pub fn push(&mut self, v: u32)
        requires { length self.old < 8 }
        ensures { self.new ≡ self.old ++ (v, None) ∷ [] }
    {
        self.rows[self.len] = (v, None);
        self.bits[self.len + 1] = self.bits[self.len] | (1u64 << (v % 64));
        self.len += 1;
    }

    /// Sets the choice at a place.
    pub fn choose(&mut self, at: usize, choice: Option<u32>)
        requires { at < length self.old }
        ensures { self.new ≡ slice_set self.old at ((row_at self.old at).0, choice) }
    {
        let v = self.row(at).0;
        let rows = &mut self.rows;
        rows[at] = (v, choice);
    }

    /// Keeps only the first vertices.
    pub fn truncate(&mut self, len: usize)
        requires { len ≤ length self.old }
        ensures { self.new ≡ take len self.old }
    {
        self.len = len;
    }

    /// The vertex and the choice at a place.
    fn row(&self, at: usize) -> (u32, Option<u32>)
        requires { at < length self.now }
        ensures { result ≡ row_at self.now at }
    {
        let rows = &self.rows;
        rows[at]
    }

    /// The same, by a look at each row.
    fn has_row(&self, v: u32) -> bool
        ensures { result ≡ named self.now v }
    {
        for row in &self.rows[..self.len] {
            if row.0 == v {
                return true;
            }
        }
        false
    }
}

/// The vertices from `low` on, below `high`.
#[derive(Clone, Copy, Drop)]
pub struct Excluded {
    pub low: u32,
    pub high: u32,
}

impl Excluded {
    /// Whether the vertex is one of them.
    pub fn contains(&self, v: u32) -> bool
        ensures { IsTrue result ↔ IsBetween self.now.low self.now.high v }
    {
        // without a branch, which a processor could rarely predict
        (self.low <= v) & (v < self.high)
    }

    /// Adds the vertex if it is the one before or after these; otherwise keeps it alone.
    pub fn add(&mut self, v: u32)
        requires { self.old.low ≤ self.old.high }
        ensures order { self.new.low ≤ self.new.high }
        ensures only { (w : ℕ) → IsBetween self.new.low self.new.high w → IsBetween self.old.low self.old.high w ⊎ (w ≡ v) }
        ensures taken { v + 1 < 2 ^ 32 → IsBetween self.new.low self.new.high v }
        ensures kept { ((v + 1 ≡ self.old.low) ⊎ (v ≡ self.old.high)) → (w : ℕ) → IsBetween self.old.low self.old.high w
            → IsBetween self.new.low self.new.high w }
        ensures alone { v + 1 < 2 ^ 32 → v + 1 ≢ self.old.low → v ≢ self.old.high → (w : ℕ) → IsBetween self.new.low self.new.high w → w ≡ v }
    {
        let after = v.saturating_add(1);
        if after == self.low {
            self.low = v;
        } else if v == self.high {
            self.high = after;
        } else {
            *self = Excluded {
                low: v,
                high: after,
            };
        }
    }
}

/// The goal and the place of a small search.
#[derive(Clone, Copy)]
pub struct DominionSearch<'a> {
    pub game: &'a Game,
    pub mask: &'a Mask,
    pub player: Player,
    pub bound: usize,
    /// No good claim within the bound has one of these.
    pub excluded: Excluded,
    ghost sizes: { length mask.now ≡ length game.now },
    ghost few: { bound ≤ 8 },
    ghost none: { NoClaimHasBetween (search_in game.now mask.now player bound) excluded.low excluded.high },
}

/// The first rows of an unfinished claim, and the edges that their vertices keep.
#[derive(Clone, Copy)]
pub struct FirstRows<'a> {
    pub game: &'a Game,
    pub player: Player,
    pub chosen: &'a Chosen,
    /// The number of rows.
    pub done: usize,
    ghost few: { AreFew game.now chosen.now } by { Prim.hlevel props },
    ghost within: { done ≤ length chosen.now },
}

impl<'a> FirstRows<'a> {
    /// Whether a kept edge of the row leads to itself or an earlier one.
    pub fn closes(&self, at: usize) -> bool
        requires { at < length self.now.chosen.now }
        ensures none { IsFalse result → (to : ℕ) → to ≤ at → RowLeadsTo self.now.game.now self.now.player self.now.chosen.now at to → ⊥ }
    {
        let v = self.chosen.vertex(at);
        if self.game.owner(v) == self.player {
            return match self.chosen.choice(at) {
                Some(w) => self.chosen.has_before(at + 1, w),
                None => false,
            };
        }
        for w in self.game.successors(v) {
            if self.chosen.has_before(at + 1, *w) {
                return true;
            }
        }
        false
    }

    /// Whether the kept edges of the first rows make only closed walks that are good for the player.
    pub fn is_good(&self) -> bool
        ensures good { IsTrue result → OnlyGoodWalks self.now.game.now self.now.player (named (take self.now.done self.now.chosen.now))
            (choice_in self.now.chosen.now) }
        ensures bad { IsFalse result → OnlyGoodWalks self.now.game.now self.now.player (named (take self.now.done self.now.chosen.now))
            (choice_in self.now.chosen.now) → ⊥ }
    {
        for start in 0..self.done {
            let priority = self.game.priority(self.chosen.vertex(start));
            if Player::of_parity(priority) != self.player && self.walks_back(start) {
                return false;
            }
        }
        true
    }

    /// Whether a closed walk leads through the start over no greater priority than its own.
    fn walks_back(&self, start: usize) -> bool
        requires { start < self.now.done }
        ensures back { IsTrue result → WalksBack self.now.game.now self.now.player self.now.chosen.now self.now.done start }
        ensures none { IsFalse result → WalksBack self.now.game.now self.now.player self.now.chosen.now self.now.done start → ⊥ }
    {
        let mut left = [true; 8];
        'rows: while let Some(to) = self.next_reached(start, &left) {
            if to == start {
                return true;
            }
            left[to] = false;
        }
        false
    }

    /// An unreached row, of no greater priority than the start's, to which a kept edge leads.
    fn next_reached(&self, start: usize, left: &[bool; 8]) -> Option<usize>
        requires { start < length self.now.chosen.now }
        ensures found { IfSome result (λ to. IsReached self.now.game.now self.now.player self.now.chosen.now self.now.done start left.now to) }
        ensures none { IsNone result → (to : ℕ) → IsReached self.now.game.now self.now.player self.now.chosen.now self.now.done start left.now to → ⊥ }
    {
        let top = self.game.priority(self.chosen.vertex(start));
        for to in 0..self.done {
            if !left[to] {
                continue;
            }
            if self.game.priority(self.chosen.vertex(to)) > top {
                continue;
            }
            if self.is_next(start, left, to) {
                return Some(to);
            }
        }
        None
    }

    /// Whether a kept edge leads to the row from the start or from a reached row.
    fn is_next(&self, start: usize, left: &[bool; 8], to: usize) -> bool
        requires { to < length self.now.chosen.now }
        ensures found { IsTrue result → IsReachedNext self.now.game.now self.now.player self.now.chosen.now self.now.done start left.now to }
        ensures none { IsFalse result → IsReachedNext self.now.game.now self.now.player self.now.chosen.now self.now.done start left.now to → ⊥ }
    {
        for from in 0..self.done {
            if from != start && left[from] {
                continue;
            }
            if self.leads(from, to) {
                return true;
            }
        }
        false
    }

    /// Whether a kept edge leads from one row's vertex to another's.
    fn leads(&self, from: usize, to: usize) -> bool
        requires from { from < length self.now.chosen.now }
        requires to { to < length self.now.chosen.now }
        ensures { IsTrue result ↔ RowLeadsTo self.now.game.now self.now.player self.now.chosen.now from to }
    {
        let v = self.chosen.vertex(from);
        let w = self.chosen.vertex(to);
        if self.game.owner(v) != self.player {
            return self.game.has_edge(v, w);
        }
        match self.chosen.choice(from) {
            Some(x) => x == w,
            None => false,
        }
    }
}
