//! Sets of vertices, one bit for each vertex. A call for one vertex reads or writes one word of 64 bits, and a call for the
//! whole set goes over all words.

ghost use Rattle.std.specs.Prelude.{◌≡◌, ◌<◌, ◌≤◌, ℕ, length, IfOk, true, false, slice_index, slice_set, replicate};
ghost use Rattle.pg_game.specs.VertexSet.{In, members, how_many};

use crate::Memory;
use std::alloc::Global;
use std::marker::Model;

/// A set of the numbers below `len`: bit `v % 64` of word `v / 64` says whether `v` is a member. No other bit is set.
#[derive(Drop)]
pub struct Mask {
    words: Vec<u64>,
    len: u32,
}

impl Model for Mask {
    ghost use Rattle.std.specs.Prelude.{List, Bool};
    ghost use Rattle.pg_game.specs.Bits.{bits_of};
    ghost use Rattle.pg_game.specs.private.Bits.{AreWords};

    ghost Value = { List Bool };

    ghost view = { λ m. bits_of m.words.items m.len };

    ghost invariant = { λ m. AreWords m.words.items m.len };
}

impl Mask {
    /// The set of length `n` without members. The only error is `Memory`.
    pub fn empty(alloc: Global, n: u32) -> Result<Mask, Memory>
        ensures { IfOk result (λ m. m ≡ replicate n false) }
    {
        let words = vec![in alloc; 0u64; (n as usize).div_ceil(64)]?;
        Ok(Mask { words, len: n })
    }

    /// The set of all numbers below `n`. The only error is `Memory`.
    pub fn full(alloc: Global, n: u32) -> Result<Mask, Memory>
        ensures { IfOk result (λ m. m ≡ replicate n true) }
    {
        let mut words = vec![in alloc; u64::MAX; (n as usize).div_ceil(64)]?;
        let rest = n % 64;
        if rest > 0 {
            words[(n / 64) as usize] = (1u64 << rest) - 1;
        }
        Ok(Mask { words, len: n })
    }

    /// A copy of the set. The only error is `Memory`.
    pub fn copy(&self, alloc: Global) -> Result<Mask, Memory>
        ensures { IfOk result (λ m. m ≡ self.now) }
    {
        Ok(Mask {
            words: Vec::from_slice(alloc, self.words.as_slice())?,
            len: self.len,
        })
    }

    /// The length: only numbers below it may be members.
    #[inline]
    pub fn len(&self) -> u32
        ensures { result ≡ length self.now }
    {
        self.len
    }

    /// Whether `v` is a member.
    #[inline]
    pub fn has(&self, v: u32) -> bool
        requires { v < length self.now }
        ensures { result ≡ members self.now v }
    {
        (self.words[(v / 64) as usize] >> (v % 64)) & 1 == 1
    }

    /// Adds `v`.
    #[inline]
    pub fn insert(&mut self, v: u32)
        requires { v < length self.old }
        ensures { self.new ≡ slice_set self.old v true }
    {
        self.words[(v / 64) as usize] |= 1u64 << (v % 64);
    }

    /// Removes `v`.
    #[inline]
    pub fn remove(&mut self, v: u32)
        requires { v < length self.old }
        ensures { self.new ≡ slice_set self.old v false }
    {
        self.words[(v / 64) as usize] &= !(1u64 << (v % 64));
    }

    /// The first place from `begin` on whose vertex is a member, or `end` where none before it is.
    #[inline]
    pub fn first_of(&self, vertices: &[u32], begin: u32, end: u32) -> u32
        requires below { (k : ℕ) → k < length vertices.now → slice_index vertices.now k < length self.now }
        requires begin { begin ≤ end }
        requires end { end ≤ length vertices.now }
        ensures begin { begin ≤ result }
        ensures end { result ≤ end }
        ensures passed { (k : ℕ) → begin ≤ k → k < result → members self.now (slice_index vertices.now k) ≡ false }
        ensures found { result < end → In (members self.now) (slice_index vertices.now result) }
    {
        'places: for at in begin..end {
            if self.has(vertices[at as usize]) {
                return at;
            }
        }
        end
    }

    /// The number of members.
    pub fn count(&self) -> u32
        ensures { result ≡ how_many self.now }
    {
        let mut count = 0;
        'words: for word in self.words.as_slice() {
            count += word.count_ones();
        }
        count
    }

    /// Whether there is no member.
    pub fn is_empty(&self) -> bool
        ensures empty { result ≡ true → (v : ℕ) → members self.now v ≡ false }
        ensures not_empty { result ≡ false → (v : ℕ) × In (members self.now) v }
    {
        'words: for word in self.words.as_slice() {
            if *word != 0 {
                return false;
            }
        }
        true
    }
}
