//! A source and a sink over memory, which give and take little at a time, and fail where a test wants it.
ghost use Rattle.std.specs.Prelude.{None};

use pgboard::{Failed, Sink, Source};
use std::alloc::Global;

/// Gives its bytes in pieces, and fails at every read after the good ones.
#[derive(Drop)]
pub struct Pieces<'a> {
    pub rest: &'a [u8],
    pub size: usize,
    pub good: u64,
    pub reads: u64,
    failures: u64,
}

impl<'a> Pieces<'a> {
    pub fn new(rest: &'a [u8], size: usize, good: u64) -> Pieces<'a> {
        Pieces {
            rest,
            size,
            good,
            reads: 0,
            failures: 0,
        }
    }

    /// Gives all that is asked for, and never fails.
    pub fn whole(rest: &'a [u8]) -> Pieces<'a> {
        Pieces::new(rest, usize::MAX, u64::MAX)
    }
}

impl<'a> Source for Pieces<'a> {
    ghost left = { λ _. None };

    ghost read_failures = { λ s. s.failures };

    fn read(&mut self, buffer: &mut [u8]) -> Result<usize, Failed> {
        if self.reads >= self.good {
            self.failures = self.failures.saturating_add(1);
            return Err(Failed);
        }
        self.reads = self.reads.saturating_add(1);
        let n = self.size.min(buffer.len()).min(self.rest.len());
        buffer[..n].copy_from_slice(&self.rest[..n]);
        self.rest = &self.rest[n..];
        Ok(n)
    }
}

/// Takes bytes in pieces, and fails where it has no space left.
#[derive(Drop)]
pub struct Bounded {
    pub taken: Vec<u8>,
    pub size: usize,
    pub capacity: usize,
    failures: u64,
}

impl Bounded {
    pub fn new(alloc: Global, size: usize, capacity: usize) -> Bounded {
        Bounded {
            taken: Vec::new(alloc),
            size,
            capacity,
            failures: 0,
        }
    }

    /// Takes all that it is given.
    pub fn ample(alloc: Global) -> Bounded {
        Bounded::new(alloc, usize::MAX, usize::MAX)
    }
}

impl Sink for Bounded {
    ghost taken = { λ _. None };

    ghost write_failures = { λ s. s.failures };

    fn write(&mut self, piece: &[u8]) -> Result<usize, Failed> {
        let n = self.size.min(piece.len()).min(self.capacity);
        if (n > 0 || piece.is_empty()) && self.taken.extend_from_slice(&piece[..n]).is_ok() {
            self.capacity -= n;
            return Ok(n);
        }
        self.failures = self.failures.saturating_add(1);
        Err(Failed)
    }
}
