//! Sources and sinks of a run's bytes, and the two loops over them: one reads a whole text into one buffer, and one writes a
//! whole output by calls of `write`. No buffer keeps bytes back, so no failed write is hidden.

ghost use Rattle.std.specs.Prelude.{ℕ, ◌≤◌, ◌<◌, ◌≡◌, ◌+◌, ◌⊎◌, List, [], length, take, drop, vec_len, Option, IfSome};
ghost use Rattle.std.specs.Prelude.{IfOk, OnOk, IfErr, OnErr, IsErrOf};
ghost use Rattle.std.specs.Io.KnownBytes.{ReadConsumes, WriteAppends, Consumes, IsAtEnd, Appends};
ghost use Rattle.std.specs.Io.{ReadsAtMost};
ghost use Rattle.pgboard.specs.Device.{CountsFailure, untouched, HasFailed, AppendsPrefix};
ghost use Rattle.pgboard.specs.Run.{Reads};
ghost use Rattle.pg_text.specs.Reading.{max_text};

use crate::fault::RunFault;
use pg_game::Memory;
use pg_text::MAX_TEXT;
use std::alloc::Global;
use std::io::{Read, Write};

/// A read or a write failed.
#[derive(Clone, Copy, Debug, Drop, PartialEq, Eq)]
pub struct Failed;

/// Where bytes come from.
pub trait Source {
    /// The bytes that are left, if they are known.
    ghost left: { Self → Option (List ℕ) };

    /// How often it failed. The count stays at its last value.
    ghost read_failures: { Self → ℕ };

    /// A hint: the number of bytes that are left. More may come, or fewer.
    fn expected(&self) -> u64 {
        0
    }

    /// Reads the next bytes into the buffer, and returns their number: 0 at the end, or for an empty buffer.
    fn read(&mut self, buffer: &mut [u8]) -> Result<usize, Failed>
        ensures bound { ReadsAtMost result buffer.new }
        ensures bytes { ReadConsumes (left self.old) (left self.new) result buffer.new }
        ensures failures { CountsFailure (read_failures self.old) (read_failures self.new) result };
}

/// Where bytes go.
pub trait Sink {
    /// The bytes that were taken, if they are known.
    ghost taken: { Self → Option (List ℕ) };

    /// How often it failed. The count stays at its last value.
    ghost write_failures: { Self → ℕ };

    /// Takes a prefix of the piece, at least one byte of a piece that is not empty.
    fn write(&mut self, piece: &[u8]) -> Result<usize, Failed>
        ensures bound { IfOk result (λ n. n ≤ length piece.now) }
        ensures some { IfOk result (λ n. 0 < length piece.now → 0 < n) }
        ensures bytes { WriteAppends (taken self.old) (taken self.new) result piece.now }
        ensures failures { CountsFailure (write_failures self.old) (write_failures self.new) result };
}

/// A reader or a writer of the standard library.
#[derive(Drop)]
pub struct Std<T> {
    inner: T,
    failures: u64,
    expected: u64,
}

impl<T> Std<T> {
    /// No failure is counted yet, and the number of bytes is unknown.
    pub fn new(inner: T) -> Std<T>
        ensures { result ≡ untouched inner }
    {
        Std {
            inner,
            failures: 0,
            expected: 0,
        }
    }

    /// The number of counted failures.
    pub fn failures(&self) -> u64
        ensures { result ≡ self.now.failures }
    {
        let Std { failures, .. } = self;
        *failures
    }

    /// The reader or the writer.
    pub fn into_inner(self) -> T
        ensures { result ≡ self.inner }
    {
        self.inner
    }

    /// The same, with this expected number of bytes.
    pub fn expecting(self, bytes: u64) -> Std<T>
        ensures inner { result.inner ≡ self.inner }
        ensures failures { result.failures ≡ self.failures }
    {
        Std {
            expected: bytes,
            ..self
        }
    }
}

impl<R: Read> Source for Std<R> {
    ghost left = { λ s. R.remaining s.inner };

    ghost read_failures = { λ s. s.failures };

    fn expected(&self) -> u64 {
        self.expected
    }

    fn read(&mut self, buffer: &mut [u8]) -> Result<usize, Failed> {
        match self.inner.read(buffer) {
            Ok(n) => Ok(n),
            Err(_) => {
                self.failures = self.failures.saturating_add(1);
                Err(Failed)
            }
        }
    }
}

impl<W: Write> Sink for Std<W> {
    ghost taken = { λ s. W.contents s.inner };

    ghost write_failures = { λ s. s.failures };

    fn write(&mut self, piece: &[u8]) -> Result<usize, Failed> {
        match self.inner.write(piece) {
            Ok(n) if n > 0 || piece.is_empty() => Ok(n),
            _ => {
                self.failures = self.failures.saturating_add(1);
                Err(Failed)
            }
        }
    }
}

/// All bytes that a source has left. The call reads until a read returns no byte.
///
/// The errors are `Read` if a read fails, `TooLong` for more than 268,435,456 bytes, and `Memory`.
pub fn read_text<S: Source>(alloc: Global, source: &mut S) -> Result<Vec<u8>, RunFault>
    ensures text { IfOk result (λ text. IfSome (S.left source.old) (λ bytes. text.items ≡ bytes)) }
    ensures limit { IfOk result (λ text. length text.items ≤ max_text) }
    ensures reads { Reads result (S.read_failures source.old) (S.read_failures source.new) }
    ensures too_long { IsErrOf result RunFault.TooLong → IfSome (S.left source.old) (λ bytes. max_text < length bytes) }
    ensures only { IfErr result (λ e. ((e ≡ RunFault.Read) ⊎ (e ≡ RunFault.TooLong)) ⊎ (e ≡ RunFault.Memory)) }
{
    let mut buffer = Vec::new(alloc);
    let expected = source.expected().min(MAX_TEXT as u64) as usize;
    if expected > 0 {
        // one byte more, for the read that returns none; if this capacity is refused, the reads ask for what they need
        let _ = buffer.reserve_exact(expected + 1);
    }
    read_into(source, buffer)
}

/// Writes all bytes. The only error is `Write`, and then a prefix of them went out.
pub fn write_all<O: Sink>(bytes: &[u8], out: &mut O) -> Result<(), RunFault>
    ensures written { OnOk result (Appends (O.taken out.old) (O.taken out.new) bytes.now) }
    ensures no_failure { OnOk result (O.write_failures out.new ≡ O.write_failures out.old) }
    ensures cut { OnErr result (AppendsPrefix (O.taken out.old) (O.taken out.new) bytes.now) }
    ensures failed { OnErr result (HasFailed (O.write_failures out.old) (O.write_failures out.new)) }
    ensures only { IfErr result (λ e. e ≡ RunFault.Write) }
{
    let mut rest = bytes;
    'rest: while !rest.is_empty() {
        let Ok(n) = out.write(rest) else {
            return Err(RunFault::Write);
        };
        rest = &rest[n..];
    }
    Ok(())
}

/// Reads all bytes that a source has left into an empty buffer, which may have capacity.
fn read_into<S: Source>(source: &mut S, buffer: Vec<u8>) -> Result<Vec<u8>, RunFault>
    requires { buffer.items ≡ [] }
    ensures text { IfOk result (λ text. IfSome (S.left source.old) (λ bytes. text.items ≡ bytes)) }
    ensures limit { IfOk result (λ text. length text.items ≤ max_text) }
    ensures reads { Reads result (S.read_failures source.old) (S.read_failures source.new) }
    ensures too_long { IsErrOf result RunFault.TooLong → IfSome (S.left source.old) (λ bytes. max_text < length bytes) }
    ensures only { IfErr result (λ e. ((e ≡ RunFault.Read) ⊎ (e ≡ RunFault.TooLong)) ⊎ (e ≡ RunFault.Memory)) }
{
    let mut text = buffer;
    let mut filled = 0;
    'reads: loop {
        grow(&mut text, filled)?;
        let Ok(n) = read_after(source, text.as_mut_slice(), filled) else {
            return Err(RunFault::Read);
        };
        if n == 0 {
            text.truncate(filled);
            return Ok(text);
        }
        if n > MAX_TEXT - filled {
            return Err(RunFault::TooLong);
        }
        filled += n;
    }
}

/// Adds zeros after the bytes that were read, for the next ones: as many as the capacity allows, up to a piece. If a text
/// fills its capacity, the buffer grows.
fn grow(text: &mut Vec<u8>, filled: usize) -> Result<(), Memory>
    requires limit { filled ≤ max_text }
    requires within { filled ≤ vec_len text.old }
    ensures prefix { OnOk result (take filled text.new.items ≡ take filled text.old.items) }
    ensures capacity { OnOk result (filled < vec_len text.new) }
{
    if filled == text.capacity() {
        text.reserve(PIECE)?;
    }
    let end = text.capacity().min(filled + PIECE);
    if text.len() < end {
        text.resize(end, 0)?;
    }
    Ok(())
}

/// The greatest number of bytes of one read.
const PIECE: usize = 65_536;

/// One read, to the places after the filled ones.
fn read_after<S: Source>(source: &mut S, text: &mut [u8], filled: usize) -> Result<usize, Failed>
    requires { filled < length text.old }
    ensures prefix { take filled text.new ≡ take filled text.old }
    ensures size { length text.new ≡ length text.old }
    ensures within { IfOk result (λ n. filled + n ≤ length text.new) }
    ensures bytes { IfOk result (λ n. Consumes (S.left source.old) (S.left source.new) (take n (drop filled text.new))) }
    ensures end { IfOk result (λ n. n ≡ 0 → IsAtEnd (S.left source.new)) }
    ensures failures { CountsFailure (S.read_failures source.old) (S.read_failures source.new) result }
{
    source.read(&mut text[filled..])
}
