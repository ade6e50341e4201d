//! `Std` counts the failures of its reader or writer, of whatever kind, and nothing else.
use pg_test_support::check_eq;
use pgboard::{Failed, RunFault, Sink, Source, Std, run_tidy};
use std::io;
use std::io::{Error, ErrorKind, Read, Write};
use std::process::Abort;

/// Each second call fails, by turns as interrupted and for another reason. The failures are counted.
#[derive(Drop)]
struct Failing {
    calls: u64,
    failures: u64,
}

impl Failing {
    fn call(&mut self) -> io::Result<()> {
        self.calls = self.calls.wrapping_add(1);
        if self.calls % 2 == 1 {
            return Ok(());
        }
        self.failures = self.failures.wrapping_add(1);
        if self.calls % 4 == 2 {
            return Err(Error::from(ErrorKind::Interrupted));
        }
        Err(Error::from(ErrorKind::Other))
    }
}

impl Read for Failing {
    fn read(&mut self, buf: &mut [u8]) -> io::Result<usize> {
        self.call()?;
        Ok(buf.len().min(3))
    }
}

impl Write for Failing {
    fn write(&mut self, buf: &[u8]) -> io::Result<usize> {
        self.call()?;
        Ok(buf.len().min(3))
    }

    fn flush(&mut self) -> io::Result<()> {
        Ok(())
    }
}

fn device() -> Std<Failing> {
    Std::new(Failing {
        calls: 0,
        failures: 0,
    })
}

/// Compares both counts of failures.
fn compare_counts(rt: &impl Abort, device: Std<Failing>, want: u64) {
    check_eq!(*rt; device.failures(), want);
    check_eq!(*rt; device.into_inner().failures, want);
}

fn read(source: &mut Std<Failing>) -> Result<usize, Failed> {
    let mut buffer = [0u8; 4];
    source.read(&mut buffer)
}

#[test]
fn each_failed_read_is_counted_and_no_good_one(rt: HostRuntime) {
    let mut source = device();
    for _turn in 0..3u32 {
        check_eq!(rt; read(&mut source), Ok(3));
        check_eq!(rt; read(&mut source), Err(Failed));
    }
    check_eq!(rt; read(&mut source), Ok(3));
    compare_counts(&rt, source, 3);
}

#[test]
fn each_failed_write_is_counted_and_no_good_one(rt: HostRuntime) {
    let mut sink = device();
    for _turn in 0..3u32 {
        check_eq!(rt; sink.write(b"four"), Ok(3));
        check_eq!(rt; sink.write(b"four"), Err(Failed));
    }
    check_eq!(rt; sink.write(b""), Ok(0));
    compare_counts(&rt, sink, 3);
}

/// Takes nothing, and calls that no error.
#[derive(Drop)]
struct Full;

impl Write for Full {
    fn write(&mut self, _buf: &[u8]) -> io::Result<usize> {
        Ok(0)
    }

    fn flush(&mut self) -> io::Result<()> {
        Ok(())
    }
}

#[test]
fn a_run_whose_writer_takes_nothing_ends_with_a_write_fault(rt: HostRuntime) {
    let mut game = Std::new(b"0 0 0 0;".as_slice());
    let mut out = Std::new(Full);
    let outcome = run_tidy(rt.alloc(), &mut game, &mut out);
    check_eq!(rt; (outcome, out.failures()), (Err(RunFault::Write), 1));
}
