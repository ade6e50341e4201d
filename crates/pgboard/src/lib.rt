//! The runs of the program `pgboard` over any sources and sink, and its command line. A program that calls this library
//! opens the files, names the devices and prints a fault.
#![tactic(auto)]

mod arguments;
mod command;
mod device;
mod fault;
mod reading;
mod run;
mod solve;
mod trace;
mod verify;

pub use arguments::Asked;
pub use command::asked;
pub use device::{Failed, Sink, Source, Std, read_text};
pub use fault::{AskedFault, RunFault};
pub use pg_workers::KnownFault;
pub use run::run_asked;
pub use solve::{SolveOptions, run_solve, run_trace};
pub use verify::{Verdict, run_joined, run_tidy, run_verify};
