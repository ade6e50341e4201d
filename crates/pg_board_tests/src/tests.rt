//! Tests of what no clause says: that calls succeed where memory is ample, with worked answers; claims of the finders on
//! a board; slices against a whole `finish`; and posts through the shares of an office.

mod asserting;
mod boards;
mod calls;
mod copies;
mod games;
mod memory;
mod offices;
mod readme;
mod settling;
mod slices;
