//! Worked texts, what is refused, and the lines of faults. More texts are tested of the built program.

mod asserting;
mod faults;
mod readme;
mod refusals;
mod texts;
