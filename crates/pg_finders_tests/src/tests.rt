//! Worked games and hostile ones, and what no clause says: that a search continues until its budget is used, how many
//! steps the recursion takes, and what `Standard` gives for a job.

mod asserting;
mod bounds;
mod claims;
mod games;
mod readme;
mod searches;
mod standard;
