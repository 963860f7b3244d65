// The texts that message lines are made of, and their writing: decimal numbers, dates aaaammjj, words.
#![tactic(auto)]

pub mod write;

// The most bytes that a line can have without its line feed.
pub const LONGEST_LINE: usize = 128;
