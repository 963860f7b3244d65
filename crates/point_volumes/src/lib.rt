// Volumes: what the wheels of a meter count, what a reading gives before a day, and booking it over a point's periods.
#![tactic(auto)]

mod booking;
mod meter;
mod reading;

pub use booking::{book, book_newest};
pub use meter::{full_turn, turn_of};
pub use reading::span_to;
