//! The periods of a book: they share neither a name nor a day, and each is open or closed. Which periods a fact touches, and windows
//! over consecutive ones.
//!
//! Days are counted from 1970-01-01.
#![tactic(auto)]

mod period;
mod periods;
mod touching;
mod windows;

pub use period::Period;
pub use periods::Periods;
pub use touching::{service_of, touches_in};
pub use windows::{BetweenFault, judge_window, places_between, window_over};
