//! What follows from the definitions of other crates, for whoever reads them.
//!
//! The functions are empty: the contract of each is a law.
#![tactic(auto)]

mod agreement;
mod drops;
mod flows;
mod metering;
mod nodal;
mod options;
mod periods;
mod plain;
mod windows;

pub use agreement::{bounds_meet_law, flows_meet_law, statistic_order_law};
pub use drops::drop_order_law;
pub use flows::{nested_bounds_law, own_bounds_law, own_least_bounds_law};
pub use metering::{metered_law, more_meters_law};
pub use nodal::nodal_order_law;
pub use options::{first_round_law, untested_law};
pub use periods::closed_law;
pub use plain::some_plain_text_law;
pub use windows::{between_law, contents_law, window_parts_law};
