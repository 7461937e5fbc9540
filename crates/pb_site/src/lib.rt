//! The declared plant: its units, boundaries, tanks, strapping tables, streams and critical values, in the order in which they were
//! declared, and the part of it that is in service on some days.
//!
//! Base variances are squared grams, levels millimetres, volumes millilitres, and critical values thousandths.
#![tactic(auto)]

mod declared;
mod index;
mod laws;
mod on_days;
mod service;
mod site;

pub use declared::{Arc, ArcKind, Declared, Kind, Service, SiteFault, Version};
pub use laws::{days_law, growth_law, plant_law, same_part_law};
pub use on_days::{OnDays, names_on};
pub use service::{
    closing_day, first_served, is_eve, is_in_service_on, is_in_service_throughout,
    is_in_service_within, last_served, opening_day,
};
pub use site::Site;
