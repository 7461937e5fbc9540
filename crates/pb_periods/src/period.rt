// A period.

use pb_rows::Name;

/// A period: its name, its first and last days, and whether it is closed.
#[derive(Clone, Copy)]
pub struct Period {
    pub name: Name,
    pub first: i32,
    pub last: i32,
    pub closed: bool,
}
