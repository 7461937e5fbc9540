// What a declaration says.

ghost use Rattle.std.specs.Prelude.{◌≡◌};
ghost use Rattle.pb_site.specs.Row.{arc_kind};

use pb_rows::Name;

/// The version of a session, which determines what can be declared.
#[derive(Clone, Copy, Debug, PartialEq, Eq)]
pub enum Version {
    /// Up to 2,000 streams and tanks, each in service on every day.
    One,
    /// Up to 4,000 streams and tanks, with days of service, and boundaries.
    Two,
}

/// The days on which a stream or a tank is in service, from the first to the last, both included, as days since 1970-01-01.
#[derive(Clone, Copy, Debug, PartialEq, Eq)]
pub struct Service {
    pub since: i32,
    pub until: i32,
}

/// The kind of a stream: with a meter that is read each day, moved in batches, or plain (not measured).
#[derive(Clone, Copy, Debug, PartialEq, Eq)]
pub enum Kind {
    Metered,
    Batch,
    Plain,
}

/// The kind of an arc: that of a stream, or a tank's inventory.
#[derive(Clone, Copy, Debug, PartialEq, Eq)]
pub enum ArcKind {
    Metered,
    Batch,
    Plain,
    Tank,
}

impl From<Kind> for ArcKind {
    ghost from_gives = { λ kind arc. arc ≡ arc_kind kind };

    fn from(kind: Kind) -> ArcKind {
        match kind {
            Kind::Metered => ArcKind::Metered,
            Kind::Batch => ArcKind::Batch,
            Kind::Plain => ArcKind::Plain,
        }
    }
}

/// An arc of the plant: a declared stream, or the inventory stream of a tank, which leads from the tank to the environment and has
/// the tank's name. `from` and `to` are nodes, `base` is its base variance in squared grams, and if `service` is `None`, it is in
/// service on every day.
#[derive(Clone, Copy)]
pub struct Arc {
    pub name: Name,
    pub from: u32,
    pub to: u32,
    pub kind: ArcKind,
    pub base: i128,
    pub service: Option<Service>,
}

/// A declaration.
#[derive(Clone, Copy)]
pub enum Declared {
    /// States that the session is of version 2; only the first declaration can do so.
    Version2,
    /// A unit of the plant.
    Unit {
        name: Name,
    },
    /// A further name of the environment, for example a jetty or a rail head.
    Boundary {
        name: Name,
    },
    /// A tank, with the base variance of its content, from 1 to 10^19 squared grams.
    Tank {
        name: Name,
        base: i128,
        service: Option<Service>,
    },
    /// A point of a tank's strapping table: a level, from 0 to 100,000 millimetres, and the volume up to it, from 0 to 10^12
    /// millilitres.
    Strap {
        tank: Name,
        mm: i64,
        ml: i64,
    },
    /// A stream from one unit or tank to another, or from or to the environment or a boundary. `base` is its base variance: from 1
    /// to 10^19 squared grams for a metered or batch stream, 0 for a plain one.
    Stream {
        name: Name,
        from: Name,
        to: Name,
        kind: Kind,
        base: i128,
        service: Option<Service>,
    },
    /// The critical value of the global test with `dof` degrees of freedom, 1 to 2,000, in thousandths, 0 to 10^12.
    CritGlobal {
        dof: u32,
        value: i64,
    },
    /// The critical value of the nodal tests, in thousandths, 0 to 10^12.
    CritNodal {
        value: i64,
    },
    /// The critical value of the measurement tests, in thousandths, 0 to 10^12.
    CritMeasure {
        value: i64,
    },
}

/// Why a declaration is refused.
#[derive(Clone, Copy, Debug, PartialEq, Eq)]
pub enum SiteFault {
    /// No tank of the name in a strapping point is declared, or no unit, tank or boundary of the name at an end of a stream.
    Unknown,
    /// The name belongs to the environment or to a declared unit, boundary, tank or stream, that critical value was already
    /// declared, or the version comes after another declaration.
    Duplicate,
    /// A level isn't above the table's last one, a volume is below its last one, or the last day in service is before the first.
    Order,
    /// A stream leads from a node to itself. All boundaries are one node, the environment.
    Mismatch,
    /// There are already as many units and tanks, boundaries, streams and tanks, or points of a table as are allowed.
    Full,
}
