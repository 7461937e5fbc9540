// The table of a tank.

ghost use Rattle.std.specs.Prelude.{◌≡◌, ◌↔◌, ℕ, ◌+◌, ◌*◌, ◌^◌, ◌<◌, ◌≤◌, pos, ◌≤ℤ◌, ◌<ℤ◌, [], ◌∷◌, ◌++◌, ◌*ℤ◌, length, true, OnOk, OnErr, IfSome, IsNone, IsErrOf, IsTrue, IsFalse, int_lt, slice_index_or};
ghost use Rattle.pb_limits.specs.Limits.{most_points};
ghost use Rattle.pb_limits.specs.Ranges.{IsDensity, IsLevel, IsVolume};
ghost use Rattle.pb_strap.specs.declared.strap.Point.{Point};
ghost use Rattle.pb_strap.specs.declared.strap.StrapRefused.TheVariants.{NoMemory};
ghost use Rattle.pb_fixed.specs.Quotients.{floor_div};
ghost use Rattle.pb_strap.specs.Table.{IsRising, most_content, volume_between, volume_of};
ghost use Rattle.pb_strap.specs.Kept.{IsPoint, IsTable};

use pb_fixed::div_floor;
use pb_limits::MOST_POINTS;
use std::alloc::{AllocError, Global};
use std::marker::Model;
use thiserror::Error;

/// A point of a strapping table: a level in millimetres, and the volume up to it in millilitres.
#[derive(Clone, Copy, Debug, PartialEq, Eq)]
pub struct Point {
    pub mm: i64,
    pub ml: i64,
}

/// Why a point is not taken, in the order in which the reasons are looked for.
#[derive(Clone, Copy, Debug, PartialEq, Eq, Error)]
pub enum StrapRefused {
    /// The level is not above the last one, or the volume is below the last one.
    #[error("the level does not rise, or the volume falls")]
    NotRising,
    /// The table has as many points as it may have.
    #[error("the table is full")]
    Full,
    /// Memory ran out.
    #[error("out of memory")]
    NoMemory,
}

impl From<AllocError> for StrapRefused {
    ghost from_gives = { λ _ refused. refused ≡ NoMemory };

    fn from(_: AllocError) -> StrapRefused {
        StrapRefused::NoMemory
    }
}

/// The strapping table of a tank: points whose levels rise and whose volumes do not fall.
#[derive(Drop)]
pub struct Strap {
    points: Vec<Point>,
}

impl Model for Strap {
    ghost use Rattle.std.specs.Prelude.{List};
    ghost use Rattle.pb_strap.specs.declared.strap.Point.{Point};
    ghost use Rattle.pb_strap.specs.Kept.{IsTable};

    ghost Value = { List Point };

    ghost view = { λ a. a.points.items };

    ghost invariant = { λ a. IsTable a.points.items };
}

impl Strap {
    ghost use Rattle.pb_strap.specs.Table.{IsOutside, IsLinear, IsExactAtPoints, grams_of, is_full, rises};

    /// A table without points.
    pub fn new(alloc: Global) -> Strap
        ensures { result ≡ [] }
    {
        Strap {
            points: Vec::new(alloc),
        }
    }

    /// The number of points.
    pub fn len(&self) -> usize
        ensures value { result ≡ length self.now }
        ensures within { length self.now ≤ most_points }
    {
        self.points.len()
    }

    /// Whether the table has no point.
    pub fn is_empty(&self) -> bool
        ensures { IsTrue result ↔ (self.now ≡ []) }
    {
        self.points.is_empty()
    }

    /// Whether the table has as many points as it may have.
    pub fn is_full(&self) -> bool
        ensures value { result ≡ is_full self.now }
        ensures within { length self.now ≤ most_points }
    {
        self.points.len() >= MOST_POINTS
    }

    /// Whether a point may follow the last one: its level is above the last level, and its volume not below the last volume.
    pub fn rises(&self, mm: i64, ml: i64) -> bool
        ensures { result ≡ rises self.now mm ml }
    {
        match self.points.last() {
            None => true,
            Some(last) => last.mm < mm && last.ml <= ml,
        }
    }

    /// Adds a point, a level in millimetres and the volume up to it in millilitres, if it may follow the last one.
    pub fn push(&mut self, mm: i64, ml: i64) -> Result<(), StrapRefused>
        requires level { IsLevel mm }
        requires volume { IsVolume ml }
        ensures ok { OnOk result (self.new ≡ self.old ++ (record { mm = mm; ml = ml }) ∷ []) }
        ensures err { OnErr result (self.new ≡ self.old) }
        ensures not_rising { IsErrOf result StrapRefused.NotRising
            ↔ IsFalse (rises self.old mm ml) }
        ensures full { IsErrOf result StrapRefused.Full
            ↔ (IsTrue (rises self.old mm ml) × (length self.old ≡ most_points)) }
        ensures within { length self.new ≤ most_points }
    {
        let is_full = self.is_full();
        if !self.rises(mm, ml) {
            return Err(StrapRefused::NotRising);
        }
        if is_full {
            return Err(StrapRefused::Full);
        }
        self.add(mm, ml)?;
        Ok(())
    }

    /// Adds a point that may follow the last one, to a table that has room for it. If memory runs out, the table is unchanged.
    pub fn add(&mut self, mm: i64, ml: i64) -> Result<(), AllocError>
        requires level { IsLevel mm }
        requires volume { IsVolume ml }
        requires rising { rises self.old mm ml ≡ true }
        requires room { length self.old < most_points }
        ensures ok { OnOk result (self.new ≡ self.old ++ (record { mm = mm; ml = ml }) ∷ []) }
        ensures err { OnErr result (self.new ≡ self.old) }
    {
        self.points.push(Point { mm, ml })?;
        Ok(())
    }

    /// The volume in millilitres at a level in millimetres: linear between two neighbouring points, and rounded down.
    pub fn volume(&self, mm: i64) -> Option<i64>
        ensures value { result ≡ volume_of self.now mm }
        ensures outside { IsNone result ↔ IsOutside self.now mm }
        ensures at_points { IsExactAtPoints self.now mm result }
        ensures linear { IsLinear self.now mm result }
        ensures rising { IsRising self.now }
        ensures within { IfSome result IsVolume }
    {
        volume_at(&self.points, mm)
    }

    /// The grams at a level in millimetres, for a density in grams per cubic metre: volume times density, rounded down.
    pub fn grams(&self, mm: i64, density: i64) -> Option<i64>
        requires { IsDensity density }
        ensures value { result ≡ grams_of self.now mm density }
        ensures outside { IsNone result ↔ IsOutside self.now mm }
        ensures from { IfSome result (λ grams. pos 0 ≤ℤ grams) }
        ensures within { IfSome result (λ grams. grams ≤ℤ pos most_content) }
    {
        Some(mass(self.volume(mm)?, density))
    }
}

// Volume times density, rounded down to grams.
fn mass(ml: i64, density: i64) -> i64
    requires volume { IsVolume ml }
    requires density { IsDensity density }
    ensures value { result ≡ floor_div (ml *ℤ density) (pos (10 ^ 6)) }
    ensures from { pos 0 ≤ℤ result }
    ensures within { result ≤ℤ pos most_content }
{
    div_floor(i128::from(ml) * i128::from(density), 1_000_000) as i64
}

// The volume at a level of a table, looked up by bisection.
fn volume_at(points: &[Point], mm: i64) -> Option<i64>
    requires { IsTable points.now }
    ensures { result ≡ volume_of points.now mm }
{
    let place = count_below(points, mm);
    if place == points.len() {
        return None;
    }
    let above = points[place];
    if above.mm == mm {
        return Some(above.ml);
    }
    if place == 0 {
        return None;
    }
    Some(between(points[place - 1], above, mm))
}

// The number of points below a level: the place of the first point that is not below it.
fn count_below(points: &[Point], mm: i64) -> usize
    requires { IsRising points.now }
    ensures bound { result ≤ length points.now }
    ensures below { (k : ℕ) (d : Point) → k < result → (slice_index_or points.now k d).mm <ℤ mm }
    ensures rest { (k : ℕ) (d : Point) → result ≤ k → k < length points.now
        → mm ≤ℤ (slice_index_or points.now k d).mm }
{
    points.partition_point(
        |point: &Point| -> bool
            ensures { result ≡ int_lt point.now.mm mm }
        { point.mm < mm },
    )
}

// The volume at a level on the line through two points, rounded down.
fn between(lower: Point, upper: Point, mm: i64) -> i64
    requires lower { IsPoint lower }
    requires upper { IsPoint upper }
    requires rise { lower.ml ≤ℤ upper.ml }
    requires from { lower.mm <ℤ mm }
    requires to { mm <ℤ upper.mm }
    ensures { result ≡ volume_between lower upper mm }
{
    let rise = (upper.ml - lower.ml) * (mm - lower.mm);
    lower.ml + rise.div_euclid(upper.mm - lower.mm)
}
