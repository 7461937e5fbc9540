// Assays: which there are, and the grades that they give.

ghost use Rattle.std.specs.Prelude.{◌≡◌, ◌<◌, ◌≤◌, ◌∷◌, ◌++◌, [], ℕ, true, false, List, All, length, if◌then◌else◌, IfOk, IfSome, OnErr, OnOk, Some, map, slice_get};
ghost use Rattle.std.specs.HashMap.{get};
ghost use Rattle.std.specs.HashSet.{contains, spare};
ghost use Rattle.std.specs.List.{list_any};
ghost use Rattle.pb_facts.specs.Grade.{IsGrade};
ghost use Rattle.pb_rows.specs.Name.{same_name};
ghost use Rattle.pb_facts.specs.Assays.{AreUnlike, grade_among, is_assay_over, is_like, most_assays};

use crate::grade::Grade;
use pb_rows::Name;
use std::alloc::{AllocError, Global};
use std::collections::{HashMap, HashSet};
use std::hash::Hash;
use std::marker::Model;

/// The most assays that a book can have.
pub const MOST_ASSAYS: usize = 20_000;

/// The grade of a component in a stream, or in what a tank gains, over a period.
#[derive(Clone, Copy)]
pub struct Assay {
    pub component: Name,
    pub stream: Name,
    pub period: Name,
    pub grade: Grade,
}

/// The assays in the order of their rows. Whether there is an assay is looked up by component, period and stream, or by component
/// and period alone.
#[derive(Drop)]
pub struct Assays {
    assays: Vec<Assay>,
    all: HashSet<((Name, Name), Name)>,
    overs: HashSet<(Name, Name)>,
}

impl Model for Assays {
    ghost use Rattle.std.specs.Prelude.{List};
    ghost use Rattle.pb_facts.specs.declared.assays.Assay.{Assay};
    ghost use Rattle.pb_facts.specs.Kept.{AreAssays};

    ghost Value = { List Assay };

    ghost view = { λ a. a.assays.items };

    ghost invariant = { λ a. AreAssays a.assays.items a.all a.overs };
}

impl Assays {
    /// An empty list of assays.
    pub fn new(alloc: Global) -> Assays
        ensures { result ≡ [] }
    {
        Assays {
            assays: Vec::new(alloc),
            all: HashSet::new(alloc),
            overs: HashSet::new(alloc),
        }
    }

    /// The number of assays. No two have the same component, period and stream.
    pub fn len(&self) -> u32
        ensures value { result ≡ length self.now }
        ensures within { length self.now ≤ most_assays }
        ensures apart { AreUnlike self.now }
    {
        self.assays.len() as u32
    }

    /// The assay at a place, counted from 0.
    pub fn at(&self, i: u32) -> Assay
        requires { i < length self.now }
        ensures value { slice_get self.now i ≡ Some result }
        ensures grade { IsGrade result.grade }
    {
        self.assays[i as usize]
    }

    /// Whether some assay has the same component, period and stream as this one.
    pub fn has_like(&self, assay: &Assay) -> bool
        ensures { result ≡ list_any (is_like assay.now) self.now }
    {
        self.all
            .contains(&((assay.component, assay.period), assay.stream))
    }

    /// Whether some assay is of a component over the period of a name.
    pub fn has_over(&self, component: &Name, period: &Name) -> bool
        ensures { result ≡ list_any (is_assay_over component.now period.now) self.now }
    {
        self.overs.contains(&(*component, *period))
    }

    /// Appends an assay that has no like among the others. After an `Err` (out of memory), the assays are as they were.
    pub fn push(&mut self, assay: Assay) -> Result<(), AllocError>
        requires grade { IsGrade assay.grade }
        requires new { list_any (is_like assay) self.old ≡ false }
        requires room { length self.old < most_assays }
        ensures ok { OnOk result (self.new ≡ self.old ++ assay ∷ []) }
        ensures err { OnErr result (self.new ≡ self.old) }
    {
        self.assays.reserve(1)?;
        self.all.reserve(1)?;
        self.overs.reserve(1)?;
        put(
            &mut self.all,
            ((assay.component, assay.period), assay.stream),
        );
        put(&mut self.overs, (assay.component, assay.period));
        self.assays.push_reserved(assay);
        Ok(())
    }

    /// The grade of a component over the period of a name in each of these streams and tanks; `None` for one without an assay.
    /// Makes one pass over the assays.
    pub fn grades(
        &self,
        alloc: Global,
        component: &Name,
        period: &Name,
        streams: &[Name],
    ) -> Result<Vec<Option<Grade>>, AllocError>
        ensures value { IfOk result (λ grades. grades.items
            ≡ map (grade_among self.now component.now period.now) streams.now) }
        ensures limits { IfOk result (λ grades. All (λ grade. IfSome grade IsGrade) grades.items) }
    {
        let by_name = self.grades_by_name(alloc, component, period)?;
        let mut grades = Vec::new(alloc);
        for i in 0..streams.len() {
            grades.push(grade_at(&by_name, &streams[i]))?;
        }
        Ok(grades)
    }

    // The grades of a component over the period of a name, by the names of their streams and tanks.
    fn grades_by_name(
        &self,
        alloc: Global,
        component: &Name,
        period: &Name,
    ) -> Result<HashMap<Name, Grade>, AllocError>
        ensures value { IfOk result (λ grades. (stream : List ℕ) → get same_name grades stream
            ≡ grade_among self.now component.now period.now stream) }
        ensures limits { IfOk result (λ grades. (stream : List ℕ)
            → IfSome (get same_name grades stream) IsGrade) }
    {
        let mut grades = HashMap::new(alloc);
        for i in 0..self.len() {
            let assay = self.at(i);
            if is_over(&assay, component, period) {
                grades.insert(assay.stream, assay.grade)?;
            }
        }
        Ok(grades)
    }
}

// Whether an assay is of a component over the period of a name.
fn is_over(assay: &Assay, component: &Name, period: &Name) -> bool
    ensures { result ≡ is_assay_over component.now period.now assay.now }
{
    assay.component == *component && assay.period == *period
}

// The grade at the name of a stream or tank.
fn grade_at(by_name: &HashMap<Name, Grade>, stream: &Name) -> Option<Grade>
    ensures { result ≡ get same_name by_name.now stream.now }
{
    by_name.get(stream).copied()
}

// Puts a key for which there is room, so it can't fail.
fn put<K: Eq + Hash + Drop>(keys: &mut HashSet<K>, key: K)
    requires { 0 < spare keys.old }
    ensures { (q : K) → contains K.eq keys.new q
        ≡ (if K.eq key q then true else contains K.eq keys.old q) }
{
    keys.insert(key).ok();
}
