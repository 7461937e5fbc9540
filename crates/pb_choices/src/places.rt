// The places of words among the words of their columns, and the values at these places: for writing and for reading.

ghost use Rattle.std.specs.Prelude.{◌≡◌};
ghost use Rattle.pb_form.specs.Words.{class_words, measured_words, period_words, shape_words, state_words, stop_words, verdict_words};
ghost use Rattle.pb_choices.specs.Places.{IsWordTable, class_place, gap_met, placed_class, placed_shape, placed_stop, placed_truth, placed_verdict, shape_place, stop_place, truth_place, verdict_place, witness_shape};

use pb_graph::{Class, Witness};
use pb_study::{Solved, Stop, Verdict};

static CLASSES: [Class; 4] = [
    Class::Observable,
    Class::Unobservable,
    Class::Redundant,
    Class::Nonredundant,
];

/// The shapes of a certificate.
#[derive(Clone, Copy, Debug, PartialEq, Eq)]
pub enum Shape {
    Cut,
    Cycle,
}

static SHAPES: [Shape; 2] = [Shape::Cut, Shape::Cycle];

static TRUTHS: [bool; 2] = [true, false];

static VERDICTS: [Verdict; 5] = [
    Verdict::Reject,
    Verdict::Accept,
    Verdict::Undecided,
    Verdict::NoCritical,
    Verdict::NoTest,
];

static STOPS: [Stop; 6] = [
    Stop::Accepted,
    Stop::Undecided,
    Stop::NoCritical,
    Stop::NoTest,
    Stop::NoSuspect,
    Stop::Spent,
];

/// The place of a class.
pub fn class_place(class: Class) -> usize
    ensures { result ≡ class_place class }
{
    class as usize
}

/// The class at a place.
pub fn placed_class(place: usize) -> Option<Class>
    ensures { result ≡ placed_class place }
{
    CLASSES.get(place).copied()
}

/// The shape of a certificate.
pub fn witness_shape(witness: &Witness) -> Shape
    ensures { result ≡ witness_shape witness.now }
{
    match witness {
        Witness::Cut { .. } => Shape::Cut,
        Witness::Cycle { .. } => Shape::Cycle,
    }
}

/// The place of a certificate's shape.
pub fn shape_place(shape: Shape) -> usize
    ensures { result ≡ shape_place shape }
{
    shape as usize
}

/// The shape at a place.
pub fn placed_shape(place: usize) -> Option<Shape>
    ensures { result ≡ placed_shape place }
{
    SHAPES.get(place).copied()
}

/// The place of the word that says whether something holds: whether a stream is measured, a gap was met, or a period is closed.
pub fn truth_place(holds: bool) -> usize
    ensures { result ≡ truth_place holds }
{
    if holds { 0 } else { 1 }
}

/// Whether the word at a place says that something holds.
pub fn placed_truth(place: usize) -> Option<bool>
    ensures { result ≡ placed_truth place }
{
    TRUTHS.get(place).copied()
}

/// Whether the gap was met.
pub fn gap_met(solved: Solved) -> bool
    ensures { result ≡ gap_met solved }
{
    match solved {
        Solved::Converged(_) => true,
        Solved::Unconverged(_) => false,
    }
}

/// The place of a verdict.
pub fn verdict_place(verdict: Verdict) -> usize
    ensures { result ≡ verdict_place verdict }
{
    verdict as usize
}

/// The verdict at a place.
pub fn placed_verdict(place: usize) -> Option<Verdict>
    ensures { result ≡ placed_verdict place }
{
    VERDICTS.get(place).copied()
}

/// The place of a reason to stop.
pub fn stop_place(stop: Stop) -> usize
    ensures { result ≡ stop_place stop }
{
    stop as usize
}

/// The reason to stop at a place.
pub fn placed_stop(place: usize) -> Option<Stop>
    ensures { result ≡ placed_stop place }
{
    STOPS.get(place).copied()
}

/// The law that each of these tables works both ways, and that its words are those of pb_form's columns.
pub fn word_tables_law()
    ensures classes { IsWordTable class_words class_place placed_class }
    ensures shapes { IsWordTable shape_words shape_place placed_shape }
    ensures measured { IsWordTable measured_words truth_place placed_truth }
    ensures states { IsWordTable state_words truth_place placed_truth }
    ensures periods { IsWordTable period_words truth_place placed_truth }
    ensures verdicts { IsWordTable verdict_words verdict_place placed_verdict }
    ensures stops { IsWordTable stop_words stop_place placed_stop }
{}
