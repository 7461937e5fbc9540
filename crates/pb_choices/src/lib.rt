//! Values that are printed in rows as words: the place of a value's word among the words of its column, and the value at a place.
//!
//! One table for each enum of pb_graph serves both the code that writes rows and the code that reads them; the words are in pb_form.
#![tactic(auto)]

mod places;

pub use places::{
    Shape, class_place, gap_met, placed_class, placed_shape, placed_stop, placed_truth,
    placed_verdict, shape_place, stop_place, truth_place, verdict_place, witness_shape,
    word_tables_law,
};
