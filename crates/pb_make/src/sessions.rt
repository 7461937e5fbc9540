// The text of a made session.

ghost use Rattle.std.specs.Prelude.{◌≡◌, ◌≤◌, ◌≤ℤ◌, ◌*◌, [], ◌∷◌, ◌++◌, ℕ, pos, length, All, map, IfOk, OnOk};
ghost use Rattle.std.specs.List.{enumerate_from, range_with_len};
ghost use Rattle.pb_limits.specs.Limits.{most_made_streams};
ghost use Rattle.pb_rows.specs.Written.{text_of_rows};
ghost use Rattle.pb_form.specs.declared.session.SessionKind.TheVariants as kinds;
ghost use Rattle.pb_make.specs.Bounds.{IsMade};
ghost use Rattle.pb_make.specs.Draws.{state_after_draws};
ghost use Rattle.pb_make.specs.Plant.{least_streams};
ghost use Rattle.pb_make.specs.Readings.{readings_of, truth_at};
ghost use Rattle.pb_make.specs.Rows.{made_critical_row, made_period_row, made_stream_row, reading_row_at, session_text, unit_row};

use crate::draws::Draws;
use crate::plant::{MadeStream, made_plant, units_of};
use crate::readings::{readings_of, stream_read};
use crate::rows::{
    write_measure, write_nodal, write_period, write_reading, write_report, write_stream, write_unit,
};
use std::alloc::{AllocError, Global};

/// The text of the session made from a number, with this many streams: a plant, a period of 30 days with its readings, and a `report` row.
/// It is the same in each run. Fails only if memory runs out.
pub fn make(alloc: Global, number: u32, streams: u32) -> Result<Vec<u8>, AllocError>
    requires least { least_streams ≤ streams }
    requires most { streams ≤ most_made_streams }
    ensures value { IfOk result (λ text. text.items ≡ session_text number streams) }
{
    let mut draws = Draws {
        state: u64::from(number),
    };
    let plant = made_plant(alloc, &mut draws, streams)?;
    let mut text = Vec::new(alloc);
    write_units(&mut text, units_of(streams))?;
    write_streams(&mut text, &plant)?;
    write_middle(&mut text)?;
    write_readings(&mut text, &plant, draws, readings_of(streams))?;
    write_report(&mut text)?;
    Ok(text)
}

// Appends the rows of the units.
fn write_units(text: &mut Vec<u8>, units: u32) -> Result<(), AllocError>
    requires { units ≤ most_made_streams }
    ensures { OnOk result (text.new.items
        ≡ text.old.items ++ text_of_rows (map unit_row (range_with_len 1 units))) }
{
    for k in 0..units {
        write_unit(text, k + 1)?;
    }
    Ok(())
}

// Appends the rows of the streams.
fn write_streams(text: &mut Vec<u8>, plant: &[MadeStream]) -> Result<(), AllocError>
    requires { length plant.now ≤ most_made_streams }
    ensures { OnOk result (text.new.items ≡ text.old.items ++ text_of_rows
        (map (λ s. made_stream_row s.0 s.1) (enumerate_from 1 plant.now))) }
{
    for (k, stream) in plant.iter().enumerate() {
        write_stream(text, k as u32 + 1, stream)?;
    }
    Ok(())
}

// Appends the rows between the plant and its readings.
fn write_middle(text: &mut Vec<u8>) -> Result<(), AllocError>
    ensures { OnOk result (text.new.items ≡ text.old.items ++ text_of_rows (made_period_row
        ∷ made_critical_row kinds.CriticalNodal ∷ made_critical_row kinds.CriticalMeasure ∷ [])) }
{
    write_period(text)?;
    write_nodal(text)?;
    write_measure(text)
}

// Appends the rows of this many readings; the next draw is that of the first one.
fn write_readings(
    text: &mut Vec<u8>,
    plant: &[MadeStream],
    draws: Draws,
    count: u32,
) -> Result<(), AllocError>
    requires few { length plant.now ≤ most_made_streams }
    requires count { count ≡ readings_of (length plant.now) }
    requires made { All (IsMade most_made_streams) plant.now }
    ensures { (number sides : ℕ) → draws.state ≡ state_after_draws number (3 * sides) → OnOk result
        (text.new.items ≡ text.old.items ++ text_of_rows
        (map (reading_row_at number sides plant.now) (range_with_len 0 count))) }
{
    let mut draws = draws;
    for place in 0..count {
        write_reading(
            text,
            place,
            truth_at(plant, stream_read(place)),
            draws.draw(),
        )?;
    }
    Ok(())
}

// The true flow of the stream with this number.
fn truth_at(plant: &[MadeStream], i: u32) -> i128
    requires from { 1 ≤ i }
    requires to { i ≤ length plant.now }
    requires made { All (IsMade most_made_streams) plant.now }
    ensures value { result ≡ truth_at plant.now i }
    ensures least { pos 1 ≤ℤ result }
    ensures most { result ≤ℤ pos 100000000000 }
{
    plant[i as usize - 1].truth
}
