// Names in an array.
ghost use Rattle.std.specs.Prelude.{◌≡◌, ◌≤◌, ◌<◌, length, take};
ghost use Rattle.pb_shown.specs.Texts.{name_shown, names_shown};

use crate::texts::padded_name;
use pb_rows::{Name, NameList};

/// A name of a node or a stream.
#[repr(C)]
#[derive(Clone, Copy)]
pub struct PlantbalName {
    /// The name, with zeros after it.
    pub name: [u8; 33],
}

/// Writes names, if there is room for all. Returns how many there are.
pub fn write_names(names: &NameList, room: &mut [PlantbalName]) -> usize
    ensures count { result ≡ length names.now }
    ensures names { result ≤ length room.old → take result room.new ≡ names_shown names.now }
    ensures full { length room.old < result → room.new ≡ room.old }
{
    if names.len() <= room.len() {
        copy_names(names.as_slice(), room);
    }
    names.len()
}

// Writes names to the front of an array.
fn copy_names(names: &[Name], room: &mut [PlantbalName])
    requires { length names.now ≤ length room.old }
    ensures { take (length names.now) room.new ≡ names_shown names.now }
{
    for (j, name) in names.iter().enumerate() {
        room[j] = shown_name(name);
    }
}

// A name as C has it.
fn shown_name(name: &Name) -> PlantbalName
    ensures { result ≡ name_shown name.now }
{
    PlantbalName {
        name: padded_name(name),
    }
}
