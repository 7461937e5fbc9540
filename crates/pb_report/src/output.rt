// Rows written in a form, one after the other.

ghost use Rattle.std.specs.Prelude.{◌≡◌, ◌∷◌, ◌++◌, [], length, OnOk, OnErr};
ghost use Rattle.pb_form.specs.OutputRows.{output_columns};
ghost use Rattle.pb_report.specs.Given.{given_row};
ghost use Rattle.pb_report.specs.Output.{AddsRows};

use crate::form::{Form, write_row};
use pb_form::{OutputKind, Value};
use std::alloc::{AllocError, Global};
use std::marker::Model;

/// The rows written so far.
#[derive(Drop)]
pub struct Output {
    form: Form,
    text: Vec<u8>,
}

impl Model for Output {
    ghost use Rattle.pb_report.specs.Output.{OutputText};

    ghost Value = { OutputText };

    ghost view = { λ a. record { form = a.form; text = a.text.items } };
}

impl Output {
    /// An output without rows.
    pub fn new(alloc: Global, form: Form) -> Output
        ensures { result ≡ record { form = form; text = [] } }
    {
        Output {
            form,
            text: Vec::new(alloc),
        }
    }

    /// The allocator of the text.
    pub fn allocator(&self) -> Global {
        *self.text.allocator()
    }

    /// Writes the row of a kind. There is one value for each column, and the first is the kind's word.
    pub fn push(&mut self, kind: OutputKind, values: &[Value]) -> Result<(), AllocError>
        requires { length values.now ≡ length (output_columns kind) }
        ensures { OnOk result (AddsRows self.old self.new (given_row kind values.now ∷ [])) }
    {
        write_row(self.allocator(), kind, values, self.form, &mut self.text)
    }

    /// Appends all rows to a text. An empty text takes them over, without a copy. After an `Err`, out of memory, the text is
    /// as it was.
    pub fn append_to(self, out: &mut Vec<u8>) -> Result<(), AllocError>
        ensures ok { OnOk result (out.new.items ≡ out.old.items ++ self.text) }
        ensures err { OnErr result (out.new.items ≡ out.old.items) }
    {
        if !out.is_empty() {
            return out.extend_from_slice(self.text.as_slice());
        }
        *out = self.text;
        Ok(())
    }
}
