//! Values in their order.

ghost use Rattle.std.specs.Prelude.{◌≡◌, ◌++◌, OnOk, string_bytes};
ghost use Rattle.script.specs.Words.{values_in, spaced};

use crate::value::Value;
use std::alloc::{AllocError, Global};
use std::fmt::Write;
use std::marker::Model;

/// Values in their order.
#[derive(Drop)]
pub struct ValueList<'a> {
    /// A place may have been emptied.
    places: Vec<Option<Value<'a>>>,
}

/// Contracts see the list of the values.
impl<'a> Model for ValueList<'a> {
    ghost use Rattle.std.specs.Prelude.{List, ℕ};
    ghost use Rattle.script.specs.Words.{values_in};

    ghost Value = { List (List ℕ) };

    ghost view = { λ l. values_in l.places.items };
}

impl<'a> ValueList<'a> {
    ghost use Rattle.std.specs.Prelude.{◌≡◌, ◌++◌, ◌∷◌, [], OnOk, string_bytes};
    ghost use Rattle.script.specs.Words.{values_in, spaced};

    /// No value.
    pub fn new(alloc: Global) -> ValueList<'a>
        ensures { result ≡ [] }
    {
        ValueList {
            places: Vec::new(alloc),
        }
    }

    /// The values that are left in these places.
    pub fn left_in(places: Vec<Option<Value<'a>>>) -> ValueList<'a>
        ensures { result ≡ values_in places.entry.items }
    {
        ValueList { places }
    }

    /// Adds a value at the end.
    pub fn push(&mut self, value: Value<'a>) -> Result<(), AllocError>
        ensures { OnOk result (self.new ≡ self.old ++ value.entry ∷ []) }
    {
        self.places.push(Some(value))?;
        Ok(())
    }

    /// Adds the values to a text, a space before each.
    pub fn write(&self, output: &mut String) -> Result<(), AllocError>
        ensures { OnOk result (string_bytes output.new ≡ string_bytes output.old
            ++ spaced self.now) }
    {
        write_values(output, &self.places)
    }
}

/// Adds the values in these places to a text, a space before each.
fn write_values(output: &mut String, places: &[Option<Value<'_>>]) -> Result<(), AllocError>
    ensures { OnOk result (string_bytes output.new ≡ string_bytes output.old
        ++ spaced (values_in places.now)) }
{
    for place in places {
        if let Some(value) = place {
            write!(output, " {value}")?;
        }
    }
    Ok(())
}
