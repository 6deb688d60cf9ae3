//! Rows that are found by their names.
//!
//! The reader finds actors, ports and channels by name in maps from names to numbers, whose order of insertion is the order
//! of the file. Whether an end of a channel was used before is found by comparing it with those of at most 256 channels.

ghost use Rattle.std.specs.Prelude.{◌≡◌, ◌==◌, ◌&&◌, Bool, ◌++◌, ◌∷◌, [], ℕ, List, false, IfOk, length, map, slice_get};
ghost use Rattle.std.specs.List.{find, position};
ghost use Rattle.std.specs.Option.{option_copied};
ghost use Rattle.std.specs.Str.{bytes_eq};
ghost use Rattle.graph_reader.specs.Sections.{is_among};
ghost use Rattle.graph_reader.specs.Register.{tested};

use indexmap::IndexSet;
use sd_base::{ScenarioRow, Text};
use std::alloc::{AllocError, Global};
use std::marker::Model;

/// What has a name that may stand once in a list.
pub trait Named {
    ghost name_of: { Self → List ℕ };

    /// The name, as the file has it.
    fn name(&self) -> &Text
        ensures { result.now ≡ name_of self.now };
}

// The type is that of another crate, and so is the trait for the reader of scenarios: the impl can stand here alone.
impl Named for ScenarioRow {
    ghost name_of = { λ s. s.name };

    fn name(&self) -> &Text {
        &self.name
    }
}

/// Rows in order, each of which has a name of its own. A name costs its length, however many rows there are.
pub struct Register<R: Named> {
    rows: Vec<R>,
    /// The names in the order of the rows, so that a name has the number of its row.
    names: IndexSet<String>,
}

// By hand, so that what drops one calls this, and does not drop each of its parts.
impl<R: Named + Drop> Drop for Register<R> {
    fn drop(self) {
        let Register {
            rows: _rows,
            names: _names,
        } = self;
    }
}

impl<R: Named> Model for Register<R> {
    ghost use Rattle.std.specs.Prelude.{List, map};
    ghost use Rattle.std.specs.Coded.{coded_list};
    ghost use Rattle.std.specs.String.{string_bytes};
    ghost use Rattle.graph_reader.specs.Register.{AreNamed};

    ghost Value = { List R };

    ghost coded = { coded_list R.code };

    ghost view = { λ r. r.rows.items };

    ghost invariant = { λ r. AreNamed (map R.name_of r.rows.items) (map string_bytes r.names.keys) };
}

impl<R: Named> Register<R> {
    /// No rows, without memory.
    pub fn new(alloc: Global) -> Register<R>
        ensures { result ≡ [] }
    {
        Register {
            rows: Vec::new(alloc),
            names: IndexSet::new(alloc),
        }
    }

    /// How many rows there are.
    pub fn len(&self) -> usize
        ensures { result ≡ length self.now }
    {
        self.rows.len()
    }

    /// Whether there are no rows.
    pub fn is_empty(&self) -> bool
        ensures { result ≡ (length self.now == 0) }
    {
        self.rows.len() == 0
    }

    /// The rows in the order in which they were put.
    pub fn as_slice(&self) -> &[R]
        ensures { result.now ≡ self.now }
    {
        self.rows.as_slice()
    }

    /// Gives the rows back, without memory.
    pub fn into_rows(self) -> Vec<R>
        ensures { result.items ≡ self }
    {
        let Register {
            rows,
            names: _names,
        } = self;
        rows
    }

    /// Whether some row has this name.
    pub fn has(&self, name: &str) -> bool
        ensures { result ≡ is_among name.now (map R.name_of self.now) }
    {
        self.names.contains(name)
    }

    /// The number of the row of this name.
    pub fn number_of(&self, name: &str) -> Option<usize>
        ensures { result ≡ position (λ r. bytes_eq (R.name_of r) name.now) self.now }
    {
        self.names.get_index_of(name)
    }

    /// The row of this number, from 0; none past the last one.
    pub fn get(&self, number: usize) -> Option<&R>
        ensures { option_copied result ≡ slice_get self.now number }
    {
        self.rows.get(number)
    }

    /// The row of this name. No other row has the name, so another test may come after it.
    pub fn find(&self, name: &str) -> Option<&R>
        ensures row { option_copied result ≡ find (λ r. bytes_eq (R.name_of r) name.now) self.now }
        ensures alone { (test : R → Bool) → find (λ r. bytes_eq (R.name_of r) name.now && test r) self.now ≡ tested test (option_copied result) }
    {
        let number = self.names.get_index_of(name)?;
        self.get(number)
    }

    /// The same rows and a last one, which has a new name.
    pub fn with(self, alloc: Global, row: R) -> Result<Register<R>, AllocError>
    where
        R: Drop,
        requires { is_among (R.name_of row) (map R.name_of self) ≡ false }
        ensures { IfOk result (λ r. r ≡ self ++ row ∷ []) }
    {
        let name = String::from_str(alloc, row.name().as_str())?;
        let Register {
            mut rows,
            mut names,
        } = self;
        names.insert(name)?;
        rows.push(row)?;
        Ok(Register { rows, names })
    }
}
