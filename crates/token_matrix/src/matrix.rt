//! Matrices of max-plus algebra over the shared tokens.
ghost use Rattle.std.specs.Prelude.{◌≡◌, ◌<◌, [], MatchBool, MatchOption, length};
ghost use Rattle.token_matrix.specs.Matrices.{IsSquare, entry_at};

use crate::entries::Entry;
use sd_base::Rows;
use sd_base::limits::STAMPS;
use std::alloc::Global;
use std::marker::Model;

/// A square matrix of max-plus algebra (Baccelli et al. 1992). An entry says how many time units after the stamp of
/// its column's token the row's token comes at the least; where none is, the row's token does not wait for the
/// column's. An entry takes one word. Contracts see its rows in order.
#[derive(Debug, Drop)]
pub struct Matrix {
    rows: Rows<Rows<Entry>>,
    ghost square: { IsSquare rows },
}

impl Model for Matrix {
    ghost use Rattle.std.specs.Prelude.{ℕ, List, Option};
    ghost use Rattle.std.specs.Coded.{coded_list};

    ghost Value = { List (List (Option ℕ)) };

    ghost view = { λ m. m.rows };
}

impl Matrix {
    /// The matrix of these rows; none where they are more than a matrix may have, or not as many as the entries of
    /// each. Cost: linear in the rows.
    pub fn new(rows: Rows<Rows<Entry>>) -> Option<Matrix>
        ensures is { MatchOption result (IsSquare rows → ⊥) (λ m. m ≡ rows) }
    {
        if is_square(rows.as_slice()) {
            return Some(Matrix { rows });
        }
        None
    }

    /// The matrix without rows: what stands for that of a scenario that no state runs.
    pub fn empty(alloc: Global) -> Matrix
        ensures is { result ≡ [] }
    {
        Matrix {
            rows: Rows::new(alloc),
        }
    }

    /// How many rows it has, which is also the number of its columns: the number of the shared tokens.
    pub fn size(&self) -> u32
        ensures is { result ≡ length self.now }
    {
        self.rows.len() as u32
    }

    /// The entry of a row and a column, if the row's token waits for the column's.
    pub fn entry(&self, row: u32, column: u32) -> Option<u64>
        requires row { row < length self.now }
        requires column { column < length self.now }
        ensures is { result ≡ entry_at self.now row column }
    {
        self.rows.as_slice()[row as usize].as_slice()[column as usize].get()
    }

    /// The rows in order.
    pub fn rows(&self) -> &[Rows<Entry>]
        ensures is { result.now ≡ self.now }
        ensures square { IsSquare self.now }
    {
        self.rows.as_slice()
    }
}

fn is_square(rows: &[Rows<Entry>]) -> bool
    ensures { MatchBool result (IsSquare rows.now) (IsSquare rows.now → ⊥) }
{
    rows.len() <= STAMPS as usize && rows.iter().all(|row| row.len() == rows.len())
}
