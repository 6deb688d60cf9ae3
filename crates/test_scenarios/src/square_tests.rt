use crate::shared::rows_of;
use std::alloc::{AllocError, Global};
use std::process::Abort;
use std::test::Fail;
use token_matrix::{Matrix, matrices_are_one};

#[test]
fn a_square_has_its_entries(rt: HostRuntime) -> Result<(), Fail> {
    let rows = rows_of(rt.alloc(), &[&[Some(3), None], &[Some(7), Some(5)]])?;
    match Matrix::new(rows) {
        None => assert!(rt; false, "two rows of two entries"),
        Some(matrix) => check_entries(&rt, &matrix),
    }
    matrices_are_one();
    Ok(())
}

fn check_entries(rt: &impl Abort, matrix: &Matrix) {
    assert!(rt; matrix.size() == 2);
    assert!(rt; matrix.rows().len() == 2);
    assert!(rt; matrix.entry(0, 0) == Some(3));
    assert!(rt; matrix.entry(0, 1).is_none());
    assert!(rt; matrix.entry(1, 0) == Some(7));
    assert!(rt; matrix.entry(1, 1) == Some(5));
}

/// Whether rows of these entries make a matrix.
fn make_one(alloc: Global, rows: &[&[Option<u32>]]) -> Result<bool, AllocError> {
    let rows = rows_of(alloc, rows)?;
    Ok(Matrix::new(rows).is_some())
}

#[test]
fn other_rows_make_no_matrix(rt: HostRuntime) -> Result<(), Fail> {
    let wide = make_one(rt.alloc(), &[&[Some(1), None]])?;
    assert!(rt; !wide, "one row of two entries");
    let uneven = make_one(rt.alloc(), &[&[Some(1), None], &[Some(2)]])?;
    assert!(rt; !uneven, "a second row of one entry");
    Ok(())
}

#[test]
fn an_empty_matrix_has_no_rows(rt: HostRuntime) -> Result<(), Fail> {
    let matrix = Matrix::empty(rt.alloc());
    assert!(rt; matrix.size() == 0);
    assert!(rt; matrix.rows().is_empty());
    Ok(())
}
