ghost use Rattle.std.specs.Prelude.{◌≡◌, IfOk};
ghost use Rattle.covers.specs.Searches.{IsSearched};
ghost use Rattle.covers.specs.declared.search.Order.TheVariants.{Lexicographic, Storage};

use crate::bounds::{BoundRow, dead, lattice};
use crate::plain::Plain;
use crate::texts::push_vector;
use covers::{Bound, Lattice, Order, Search};
use sd_base::{Fraction, NoMemory, Rows};
use std::alloc::Global;
use std::process::Abort;
use std::test::Fail;

const LIMIT: u64 = 17;

/// Three channels with 1, 2 and no tokens at least, in steps of 1, 2 and 1, of size 1, 3 and 2.
fn three(rt: &impl Abort, alloc: Global) -> Result<Lattice, NoMemory> {
    lattice(rt, alloc, &[(1, 1, 1), (2, 2, 3), (0, 1, 2)], LIMIT)
}

/// Bounds, the last of which isn't in force at a third.
fn rows() -> [BoundRow<'static>; 5] {
    let third = Fraction::new(1, 3);
    [
        dead(&[(0, 2), (1, 2)]),
        BoundRow {
            caps: &[(1, 2), (2, 1)],
            rate: third,
        },
        BoundRow {
            caps: &[(0, 4), (2, 0)],
            rate: Fraction::new(1, 4),
        },
        BoundRow {
            caps: &[(0, 3), (1, 4), (2, 3)],
            rate: third,
        },
        BoundRow {
            caps: &[(2, 2)],
            rate: Fraction::new(1, 2),
        },
    ]
}

/// The bound that a vector shows whose channels all hold it back.
fn dead_at(alloc: Global, vector: &[u64]) -> Result<Bound, NoMemory> {
    let mut caps = Vec::new(alloc);
    let mut channel = 0u32;
    for capacity in vector {
        caps.push((channel, *capacity))?;
        channel = channel.saturating_add(1);
    }
    dead(caps.as_slice()).bound(alloc)
}

/// Adds bounds to a search.
fn learn(alloc: Global, search: &mut Search, rows: &[BoundRow]) -> Result<(), NoMemory>
    requires searched { IsSearched search.old }
    ensures searched { IsSearched search.new }
    ensures order { search.new.order ≡ search.old.order }
{
    for row in rows {
        search.add(row.bound(alloc)?)?;
    }
    Ok(())
}

/// A search that knows the bounds, and a third for the best rate.
fn searching(
    rt: &impl Abort,
    alloc: Global,
    order: Order,
    rows: &[BoundRow],
) -> Result<Search, NoMemory>
    ensures searched { IfOk result IsSearched }
    ensures order { IfOk result (λ s. s.order ≡ order) }
{
    let mut search = Search::new(alloc, three(rt, alloc)?, order)?;
    learn(alloc, &mut search, rows)?;
    search.reach(Fraction::new(1, 3));
    Ok(search)
}

/// Writes each vector, and takes it for dead.
fn bury(
    alloc: Global,
    search: &mut Search,
    vectors: &[Rows<u64>],
    text: &mut String,
) -> Result<(), NoMemory>
    requires searched { IsSearched search.old }
    ensures searched { IsSearched search.new }
    ensures order { search.new.order ≡ search.old.order }
{
    for vector in vectors {
        bury_one(alloc, search, vector.as_slice(), text)?;
    }
    Ok(())
}

fn bury_one(
    alloc: Global,
    search: &mut Search,
    vector: &[u64],
    text: &mut String,
) -> Result<(), NoMemory>
    requires searched { IsSearched search.old }
    ensures searched { IsSearched search.new }
    ensures order { search.new.order ≡ search.old.order }
{
    text.push_str(" ")?;
    push_vector(alloc, text, vector)?;
    search.add(dead_at(alloc, vector)?)
}

/// Writes all that a search asks for, level by level, where each vector that it asks for is dead.
fn bury_levels(
    alloc: Global,
    search: &mut Search,
    most: usize,
    text: &mut String,
) -> Result<(), NoMemory>
    requires searched { IsSearched search.old }
    requires by_storage { search.old.order ≡ Storage }
{
    'levels: for _ in 0..1000 {
        let Some(level) = search.level(alloc, most)? else {
            return Ok(());
        };
        bury(alloc, search, level.vectors.as_slice(), text)?;
    }
    Ok(())
}

/// Writes all that a search asks for in the order of vectors.
fn bury_vectors(alloc: Global, search: &mut Search, text: &mut String) -> Result<(), NoMemory>
    requires searched { IsSearched search.old }
    requires by_vectors { search.old.order ≡ Lexicographic }
{
    'vectors: for _ in 0..1000 {
        let Some(vector) = search.first(alloc)? else {
            return Ok(());
        };
        bury_one(alloc, search, vector.as_slice(), text)?;
    }
    Ok(())
}

/// All that a search asks for that knows the bounds, level by level.
fn by_levels(
    rt: &impl Abort,
    alloc: Global,
    rows: &[BoundRow],
    most: usize,
) -> Result<String, NoMemory> {
    let mut search = searching(rt, alloc, Order::Storage, rows)?;
    let mut text = String::new(alloc);
    bury_levels(alloc, &mut search, most, &mut text)?;
    Ok(text)
}

/// All that a search asks for that knows the bounds, in the order of vectors.
fn by_vectors(rt: &impl Abort, alloc: Global, rows: &[BoundRow]) -> Result<String, NoMemory> {
    let mut search = searching(rt, alloc, Order::Lexicographic, rows)?;
    let mut text = String::new(alloc);
    bury_vectors(alloc, &mut search, &mut text)?;
    Ok(text)
}

/// Writes all that a loop over the lattice finds uncovered, storage by storage or in the order of vectors.
fn push_plainly(
    alloc: Global,
    text: &mut String,
    plain: &Plain,
    order: Order,
) -> Result<(), NoMemory> {
    if matches!(order, Order::Lexicographic) {
        return plain.push_uncovered(alloc, text, 0, LIMIT);
    }
    for storage in 0..=LIMIT {
        plain.push_uncovered(alloc, text, storage, storage)?;
    }
    Ok(())
}

/// All that a loop over the lattice finds uncovered.
fn plainly(
    rt: &impl Abort,
    alloc: Global,
    order: Order,
    rows: &[BoundRow],
) -> Result<String, NoMemory> {
    let lattice = three(rt, alloc)?;
    let bounds = bounds_of(alloc, rows)?;
    let plain = Plain {
        lattice: &lattice,
        bounds: bounds.as_slice(),
        best: Fraction::new(1, 3),
    };
    let mut text = String::new(alloc);
    push_plainly(alloc, &mut text, &plain, order)?;
    Ok(text)
}

fn bounds_of(alloc: Global, rows: &[BoundRow]) -> Result<Vec<Bound>, NoMemory> {
    let mut bounds = Vec::new(alloc);
    for row in rows {
        bounds.push(row.bound(alloc)?)?;
    }
    Ok(bounds)
}

/// Asserts that a search by storage asks for what the loop finds, for so many vectors at once.
fn check_levels(
    rt: &impl Abort,
    alloc: Global,
    rows: &[BoundRow],
    most: usize,
) -> Result<(), NoMemory> {
    let plain = plainly(rt, alloc, Order::Storage, rows)?;
    let asked = by_levels(rt, alloc, rows, most)?;
    assert_eq!(rt; asked.as_str(), plain.as_str());
    Ok(())
}

/// Asserts that a search by vectors asks for what the loop finds.
fn check_vectors(rt: &impl Abort, alloc: Global, rows: &[BoundRow]) -> Result<(), NoMemory> {
    let plain = plainly(rt, alloc, Order::Lexicographic, rows)?;
    let asked = by_vectors(rt, alloc, rows)?;
    assert_eq!(rt; asked.as_str(), plain.as_str());
    Ok(())
}

#[test]
fn asks_for_all_that_is_uncovered(rt: HostRuntime) -> Result<(), Fail> {
    let rows = rows();
    for many in 0..6usize {
        check_levels(&rt, rt.alloc(), &rows[..many], 1)?;
        check_levels(&rt, rt.alloc(), &rows[..many], 1000)?;
    }
    Ok(())
}

#[test]
fn asks_in_the_order_of_vectors(rt: HostRuntime) -> Result<(), Fail> {
    let rows = rows();
    for many in 0..6usize {
        check_vectors(&rt, rt.alloc(), &rows[..many])?;
    }
    Ok(())
}
