ghost use Rattle.std.specs.Prelude.{◌≡◌, OnOk};
ghost use Rattle.covers.specs.Searches.{IsSearched};
ghost use Rattle.covers.specs.declared.search.Order.TheVariants.{Lexicographic, Storage};

use crate::bounds::{BoundRow, dead, lattice};
use crate::texts::{first_text, level_text};
use covers::{Order, Search};
use sd_base::{Fraction, NoMemory};
use std::alloc::Global;
use std::process::Abort;
use std::test::Fail;

/// What a search is told.
#[derive(Clone, Copy)]
enum Told<'a> {
    Nothing,
    Bound(BoundRow<'a>),
    /// A rate that was reached.
    Reached(Fraction),
}

/// What a search is told, and what it asks for then.
#[derive(Clone, Copy)]
struct Turn<'a> {
    told: Told<'a>,
    asked: &'a str,
}

/// A turn in which a search is told that channels with these capacities are dead.
fn after_dead<'a>(caps: &'a [(u32, u64)], asked: &'a str) -> Turn<'a> {
    Turn {
        told: Told::Bound(dead(caps)),
        asked,
    }
}

/// Two channels: the first from 1 in steps of 1, of size 1; the second from 2 in steps of 2, of size 3. So (1, 2) needs 7, and
/// each token of the first one 1 more, each two of the second one 6.
const TWO: [(u64, u64, u64); 2] = [(1, 1, 1), (2, 2, 3)];

fn tell(alloc: Global, search: &mut Search, told: &Told) -> Result<(), NoMemory>
    requires searched { IsSearched search.old }
    ensures searched { IsSearched search.new }
    ensures order { search.new.order ≡ search.old.order }
{
    match told {
        Told::Nothing => Ok(()),
        Told::Bound(row) => search.add(row.bound(alloc)?),
        Told::Reached(rate) => {
            search.reach(*rate);
            Ok(())
        },
    }
}

/// Asserts what a search asks for, up to so many vectors.
fn check_level(
    rt: &impl Abort,
    alloc: Global,
    search: &mut Search,
    most: usize,
    asked: &str,
) -> Result<(), NoMemory>
    requires searched { IsSearched search.old }
    requires by_storage { search.old.order ≡ Storage }
    ensures searched { OnOk result (IsSearched search.new) }
    ensures order { search.new.order ≡ search.old.order }
{
    let level = search.level(alloc, most)?;
    let text = level_text(alloc, &level)?;
    assert_eq!(rt; text.as_str(), asked);
    Ok(())
}

/// Asserts which vector a search asks for first.
fn check_first(
    rt: &impl Abort,
    alloc: Global,
    search: &mut Search,
    asked: &str,
) -> Result<(), NoMemory>
    requires searched { IsSearched search.old }
    requires by_vectors { search.old.order ≡ Lexicographic }
    ensures searched { OnOk result (IsSearched search.new) }
    ensures order { search.new.order ≡ search.old.order }
{
    let first = search.first(alloc)?;
    let text = first_text(alloc, &first)?;
    assert_eq!(rt; text.as_str(), asked);
    Ok(())
}

/// Tells a search by storage what each turn says, and asserts what it then asks for.
fn take_levels(
    rt: &impl Abort,
    alloc: Global,
    search: &mut Search,
    turns: &[Turn],
) -> Result<(), NoMemory>
    requires searched { IsSearched search.old }
    requires by_storage { search.old.order ≡ Storage }
{
    for turn in turns {
        tell(alloc, search, &turn.told)?;
        check_level(rt, alloc, search, 8, turn.asked)?;
    }
    Ok(())
}

/// Tells a search by vectors what each turn says, and asserts what it then asks for.
fn take_vectors(
    rt: &impl Abort,
    alloc: Global,
    search: &mut Search,
    turns: &[Turn],
) -> Result<(), NoMemory>
    requires searched { IsSearched search.old }
    requires by_vectors { search.old.order ≡ Lexicographic }
{
    for turn in turns {
        tell(alloc, search, &turn.told)?;
        check_first(rt, alloc, search, turn.asked)?;
    }
    Ok(())
}

#[test]
fn asks_for_the_least_uncovered(rt: HostRuntime) -> Result<(), Fail> {
    let half = Fraction::new(1, 2);
    let one = Fraction::new(1, 1);
    let turns = [
        // Nothing is known: the corner.
        Turn {
            told: Told::Nothing,
            asked: "7: 1,2,",
        },
        // A dead corner: 8 for a token more on the first channel, 13 for two more on the second one.
        after_dead(&[(0, 1), (1, 2)], "8: 2,2,"),
        // The second channel with 2 is dead whatever the first has.
        after_dead(&[(1, 2)], "13: 1,4,"),
        // A bound of a rate that wasn't reached isn't in force.
        Turn {
            told: Told::Bound(BoundRow {
                caps: &[(0, 1)],
                rate: half,
            }),
            asked: "13: 1,4,",
        },
        Turn {
            told: Told::Reached(half),
            asked: "14: 2,4,",
        },
        // One that nothing holds back covers all.
        Turn {
            told: Told::Bound(BoundRow {
                caps: &[],
                rate: one,
            }),
            asked: "14: 2,4,",
        },
        Turn {
            told: Told::Reached(one),
            asked: "settled",
        },
    ];
    let alloc = rt.alloc();
    let lattice = lattice(&rt, alloc, &TWO, 40)?;
    let mut search = Search::new(alloc, lattice, Order::Storage)?;
    take_levels(&rt, alloc, &mut search, &turns)?;
    Ok(())
}

// Where the second channel with 2 is dead with at most 6 on the first one, 7 on the first one need 13, as do 4 on the second one.

#[test]
fn asks_for_all_of_a_storage(rt: HostRuntime) -> Result<(), Fail> {
    let alloc = rt.alloc();
    let lattice = lattice(&rt, alloc, &TWO, 40)?;
    let mut search = Search::new(alloc, lattice, Order::Storage)?;
    search.add(dead(&[(0, 6), (1, 2)]).bound(alloc)?)?;
    check_level(&rt, alloc, &mut search, 8, "13: 1,4, 7,2,")?;
    check_level(&rt, alloc, &mut search, 1, "13: 1,4,")?;
    Ok(())
}

// In the order of vectors (1, 4) comes before (7, 2). Where it is dead too, (1, 6) is next, which needs 19; and where the first
// channel with 1 is dead, (3, 4) before (7, 2).

#[test]
fn asks_for_the_first_vector(rt: HostRuntime) -> Result<(), Fail> {
    let turns = [
        after_dead(&[(0, 6), (1, 2)], "1,4,"),
        after_dead(&[(0, 2), (1, 4)], "1,6,"),
        after_dead(&[(0, 1)], "3,4,"),
    ];
    let alloc = rt.alloc();
    let lattice = lattice(&rt, alloc, &TWO, 19)?;
    let mut search = Search::new(alloc, lattice, Order::Lexicographic)?;
    take_vectors(&rt, alloc, &mut search, &turns)?;
    Ok(())
}
