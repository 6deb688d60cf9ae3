ghost use Rattle.std.specs.Prelude.{◌≡◌, ◌⊎◌, ◌≤◌, ◌++◌, [], All, List, Ok, Err, Some, IfOk, MatchResult, OnOk, length};
ghost use Rattle.std.specs.List.{flat_map};
ghost use Rattle.cert_text.specs.CycleLines.{cycle_lines};
ghost use Rattle.cert_text.specs.MemberLines.{member_lines};
ghost use Rattle.cert_text.specs.Orderly.{Differ, IsStorageOrderly, used_by};
ghost use Rattle.cert_text.specs.Spellable.{AreShown, IsCycleText, IsStorageSpellable};
ghost use Rattle.cert_text.specs.Spelling.{cycle_list, member_list, storage_kind, storage_lines};
ghost use Rattle.cert_text.specs.declared.certificates.LinkCycle.{LinkCycle};
ghost use Rattle.cert_text.specs.declared.certificates.MemberLine.{MemberLine};
ghost use Rattle.cert_text.specs.Found.{AreListed, HasTexts, IsExplored, IsNewCycle};
ghost use Rattle.cert_text.specs.Reads.{Gives, GivesKnown, handing, lines_of};
ghost use Rattle.cert_text.specs.Sections.{cycles_from, explored_from, listed_from, member_from, members_from, named_from, naming_from, new_cycle_from, new_cycles_from, numbered_from, storage_from};
ghost use Rattle.cert_text.specs.declared.reading.fault.Fault.TheVariants.{Memory};

use crate::certificates::{LinkCycle, MemberLine, StorageCertificate};
use crate::reading::fault::Fault;
use crate::reading::found::{Cycles, cycle_number};
use crate::reading::lines::Lines;
use crate::reading::members::{listed_member, numbered_member};
use crate::reading::numbers::{cycles_count, limit, members_count, overlap};
use crate::reading::points::points;
use crate::reading::rates::end;
use sd_base::Rows;
use std::alloc::Global;
use std::collections::BTreeMap;

/// Reads the lines of a certificate of a trade-off after the line of its kind.
#[tactic(auto, unfolding(crate::specs::Sections::storage_from, crate::specs::Sections::finish))]
pub(crate) fn storage_certificate(
    alloc: Global,
    lines: &mut Lines,
    version: u32,
) -> Result<StorageCertificate, Fault>
    requires { (version ≡ 1) ⊎ (version ≡ 2) }
    ensures text { IfOk result (λ c. (storage_kind ++ lines.old.rest.now ≡ storage_lines version c) × IsStorageSpellable c × IsStorageOrderly c) }
    ensures exact { Gives result lines.new.rest.now (storage_from version (lines_of lines.old.rest.now)) }
{
    let no_overlap = overlap(lines)?;
    let limit = limit(lines)?;
    let (cycles, members) = explored(alloc, lines, version)?;
    let points = points(alloc, lines)?;
    end(lines)?;
    Ok(StorageCertificate {
        no_overlap,
        limit,
        cycles,
        members,
        points,
    })
}

/// Reads the cycles and the members of a trade-off.
#[tactic(auto, unfolding(crate::specs::Sections::explored_from))]
fn explored(
    alloc: Global,
    lines: &mut Lines,
    version: u32,
) -> Result<(Rows<LinkCycle>, Rows<MemberLine>), Fault>
    requires { (version ≡ 1) ⊎ (version ≡ 2) }
    ensures text { IfOk result (λ x. IsExplored version x.0 x.1 lines.old.rest.now lines.new.rest.now) }
    ensures exact { Gives result lines.new.rest.now (explored_from version (lines_of lines.old.rest.now)) }
{
    if version == 1 {
        listed(alloc, lines)
    } else {
        named(alloc, lines)
    }
}

/// Reads members that list their cycles.
#[tactic(auto, unfolding(crate::specs::Sections::members_from))]
fn listed(alloc: Global, lines: &mut Lines) -> Result<(Rows<LinkCycle>, Rows<MemberLine>), Fault>
    ensures text { IfOk result (λ x. IsExplored 1 x.0 x.1 lines.old.rest.now lines.new.rest.now) }
    ensures exact { Gives result lines.new.rest.now (members_from listed_from [] (lines_of lines.old.rest.now)) }
{
    let count = members_count(lines)?;
    let mut cycles = Cycles {
        numbers: BTreeMap::new(alloc),
        list: Vec::new(alloc),
    };
    let members = each_listed(alloc, lines, count, &mut cycles)?;
    let Cycles { numbers: _, list } = cycles;
    Ok((Rows::from_vec(list), members))
}

fn each_listed<'a>(
    alloc: Global,
    lines: &mut Lines<'a>,
    count: u64,
    cycles: &mut Cycles<'a>,
) -> Result<Rows<MemberLine>, Fault>
    requires texts { HasTexts cycles.old.numbers cycles.old.list.items }
    requires none { cycles.old.list.items ≡ [] }
    ensures many { IfOk result (λ m. length m ≡ count) }
    ensures text { IfOk result (λ m. AreListed cycles.new.list.items m lines.old.rest.now lines.new.rest.now) }
    ensures exact { GivesKnown result cycles.new.list.items lines.new.rest.now (handing (member_from listed_from) count cycles.old.list.items (lines_of lines.old.rest.now)) }
{
    let mut members = Vec::new(alloc);
    for place in 0..count {
        let next = listed_member(alloc, lines, cycles)?;
        members.push(next)?;
    }
    Ok(Rows::from_vec(members))
}

/// Reads the cycles and then members that name them by their numbers.
#[tactic(auto, unfolding(crate::specs::Sections::named_from))]
fn named(alloc: Global, lines: &mut Lines) -> Result<(Rows<LinkCycle>, Rows<MemberLine>), Fault>
    ensures text { IfOk result (λ x. IsExplored 2 x.0 x.1 lines.old.rest.now lines.new.rest.now) }
    ensures exact { Gives result lines.new.rest.now (named_from (lines_of lines.old.rest.now)) }
{
    let cycles = cycle_list(alloc, lines)?;
    let members = naming(alloc, lines, cycles.as_slice().len())?;
    Ok((cycles, members))
}

/// Reads the list of the cycles, which differ.
#[tactic(auto, unfolding(crate::specs::Sections::cycles_from, crate::specs::Spelling::cycle_list))]
fn cycle_list(alloc: Global, lines: &mut Lines) -> Result<Rows<LinkCycle>, Fault>
    ensures text { IfOk result (λ c. (lines.old.rest.now ≡ cycle_list 2 c ++ lines.new.rest.now) × All IsCycleText c × Differ c) }
    ensures exact { Gives result lines.new.rest.now (cycles_from (lines_of lines.old.rest.now)) }
{
    let count = cycles_count(lines)?;
    each_cycle(alloc, lines, count)
}

fn each_cycle(alloc: Global, lines: &mut Lines, count: u64) -> Result<Rows<LinkCycle>, Fault>
    ensures text { IfOk result (λ c. (lines.old.rest.now ≡ flat_map cycle_lines c ++ lines.new.rest.now) × (length c ≡ count) × All IsCycleText c × Differ c) }
    ensures exact { Gives result lines.new.rest.now (new_cycles_from count [] (lines_of lines.old.rest.now)) }
{
    let mut cycles = Cycles {
        numbers: BTreeMap::new(alloc),
        list: Vec::new(alloc),
    };
    for place in 0..count {
        new_cycle(alloc, lines, &mut cycles)?;
    }
    let Cycles { numbers: _, list } = cycles;
    Ok(Rows::from_vec(list))
}

/// Reads the lines of a cycle that wasn't read before; else its first line is at fault.
#[tactic(auto, unfolding(crate::specs::Sections::new_cycle_from))]
fn new_cycle<'a>(alloc: Global, lines: &mut Lines<'a>, cycles: &mut Cycles<'a>) -> Result<(), Fault>
    requires { HasTexts cycles.old.numbers cycles.old.list.items }
    ensures texts { OnOk result (HasTexts cycles.new.numbers cycles.new.list.items) }
    ensures text { OnOk result (IsNewCycle cycles.old.list.items cycles.new.list.items lines.old.rest.now lines.new.rest.now) }
    ensures exact { MatchResult result (λ _. new_cycle_from cycles.old.list.items (lines_of lines.old.rest.now) ≡ Ok (cycles.new.list.items, lines_of lines.new.rest.now)) (λ e. (e ≡ Memory) ⊎ (new_cycle_from cycles.old.list.items (lines_of lines.old.rest.now) ≡ Err (e, lines_of lines.new.rest.now))) }
{
    let text = lines.rest;
    let found = cycle_number(alloc, lines, cycles)?;
    if !found.is_new {
        lines.rest = text;
        lines.next()?;
        return Err(Fault::Form);
    }
    Ok(())
}

/// Reads members that name all of so many cycles, each the ones before and the next one.
#[tactic(auto, unfolding(crate::specs::Sections::naming_from, crate::specs::Sections::members_from, crate::specs::Spelling::member_list))]
fn naming(alloc: Global, lines: &mut Lines, all: usize) -> Result<Rows<MemberLine>, Fault>
    ensures text { IfOk result (λ m. ((cycles : List LinkCycle) → lines.old.rest.now ≡ member_list 2 cycles m ++ lines.new.rest.now) × All (λ (x : MemberLine). AreShown x.shown) m × (used_by 0 m ≡ Some all)) }
    ensures exact { Gives result lines.new.rest.now (naming_from all (lines_of lines.old.rest.now)) }
{
    let count = members_count(lines)?;
    let mut used = 0;
    let members = each_numbered(alloc, lines, count, &mut used, all)?;
    if used < all {
        lines.next()?;
        return Err(Fault::Form);
    }
    Ok(members)
}

fn each_numbered(
    alloc: Global,
    lines: &mut Lines,
    count: u64,
    used: &mut usize,
    all: usize,
) -> Result<Rows<MemberLine>, Fault>
    requires { used.old ≤ all }
    ensures text { IfOk result (λ m. ((cycles : List LinkCycle) → lines.old.rest.now ≡ flat_map (member_lines 2 cycles) m ++ lines.new.rest.now) × (length m ≡ count) × All (λ (x : MemberLine). AreShown x.shown) m × (used_by used.old m ≡ Some used.new)) }
    ensures within { used.new ≤ all }
    ensures exact { GivesKnown result used.new lines.new.rest.now (handing (member_from (numbered_from all)) count used.old (lines_of lines.old.rest.now)) }
{
    let mut members = Vec::new(alloc);
    for place in 0..count {
        let next = numbered_member(alloc, lines, used, all)?;
        members.push(next)?;
    }
    Ok(Rows::from_vec(members))
}
