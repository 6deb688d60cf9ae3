ghost use Rattle.std.specs.Prelude.{OnOk};
ghost use Rattle.cert_text.specs.Found.{FindsCycle, HasTexts};
ghost use Rattle.cert_text.specs.Reads.{lines_of};
ghost use Rattle.cert_text.specs.Sections.{cycle_from};

use crate::certificates::LinkCycle;
use crate::reading::cycles::cycle;
use crate::reading::fault::Fault;
use crate::reading::lines::Lines;
use std::alloc::Global;
use std::collections::BTreeMap;

/// The cycles that were read, each once, in the order in which they were found, and the number of each by its text. Two cycles
/// are the same where their texts are. The texts are kept in order, so that no file makes a search for one dear: it costs the
/// text times the logarithm of their number.
#[derive(Drop)]
pub(crate) struct Cycles<'a> {
    pub(crate) numbers: BTreeMap<&'a [u8], usize>,
    pub(crate) list: Vec<LinkCycle>,
}

/// The number of a cycle, and whether it was found for the first time.
#[derive(Clone, Copy)]
pub(crate) struct FoundCycle {
    pub(crate) number: usize,
    pub(crate) is_new: bool,
}

/// Reads the lines of a cycle, and finds it among the others.
pub(crate) fn cycle_number<'a>(
    alloc: Global,
    lines: &mut Lines<'a>,
    cycles: &mut Cycles<'a>,
) -> Result<FoundCycle, Fault>
    requires { HasTexts cycles.old.numbers cycles.old.list.items }
    ensures texts { OnOk result (HasTexts cycles.new.numbers cycles.new.list.items) }
    ensures exact { FindsCycle result cycles.old.list.items cycles.new.list.items lines.old.rest.now lines.new.rest.now (cycle_from (lines_of lines.old.rest.now)) }
{
    let text = lines.rest;
    let cycle = cycle(alloc, lines)?;
    let (text, _) = text.split_at(text.len() - lines.rest.len());
    if let Some(number) = cycles.numbers.get(text) {
        let number = *number;
        return Ok(FoundCycle {
            number,
            is_new: false,
        });
    }
    let number = cycles.list.len();
    cycles.numbers.insert(text, number)?;
    cycles.list.push(cycle)?;
    Ok(FoundCycle {
        number,
        is_new: true,
    })
}
