ghost use Rattle.std.specs.Prelude.{◌≡◌, ◌≤◌, ◌++◌, ℕ, List, IfOk, OnOk, length, map};
ghost use Rattle.std.specs.String.{string_bytes};
ghost use Rattle.report.specs.StorageTexts.{buffer_text, buffers_list, capacities_list, shared_buffers_list};

use escapes::put_escaped;
use sd_base::{ChannelRow, GraphFile, NoMemory, SharedRow, Text};
use std::alloc::{AllocError, Global};
use storage::Distribution;

/// A channel that can have a capacity, as a list shows it.
pub(crate) trait Named {
    ghost name_of: { Self → List ℕ };

    fn name(&self) -> &Text
        ensures { result.now ≡ name_of self.now };
}

impl Named for ChannelRow {
    ghost name_of = { λ row. row.name };

    fn name(&self) -> &Text {
        &self.name
    }
}

impl Named for SharedRow {
    ghost name_of = { λ row. row.name };

    fn name(&self) -> &Text {
        &self.name
    }
}

/// The capacities of a distribution: `NAME=CAPACITY` for each channel that has one, in tokens, with commas between,
/// or `-` where none has one. Cost: linear in the channels and the text.
#[tactic(auto, unfolding(crate::specs::StorageTexts::buffers_list))]
pub fn buffers_text(
    alloc: Global,
    graph: &GraphFile,
    capacities: &Distribution,
) -> Result<Text, NoMemory>
    requires { length capacities.now.capacities ≤ length graph.now.channels }
    ensures { IfOk result (λ t. t ≡ buffers_list graph.now capacities.now.capacities) }
{
    list_text(alloc, graph.channels.as_slice(), capacities)
}

/// The same of the channels that scenarios share, by whose rows the capacities stand.
#[tactic(auto, unfolding(crate::specs::StorageTexts::shared_buffers_list))]
pub fn shared_buffers_text(
    alloc: Global,
    shared: &[SharedRow],
    capacities: &Distribution,
) -> Result<Text, NoMemory>
    requires { length capacities.now.capacities ≤ length shared.now }
    ensures { IfOk result (λ t. t ≡ shared_buffers_list shared.now capacities.now.capacities) }
{
    list_text(alloc, shared, capacities)
}

/// The same of channels by their rows.
fn list_text<R: Named>(
    alloc: Global,
    rows: &[R],
    capacities: &Distribution,
) -> Result<Text, NoMemory>
    requires { length capacities.now.capacities ≤ length rows.now }
    ensures { IfOk result (λ t. t ≡ capacities_list (map R.name_of rows.now) capacities.now.capacities) }
{
    let mut text = String::new(alloc);
    put_buffers(&mut text, rows, capacities.capacities.as_slice())?;
    Ok(Text::new(text))
}

/// Puts the capacities of channels at the end of a text.
pub(crate) fn put_buffers<R: Named>(
    text: &mut String,
    rows: &[R],
    capacities: &[Option<u64>],
) -> Result<(), AllocError>
    requires { length capacities.now ≤ length rows.now }
    ensures { OnOk result (string_bytes text.new ≡ string_bytes text.old ++ capacities_list (map R.name_of rows.now) capacities.now) }
{
    let mut between = "";
    for channel in 0..capacities.len() {
        if let Some(capacity) = capacities[channel] {
            text.push_str(between)?;
            put_buffer(text, rows[channel].name().as_str(), capacity)?;
            between = ",";
        }
    }
    if between.is_empty() {
        text.push_str("-")?;
    }
    Ok(())
}

#[tactic(auto, unfolding(crate::specs::StorageTexts::buffer_text))]
fn put_buffer(text: &mut String, name: &str, capacity: u64) -> Result<(), AllocError>
    ensures { OnOk result (string_bytes text.new ≡ string_bytes text.old ++ buffer_text name.now capacity) }
{
    put_escaped(text, name)?;
    write!(text, "={capacity}")
}
