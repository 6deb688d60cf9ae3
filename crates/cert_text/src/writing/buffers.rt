ghost use Rattle.std.specs.Prelude.{◌≡◌, ◌++◌, OnOk, All};
ghost use Rattle.cert_text.specs.Limits.{IsBufferWithin};
ghost use Rattle.std.specs.String.{string_bytes};
ghost use Rattle.std.specs.List.{flat_map};
ghost use Rattle.cert_text.specs.BufferLines.{buffer_text, buffers_line};

use std::alloc::AllocError;

/// Puts the line of the bounded channels and their capacities.
#[tactic(auto, unfolding(crate::specs::BufferLines::buffers_line))]
pub(crate) fn put_buffers(text: &mut String, buffers: &[(u32, u64)]) -> Result<(), AllocError>
    ensures text { OnOk result (string_bytes text.new ≡ string_bytes text.old ++ buffers_line buffers.now) }
    ensures within { OnOk result (All IsBufferWithin buffers.now) }
{
    match buffers {
        [] => text.push_str("buffers -\n"),
        [_, ..] => {
            text.push_str("buffers")?;
            put_each(text, buffers)?;
            text.push_str("\n")
        }
    }
}

fn put_each(text: &mut String, buffers: &[(u32, u64)]) -> Result<(), AllocError>
    ensures text { OnOk result (string_bytes text.new ≡ string_bytes text.old ++ flat_map buffer_text buffers.now) }
    ensures within { OnOk result (All IsBufferWithin buffers.now) }
{
    for buffer in buffers {
        put_buffer(text, *buffer)?;
    }
    Ok(())
}

#[tactic(auto, unfolding(crate::specs::BufferLines::buffer_text))]
fn put_buffer(text: &mut String, buffer: (u32, u64)) -> Result<(), AllocError>
    ensures text { OnOk result (string_bytes text.new ≡ string_bytes text.old ++ buffer_text buffer) }
    ensures within { IsBufferWithin buffer }
{
    let (channel, capacity) = buffer;
    write!(text, " {channel}={capacity}")
}
