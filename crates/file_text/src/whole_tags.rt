//! Tags and attributes that stand whole in front, each of which is passed in one step.

ghost use Rattle.std.specs.Prelude.{◌≡◌, ◌⊎◌, ◌+◌, ◌<◌, ◌≤◌, length, true, take, slice_index, Some, IfOk, IsTrue};
ghost use Rattle.file_text.specs.inside.Machine.{run};
ghost use Rattle.file_text.specs.inside.Seen.{state_of};

use crate::AttributeList;
use crate::characters::{Run, is_name_start, is_same, run_len};
use crate::due::Due;
use crate::mode::Mode;
use crate::scanner::{Frame, Scanner};
use crate::tags::text_of;
use crate::texts::MOST_OPEN;
use sd_base::Text;
use std::alloc::{AllocError, Global};

impl Scanner {
    /// Passes a tag without attributes that stands whole in front; else passes nothing.
    #[inline(always)]
    pub(crate) fn pass_tag(&mut self, alloc: Global, bytes: &[u8]) -> Result<usize, AllocError>
        requires due { self.old.due ≡ Due.Nothing }
        requires mode { self.old.mode ≡ Mode.Between }
        requires inside { 0 < length self.old.frames.items }
        requires some { 1 < length bytes.now }
        requires front { slice_index bytes.now 0 ≡ 60 }
        ensures within { IfOk result (λ n. n ≤ length bytes.now) }
        ensures same { IfOk result (λ n. run true (Some (state_of self.old)) (take n bytes.now) ≡ Some (state_of self.new)) }
    {
        if bytes[1] == b'/' {
            self.pass_end_tag(bytes)
        } else {
            self.pass_start_tag(alloc, bytes)
        }
    }

    /// The same with an end tag that ends the innermost element.
    fn pass_end_tag(&mut self, bytes: &[u8]) -> Result<usize, AllocError>
        requires due { self.old.due ≡ Due.Nothing }
        requires mode { self.old.mode ≡ Mode.Between }
        requires inside { 0 < length self.old.frames.items }
        requires some { 1 < length bytes.now }
        requires front { slice_index bytes.now 0 ≡ 60 }
        requires slash { slice_index bytes.now 1 ≡ 47 }
        ensures within { IfOk result (λ n. n ≤ length bytes.now) }
        ensures same { IfOk result (λ n. run true (Some (state_of self.old)) (take n bytes.now) ≡ Some (state_of self.new)) }
    {
        let count = run_len(Run::Name, &bytes[2..]);
        if !ends_tag(bytes, count + 2) || !is_same(&bytes[2..count + 2], self.innermost_name()) {
            return Ok(0);
        }
        let Some(frame) = self.frames.pop() else {
            unreachable!();
        };
        self.put(frame)?;
        Ok(count + 3)
    }

    /// The same with a start tag.
    fn pass_start_tag(&mut self, alloc: Global, bytes: &[u8]) -> Result<usize, AllocError>
        requires due { self.old.due ≡ Due.Nothing }
        requires mode { self.old.mode ≡ Mode.Between }
        requires inside { 0 < length self.old.frames.items }
        requires some { 1 < length bytes.now }
        requires front { slice_index bytes.now 0 ≡ 60 }
        ensures within { IfOk result (λ n. n ≤ length bytes.now) }
        ensures same { IfOk result (λ n. run true (Some (state_of self.old)) (take n bytes.now) ≡ Some (state_of self.new)) }
    {
        let count = run_len(Run::Name, &bytes[1..]);
        if count == 0
            || !is_name_start(bytes[1])
            || !ends_tag(bytes, count + 1)
            || self.frames.len() >= MOST_OPEN
        {
            return Ok(0);
        }
        self.frames.push(Frame {
            name: Text::of(alloc, text_of(&bytes[1..count + 1]))?,
            attributes: AttributeList::new(),
            children: Vec::new(alloc),
        })?;
        Ok(count + 2)
    }

    /// Passes an attribute of an element that stands whole in front, without white around its `=` and without an entity; else
    /// passes nothing.
    fn pass_whole_attribute(&mut self, alloc: Global, bytes: &[u8]) -> Result<usize, AllocError>
        requires due { self.old.due ≡ Due.Nothing }
        requires mode { self.old.mode ≡ Mode.Gap }
        ensures within { IfOk result (λ n. n ≤ length bytes.now) }
        ensures same { IfOk result (λ n. run true (Some (state_of self.old)) (take n bytes.now) ≡ Some (state_of self.new)) }
    {
        let count = run_len(Run::Name, bytes);
        if count == 0 || !is_name_start(bytes[0]) || !opens_value(bytes, count) {
            return Ok(0);
        }
        let quote = bytes[count + 1];
        let end = count + 2 + run_len(Run::Value { quote }, &bytes[count + 2..]);
        if end >= bytes.len() || bytes[end] != quote || !self.tag.held.is_tag() {
            return Ok(0);
        }
        let name = text_of(&bytes[..count]);
        if self.tag.attributes.has(name) {
            return Ok(0);
        }
        self.tag
            .attributes
            .add(alloc, name, text_of(&bytes[count + 2..end]))?;
        self.mode = Mode::Valued;
        Ok(end + 1)
    }

    /// Passes white in a tag, and an attribute behind it.
    pub(crate) fn pass_gap(&mut self, alloc: Global, bytes: &[u8]) -> Result<usize, AllocError>
        requires due { self.old.due ≡ Due.Nothing }
        requires mode { self.old.mode ≡ Mode.Gap }
        ensures within { IfOk result (λ n. n ≤ length bytes.now) }
        ensures same { IfOk result (λ n. run true (Some (state_of self.old)) (take n bytes.now) ≡ Some (state_of self.new)) }
    {
        let white = run_len(Run::White, bytes);
        let passed = self.pass_whole_attribute(alloc, &bytes[white..])?;
        Ok(white + passed)
    }
}

/// Whether a tag ends at the place.
#[inline(always)]
fn ends_tag(bytes: &[u8], place: usize) -> bool
    ensures within { IsTrue result → place < length bytes.now }
    ensures end { IsTrue result → slice_index bytes.now place ≡ 62 }
{
    place < bytes.len() && bytes[place] == b'>'
}

/// Whether `=` and a quote stand at the place.
#[inline(always)]
fn opens_value(bytes: &[u8], place: usize) -> bool
    ensures within { IsTrue result → place + 1 < length bytes.now }
    ensures equals { IsTrue result → slice_index bytes.now place ≡ 61 }
    ensures quote { IsTrue result → (slice_index bytes.now (place + 1) ≡ 34) ⊎ (slice_index bytes.now (place + 1) ≡ 39) }
{
    bytes.len() > 1
        && place < bytes.len() - 1
        && bytes[place] == b'='
        && (bytes[place + 1] == b'"' || bytes[place + 1] == b'\'')
}
