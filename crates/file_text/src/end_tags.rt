ghost use Rattle.std.specs.Prelude.{◌≡◌, ◌+◌, ◌^◌, ◌<◌, [], Option, Some, IfOk, OnOk, OnSome, drop, length, slice_get};
ghost use Rattle.file_text.specs.inside.Machine.{Takes, goes, at_between, ended, node_of, closing_step, match_step, leave_step};
ghost use Rattle.file_text.specs.declared.tree.Element.{Element as Ended};
ghost use Rattle.file_text.specs.Node.{tree_of};
ghost use Rattle.file_text.specs.inside.Seen.{around_in, around_of, name_in, opened_of, stack_on, state_of};

use crate::Element;
use crate::class::Class;
use crate::mode::Mode;
use crate::scanner::{Frame, Scanner};
use crate::taken::Taken;
use std::alloc::AllocError;

/// The ends of elements.
impl Scanner {
    #[inline(always)]
    pub(crate) fn closing(
        &mut self,
        matched: usize,
        class: Class,
        b: u8,
    ) -> Result<Taken, AllocError>
        ensures { IfOk result (λ answer. Takes (Some self.old.due) (closing_step (around_of self.old) (drop matched (name_in (around_of self.old))) class b) answer (state_of self.new)) }
    {
        match self.awaited(matched) {
            Some(x) => Ok(self.matching(matched, x, class, b)),
            None => match class {
                Class::White => Ok(self.goes(Mode::Closing(matched))),
                Class::Greater => self.close(),
                _ => Ok(Taken::Leaves),
            },
        }
    }

    /// The byte of the innermost element's name behind so many.
    fn awaited(&self, matched: usize) -> Option<u8>
        ensures found { result ≡ slice_get (name_in (around_of self.now)) matched }
        ensures fits { OnSome result (matched + 1 < 2 ^ 64) }
    {
        byte_at(self.innermost_name(), matched)
    }

    /// The name of the innermost element, or nothing outside the root.
    pub(crate) fn innermost_name(&self) -> &[u8]
        ensures { result.now ≡ name_in (around_of self.now) }
    {
        match self.frames.last() {
            Some(frame) => frame.name.as_str().as_bytes(),
            None => &[],
        }
    }

    /// A byte in the name of an end tag.
    fn matching(&mut self, matched: usize, awaited: u8, class: Class, b: u8) -> Taken
        requires { matched + 1 < 2 ^ 64 }
        ensures { Takes (Some self.old.due) (match_step (around_of self.old) awaited (drop (matched + 1) (name_in (around_of self.old))) class b) result (state_of self.new) }
    {
        match class {
            Class::Letter | Class::Digit | Class::Hyphen | Class::Wide if awaited == b => {
                self.goes(Mode::Closing(matched + 1))
            }
            _ => Taken::Leaves,
        }
    }

    fn close(&mut self) -> Result<Taken, AllocError>
        ensures { IfOk result (λ answer. Takes (Some self.old.due) (leave_step (around_of self.old)) answer (state_of self.new)) }
    {
        match self.frames.pop() {
            Some(frame) => self.put(frame),
            None => Ok(Taken::Leaves),
        }
    }

    /// Puts an element that has ended into the one around it.
    #[inline(always)]
    pub(crate) fn put(&mut self, frame: Frame) -> Result<Taken, AllocError>
        ensures { IfOk result (λ answer. Takes (Some self.old.due) (goes (ended (stack_on [] self.old.frames.items) (node_of (opened_of frame))) at_between) answer (state_of self.new)) }
    {
        let element = frame.into_element();
        if self.frames.is_empty() {
            self.root = Some(element);
        } else {
            grow(&mut self.frames, element)?;
        }
        Ok(self.goes(Mode::Between))
    }
}

impl Frame {
    /// The element, which has ended.
    fn into_element(self) -> Element
        ensures { tree_of result ≡ node_of (opened_of self) }
    {
        let Frame {
            name,
            attributes,
            children,
        } = self;
        Element {
            name,
            attributes,
            children,
        }
    }
}

/// Puts an element into the innermost of those that are open.
#[inline(always)]
fn grow(frames: &mut Vec<Frame>, element: Element) -> Result<(), AllocError>
    requires { 0 < length frames.old.items }
    ensures { OnOk result ((root : Option Ended) → around_in (stack_on [] frames.new.items) root ≡ ended (stack_on [] frames.old.items) (tree_of element)) }
{
    let Some(parent) = frames.last_mut() else {
        unreachable!();
    };
    parent.children.push(element)?;
    Ok(())
}

fn byte_at(name: &[u8], place: usize) -> Option<u8>
    ensures found { result ≡ slice_get name.now place }
    ensures fits { OnSome result (place + 1 < 2 ^ 64) }
{
    name.get(place).copied()
}
