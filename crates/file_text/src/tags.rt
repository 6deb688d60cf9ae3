ghost use Rattle.std.specs.Prelude.{◌≡◌, ◌≢◌, [], Some, IfOk, IsTrue, IsFalse, codes};
ghost use Rattle.std.specs.Str.{bytes_eq, str_to_ascii_lowercase};
ghost use Rattle.std.specs.String.{string_bytes};
ghost use Rattle.file_text.specs.declared.class.Class.TheVariants.{Wide};
ghost use Rattle.file_text.specs.declared.due.Due.TheVariants.{Nothing};
ghost use Rattle.file_text.specs.inside.AttributeNames.{has_name};
ghost use Rattle.file_text.specs.inside.Machine.{Takes, IsDue, IsWholeHolder, name_step, gap_step, valued_step, end_step, attribute_step, named_step, equals_step, value_step, value_end, declares_other, value_reference_step, referred, slash_step, ending_step, goes, at_between, entered};
ghost use Rattle.file_text.specs.inside.Seen.{around_of, holder_of, opened_of, state_of};

use crate::attributes::Attributes;
use crate::class::Class;
use crate::mode::Mode;
use crate::reference::{Reference, Referred};
use crate::scanner::{Frame, Held, Scanner, Tag};
use crate::taken::Taken;
use sd_base::Text;
use std::alloc::{AllocError, Global};
use std::mem;

/// The text of whole characters.
pub(crate) fn text_of(bytes: &[u8]) -> &str
    requires { IsDue bytes.now Nothing }
    ensures { result.now ≡ bytes.now }
{
    // The bytes were tested as they came.
    unsafe { str::from_utf8_unchecked(bytes) }
}

/// The name of an encoding is UTF-8, in any ASCII case.
fn is_utf8_name(value: &[u8]) -> bool
    ensures { result ≡ bytes_eq (str_to_ascii_lowercase value.now) (codes "utf-8") }
{
    value.len() == 5
        && value[0].to_ascii_lowercase() == b'u'
        && value[1].to_ascii_lowercase() == b't'
        && value[2].to_ascii_lowercase() == b'f'
        && value[3].to_ascii_lowercase() == b'-'
        && value[4].to_ascii_lowercase() == b'8'
}

impl Tag {
    /// Whether the name of the attribute being read is that of one before it.
    fn has_attribute(&self) -> bool
        requires { IsDue self.now.attribute.items Nothing }
        ensures { result ≡ has_name self.now.attribute.items self.now.attributes }
    {
        !self.attributes.is_empty() && self.attributes.has(text_of(self.attribute.as_slice()))
    }

    /// Whether the attribute declares an encoding other than UTF-8.
    fn declares_other(&self) -> bool
        ensures { result ≡ declares_other self.now.attribute.items self.now.value.items }
    {
        self.attribute.as_slice() == b"encoding".as_slice() && !is_utf8_name(self.value.as_slice())
    }
}

/// Tags and the declaration.
impl Scanner {
    #[inline(always)]
    pub(crate) fn naming(&mut self, alloc: Global, class: Class, b: u8) -> Result<Taken, AllocError>
        requires { class ≢ Wide → IsDue self.old.tag.name.items Nothing }
        ensures { IfOk result (λ answer. Takes (Some self.old.due) (name_step (around_of self.old) self.old.tag.name.items class b) answer (state_of self.new)) }
    {
        match class {
            Class::Letter | Class::Digit | Class::Hyphen | Class::Wide => {
                self.tag.name.push(b)?;
                Ok(self.goes(Mode::Naming))
            }
            Class::White => {
                self.begin_attributes(alloc, Held::Tag);
                Ok(self.goes(Mode::Gap))
            }
            _ => {
                self.begin_attributes(alloc, Held::Tag);
                self.end_tag(alloc, class)
            }
        }
    }

    #[inline(always)]
    pub(crate) fn begin_attributes(&mut self, alloc: Global, held: Held)
        ensures { self.new ≡ record self.old { tag = record self.old.tag { held = held; attributes = [] } } }
    {
        self.tag.held = held;
        if !self.tag.attributes.is_empty() {
            self.tag.attributes = Attributes::new(alloc);
        }
    }

    #[inline(always)]
    pub(crate) fn gap(&mut self, alloc: Global, class: Class, b: u8) -> Result<Taken, AllocError>
        requires { IsWholeHolder (holder_of self.old.tag) }
        ensures { IfOk result (λ answer. Takes (Some self.old.due) (gap_step (around_of self.old) (holder_of self.old.tag) self.old.tag.attributes class b) answer (state_of self.new)) }
    {
        match class {
            Class::White => Ok(self.goes(Mode::Gap)),
            Class::Letter | Class::Wide => {
                self.tag.attribute.clear();
                self.tag.attribute.push(b)?;
                Ok(self.goes(Mode::Attribute))
            }
            _ => self.end_tag(alloc, class),
        }
    }

    #[inline(always)]
    pub(crate) fn valued(&mut self, alloc: Global, class: Class) -> Result<Taken, AllocError>
        requires { IsWholeHolder (holder_of self.old.tag) }
        ensures { IfOk result (λ answer. Takes (Some self.old.due) (valued_step (around_of self.old) (holder_of self.old.tag) self.old.tag.attributes class) answer (state_of self.new)) }
    {
        match class {
            Class::White => Ok(self.goes(Mode::Gap)),
            _ => self.end_tag(alloc, class),
        }
    }

    /// The end of a tag or a declaration behind its attributes.
    #[inline(always)]
    fn end_tag(&mut self, alloc: Global, class: Class) -> Result<Taken, AllocError>
        requires { IsWholeHolder (holder_of self.old.tag) }
        ensures { IfOk result (λ answer. Takes (Some self.old.due) (end_step (around_of self.old) (holder_of self.old.tag) self.old.tag.attributes class) answer (state_of self.new)) }
    {
        match (self.tag.held, class) {
            (Held::Tag, Class::Slash) => Ok(self.goes(Mode::Slash)),
            (Held::Tag, Class::Greater) => self.enter(alloc),
            (Held::Declaration, Class::Question) if !self.tag.attributes.is_empty() => {
                Ok(self.goes(Mode::Ending))
            }
            _ => Ok(Taken::Leaves),
        }
    }

    #[inline(always)]
    fn enter(&mut self, alloc: Global) -> Result<Taken, AllocError>
        requires { IsDue self.old.tag.name.items Nothing }
        ensures { IfOk result (λ answer. Takes (Some self.old.due) (goes (entered (around_of self.old) self.old.tag.name.items self.old.tag.attributes) at_between) answer (state_of self.new)) }
    {
        let frame = self.frame(alloc)?;
        self.frames.push(frame)?;
        Ok(self.goes(Mode::Between))
    }

    /// The element of the tag that ends.
    #[inline(always)]
    fn frame(&mut self, alloc: Global) -> Result<Frame, AllocError>
        requires { IsDue self.old.tag.name.items Nothing }
        ensures frame { IfOk result (λ frame. opened_of frame ≡ record { name = self.old.tag.name.items; attributes = self.old.tag.attributes; children = [] }) }
        ensures same { self.new ≡ record self.old { tag = self.new.tag } }
    {
        let attributes = mem::replace(&mut self.tag.attributes, Attributes::new(alloc));
        Ok(Frame {
            name: Text::of(alloc, text_of(self.tag.name.as_slice()))?,
            attributes: attributes.into_list(),
            children: Vec::new(alloc),
        })
    }

    #[inline(always)]
    pub(crate) fn slash(&mut self, alloc: Global, class: Class) -> Result<Taken, AllocError>
        requires { IsDue self.old.tag.name.items Nothing }
        ensures { IfOk result (λ answer. Takes (Some self.old.due) (slash_step (around_of self.old) self.old.tag.name.items self.old.tag.attributes class) answer (state_of self.new)) }
    {
        match class {
            Class::Greater => {
                let frame = self.frame(alloc)?;
                self.put(frame)
            }
            _ => Ok(Taken::Leaves),
        }
    }

    pub(crate) fn ending(&mut self, class: Class) -> Taken
        ensures { Takes (Some self.old.due) (ending_step (around_of self.old) class) result (state_of self.new) }
    {
        match class {
            Class::Greater => self.goes(Mode::Between),
            _ => Taken::Leaves,
        }
    }

    #[inline(always)]
    pub(crate) fn in_attribute(&mut self, class: Class, b: u8) -> Result<Taken, AllocError>
        requires { class ≢ Wide → IsDue self.old.tag.attribute.items Nothing }
        ensures { IfOk result (λ answer. Takes (Some self.old.due) (attribute_step (around_of self.old) (holder_of self.old.tag) self.old.tag.attributes self.old.tag.attribute.items class b) answer (state_of self.new)) }
    {
        match class {
            Class::Letter | Class::Digit | Class::Hyphen | Class::Wide => {
                self.tag.attribute.push(b)?;
                Ok(self.goes(Mode::Attribute))
            }
            Class::White => Ok(self.end_name(Mode::Named)),
            Class::Equals => Ok(self.end_name(Mode::Equals)),
            _ => Ok(Taken::Leaves),
        }
    }

    /// The name of an attribute ends.
    #[inline(always)]
    fn end_name(&mut self, mode: Mode) -> Taken
        requires { IsDue self.old.tag.attribute.items Nothing }
        ensures known { IsTrue (has_name self.old.tag.attribute.items self.old.tag.attributes) → result ≡ Taken.Leaves }
        ensures new { IsFalse (has_name self.old.tag.attribute.items self.old.tag.attributes) → (result ≡ Taken.Goes) × (self.new ≡ record self.old { mode = mode }) }
    {
        if self.tag.has_attribute() {
            Taken::Leaves
        } else {
            self.goes(mode)
        }
    }

    pub(crate) fn named(&mut self, class: Class) -> Taken
        ensures { Takes (Some self.old.due) (named_step (around_of self.old) (holder_of self.old.tag) self.old.tag.attributes self.old.tag.attribute.items class) result (state_of self.new) }
    {
        match class {
            Class::White => self.goes(Mode::Named),
            Class::Equals => self.goes(Mode::Equals),
            _ => Taken::Leaves,
        }
    }

    #[inline(always)]
    pub(crate) fn equals(&mut self, class: Class, b: u8) -> Taken
        ensures { Takes (Some self.old.due) (equals_step (around_of self.old) (holder_of self.old.tag) self.old.tag.attributes self.old.tag.attribute.items class b) result (state_of self.new) }
    {
        match class {
            Class::White => self.goes(Mode::Equals),
            Class::Quote => {
                self.tag.quote = b;
                self.tag.value.clear();
                self.goes(Mode::Value)
            }
            _ => Taken::Leaves,
        }
    }

    #[inline(always)]
    pub(crate) fn in_value(
        &mut self,
        alloc: Global,
        class: Class,
        b: u8,
    ) -> Result<Taken, AllocError>
        requires name { IsDue self.old.tag.attribute.items Nothing }
        requires value { class ≢ Wide → IsDue self.old.tag.value.items Nothing }
        ensures { IfOk result (λ answer. Takes (Some self.old.due) (value_step (around_of self.old) (holder_of self.old.tag) self.old.tag.attributes self.old.tag.attribute.items self.old.tag.quote self.old.tag.value.items class b) answer (state_of self.new)) }
    {
        match class {
            Class::Quote if b == self.tag.quote => self.end_value(alloc),
            Class::Less | Class::Control => Ok(Taken::Leaves),
            Class::Ampersand => Ok(self.goes(Mode::ValueReference(Reference::Ampersand))),
            _ => {
                self.tag.value.push(b)?;
                Ok(self.goes(Mode::Value))
            }
        }
    }

    #[inline(always)]
    fn end_value(&mut self, alloc: Global) -> Result<Taken, AllocError>
        requires name { IsDue self.old.tag.attribute.items Nothing }
        requires value { IsDue self.old.tag.value.items Nothing }
        ensures { IfOk result (λ answer. Takes (Some self.old.due) (value_end (around_of self.old) (holder_of self.old.tag) self.old.tag.attributes self.old.tag.attribute.items self.old.tag.value.items) answer (state_of self.new)) }
    {
        if matches!(self.tag.held, Held::Declaration) && self.tag.declares_other() {
            return Ok(Taken::OtherEncoding);
        }
        let name = text_of(self.tag.attribute.as_slice());
        let value = text_of(self.tag.value.as_slice());
        self.tag.attributes.add(alloc, name, value)?;
        Ok(self.goes(Mode::Valued))
    }

    pub(crate) fn in_value_reference(&mut self, read: Reference, b: u8) -> Result<Taken, AllocError>
        ensures { IfOk result (λ answer. Takes (Some self.old.due) (value_reference_step (around_of self.old) (holder_of self.old.tag) self.old.tag.attributes self.old.tag.attribute.items self.old.tag.quote self.old.tag.value.items (referred read b)) answer (state_of self.new)) }
    {
        match read.after(b) {
            Referred::More(more) => Ok(self.goes(Mode::ValueReference(more))),
            Referred::Done(c) => {
                self.tag.value.push(c)?;
                Ok(self.goes(Mode::Value))
            }
            Referred::Leaves => Ok(Taken::Leaves),
        }
    }
}
