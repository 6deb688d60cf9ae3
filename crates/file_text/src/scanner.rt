ghost use Rattle.std.specs.Prelude.{◌≡◌, IfOk, IsTrue, IsFalse, None, Some, option_map};
ghost use Rattle.file_text.specs.Node.{tree_of};
ghost use Rattle.file_text.specs.inside.Machine.{class_of, table, Takes, IsTidy, start, tree_at};
ghost use Rattle.file_text.specs.inside.Utf8.{due_after};
ghost use Rattle.file_text.specs.inside.Seen.{around_of, shape_of, state_of};

use crate::attributes::Attributes;
use crate::class::class_at;
use crate::due::Due;
use crate::mode::Mode;
use crate::taken::Taken;
use crate::{AttributeList, Element};
use sd_base::Text;
use std::alloc::{AllocError, Global};

/// An element whose end tag is still to come.
#[derive(Drop)]
pub(crate) struct Frame {
    pub(crate) name: Text,
    pub(crate) attributes: AttributeList,
    pub(crate) children: Vec<Element>,
}

/// What holds the attributes being read.
#[derive(Clone, Copy)]
pub(crate) enum Held {
    Declaration,
    Tag,
}

impl Held {
    #[inline(always)]
    pub(crate) fn is_tag(self) -> bool
        ensures { IsTrue result → self ≡ Held.Tag }
    {
        matches!(self, Held::Tag)
    }
}

/// The tag being read, or the declaration.
pub(crate) struct Tag {
    pub(crate) held: Held,
    pub(crate) name: Vec<u8>,
    pub(crate) attributes: Attributes,
    pub(crate) attribute: Vec<u8>,
    pub(crate) quote: u8,
    pub(crate) value: Vec<u8>,
}

// By hand, so that what drops one calls this, and does not drop each of its parts.
impl Drop for Tag {
    fn drop(self) {
        let Tag {
            held: _held,
            name: _name,
            attributes: _attributes,
            attribute: _attribute,
            quote: _quote,
            value: _value,
        } = self;
    }
}

/// Reads a text byte by byte.
pub(crate) struct Scanner {
    pub(crate) due: Due,
    pub(crate) mode: Mode,
    pub(crate) frames: Vec<Frame>,
    pub(crate) root: Option<Element>,
    pub(crate) tag: Tag,
}

// By hand, so that what drops one calls this, and does not drop each of its parts.
impl Drop for Scanner {
    fn drop(self) {
        let Scanner {
            due: _due,
            mode: _mode,
            frames: _frames,
            root: _root,
            tag: _tag,
        } = self;
    }
}

impl Scanner {
    pub(crate) fn new(alloc: Global) -> Scanner
        ensures { state_of result ≡ start }
    {
        Scanner {
            due: Due::Nothing,
            mode: Mode::Start,
            frames: Vec::new(alloc),
            root: None,
            tag: Tag {
                held: Held::Declaration,
                name: Vec::new(alloc),
                attributes: Attributes::new(alloc),
                attribute: Vec::new(alloc),
                quote: b'"',
                value: Vec::new(alloc),
            },
        }
    }

    /// Takes one more byte.
    #[inline(always)]
    #[tactic(auto, unfolding(crate::specs::inside::Machine::table))]
    pub(crate) fn take(&mut self, alloc: Global, b: u8) -> Result<Taken, AllocError>
        requires { IsTidy self.old.due (around_of self.old) (shape_of self.old) }
        ensures { IfOk result (λ answer. Takes (due_after self.old.due b) (table (around_of self.old) (shape_of self.old) (class_of b) b) answer (state_of self.new)) }
    {
        if !self.note(b) {
            return Ok(Taken::Leaves);
        }
        let class = class_at(b);
        match self.mode {
            Mode::Start => Ok(self.at_start(class, b)),
            Mode::Mark(mark) => Ok(self.in_mark(mark, class, b)),
            Mode::First => self.at_first(class, b),
            Mode::Declaring(read) => Ok(self.in_declaring(alloc, read, class, b)),
            Mode::Between => Ok(self.between(class)),
            Mode::Markup => self.markup(class, b),
            Mode::Comment(comment) => Ok(self.in_comment(comment, class)),
            Mode::Naming => self.naming(alloc, class, b),
            Mode::Gap => self.gap(alloc, class, b),
            Mode::Attribute => self.in_attribute(class, b),
            Mode::Named => Ok(self.named(class)),
            Mode::Equals => Ok(self.equals(class, b)),
            Mode::Value => self.in_value(alloc, class, b),
            Mode::ValueReference(read) => self.in_value_reference(read, b),
            Mode::Valued => self.valued(alloc, class),
            Mode::Slash => self.slash(alloc, class),
            Mode::Ending => Ok(self.ending(class)),
            Mode::TextReference(read) => Ok(self.in_text_reference(read, b)),
            Mode::Closing(matched) => self.closing(matched, class, b),
        }
    }

    /// Notes what is due after one more byte, unless it breaks UTF-8.
    #[inline(always)]
    fn note(&mut self, b: u8) -> bool
        ensures broken { IsFalse result → due_after self.old.due b ≡ None }
        ensures due { IsTrue result → due_after self.old.due b ≡ Some self.new.due }
        ensures same { IsTrue result → self.new ≡ record self.old { due = self.new.due } }
    {
        if b < 128 && matches!(self.due, Due::Nothing) {
            return true;
        }
        let Some(due) = self.due.after(b) else {
            return false;
        };
        self.due = due;
        true
    }

    /// The outermost element, where the text may end here.
    pub(crate) fn finish(self) -> Option<Element>
        ensures { option_map tree_of result ≡ tree_at (state_of self) }
    {
        let may_end = self.may_end();
        let Scanner {
            due: _,
            mode: _,
            frames: _,
            root,
            tag: _,
        } = self;
        if may_end { root } else { None }
    }

    /// Whether the text may end here, if there has been a root.
    fn may_end(&self) -> bool
        ensures ended { IsTrue result → tree_at (state_of self.now) ≡ option_map tree_of self.now.root }
        ensures open { IsFalse result → tree_at (state_of self.now) ≡ None }
    {
        match (self.due, self.mode) {
            (Due::Nothing, Mode::Between) => self.frames.is_empty(),
            _ => false,
        }
    }

    /// The text goes on.
    #[inline(always)]
    pub(crate) fn goes(&mut self, mode: Mode) -> Taken
        ensures answer { result ≡ Taken.Goes }
        ensures after { self.new ≡ record self.old { mode = mode } }
    {
        self.mode = mode;
        Taken::Goes
    }
}
