ghost use Rattle.std.specs.Prelude.{◌≡◌, ◌∷◌, [], Some, IfOk};
ghost use Rattle.file_text.specs.inside.Machine.{Takes, goes, in_name, character_step, between_step, markup_step, open_step, comment_step, text_reference_step, referred};
ghost use Rattle.file_text.specs.inside.Seen.{around_of, is_closed, state_of};

use crate::class::Class;
use crate::mode::{Comment, Mode};
use crate::reference::{Reference, Referred};
use crate::scanner::Scanner;
use crate::taken::Taken;
use sd_base::limits::DEPTH;
use std::alloc::AllocError;

/// The greatest count of elements that are open at one place.
pub(crate) const MOST_OPEN: usize = DEPTH as usize;

/// What stands between tags.
impl Scanner {
    #[inline(always)]
    pub(crate) fn between(&mut self, class: Class) -> Taken
        ensures { Takes (Some self.old.due) (between_step (around_of self.old) class) result (state_of self.new) }
    {
        match class {
            Class::White => self.goes(Mode::Between),
            Class::Less => self.goes(Mode::Markup),
            _ => {
                if self.frames.is_empty() {
                    Taken::Leaves
                } else {
                    self.character(class)
                }
            }
        }
    }

    fn character(&mut self, class: Class) -> Taken
        ensures { Takes (Some self.old.due) (character_step (around_of self.old) class) result (state_of self.new) }
    {
        match class {
            Class::Control => Taken::Leaves,
            Class::Ampersand => self.goes(Mode::TextReference(Reference::Ampersand)),
            _ => self.goes(Mode::Between),
        }
    }

    #[inline(always)]
    pub(crate) fn markup(&mut self, class: Class, b: u8) -> Result<Taken, AllocError>
        ensures { IfOk result (λ answer. Takes (Some self.old.due) (markup_step (around_of self.old) class b) answer (state_of self.new)) }
    {
        match class {
            Class::Bang => Ok(self.goes(Mode::Comment(Comment::Bang))),
            Class::Slash if !self.frames.is_empty() => Ok(self.goes(Mode::Closing(0))),
            Class::Letter | Class::Wide => self.open(b),
            _ => Ok(Taken::Leaves),
        }
    }

    #[inline(always)]
    fn open(&mut self, b: u8) -> Result<Taken, AllocError>
        ensures { IfOk result (λ answer. Takes (Some self.old.due) (open_step (around_of self.old) b) answer (state_of self.new)) }
    {
        if self.is_closed() {
            Ok(Taken::Leaves)
        } else if self.frames.len() >= MOST_OPEN {
            Ok(Taken::TooDeep)
        } else {
            self.begin_tag(b)
        }
    }

    /// Whether the root has ended.
    fn is_closed(&self) -> bool
        ensures { result ≡ is_closed (around_of self.now) }
    {
        self.frames.is_empty() && self.root.is_some()
    }

    #[inline(always)]
    pub(crate) fn begin_tag(&mut self, b: u8) -> Result<Taken, AllocError>
        ensures { IfOk result (λ answer. Takes (Some self.old.due) (goes (around_of self.old) (in_name (b ∷ []))) answer (state_of self.new)) }
    {
        self.tag.name.clear();
        self.tag.name.push(b)?;
        Ok(self.goes(Mode::Naming))
    }

    pub(crate) fn in_comment(&mut self, comment: Comment, class: Class) -> Taken
        ensures { Takes (Some self.old.due) (comment_step (around_of self.old) comment class) result (state_of self.new) }
    {
        match (comment, class) {
            (Comment::Bang, Class::Hyphen) => self.goes(Mode::Comment(Comment::Dash)),
            (Comment::Dash, Class::Hyphen) => self.goes(Mode::Comment(Comment::Body)),
            (Comment::Bang | Comment::Dash, _) => Taken::Leaves,
            (Comment::Body, Class::Hyphen) => self.goes(Mode::Comment(Comment::Hyphen)),
            (Comment::Hyphen | Comment::Hyphens, Class::Hyphen) => {
                self.goes(Mode::Comment(Comment::Hyphens))
            }
            (Comment::Hyphens, Class::Greater) => self.goes(Mode::Between),
            (_, Class::Control) => Taken::Leaves,
            _ => self.goes(Mode::Comment(Comment::Body)),
        }
    }

    pub(crate) fn in_text_reference(&mut self, read: Reference, b: u8) -> Taken
        ensures { Takes (Some self.old.due) (text_reference_step (around_of self.old) (referred read b)) result (state_of self.new) }
    {
        match read.after(b) {
            Referred::More(more) => self.goes(Mode::TextReference(more)),
            Referred::Done(_) => self.goes(Mode::Between),
            Referred::Leaves => Taken::Leaves,
        }
    }
}
