ghost use Rattle.std.specs.Prelude.{Some, IfOk};
ghost use Rattle.file_text.specs.inside.Machine.{Takes, start_step, mark_step, first_step, declaring_step};
ghost use Rattle.file_text.specs.inside.Seen.{around_of, state_of};

use crate::class::Class;
use crate::mode::{Comment, Declaring, Mark, Mode};
use crate::scanner::{Held, Scanner};
use crate::taken::Taken;
use std::alloc::{AllocError, Global};

/// The start of a text.
impl Scanner {
    pub(crate) fn at_start(&mut self, class: Class, b: u8) -> Taken
        ensures { Takes (Some self.old.due) (start_step (around_of self.old) class b) result (state_of self.new) }
    {
        match class {
            Class::White => self.goes(Mode::Between),
            Class::Less => self.goes(Mode::First),
            Class::Wide if b == 0xEF => self.goes(Mode::Mark(Mark::First)),
            _ => Taken::Leaves,
        }
    }

    pub(crate) fn in_mark(&mut self, mark: Mark, class: Class, b: u8) -> Taken
        ensures { Takes (Some self.old.due) (mark_step (around_of self.old) mark class b) result (state_of self.new) }
    {
        match (mark, class) {
            (Mark::First, Class::Wide) if b == 0xBB => self.goes(Mode::Mark(Mark::Second)),
            (Mark::Second, Class::Wide) if b == 0xBF => self.goes(Mode::Mark(Mark::Whole)),
            (Mark::Whole, Class::White) => self.goes(Mode::Between),
            (Mark::Whole, Class::Less) => self.goes(Mode::First),
            _ => Taken::Leaves,
        }
    }

    pub(crate) fn at_first(&mut self, class: Class, b: u8) -> Result<Taken, AllocError>
        ensures { IfOk result (λ answer. Takes (Some self.old.due) (first_step (around_of self.old) class b) answer (state_of self.new)) }
    {
        match class {
            Class::Question => Ok(self.goes(Mode::Declaring(Declaring::Question))),
            Class::Bang => Ok(self.goes(Mode::Comment(Comment::Bang))),
            Class::Letter | Class::Wide => self.begin_tag(b),
            _ => Ok(Taken::Leaves),
        }
    }

    pub(crate) fn in_declaring(
        &mut self,
        alloc: Global,
        read: Declaring,
        class: Class,
        b: u8,
    ) -> Taken
        ensures { Takes (Some self.old.due) (declaring_step (around_of self.old) read class b) result (state_of self.new) }
    {
        match (read, class) {
            (Declaring::Question, Class::Letter) if b == b'x' => {
                self.goes(Mode::Declaring(Declaring::X))
            }
            (Declaring::X, Class::Letter) if b == b'm' => self.goes(Mode::Declaring(Declaring::Xm)),
            (Declaring::Xm, Class::Letter) if b == b'l' => {
                self.goes(Mode::Declaring(Declaring::Xml))
            }
            (Declaring::Xml, Class::White) => {
                self.begin_attributes(alloc, Held::Declaration);
                self.goes(Mode::Gap)
            }
            _ => Taken::Leaves,
        }
    }
}
