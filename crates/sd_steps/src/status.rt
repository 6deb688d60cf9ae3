ghost use Rattle.std.specs.Prelude.{◌≡◌};
ghost use Rattle.sd_steps.specs.Statuses.{code_of};

use report::Class;

/// How a run of the program ended.
#[derive(Clone, Copy, Debug, PartialEq, Eq)]
pub enum Status {
    /// The whole text was sent.
    Done,
    /// The words aren't those of a command.
    Usage,
    /// A file isn't of its form.
    Form,
    /// A quantity passes its greatest number.
    Limit,
    /// The graph has an unbalanced walk.
    Inconsistent,
    /// The graph isn't connected.
    Connection,
    /// No round can be completed.
    Deadlock,
    /// A number of states or of distributions was spent.
    Budget,
    /// A certificate isn't valid.
    Rejected,
    /// A file couldn't be taken or put.
    ShelfFault,
    /// A text couldn't be sent whole.
    SinkFault,
    /// There was no memory.
    Memory,
}

impl Status {
    /// The exit status of the program.
    pub fn code(&self) -> u8
        ensures { result ≡ code_of self.now }
    {
        match self {
            Status::Done => 0,
            Status::Usage => 2,
            Status::Form => 3,
            Status::Limit => 4,
            Status::Inconsistent => 5,
            Status::Connection => 6,
            Status::Deadlock => 7,
            Status::Budget => 8,
            Status::Rejected => 9,
            Status::ShelfFault => 10,
            Status::SinkFault => 11,
            Status::Memory => 12,
        }
    }
}

impl From<Class> for Status {
    ghost use Rattle.std.specs.Prelude.{◌≡◌};
    ghost use Rattle.sd_steps.specs.Statuses.{class_status};

    ghost from_gives = { λ class status. status ≡ class_status class };

    fn from(class: Class) -> Status {
        match class {
            Class::Usage => Status::Usage,
            Class::Form => Status::Form,
            Class::Limit => Status::Limit,
            Class::Inconsistent => Status::Inconsistent,
            Class::Connection => Status::Connection,
            Class::Deadlock => Status::Deadlock,
            Class::Budget => Status::Budget,
            Class::Rejected => Status::Rejected,
            Class::Shelf => Status::ShelfFault,
        }
    }
}
