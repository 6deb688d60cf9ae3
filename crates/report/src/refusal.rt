ghost use Rattle.std.specs.Prelude.{◌≡◌};
ghost use Rattle.report.specs.RefusalLines.{cause_of, class_word};

use sd_base::Text;

/// What kind of cause refuses a command; the line of a refusal begins with its word.
#[derive(Clone, Copy, Debug, PartialEq, Eq)]
pub enum Class {
    /// The words aren't those of a command.
    Usage,
    /// A file isn't of its form.
    Form,
    /// A quantity passes its greatest number.
    Limit,
    /// A walk of the graph is unbalanced.
    Inconsistent,
    /// The graph isn't connected.
    Connection,
    /// No round can be completed.
    Deadlock,
    /// A number of states or of distributions was spent.
    Budget,
    /// A certificate isn't valid.
    Rejected,
    /// A file can't be taken or put.
    Shelf,
}

impl Class {
    /// The word by which the line of a refusal begins.
    #[tactic(auto, unfolding(crate::specs::RefusalLines::class_word))]
    pub(crate) fn word(&self) -> &'static str
        ensures { result.now ≡ class_word self.now }
    {
        match self {
            Class::Usage => "usage",
            Class::Form => "form",
            Class::Limit => "limit",
            Class::Inconsistent => "inconsistent",
            Class::Connection => "connection",
            Class::Deadlock => "deadlock",
            Class::Budget => "budget",
            Class::Rejected => "rejected",
            Class::Shelf => "shelf",
        }
    }
}

/// Why a command was refused, with the values that its line shows. Names are escaped already; `scenario`
/// is the name of the scenario that is spoken of, where there is one.
pub enum Refusal {
    /// The words aren't those of a command.
    UsageWords,
    /// An option that the algorithm needs isn't there. Options are named without their hyphens.
    UsageMissing {
        option: Text,
    },
    /// An option is there that the algorithm doesn't take.
    UsageNotFor {
        option: Text,
        algo: Text,
    },
    /// The value of an option isn't of its form or range.
    UsageBadValue {
        option: Text,
    },
    /// The text leaves the grammar, or ends too early, at this byte.
    Text {
        place: u64,
    },
    /// A document type declaration begins at this byte.
    DocumentType {
        place: u64,
    },
    /// A CDATA section begins at this byte.
    CdataSection {
        place: u64,
    },
    /// A processing instruction begins at this byte.
    Instruction {
        place: u64,
    },
    /// A numeric character reference begins at this byte.
    CharReference {
        place: u64,
    },
    /// An encoding other than UTF-8 is declared at this byte.
    Encoding {
        place: u64,
    },
    /// The graph isn't of a kind that the command reads.
    WrongKind,
    /// An element or attribute isn't there, in what is being read.
    Missing {
        what: Text,
        of: Text,
    },
    /// A word names nothing.
    Unknown {
        what: Text,
        name: Text,
    },
    /// What may stand once stands twice.
    Twice {
        what: Text,
        name: Text,
    },
    /// A word isn't one of those allowed.
    BadWord {
        what: Text,
        of: Text,
    },
    /// A number isn't of its form, or isn't allowed.
    BadNumber {
        what: Text,
        of: Text,
    },
    /// A list of the actor, of rates or of times, has neither a number for each phase nor one for all.
    PhasesDiffer {
        actor: Text,
    },
    /// A scenario has other tokens between rounds than the first one, on the channel of this name.
    SharedDiffers {
        name: Text,
    },
    /// No state may come after the one of this name.
    NoSuccessor {
        name: Text,
    },
    /// Words give a capacity to a name that no channel has.
    UnknownChannel {
        name: Text,
    },
    /// Words give a capacity to a channel from an actor to itself.
    SelfLoopBuffer {
        name: Text,
    },
    /// Words give a channel a capacity below its tokens.
    BelowTokens {
        name: Text,
    },
    /// Words put a name into an order that no actor has.
    UnknownActor {
        name: Text,
    },
    /// Words put an actor into the orders of two processors.
    TwoProcessors {
        name: Text,
    },
    /// An actor stands `found` times in its order, and fires `gamma` times in a round.
    OrderCount {
        name: Text,
        found: u64,
        gamma: u64,
    },
    /// The text of a certificate isn't of its form, first at this line, from 1.
    CertificateLine {
        line: u64,
    },
    /// A number of a certificate passes its limit.
    CertificateNumber,
    /// A quantity passes its greatest number.
    Above {
        scenario: Option<Text>,
        quantity: Text,
        number: u64,
    },
    /// The timed graph of scenarios has more edges than so many, under the distribution of storage in the list `at`.
    EdgesAt {
        number: u64,
        at: Text,
    },
    /// A part of the ratio along a path passes its greatest number.
    Ratio {
        scenario: Option<Text>,
        number: u64,
        path: Text,
    },
    /// A closed walk whose ratio `num/den`, in lowest terms, isn't 1.
    Inconsistent {
        scenario: Option<Text>,
        walk: Text,
        num: u128,
        den: u128,
    },
    /// No walk joins two actors.
    Apart {
        scenario: Option<Text>,
        a: Text,
        b: Text,
    },
    /// No way leads from an actor to another one along the channels.
    OneWay {
        from: Text,
        to: Text,
    },
    /// No channel leads into an actor.
    NoInput {
        scenario: Option<Text>,
        actor: Text,
    },
    /// No round can be completed; the list says what each actor below its round lacks.
    Deadlock {
        scenario: Option<Text>,
        list: Text,
    },
    /// So many states of execution were all different, under the distribution of storage in the list `at`,
    /// where there is one.
    StatesSpent {
        states: u64,
        at: Option<Text>,
    },
    /// More distributions of storage than so many are found.
    DistributionsSpent {
        number: u64,
    },
    /// A certificate isn't valid: its first faulty line, from 1, and what is wrong there.
    Rejected {
        line: u64,
        reason: Text,
    },
    /// The graph file can't be taken.
    ShelfGraph,
    /// The certificate can't be taken or put.
    ShelfCertificate,
    /// The output can't be put.
    ShelfOutput,
}

// By hand, so that what drops one calls this, and does not drop the texts of each cause.
impl Drop for Refusal {
    fn drop(self) {
        match self {
            Refusal::UsageWords
            | Refusal::WrongKind
            | Refusal::CertificateNumber
            | Refusal::ShelfGraph
            | Refusal::ShelfCertificate
            | Refusal::ShelfOutput => {}
            Refusal::Text { place: _number }
            | Refusal::DocumentType { place: _number }
            | Refusal::CdataSection { place: _number }
            | Refusal::Instruction { place: _number }
            | Refusal::CharReference { place: _number }
            | Refusal::Encoding { place: _number }
            | Refusal::CertificateLine { line: _number }
            | Refusal::DistributionsSpent { number: _number } => {}
            Refusal::UsageMissing { option: _name }
            | Refusal::UsageBadValue { option: _name }
            | Refusal::PhasesDiffer { actor: _name }
            | Refusal::SharedDiffers { name: _name }
            | Refusal::NoSuccessor { name: _name }
            | Refusal::UnknownChannel { name: _name }
            | Refusal::SelfLoopBuffer { name: _name }
            | Refusal::BelowTokens { name: _name }
            | Refusal::UnknownActor { name: _name }
            | Refusal::TwoProcessors { name: _name } => {}
            Refusal::OrderCount { name, found, gamma } => {}
            Refusal::Rejected { line, reason } => {}
            Refusal::EdgesAt { number, at } => {}
            Refusal::StatesSpent { states, at } => {}
            Refusal::UsageNotFor { option, algo } => {}
            Refusal::Missing { what, of } => {}
            Refusal::Unknown { what, name } => {}
            Refusal::Twice { what, name } => {}
            Refusal::BadWord { what, of } => {}
            Refusal::BadNumber { what, of } => {}
            Refusal::Above {
                scenario,
                quantity,
                number,
            } => {}
            Refusal::Ratio {
                scenario,
                number,
                path,
            } => {}
            Refusal::Inconsistent {
                scenario,
                walk,
                num,
                den,
            } => {}
            Refusal::Apart { scenario, a, b } => {}
            Refusal::OneWay { from, to } => {}
            Refusal::NoInput { scenario, actor } => {}
            Refusal::Deadlock { scenario, list } => {}
        }
    }
}

impl Refusal {
    /// What kind of cause it has. All that isn't listed is of a file or a name that isn't of its form.
    #[tactic(auto, unfolding(crate::specs::RefusalLines::cause_of))]
    pub(crate) fn class(&self) -> Class
        ensures { result ≡ (cause_of self.now).class }
    {
        match self {
            Refusal::UsageWords => Class::Usage,
            Refusal::UsageMissing { .. } => Class::Usage,
            Refusal::UsageNotFor { .. } => Class::Usage,
            Refusal::UsageBadValue { .. } => Class::Usage,
            Refusal::CertificateNumber => Class::Limit,
            Refusal::Above { .. } => Class::Limit,
            Refusal::EdgesAt { .. } => Class::Limit,
            Refusal::Ratio { .. } => Class::Limit,
            Refusal::Inconsistent { .. } => Class::Inconsistent,
            Refusal::Apart { .. } => Class::Connection,
            Refusal::OneWay { .. } => Class::Connection,
            Refusal::NoInput { .. } => Class::Connection,
            Refusal::Deadlock { .. } => Class::Deadlock,
            Refusal::StatesSpent { .. } => Class::Budget,
            Refusal::DistributionsSpent { .. } => Class::Budget,
            Refusal::Rejected { .. } => Class::Rejected,
            Refusal::ShelfGraph => Class::Shelf,
            Refusal::ShelfCertificate => Class::Shelf,
            Refusal::ShelfOutput => Class::Shelf,
            _ => Class::Form,
        }
    }
}
