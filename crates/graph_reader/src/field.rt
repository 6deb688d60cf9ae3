ghost use Rattle.std.specs.Prelude.{◌≡◌};

/// An element or attribute that a refusal can name; the word `type` is [`Field::TypeWord`].
#[derive(Clone, Copy, Debug, PartialEq, Eq)]
pub enum Field {
    Sdf3,
    TypeWord,
    ApplicationGraph,
    Sdf,
    Csdf,
    Fsmsadf,
    Scenario,
    Fsm,
    State,
    InitialState,
    Actor,
    Name,
    Rate,
    Channel,
    SrcActor,
    SrcPort,
    DstActor,
    DstPort,
    InitialTokens,
    SdfProperties,
    CsdfProperties,
    ExecutionTime,
    Time,
    Sz,
}

impl Field {
    ghost use Rattle.graph_reader.specs.Field.{word_of};

    /// The word as it stands in a file, and as it is printed.
    #[tactic(auto, unfolding(crate::specs::Field::word_of))]
    pub fn word(self) -> &'static str
        ensures { result.now ≡ word_of self }
    {
        match self {
            Field::Sdf3 => "sdf3",
            Field::TypeWord => "type",
            Field::ApplicationGraph => "applicationGraph",
            Field::Sdf => "sdf",
            Field::Csdf => "csdf",
            Field::Fsmsadf => "fsmsadf",
            Field::Scenario => "scenario",
            Field::Fsm => "fsm",
            Field::State => "state",
            Field::InitialState => "initialState",
            Field::Actor => "actor",
            Field::Name => "name",
            Field::Rate => "rate",
            Field::Channel => "channel",
            Field::SrcActor => "srcActor",
            Field::SrcPort => "srcPort",
            Field::DstActor => "dstActor",
            Field::DstPort => "dstPort",
            Field::InitialTokens => "initialTokens",
            Field::SdfProperties => "sdfProperties",
            Field::CsdfProperties => "csdfProperties",
            Field::ExecutionTime => "executionTime",
            Field::Time => "time",
            Field::Sz => "sz",
        }
    }
}
