ghost use Rattle.std.specs.Prelude.{◌≡◌};
ghost use Rattle.selftimed.specs.inside.Wirings.{wiring_in};

use firing::Wiring;

/// The wiring of the net that an engine executes: one that the engine made, or one that it was lent.
#[derive(Drop)]
pub(crate) enum EngineWiring<'a> {
    Made(Wiring),
    Lent(&'a Wiring),
}

impl EngineWiring<'_> {
    pub(crate) fn get(&self) -> &Wiring
        ensures { result.now ≡ wiring_in self.now }
    {
        match self {
            EngineWiring::Made(wiring) => wiring,
            EngineWiring::Lent(wiring) => wiring,
        }
    }
}
