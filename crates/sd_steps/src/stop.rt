use report::Refusal;
use sd_base::NoMemory;

/// Why a command ended without an answer.
#[derive(Drop)]
pub enum Stop {
    Refused(Refusal),
    OutOfMemory,
}

impl From<NoMemory> for Stop {
    ghost use Rattle.std.specs.Prelude.{◌≡◌};
    ghost use Rattle.sd_steps.specs.declared.stop.Stop.TheVariants.{OutOfMemory};

    ghost from_gives = { λ _ stop. stop ≡ OutOfMemory };

    fn from(_error: NoMemory) -> Stop {
        Stop::OutOfMemory
    }
}
