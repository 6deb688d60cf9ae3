use fanout::Gate;
use std::sync::atomic::AtomicU64;
use std::sync::atomic::Ordering::SeqCst;

/// Ten to each level.
const PLACES: [u64; 11] = [
    1,
    10,
    100,
    1_000,
    10_000,
    100_000,
    1_000_000,
    10_000_000,
    100_000_000,
    1_000_000_000,
    10_000_000_000,
];

/// Notes how often it is entered with each level up to 10: the decimal digit at the place of the level, if there are fewer than ten.
#[derive(Drop)]
pub(crate) struct Noting {
    entered: AtomicU64,
}

impl Noting {
    /// A gate that nothing has entered.
    pub(crate) fn new() -> Noting {
        Noting {
            entered: AtomicU64::new(0),
        }
    }

    pub(crate) fn entered(&self) -> u64 {
        self.entered.load(SeqCst)
    }
}

impl Gate for Noting {
    fn enter(&self, level: u64, _item: usize) {
        if level < 11 {
            self.entered.fetch_add(PLACES[level as usize], SeqCst);
        }
    }
}
