ghost use Rattle.std.specs.Prelude.{◌≤◌, ◌<◌};

/// Numbers drawn from a seed by a linear congruence.
#[derive(Drop)]
pub(crate) struct Draws {
    last: u64,
    ghost small: { last < 2147483648 },
}

impl Draws {
    pub(crate) fn new(seed: u64) -> Draws {
        Draws {
            last: seed % 2_147_483_648,
        }
    }

    /// The next number below `bound`.
    pub(crate) fn draw(&mut self, bound: u64) -> u64
        requires { 0 < bound }
        ensures { result < bound }
    {
        self.last = (1_103_515_245 * self.last + 12_345) % 2_147_483_648;
        self.last / 65_536 % bound
    }

    /// The next six numbers from 1 to `most`.
    pub(crate) fn six(&mut self, most: u64) -> [u64; 6]
        requires { 0 < most }
    {
        let mut numbers = [0; 6];
        for number in &mut numbers {
            *number = 1 + self.draw(most);
        }
        numbers
    }
}
