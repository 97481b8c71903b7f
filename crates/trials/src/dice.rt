ghost use Rattle.std.specs.Prelude.{◌-◌, ◌≤◌};

/// Chance by seed: a xorshift generator of 64 bits (docs/LOAD.md, section Chance).
/// The same seed gives the same numbers on every machine.
#[derive(Clone, Copy)]
pub struct Dice {
    // Never 0.
    state: u64,
}

impl Dice {
    /// The first sixteen numbers of a seed are thrown away.
    pub fn new(seed: u64) -> Dice {
        let mut dice = Dice {
            state: seed.wrapping_mul(0x9E37_79B9_7F4A_7C15) | 1,
        };
        for _ in 0..16 {
            dice.next();
        }
        dice
    }

    fn next(&mut self) -> u64 {
        let mut x = self.state;
        x ^= x << 13;
        x ^= x >> 7;
        x ^= x << 17;
        self.state = x;
        x
    }

    /// A number below the bound; 0 where that is 0.
    pub fn below(&mut self, bound: u32) -> u32
        ensures { result ≤ bound - 1 }
    {
        if bound == 0 {
            return 0;
        }
        ((self.next() >> 32) % u64::from(bound)) as u32
    }

    /// A byte below the bound; 0 where that is 0.
    pub fn byte(&mut self, bound: u8) -> u8
        ensures { result ≤ bound - 1 }
    {
        self.below(u32::from(bound)) as u8
    }

    /// True with a chance of so many percent.
    pub fn chance(&mut self, percent: u32) -> bool {
        self.below(100) < percent
    }

    /// Any number of 32 bits but −1.
    pub fn any(&mut self) -> i32 {
        self.below(u32::MAX).cast_signed()
    }
}
