//! Numbers that come by no order, the same in each run.

/// A generator of numbers (xorshift).
#[derive(Drop)]
pub struct Dice {
    state: u64,
}

impl Dice {
    ghost use Rattle.std.specs.Prelude.{◌<◌};

    pub fn new() -> Dice {
        Dice {
            state: 0x9E37_79B9_7F4A_7C15,
        }
    }

    /// Any number.
    pub fn roll(&mut self) -> u64 {
        let mut x = self.state;
        x ^= x >> 12;
        x ^= x << 25;
        x ^= x >> 27;
        self.state = x;
        x.wrapping_mul(0x2545_F491_4F6C_DD1D)
    }

    /// Any number of 32 bits.
    pub fn word(&mut self) -> u32 {
        let bytes = self.roll().to_le_bytes();
        u32::from_le_bytes([bytes[0], bytes[1], bytes[2], bytes[3]])
    }

    /// Any number of 16 bits.
    pub fn short(&mut self) -> u16 {
        let bytes = self.roll().to_le_bytes();
        u16::from_le_bytes([bytes[6], bytes[7]])
    }

    /// A number below `n`; 0 where `n` is 0.
    pub fn below(&mut self, n: u16) -> u16
        ensures { 0 < n → result < n }
    {
        if n == 0 {
            return 0;
        }
        self.short() % n
    }

    /// Whether one of `n` cases, which are alike, has come.
    pub fn once_in(&mut self, n: u16) -> bool {
        self.below(n) == 0
    }
}
