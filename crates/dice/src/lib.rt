// Numbers that look random and are the same in every run, for tests and measurements. Promises: a roll is below the number of sides.
#![tactic(auto)]

ghost use Rattle.std.specs.Prelude.{◌≡◌, ◌<◌};

// Xorshift of 32 bits.
#[derive(Drop)]
pub struct Dice {
    pub state: u32,
}

impl Dice {
    // The next number below `sides`; 0 where there are none. No Option, since whoever rolls would only unwrap it.
    pub fn roll(&mut self, sides: u32) -> u32
        ensures below { 0 < sides → result < sides }
        ensures none { sides ≡ 0 → result ≡ 0 }
    {
        let mut x = self.state;
        x ^= x << 13;
        x ^= x >> 17;
        x ^= x << 5;
        self.state = x;
        x.checked_rem(sides).unwrap_or(0)
    }
}
