//! Numbers that look random, the same at each run.
/// Numbers that look random, always the same from one seed (splitmix64, of Steele, Lea and Flood).
#[derive(Clone, Copy)]
pub struct Dice {
    state: u64,
}

impl Dice {
    pub fn new(seed: u32) -> Dice {
        Dice {
            state: u64::from(seed).wrapping_mul(0xd1342543de82ef95),
        }
    }

    /// The next number.
    pub fn roll(&mut self) -> u64 {
        self.state = self.state.wrapping_add(0x9e3779b97f4a7c15);
        let mixed = (self.state ^ (self.state >> 30)).wrapping_mul(0xbf58476d1ce4e5b9);
        let mixed = (mixed ^ (mixed >> 27)).wrapping_mul(0x94d049bb133111eb);
        mixed ^ (mixed >> 31)
    }

    /// A number below `end`, 0 where that is 0.
    pub fn below(&mut self, end: u32) -> u32 {
        ((self.roll() >> 32).wrapping_mul(u64::from(end)) >> 32) as u32
    }

    /// Whether what comes so many times of a hundred comes now.
    pub fn comes(&mut self, percent: u32) -> bool {
        self.below(100) < percent
    }
}
