//! The choices of a random script.

ghost use Rattle.std.specs.Prelude.{◌<◌};

use rand_core::Rng;
use rand_pcg::Pcg32;

/// The stream of the generator. This project's choice.
const STREAM: u64 = 0x6D76_736A_6F62;

/// A sequence of choices.
#[derive(Drop)]
pub struct Dice {
    generator: Pcg32,
}

impl Dice {
    /// Returns the choices of a seed.
    pub fn new(seed: u64) -> Dice {
        Dice {
            generator: Pcg32::new(seed, STREAM),
        }
    }

    /// Returns a number below a bound. The bound is small, so that no number is much rarer than others.
    pub fn below(&mut self, bound: u32) -> u32
        requires { 0 < bound }
        ensures { result < bound }
    {
        self.generator.next_u32() % bound
    }

    /// Returns true in one of a number of cases.
    pub fn is_one_of(&mut self, chances: u32) -> bool
        requires { 0 < chances }
    {
        self.below(chances) == 0
    }
}
