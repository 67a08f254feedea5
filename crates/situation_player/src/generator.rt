//! The generator of pseudo-random numbers.

ghost use Rattle.std.specs.Prelude.{◌≡◌, ◌<◌};
ghost use Rattle.situation_player.specs.Generator.{next_state, drawn};

/// A generator of numbers, by its state: the one that the C standard prints as its example (ISO C
/// 1990, `rand`), with a state of 31 bits.
#[derive(Clone, Copy, Debug, PartialEq, Eq)]
pub struct Generator {
    state: u32,
}

impl Generator {
    /// The generator that starts from a number.
    pub fn new(start: u32) -> Generator
        ensures { result.state ≡ start }
    {
        Generator { state: start }
    }

    /// Draws a number below another, which is not 0.
    #[tactic(auto, unfolding(crate::specs::Generator::next_state))]
    pub fn draw(&mut self, below: u32) -> u32
        requires { 0 < below }
        ensures state { self.new.state ≡ next_state self.old.state }
        ensures drawn { result ≡ drawn (next_state self.old.state) below }
    {
        let next = (1_103_515_245 * u64::from(self.state) + 12_345) % 2_147_483_648;
        self.state = next as u32;
        (self.state / 65_536) % below
    }
}
