//! The numbers of a sample.

ghost use Rattle.std.specs.Prelude.{◌≡◌, ◌<◌, ◌^◌};
ghost use Rattle.sample_lines.specs.Draws.{drawn, next_state, state};

/// States are below this number.
const MODULUS: u64 = 0x8000_0000;

/// A linear congruential generator.
#[derive(Clone, Copy)]
pub(crate) struct Generator {
    state: u32,
}

/// The two draws of a section.
#[derive(Clone, Copy)]
pub(crate) struct SectionDraws {
    /// The first draw.
    pub(crate) gradient: u32,
    /// The second draw.
    pub(crate) limit: u32,
}

impl Generator {
    /// The generator that begins with a number.
    #[tactic(auto, unfolding(crate::specs::Draws::state))]
    pub(crate) fn new(n: u32) -> Generator
        ensures { result.state ≡ state n 0 }
    {
        Generator {
            state: (n as u64 % MODULUS) as u32,
        }
    }

    /// Goes on to the next state, and draws the number there.
    fn draw(&mut self) -> u32
        ensures state { self.new.state ≡ next_state self.old.state }
        ensures value { result ≡ drawn self.new.state }
    {
        self.state = ((1_103_515_245 * self.state as u64 + 12_345) % MODULUS) as u32;
        self.state / 65_536
    }

    /// The draws of the next section.
    pub(crate) fn section(&mut self) -> SectionDraws
        ensures state { self.new.state ≡ next_state (next_state self.old.state) }
        ensures gradient { result.gradient ≡ drawn (next_state self.old.state) }
        ensures limit { result.limit ≡ drawn (next_state (next_state self.old.state)) }
    {
        let gradient = self.draw();
        let limit = self.draw();
        SectionDraws { gradient, limit }
    }
}
