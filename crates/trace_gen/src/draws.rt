//! The numbers that are drawn.
ghost use Rattle.std.specs.Prelude.{◌≡◌, ◌<◌, ◌^◌};
ghost use Rattle.spec_input.specs.Made.{after, draw, state};

/// How many subnets have a rule.
pub const SUBNETS: u32 = 64;

/// How many ports have a trace.
pub const PORTS: u32 = 4;

// The multiplier and the increment of MMIX.
const MULTIPLIER: u64 = 6_364_136_223_846_793_005;

const INCREMENT: u64 = 1_442_695_040_888_963_407;

// The low bits of a state, which repeat too soon to be drawn.
const LOW_BITS: u32 = 33;

/// A linear congruential generator modulo 2^64.
#[derive(Drop)]
pub struct Draws {
    state: u64,
}

fn after(state: u64) -> u64
    ensures { result ≡ after state }
{
    state.wrapping_mul(MULTIPLIER).wrapping_add(INCREMENT)
}

impl Draws {
    /// The draws that begin at a number.
    #[tactic(auto, unfolding(spec_input::specs::Made::state))]
    pub fn of(number: u32) -> Draws
        ensures { result.state ≡ state number 0 }
    {
        Draws {
            state: u64::from(number),
        }
    }

    /// Draws a number of 31 bits.
    #[tactic(auto, unfolding(spec_input::specs::Made::state))]
    pub fn next(&mut self) -> u32
        ensures value { result ≡ draw self.old.state 1 }
        ensures state { self.new.state ≡ state self.old.state 1 }
    {
        self.state = after(self.state);
        (self.state >> LOW_BITS) as u32
    }

    /// Passes over so many draws.
    pub fn pass(&mut self, draws: u32)
        ensures { self.new.state ≡ state self.old.state draws }
    {
        'draws: for _ in 0..draws {
            self.state = after(self.state);
        }
    }
}
