//! Numbers and events that are drawn at random.
ghost use Rattle.std.specs.Prelude.{◌<◌};

/// What a pass does.
#[derive(Clone, Copy, Drop)]
pub enum Act {
    Write,
    Read,
    Free,
    Step { choice: bool },
}

/// What one of the passes does.
#[derive(Clone, Copy, Drop)]
pub struct Event {
    pub act: Act,
    pub pass: u32,
}

/// Numbers by a linear congruence.
#[derive(Drop)]
pub struct Draws {
    last: u64,
}

impl Draws {
    pub fn new(seed: u64) -> Draws {
        Draws { last: seed }
    }

    /// A number below the bound.
    pub fn below(&mut self, bound: u32) -> u32
        requires { 0 < bound }
        ensures { result < bound }
    {
        self.last = self
            .last
            .wrapping_mul(6_364_136_223_846_793_005)
            .wrapping_add(1_442_695_040_888_963_407);
        ((self.last >> 33) % u64::from(bound)) as u32
    }

    /// An event of one of the passes, most often a step.
    pub fn event(&mut self, passes: u32) -> Event
        requires { 0 < passes }
        ensures { result.pass < passes }
    {
        let act = match self.below(16) {
            0 => Act::Write,
            1 => Act::Read,
            2 => Act::Free,
            _ => {
                let choice = self.below(2) == 1;
                Act::Step { choice }
            }
        };
        let pass = self.below(passes);
        Event { act, pass }
    }
}
