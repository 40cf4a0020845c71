//! Sums of times and of counts.
ghost use Rattle.std.specs.Prelude.{◌≡◌};
ghost use Rattle.sim_setup.specs.Clock as clock;

/// The sum, which stops at the largest number.
#[inline(always)]
#[tactic(auto, unfolding(crate::specs::Clock::plus))]
pub fn plus(a: u64, b: u64) -> u64
    ensures { result ≡ clock.plus a b }
{
    a.saturating_add(b)
}

/// The product, which stops at the largest number.
#[inline(always)]
#[tactic(auto, unfolding(crate::specs::Clock::times))]
pub fn times(a: u64, b: u64) -> u64
    ensures { result ≡ clock.times a b }
{
    a.saturating_mul(b)
}

/// The later of two times.
#[inline(always)]
#[tactic(auto, unfolding(crate::specs::Clock::later))]
pub fn later(a: u64, b: u64) -> u64
    ensures { result ≡ clock.later a b }
{
    if a < b { b } else { a }
}
