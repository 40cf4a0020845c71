//! Numbers drawn for each pass: splitmix64 (Steele, Lea and Flood, 2014).
ghost use Rattle.std.specs.Prelude.{◌≡◌};
ghost use Rattle.sim_setup.specs.Draws as draws;

use crate::clock::plus;

/// The first state of a pass's draws.
pub fn seeded(seed: u64, pass: u32) -> u64
    ensures { result ≡ draws.seeded seed pass }
{
    let mut state = seed.wrapping_mul(64).wrapping_add(u64::from(pass));
    // The first number is dropped.
    draw(&mut state);
    state
}

/// The next number.
#[tactic(auto, unfolding(crate::specs::Draws::drawn))]
pub fn draw(state: &mut u64) -> u64
    ensures number { result ≡ draws.drawn state.old }
    ensures state { state.new ≡ draws.after_draw state.old }
{
    *state = state.wrapping_add(0x9e37_79b9_7f4a_7c15);
    let one = *state;
    let two = (one ^ (one >> 30)).wrapping_mul(0xbf58_476d_1ce4_e5b9);
    let three = (two ^ (two >> 27)).wrapping_mul(0x94d0_49bb_1331_11eb);
    three ^ (three >> 31)
}

/// For how long a pass thinks, of a middle length: from the half of it to three halves. Nothing is drawn for none.
pub fn think(middle: u32, state: &mut u64) -> u64
    ensures ticks { result ≡ draws.thought middle state.old }
    ensures state { state.new ≡ draws.after_thought middle state.old }
{
    if middle == 0 {
        return 0;
    }
    let middle = u64::from(middle);
    let drawn = draw(state);
    plus(middle / 2, drawn % (middle + 1))
}

/// Whether a call reads, where so many of a thousand do.
pub fn reads(of_thousand: u32, state: &mut u64) -> bool
    ensures answer { result ≡ draws.reads of_thousand state.old }
    ensures state { state.new ≡ draws.after_draw state.old }
{
    draw(state) % 1000 < u64::from(of_thousand)
}
