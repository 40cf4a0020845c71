//! Sets of cores: sixteen words, with a bit for each core.
ghost use Rattle.std.specs.Prelude.{◌≡◌, ◌<◌, ◌%◌, ◌^◌};
ghost use Rattle.sim_setup.specs.Sets as sets;

/// The words of a set.
pub const SET_WORDS: usize = 16;

/// The set without a core.
pub const NO_CORES: [u64; SET_WORDS] = [0; SET_WORDS];

// The bit of a core in its word.
fn bit_of(core: usize) -> u64
    ensures { result ≡ 2 ^ (core % 64) }
{
    1 << (core % 64)
}

/// One core more.
pub fn add_core(set: &mut [u64; SET_WORDS], core: usize)
    requires { core < 1024 }
    ensures { set.new ≡ sets.with_core set.old core }
{
    set[core / 64] |= bit_of(core);
}

/// The set of one core.
pub fn core_set(core: usize) -> [u64; SET_WORDS]
    requires { core < 1024 }
    ensures { result ≡ sets.core_set core }
{
    let mut set = NO_CORES;
    add_core(&mut set, core);
    set
}

#[inline(always)]
fn word_meets(a: u64, b: u64) -> bool
    ensures { result ≡ sets.word_meets a b }
{
    a & b != 0
}

#[inline(always)]
fn word_within(a: u64, b: u64) -> bool
    ensures { result ≡ sets.word_within a b }
{
    a & b == a
}

/// Whether two sets have a core in common.
#[tactic(auto, unfolding(crate::specs::Sets::meets))]
pub fn meets(a: &[u64; SET_WORDS], b: &[u64; SET_WORDS]) -> bool
    ensures { result ≡ sets.meets a.now b.now }
{
    let mut found = false;
    for word in 0..SET_WORDS {
        if word_meets(a[word], b[word]) {
            found = true;
        }
    }
    found
}

/// Whether each core of a set is one of the other.
#[tactic(auto, unfolding(crate::specs::Sets::is_within))]
pub fn is_within(a: &[u64; SET_WORDS], b: &[u64; SET_WORDS]) -> bool
    ensures { result ≡ sets.is_within a.now b.now }
{
    let mut all = true;
    for word in 0..SET_WORDS {
        if !word_within(a[word], b[word]) {
            all = false;
        }
    }
    all
}

/// The cores of two sets.
#[tactic(auto, unfolding(crate::specs::Sets::joined))]
pub fn joined(a: &[u64; SET_WORDS], b: &[u64; SET_WORDS]) -> [u64; SET_WORDS]
    ensures { result ≡ sets.joined a.now b.now }
{
    let mut set = *a;
    for word in 0..SET_WORDS {
        set[word] = a[word] | b[word];
    }
    set
}
