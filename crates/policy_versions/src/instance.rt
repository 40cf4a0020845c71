//! A copy of a declared policy, ready to be published.
ghost use Rattle.std.specs.Prelude.{◌≡◌};

use shfl_policy::Policy;

/// A copy of a declared policy. It is plain data: a registry takes only one that equals the policy that it names.
#[derive(Drop)]
pub struct Instance {
    /// Its place among the declared policies.
    pub which: u32,
    pub policy: Policy,
}

impl Instance {
    /// Its place among the declared policies.
    pub fn which(&self) -> u32
        ensures { result ≡ self.now.which }
    {
        self.which
    }
}
