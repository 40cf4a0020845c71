//! Policies of a setup by their names.
ghost use Rattle.std.specs.Prelude.{◌≡◌, option_map};
ghost use Rattle.sim_line.specs.Named.{named};

use doc_text::is_same;
use sim_text::{Candidate, SimSetup};

/// The first policy of this name.
pub fn candidate_named<'a>(setup: &'a SimSetup, name: &[u8]) -> Option<&'a Candidate>
    ensures { option_map (λ c. c.now) result ≡ named name.now setup.now.policies }
{
    for candidate in &setup.policies {
        if is_same(candidate.name.as_slice(), name) {
            return Some(candidate);
        }
    }
    None
}
