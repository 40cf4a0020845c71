//! What C asks for, as numbers.
ghost use Rattle.std.specs.Prelude.{◌≡◌, ◌<◌, ◌≤◌};
ghost use Rattle.shfl_ticket.specs.Told.{form_numbered, profile_numbered};

use bpf_isa::Profile;
use shfl_line::Form;

/// The form of a number below 4.
pub fn form_numbered(number: u8) -> Form
    requires { number < 4 }
    ensures { result ≡ form_numbered number }
{
    match number {
        0 => Form::Spin,
        1 => Form::Rw,
        2 => Form::Park,
        _ => Form::RwPark,
    }
}

/// The profile 1 or 2.
pub fn profile_numbered(number: u8) -> Profile
    requires { (0 < number) × (number ≤ 2) }
    ensures { result ≡ profile_numbered number }
{
    match number {
        1 => Profile::One,
        _ => Profile::Two,
    }
}
