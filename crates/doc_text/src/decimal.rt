//! Numbers written in decimal.
ghost use Rattle.std.specs.Prelude.{◌≡◌, ◌++◌, ◌+◌, ◌<◌, ◌≤◌, OnOk, decimal};

use itoa::Buffer;
use std::alloc::AllocError;

fn push_any(out: &mut Vec<u8>, n: u64) -> Result<(), AllocError>
    ensures { OnOk result (out.new.items ≡ out.old.items ++ decimal n) }
{
    let mut buffer = Buffer::new();
    out.extend_from_slice(buffer.format(n).as_bytes())
}

fn digit(n: u64) -> u8
    requires { n < 10 }
    ensures { result ≡ 48 + n }
{
    b'0' + n as u8
}

#[tactic(auto, using(crate::proofs::Decimals::digit_rules))]
fn push_three(out: &mut Vec<u8>, n: u64) -> Result<(), AllocError>
    requires { (100 ≤ n) × (n < 1000) }
    ensures { OnOk result (out.new.items ≡ out.old.items ++ decimal n) }
{
    out.extend_from_slice(&[digit(n / 10 / 10), digit(n / 10 % 10), digit(n % 10)])
}

#[tactic(auto, using(crate::proofs::Decimals::digit_rules))]
fn push_four(out: &mut Vec<u8>, n: u64) -> Result<(), AllocError>
    requires { (1000 ≤ n) × (n < 10000) }
    ensures { OnOk result (out.new.items ≡ out.old.items ++ decimal n) }
{
    out.extend_from_slice(&[
        digit(n / 10 / 10 / 10),
        digit(n / 10 / 10 % 10),
        digit(n / 10 % 10),
        digit(n % 10),
    ])
}

#[tactic(auto, using(crate::proofs::Decimals::digit_rules))]
fn push_five(out: &mut Vec<u8>, n: u64) -> Result<(), AllocError>
    requires { (10000 ≤ n) × (n < 100000) }
    ensures { OnOk result (out.new.items ≡ out.old.items ++ decimal n) }
{
    out.extend_from_slice(&[
        digit(n / 10 / 10 / 10 / 10),
        digit(n / 10 / 10 / 10 % 10),
        digit(n / 10 / 10 % 10),
        digit(n / 10 % 10),
        digit(n % 10),
    ])
}

// Writes a number of two digits or more; those of at most five, which are the most, without a detour.
#[tactic(auto, using(crate::proofs::Decimals::digit_rules))]
fn push_long(out: &mut Vec<u8>, n: u64) -> Result<(), AllocError>
    requires { 10 ≤ n }
    ensures { OnOk result (out.new.items ≡ out.old.items ++ decimal n) }
{
    if n < 100 {
        return out.extend_from_slice(&[digit(n / 10), digit(n % 10)]);
    }
    if n < 1_000 {
        return push_three(out, n);
    }
    if n < 10_000 {
        return push_four(out, n);
    }
    if n < 100_000 {
        return push_five(out, n);
    }
    push_any(out, n)
}

/// Writes a number in decimal.
#[tactic(auto, using(crate::proofs::Decimals::digit_rules))]
#[inline(always)]
pub fn push_decimal(out: &mut Vec<u8>, n: u64) -> Result<(), AllocError>
    ensures { OnOk result (out.new.items ≡ out.old.items ++ decimal n) }
{
    if n < 10 {
        return out.extend_from_slice(&[digit(n)]);
    }
    push_long(out, n)
}
