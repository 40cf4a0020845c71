//! Writing within a room that was reserved, which takes no memory and can't fail.
ghost use Rattle.std.specs.Prelude.{◌+◌, ◌/◌, ◌%◌, ◌<◌, ◌≤◌, [], ◌∷◌, length, decimal};
ghost use Rattle.shfl_sched.specs.Room.{Puts};

use itoa::Buffer;

/// Writes bytes, if there is room for them.
#[inline(always)]
pub fn put(out: &mut Vec<u8>, bytes: &[u8])
    ensures { Puts out.old out.new bytes.now (length bytes.now) }
{
    let _written = out.extend_from_slice(bytes);
}

// Writes a number below a hundred in two digits.
#[inline(always)]
fn put_pair(out: &mut Vec<u8>, n: u64)
    requires { n < 100 }
    ensures { Puts out.old out.new ((48 + n / 10) ∷ (48 + n % 10) ∷ []) 2 }
{
    put(out, &[b'0' + (n / 10) as u8, b'0' + (n % 10) as u8]);
}

// Writes a number below a hundred.
#[inline(always)]
fn put_short(out: &mut Vec<u8>, n: u64)
    requires { n < 100 }
    ensures { Puts out.old out.new (decimal n) 2 }
{
    if n < 10 {
        put(out, &[b'0' + n as u8]);
    } else {
        put_pair(out, n);
    }
}

// Writes a number of three digits.
#[inline(always)]
fn put_three(out: &mut Vec<u8>, n: u64)
    requires { (100 ≤ n) × (n < 1000) }
    ensures { Puts out.old out.new (decimal n) 3 }
{
    let two = (n % 100) as u8;
    put(
        out,
        &[b'0' + (n / 100) as u8, b'0' + two / 10, b'0' + two % 10],
    );
}

// Writes a number of three digits or more; those of at most five, which are the most, in at most two pieces.
fn put_long(out: &mut Vec<u8>, n: u64)
    requires { 100 ≤ n }
    ensures { Puts out.old out.new (decimal n) 20 }
{
    if n < 1_000 {
        put_three(out, n);
    } else if n < 10_000 {
        put_short(out, n / 100);
        put_pair(out, n % 100);
    } else if n < 100_000 {
        put_three(out, n / 100);
        put_pair(out, n % 100);
    } else {
        let mut digits = Buffer::new();
        put(out, digits.format(n).as_bytes());
    }
}

/// Writes a number in decimal, if there is room for it.
#[inline(always)]
pub fn put_number(out: &mut Vec<u8>, n: u64)
    ensures { Puts out.old out.new (decimal n) 20 }
{
    if n < 100 {
        put_short(out, n);
    } else {
        put_long(out, n);
    }
}
