//! The context of a question.
ghost use Rattle.std.specs.Prelude.{◌≡◌};
ghost use Rattle.shfl_policy.specs.Context.{field, context_of};

use shfl_line::Attr;

fn field(n: u16) -> [u8; 4]
    ensures { result ≡ field n }
{
    u32::from(n).to_le_bytes()
}

/// The bytes that a program reads: at 0 and 4 the sockets of the asking pass and of the waiter, at 8 and 12 their
/// priorities, at 16 and 20 their classes, at 24 and 28 their kinds, at 32 the batch, and zeros.
pub fn context(anchor: &Attr, waiter: &Attr, batch: u16) -> [u8; 40]
    ensures { result ≡ context_of anchor.now waiter.now batch }
{
    let sockets = [field(anchor.socket), field(waiter.socket)];
    let prios = [field(anchor.prio), field(waiter.prio)];
    let classes = [field(anchor.class), field(waiter.class)];
    let kinds = [field(anchor.kind), field(waiter.kind)];
    let [[a0, a1, a2, a3], [b0, b1, b2, b3]] = sockets;
    let [[c0, c1, c2, c3], [d0, d1, d2, d3]] = prios;
    let [[e0, e1, e2, e3], [f0, f1, f2, f3]] = classes;
    let [[g0, g1, g2, g3], [h0, h1, h2, h3]] = kinds;
    let [i0, i1, i2, i3] = field(batch);
    [
        a0, a1, a2, a3, b0, b1, b2, b3, c0, c1, c2, c3, d0, d1, d2, d3, e0, e1, e2, e3, f0, f1, f2,
        f3, g0, g1, g2, g3, h0, h1, h2, h3, i0, i1, i2, i3, 0, 0, 0, 0,
    ]
}
