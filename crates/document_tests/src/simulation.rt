//! Runs whose figures another program gave, written from the same model in another language.
use shfl_core::Rules;
use shfl_line::{Attr, Form};
use sim_model::{Run, simulate};
use sim_setup::{BuiltIn, Costs, Layout, Setup, Tries, Work, cores_of};
use std::alloc::Global;
use std::process::Abort;

const USUAL: Costs = Costs {
    hit: 1,
    near: 45,
    far: 130,
    port: 10,
    atomic: 6,
    local: 2,
    ask: 5,
    insn: 3,
    park: 1500,
    wake: 1000,
    rise: 4000,
};

// The sockets of a setup's passes; priorities and classes change nothing here.
type Sockets = &'static [u16];

const ONE: Sockets = &[0];

const TWO: Sockets = &[0, 0];

const FOUR: Sockets = &[0, 0, 1, 1];

const SIX: Sockets = &[0, 0, 0, 1, 1, 1];

const EIGHT: Sockets = &[0, 0, 0, 0, 1, 1, 1, 1];

const SHORT: Work = Work {
    hold: 200,
    lines: 2,
    think: 500,
    reads: 0,
};

const BUSY: Work = Work {
    hold: 100,
    lines: 1,
    think: 0,
    reads: 0,
};

const WIDE: Work = Work {
    hold: 400,
    lines: 4,
    think: 300,
    reads: 0,
};

const MIXED: Work = Work {
    hold: 500,
    lines: 2,
    think: 300,
    reads: 700,
};

const LONG: Work = Work {
    hold: 5000,
    lines: 2,
    think: 500,
    reads: 0,
};

const AT_ONCE: Tries = Tries { most: 0, pause: 0 };

// The form, the sockets, the work, the end, the seed and the policy of a run, and then its gains, steps, questions, yes,
// far accesses to the words of passes, wakeups, and the hash of its order.
type Row = (Form, Sockets, Work, u64, u64, BuiltIn, [u64; 6], u64);

const RUNS: [Row; 9] = [
    (
        Form::Spin,
        ONE,
        SHORT,
        10_000,
        1,
        BuiltIn::Never,
        [14, 27, 0, 0, 0, 0],
        0x8df3_52d4_f9fa_3add,
    ),
    (
        Form::Spin,
        TWO,
        BUSY,
        10_000,
        1,
        BuiltIn::Never,
        [22, 352, 22, 0, 0, 0],
        0xe33f_c0cd_3e94_8132,
    ),
    (
        Form::Spin,
        FOUR,
        WIDE,
        100_000,
        1,
        BuiltIn::Never,
        [67, 1410, 134, 0, 334, 0],
        0x40f0_a33a_aeeb_38d1,
    ),
    (
        Form::Spin,
        FOUR,
        WIDE,
        100_000,
        1,
        BuiltIn::Always,
        [67, 3759, 594, 95, 646, 0],
        0x40f0_a33a_aeeb_38d1,
    ),
    (
        Form::Spin,
        FOUR,
        WIDE,
        100_000,
        1,
        BuiltIn::Socket,
        [67, 1410, 134, 0, 334, 0],
        0x40f0_a33a_aeeb_38d1,
    ),
    (
        Form::Rw,
        EIGHT,
        MIXED,
        300_000,
        3,
        BuiltIn::Never,
        [305, 7516, 1058, 0, 1302, 0],
        0xc1ae_54d9_f81f_7a3e,
    ),
    (
        Form::Rw,
        EIGHT,
        MIXED,
        300_000,
        3,
        BuiltIn::Always,
        [319, 17434, 2568, 341, 2621, 0],
        0x753f_e6af_64c8_8ed2,
    ),
    (
        Form::Park,
        SIX,
        LONG,
        1_000_000,
        1,
        BuiltIn::Never,
        [147, 4848, 584, 0, 597, 146],
        0x8cb7_b0c4_dc6e_ca59,
    ),
    (
        Form::Park,
        SIX,
        LONG,
        1_000_000,
        1,
        BuiltIn::Always,
        [168, 12088, 1803, 170, 851, 170],
        0x011a_5bea_34b4_722d,
    ),
];

fn attrs_of(rt: &impl Abort, alloc: Global, sockets: &[u16]) -> Vec<Attr> {
    let mut attrs = Vec::new(alloc);
    for socket in sockets {
        let attr = Attr {
            socket: *socket,
            prio: 0,
            class: 0,
            kind: 0,
        };
        attrs.push(attr).ok().expect(rt, "memory");
    }
    attrs
}

fn played(rt: &impl Abort, alloc: Global, row: &Row) -> Run {
    let attrs = attrs_of(rt, alloc, row.1);
    assert!(rt; !attrs.is_empty() && attrs.len() <= 1024 && row.2.lines <= 64);
    let setup = Setup {
        rules: Rules {
            limit: 1024,
            form: row.0,
        },
        layout: Layout::Padded,
        costs: USUAL,
        work: row.2,
        tries: AT_ONCE,
        until: row.3,
        seed: row.4,
        passes: attrs.len() as u32,
        cores: cores_of(&attrs),
    };
    simulate(alloc, &setup, &attrs, &row.5, 100_000).expect(rt, "memory")
}

/// What a run counted, as a row has it.
fn figures_of(run: &Run) -> [u64; 6] {
    let counts = run.bench.counts;
    [
        run.bench.order.gained,
        counts.steps,
        counts.asked,
        counts.yes,
        counts.node.far,
        counts.rings,
    ]
}

#[test]
fn runs_give_the_figures_of_another_program(rt: HostRuntime) {
    for (at, row) in RUNS.iter().enumerate() {
        let run = played(&rt, rt.alloc(), row);
        let figures = figures_of(&run);
        assert!(rt; figures == row.6, "run {at}");
        assert!(rt; run.bench.order.hash == row.7, "run {at}");
        assert!(rt; run.waits.len() as u64 == figures[0], "run {at}");
    }
}
