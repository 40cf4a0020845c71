//! A worked schedule: what the lock shows.
use shared_tests::PLAIN;
use shfl_core::{Board, Local};
use shfl_line::{Attr, LineState, Mode, NoMemory, Role};
use shfl_world::World;
use std::alloc::Global;

type Hold = &'static [(u32, Mode)];

type Line = &'static [u32];

const FREE: Hold = &[];

const HELD: Hold = &[(0, Mode::Write)];

const TAKEN: Hold = &[(1, Mode::Write)];

const QUEUE: Line = &[1, 2, 3, 4];

const RELINKED: Line = &[1, 3, 2, 4];

const SHORTER: Line = &[3, 2, 4];

const NOBODY: Role = Role::Nobody;

const WALK: Role = Role::Walk(1);

const REST: Role = Role::Rest(3);

// The batch numbers of passes 1 and 3.
type Batch = (u16, u16);

// A pass, how many steps it makes, the policy's answer to each, and what the lock shows then.
type Row = (u32, u32, bool, Hold, Line, Option<u32>, Role, Batch);

const ROUND: [Row; 18] = [
    // Pass 0 takes the free lock.
    (0, 1, false, HELD, &[], None, NOBODY, (0, 0)),
    // The others join. All but the first have yet to write the next word of the one before.
    (1, 3, false, HELD, &[1], None, NOBODY, (0, 0)),
    (2, 3, false, HELD, &[1, 2], None, NOBODY, (0, 0)),
    (3, 3, false, HELD, &[1, 2, 3], None, NOBODY, (0, 0)),
    (4, 3, false, HELD, QUEUE, None, NOBODY, (0, 0)),
    // They write it, the middle one last.
    (4, 1, false, HELD, QUEUE, None, NOBODY, (0, 0)),
    (2, 1, false, HELD, QUEUE, None, NOBODY, (0, 0)),
    (3, 1, false, HELD, QUEUE, None, NOBODY, (0, 0)),
    // The head begins a round, passes over 2 and takes 3 out of the line.
    (1, 2, false, HELD, QUEUE, None, WALK, (1, 0)),
    (1, 4, false, HELD, QUEUE, None, WALK, (1, 0)),
    (1, 6, true, HELD, &[1, 2, 4], Some(3), WALK, (1, 0)),
    // It puts 3 directly behind itself, gives it a batch number, and hands the flag to it.
    (1, 2, false, HELD, RELINKED, None, WALK, (1, 0)),
    (1, 1, false, HELD, RELINKED, None, WALK, (1, 2)),
    (1, 3, false, HELD, RELINKED, None, REST, (1, 2)),
    // The lock is given back. The head takes it, leaves the line, and makes 3 ready.
    (0, 1, false, FREE, RELINKED, None, REST, (1, 2)),
    (1, 2, false, TAKEN, RELINKED, None, REST, (1, 2)),
    (1, 1, false, TAKEN, SHORTER, None, REST, (0, 2)),
    (1, 1, false, TAKEN, SHORTER, None, REST, (0, 2)),
];

const FIVE: [Attr; 5] = [PLAIN, PLAIN, PLAIN, PLAIN, PLAIN];

fn open(alloc: Global) -> Result<World<Local>, NoMemory> {
    World::open(alloc, &FIVE, 1024, Local::new)
}

// An idle pass begins to take the lock, and a holder to give it back; then the steps.
fn moves(lock: &mut World<Local>, pass: u32, steps: u32, answer: bool) -> bool {
    if pass as usize >= lock.count() {
        return false;
    }
    if !lock.acquire(pass, Mode::Write) {
        lock.release(pass);
    }
    for _ in 0..steps {
        if pass as usize >= lock.count() || !lock.step(pass, answer) {
            return false;
        }
    }
    true
}

fn queue_is(out: &LineState, line: &[u32], hand: Option<u32>, role: Role, batch: Batch) -> bool {
    let mark = [0, batch.0, 0, batch.1, 0];
    out.line() == line && out.hand() == hand && *out.role() == role && out.mark() == mark.as_slice()
}

#[test]
fn each_part_of_a_round_is_shown(rt: HostRuntime) {
    let mut lock = open(rt.alloc()).expect(&rt, "memory");
    let mut out = LineState::open(rt.alloc(), 5).expect(&rt, "memory");
    for (at, row) in ROUND.iter().enumerate() {
        let made = moves(&mut lock, row.0, row.1, row.2);
        assert!(rt; made, "row {at}");
        if out.mark().len() != lock.count() {
            panic!(rt; "passes");
        }
        lock.show(&mut out);
        assert!(rt; out.hold() == row.3, "row {at}");
        let shown = queue_is(&out, row.4, row.5, row.6, row.7);
        assert!(rt; shown, "row {at}");
    }
}
