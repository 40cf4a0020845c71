//! Programs in assembly with their values, from RFC 9669's rules worked by hand.
ghost use Rattle.bpf_run.specs.Examples.{WorkedPrograms, WorkedExtensions};

use crate::assembled::{instructions, repeated};
use crate::checks::same;
use bpf_isa::{Profile, decode};
use bpf_run::value;
use bpf_verifier::{Program, verify};
use std::alloc::Global;
use std::process::Abort;

/// The definitions give the values and the numbers of instructions that were worked by hand.
fn worked_by_hand()
    ensures programs { WorkedPrograms }
    ensures extensions { WorkedExtensions }
{}

/// The program of these lines and a last one, `exit`.
fn program_of(rt: &impl Abort, alloc: Global, lines: &[u8]) -> Program {
    let mut text = Vec::new(alloc);
    text.extend_from_slice(lines).expect(rt, "memory");
    text.extend_from_slice(b"exit\n").expect(rt, "memory");
    verify(alloc, instructions(rt, alloc, &text)).expect(rt, "accepted")
}

fn gives_on(rt: &impl Abort, alloc: Global, lines: &[u8], context: &[u8; 40], due: u64) {
    let program = program_of(rt, alloc, lines);
    same(rt, &value(&program, context), &due);
}

fn gives(rt: &impl Abort, alloc: Global, lines: &[u8], due: u64) {
    gives_on(rt, alloc, lines, &[0; 40], due);
}

#[test]
fn a_program_gives_its_number(rt: HostRuntime) {
    let alloc = rt.alloc();
    let bytes = [0xb7, 0, 0, 0, 7, 0, 0, 0, 0x95, 0, 0, 0, 0, 0, 0, 0];
    let insns = decode(alloc, Profile::One, &bytes).expect(&rt, "instructions");
    let program = verify(alloc, insns).expect(&rt, "accepted");
    same(&rt, &value(&program, &[0; 40]), &7);
}

#[test]
fn division_and_modulo_are_total(rt: HostRuntime) {
    worked_by_hand();
    let alloc = rt.alloc();
    gives(&rt, alloc, b"mov64 r0 7\ndiv64 r0 0\n", 0);
    gives(&rt, alloc, b"mov64 r0 7\nmod64 r0 0\n", 7);
    gives(&rt, alloc, b"mov64 r0 -1\nmod32 r0 0\n", 4_294_967_295);
    gives(&rt, alloc, b"mov64 r0 -1\ndiv64 r0 -1\n", 1);
}

#[test]
fn modulo_32_sees_the_low_half_of_the_divisor(rt: HostRuntime) {
    // r1 is 2^32, and r0 is all ones: the low half of the divisor is 0.
    let lines = b"wide r1 4294967296\nmov64 r0 -1\nmod32 r0 r1\n";
    gives(&rt, rt.alloc(), lines, 4_294_967_295);
}

#[test]
fn shift_counts_are_masked(rt: HostRuntime) {
    let alloc = rt.alloc();
    gives(&rt, alloc, b"mov64 r0 1\nlsh64 r0 64\n", 1);
    gives(
        &rt,
        alloc,
        b"mov64 r0 1\nlsh64 r0 63\n",
        0x8000_0000_0000_0000,
    );
    gives(&rt, alloc, b"mov64 r0 1\nlsh64 r0 32\n", 0x1_0000_0000);
    gives(&rt, alloc, b"mov64 r0 -1\nlsh32 r0 32\n", 4_294_967_295);
    gives(
        &rt,
        alloc,
        b"mov64 r0 -8\narsh64 r0 1\n",
        18_446_744_073_709_551_612,
    );
    // A register shifted by itself: 5 << 5.
    gives(&rt, alloc, b"mov64 r0 5\nlsh64 r0 r0\n", 160);
}

#[test]
fn halves_and_wide_loads(rt: HostRuntime) {
    let alloc = rt.alloc();
    gives(&rt, alloc, b"mov64 r0 -1\nadd32 r0 1\n", 0);
    gives(&rt, alloc, b"wide r0 8589934593\n", 8_589_934_593);
}

#[test]
fn extensions_and_byte_swaps(rt: HostRuntime) {
    let alloc = rt.alloc();
    gives(
        &rt,
        alloc,
        b"mov64 r0 128\nmovsx64 8 r0 r0\n",
        18_446_744_073_709_551_488,
    );
    gives(
        &rt,
        alloc,
        b"mov64 r0 128\nmovsx32 8 r0 r0\n",
        4_294_967_168,
    );
    // 0x1234 and 0x12345678, whose bytes are turned round
    gives(&rt, alloc, b"mov64 r0 4660\nswap 16 r0\n", 13_330);
    gives(&rt, alloc, b"mov64 r0 305419896\nbe 32 r0\n", 2_018_915_346);
    gives(&rt, alloc, b"mov64 r0 -1\nle 16 r0\n", 65_535);
    let mut context = [0; 40];
    context[4] = 255;
    context[5] = 255;
    gives_on(
        &rt,
        alloc,
        b"ldsh r0 r1 4\n",
        &context,
        18_446_744_073_709_551_615,
    );
}

#[test]
fn jumps_pass_over_slots(rt: HostRuntime) {
    let alloc = rt.alloc();
    gives(&rt, alloc, b"mov64 r0 1\nja 1\nmov64 r0 2\n", 1);
    gives(&rt, alloc, b"mov64 r0 1\njal 1\nmov64 r0 2\n", 1);
    // Signed: 1 isn't below -1; unsigned: it is below the greatest number.
    gives(&rt, alloc, b"mov64 r0 1\njslt64 r0 -1 1\nmov64 r0 2\n", 2);
    gives(&rt, alloc, b"mov64 r0 1\njlt64 r0 -1 1\nmov64 r0 2\n", 1);
}

#[test]
fn the_same_socket(rt: HostRuntime) {
    let alloc = rt.alloc();
    let lines = b"ldw r2 r1 0\nldw r1 r1 4\nmov64 r0 1\njeq64 r1 r2 1\nmov64 r0 0\n";
    let mut context = [0; 40];
    gives_on(&rt, alloc, lines, &context, 1);
    context[4] = 1;
    gives_on(&rt, alloc, lines, &context, 0);
}

#[test]
fn the_longest_program(rt: HostRuntime) {
    let alloc = rt.alloc();
    let lines = repeated(&rt, alloc, b"", b"mov64 r0 1\n", 511);
    let program = program_of(&rt, alloc, &lines);
    same(&rt, &program.slots(), &512);
    same(&rt, &value(&program, &[0; 40]), &1);
}
