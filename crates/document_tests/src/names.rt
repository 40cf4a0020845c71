//! Names that are found again, and names in order.
ghost use Rattle.std.specs.Prelude.{◌<◌, ◌≤◌, ◌+◌, length};

use crate::checks::same;
use name_order::*;
use std::alloc::Global;
use std::process::Abort;

/// The name has this place.
fn has_place<'a>(rt: &impl Abort, names: &mut Gathered<'a>, name: &'a [u8], due: u32)
    requires { length names.old < 4294967295 }
    ensures { length names.new ≤ length names.old + 1 }
{
    same(rt, &names.place(name).expect(rt, "memory"), &due);
}

#[test]
fn a_name_is_found_again(rt: HostRuntime) {
    let mut names = Gathered::nobody(rt.alloc(), 4).expect(&rt, "memory");
    has_place(&rt, &mut names, b"a", 0);
    has_place(&rt, &mut names, b"b", 1);
    has_place(&rt, &mut names, b"", 2);
    has_place(&rt, &mut names, b"b", 1);
    has_place(&rt, &mut names, b"a", 0);
    has_place(&rt, &mut names, b"", 2);
    same(&rt, &names.names().len(), &3);
}

/// In order the names are those that are due, and each of the given ones has its place among them.
fn are_ordered(rt: &impl Abort, alloc: Global, names: &[&[u8]], due: &[&[u8]], places: &[u32]) {
    assert!(rt; names.len() < 4_294_967_296);
    let ordered = put_in_order(alloc, names).expect(rt, "memory");
    same(rt, &ordered.names.len(), &due.len());
    for (name, due) in ordered.names.iter().zip(due.iter()) {
        same(rt, &name.as_slice(), due);
    }
    same(rt, &ordered.places.as_slice(), &places);
}

// The first eight bytes tell, or they don't and those behind them do, or the lengths.
const NAMES: [&[u8]; 8] = [
    b"eight-in-all-b",
    b"b",
    b"eight-in-all-a",
    b"",
    b"b\x00",
    b"eight-in",
    b"\xff",
    b"b",
];

const IN_ORDER: [&[u8]; 7] = [
    b"",
    b"b",
    b"b\x00",
    b"eight-in",
    b"eight-in-all-a",
    b"eight-in-all-b",
    b"\xff",
];

#[test]
fn names_stand_in_order(rt: HostRuntime) {
    let places = [5, 1, 4, 0, 2, 3, 6, 1];
    are_ordered(&rt, rt.alloc(), &NAMES, &IN_ORDER, &places);
}

// All begin with ten bytes, one of them has no more, and behind them eight bytes tell, or they don't.
const ALIKE: [&[u8]; 6] = [
    b"ten-bytes-b",
    b"ten-bytes-eight-in-b",
    b"ten-bytes-eight-in-a",
    b"ten-bytes-",
    b"ten-bytes-eight-in",
    b"ten-bytes-b",
];

const ALIKE_IN_ORDER: [&[u8]; 5] = [
    b"ten-bytes-",
    b"ten-bytes-b",
    b"ten-bytes-eight-in",
    b"ten-bytes-eight-in-a",
    b"ten-bytes-eight-in-b",
];

#[test]
fn names_that_begin_alike_stand_in_order(rt: HostRuntime) {
    let places = [1, 4, 3, 0, 2, 1];
    are_ordered(&rt, rt.alloc(), &ALIKE, &ALIKE_IN_ORDER, &places);
}
