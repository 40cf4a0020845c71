use crate::checks::{holds, same};
use doc_text::*;
use std::alloc::Global;
use std::process::Abort;

/// No line is due here, with this fault of line 4.
fn is_no_line(rt: &impl Abort, bytes: &[u8], what: u8) {
    let fault = line_due(bytes, 4, 5).err();
    same(rt, &fault, &Some(Fault { line: 4, what }));
}

#[test]
fn a_line_ends_with_its_line_feed(rt: HostRuntime) {
    let (text, rest) = line_due(b"calls\n0 next 1\n", 4, 5).expect(&rt, "a line");
    same(&rt, &text, &b"calls".as_slice());
    same(&rt, &rest, &b"0 next 1\n".as_slice());
    is_no_line(&rt, b"calls", 1);
    is_no_line(&rt, b"ca\tlls\n", 1);
    is_no_line(&rt, b"ca\x7flls\n", 1);
    is_no_line(&rt, b"", 5);
    let rest = fixed_due(b"events\nstep 0\n", 6, 7, b"events").expect(&rt, "events");
    same(&rt, &rest, &b"step 0\n".as_slice());
    let fault = fixed_due(b"event\n", 6, 7, b"events").err();
    same(&rt, &fault, &Some(Fault { line: 6, what: 7 }));
}

/// What stands in front of the first byte that is not plain, and what from there on.
const TEXT: &[u8] = b"0 next 1";

const UNPLAIN: &[u8] = b"\t";

const UNENDED: &[&[u8]] = &[b"0 next 1", b"0\tnext 1\n", b"0 next\x7f1\n", b"\r\n"];

#[test]
fn a_text_is_read_up_to_the_first_byte_that_is_not_plain(rt: HostRuntime) {
    same(&rt, &text_at(b"0 next 1\n\t"), &Some((TEXT, UNPLAIN)));
    for bytes in UNENDED {
        assert!(rt; !bytes.is_empty());
        holds(&rt, text_at(bytes).is_none());
    }
}

#[test]
fn words_are_parted_by_one_blank(rt: HostRuntime) {
    same(&rt, &one_word(b"exit"), &Some(b"exit".as_slice()));
    let parts = (b"step".as_slice(), b"0".as_slice());
    same(&rt, &two_words(b"step 0"), &Some(parts));
    holds(&rt, two_words(b"step  0").is_none());
    holds(&rt, three_words(b"step  0").is_some());
    holds(&rt, three_words(b"0 count 6").is_some());
    holds(&rt, four_words(b"policy none - -").is_some());
    holds(&rt, five_words(b"pass 0 0 0 0").is_some());
    holds(&rt, five_words(b"pass 0 0 0 0 ").is_none());
    holds(&rt, six_words(b"0 rename 5 a 6 b").is_some());
}

/// The word as a number of at most so much.
fn is_number(rt: &impl Abort, most: u64, word: &[u8], due: Option<u64>) {
    same(rt, &number(most, word), &due);
}

/// The word as a number, cut down to 64.
fn is_capped(rt: &impl Abort, word: &[u8], due: Option<u64>) {
    same(rt, &capped(64, word), &due);
}

const NO_NUMBERS: &[&[u8]] = &[b"", b"00", b"07", b"-1", b"+1", b"1x", b"0x1"];

#[test]
fn a_number_has_no_sign_and_no_leading_zero(rt: HostRuntime) {
    is_number(&rt, u64::MAX, b"0", Some(0));
    is_number(&rt, u64::MAX, b"18446744073709551615", Some(u64::MAX));
    is_number(&rt, u64::MAX, b"18446744073709551616", None);
    is_number(&rt, 1024, b"1025", None);
    holds(&rt, is_decimal(b"18446744073709551616"));
    is_capped(&rt, b"63", Some(63));
    is_capped(&rt, b"18446744073709551616", Some(64));
    is_capped(&rt, b"063", None);
    for word in NO_NUMBERS {
        holds(&rt, !is_decimal(word));
        is_number(&rt, u64::MAX, word, None);
    }
}

/// What the digits of a word say.
fn are_digits(rt: &impl Abort, alloc: Global, word: &[u8], due: Option<&[u8]>) {
    let bytes = hex_bytes(alloc, word).expect(rt, "memory");
    let found = match &bytes {
        Some(bytes) => Some(bytes.as_slice()),
        None => None,
    };
    same(rt, &found, &due);
}

/// The digits with blanks between them have this fault.
fn is_spread_badly(rt: &impl Abort, alloc: Global, text: &[u8], line: u32, what: u8) {
    assert!(rt; text.len() < 0x8000_0000);
    let fault = spread_bytes(alloc, text).err();
    same(rt, &fault, &Some(DigitsError::Format { line, what }));
}

#[test]
fn digits_are_read_in_both_cases(rt: HostRuntime) {
    let alloc = rt.alloc();
    are_digits(&rt, alloc, b"b7Ff00", Some(b"\xb7\xff\x00".as_slice()));
    are_digits(&rt, alloc, b"b7f", None);
    are_digits(&rt, alloc, b"b7fg", None);
    let spread = spread_bytes(alloc, b"b7 00\t0\n0\r\n95").expect(&rt, "digits");
    same(&rt, &spread.as_slice(), &b"\xb7\x00\x00\x95".as_slice());
    is_spread_badly(&rt, alloc, b"9", 1, 2);
    is_spread_badly(&rt, alloc, b"9\n\nx", 3, 1);
    is_spread_badly(&rt, alloc, b"9\n", 2, 2);
}

#[test]
fn a_policy_line_is_written_and_read(rt: HostRuntime) {
    let alloc = rt.alloc();
    let mut out = Vec::new(alloc);
    push_hex(alloc, &mut out, &[0x95, 0xa0]).expect(&rt, "memory");
    same(&rt, &out.as_slice(), &b"95a0".as_slice());
    push_line(&mut out, b" -").expect(&rt, "memory");
    push_decimal(&mut out, 65535).expect(&rt, "memory");
    same(&rt, &out.as_slice(), &b"95a0 -\n65535".as_slice());
}
