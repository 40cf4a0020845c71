//! The line on the error stream. It takes no memory.
ghost use Rattle.std.specs.Prelude.{◌≡◌, ◌++◌, ℕ, List, Option, codes};
ghost use Rattle.std.specs.Fmt.{decimal};
ghost use Rattle.syncord_endings.specs.Traffic.{Told, Telling, traffic, through};
ghost use Rattle.syncord_endings.specs.Endings.{message_of, message_by, refusal_message, refused, at_slot};

use crate::ending::{Ending, Refusal};
use itoa::Buffer;
use syn_outer::{Sink, write_all};

/// Goes on with a text, where all of it was taken so far.
fn say<E: Sink>(err: &mut E, going: bool, bytes: &[u8]) -> bool
    ensures told { (held : Option (List ℕ)) (faults : ℕ) (text : List ℕ) →
        Telling going (traffic held (E.held err.old) faults (E.faults err.old)) text →
        Telling result (traffic held (E.held err.new) faults (E.faults err.new)) (text ++ bytes.now) }
{
    going && write_all(err, bytes).is_ok()
}

/// Goes on with a number.
fn say_number<E: Sink>(err: &mut E, going: bool, number: u64) -> bool
    ensures told { (held : Option (List ℕ)) (faults : ℕ) (text : List ℕ) →
        Telling going (traffic held (E.held err.old) faults (E.faults err.old)) text →
        Telling result (traffic held (E.held err.new) faults (E.faults err.new)) (text ++ decimal number) }
{
    let mut digits = Buffer::new();
    say(err, going, digits.format(number).as_bytes())
}

/// Says a text, or a front of it where the sink fails.
pub fn tell<E: Sink>(err: &mut E, text: &[u8])
    ensures { Told (through E.held E.faults err.old err.new)
        text.now }
{
    let _all = say(err, true, text);
}

/// Begins a line with the program's name.
fn begin<E: Sink>(err: &mut E, program: &[u8], text: &[u8]) -> bool
    ensures { Telling result (through E.held E.faults err.old err.new) (program.now ++ text.now) }
{
    let named = say(err, true, program);
    say(err, named, text)
}

/// Says a line with no number.
fn tell_text<E: Sink>(err: &mut E, program: &[u8], text: &[u8])
    ensures { Told (through E.held E.faults err.old err.new) (program.now ++ text.now) }
{
    let _all = begin(err, program, text);
}

/// Says a line with a number between two texts.
fn tell_number<E: Sink>(err: &mut E, program: &[u8], front: &[u8], number: u64, back: &[u8])
    ensures { Told (through E.held E.faults err.old err.new)
        (program.now ++ front.now ++ decimal number ++ back.now) }
{
    let first = begin(err, program, front);
    let second = say_number(err, first, number);
    let _all = say(err, second, back);
}

/// Says the first bad line and its lowest fault.
fn tell_line<E: Sink>(err: &mut E, program: &[u8], line: u32, what: u8)
    ensures { Told (through E.held E.faults err.old err.new)
        (refusal_message program.now (Refusal.Line line what)) }
{
    let first = begin(err, program, b": line ");
    let second = say_number(err, first, u64::from(line));
    let third = say(err, second, b": fault ");
    let fourth = say_number(err, third, u64::from(what));
    let _all = say(err, fourth, b"\n");
}

/// Begins the line of a refused slot.
fn begin_at_slot<E: Sink>(err: &mut E, program: &[u8], number: u8, slot: u32) -> bool
    ensures { Telling result (through E.held E.faults err.old err.new)
        (at_slot (refused program.now number) slot) }
{
    let first = begin(err, program, b": refused ");
    let second = say_number(err, first, u64::from(number));
    let third = say(err, second, b" at slot ");
    say_number(err, third, u64::from(slot))
}

fn tell_slot<E: Sink>(err: &mut E, program: &[u8], number: u8, slot: u32)
    ensures { Told (through E.held E.faults err.old err.new)
        (refusal_message program.now (Refusal.Slot number slot)) }
{
    let first = begin_at_slot(err, program, number, slot);
    let _all = say(err, first, b"\n");
}

fn tell_register<E: Sink>(err: &mut E, program: &[u8], number: u8, slot: u32, register: u8)
    ensures { Told (through E.held E.faults err.old err.new)
        (refusal_message program.now (Refusal.Register number slot register)) }
{
    let first = begin_at_slot(err, program, number, slot);
    let second = say(err, first, b" register ");
    let third = say_number(err, second, u64::from(register));
    let _all = say(err, third, b"\n");
}

/// Says why there is no report.
fn tell_refusal<E: Sink>(err: &mut E, program: &[u8], refusal: Refusal)
    ensures { Told (through E.held E.faults err.old err.new)
        (refusal_message program.now refusal) }
{
    match refusal {
        Refusal::Line { line, what } => tell_line(err, program, line, what),
        Refusal::Program { number } => {
            tell_number(err, program, b": refused ", u64::from(number), b"\n")
        }
        Refusal::Slot { number, slot } => tell_slot(err, program, number, slot),
        Refusal::Register {
            number,
            slot,
            register,
        } => tell_register(err, program, number, slot, register),
        Refusal::NoMemory => {}
    }
}

/// Says how a command of a program of this name ended.
pub fn tell_ending_as<E: Sink>(err: &mut E, program: &[u8], ending: Ending)
    ensures { Told (through E.held E.faults err.old err.new)
        (message_by program.now ending) }
{
    match ending {
        Ending::Done => {}
        Ending::NoReport(refusal) => tell_refusal(err, program, refusal),
        Ending::TooLarge => tell_text(err, program, b": input too large\n"),
        Ending::ReadFault => tell_text(err, program, b": read fault\n"),
        Ending::WriteFault(written) => {
            tell_number(
                err,
                program,
                b": write fault after ",
                written as u64,
                b" bytes\n",
            )
        }
    }
}

/// Says how a command of `syncord` ended.
pub fn tell_ending<E: Sink>(err: &mut E, ending: Ending)
    ensures { Told (through E.held E.faults err.old err.new)
        (message_of ending) }
{
    tell_ending_as(err, b"syncord", ending)
}
