use crate::checks::same;
use std::alloc::Global;
use std::io;
use std::io::{Read, Write};
use std::process::Abort;
use std::sync::Wait;
use syn_outer::*;

/// A reader and writer of std that always fails.
#[derive(Drop)]
struct Broken;

impl Read for Broken {
    fn read(&mut self, _buf: &mut [u8]) -> io::Result<usize> {
        Err(io::Error::from(io::ErrorKind::BrokenPipe))
    }
}

impl Write for Broken {
    fn write(&mut self, _buf: &[u8]) -> io::Result<usize> {
        Err(io::Error::from(io::ErrorKind::BrokenPipe))
    }

    fn flush(&mut self) -> io::Result<()> {
        Ok(())
    }
}

/// A writer of std that counts what it is asked, and takes at most five bytes a call.
#[derive(Drop)]
struct Counting<'a> {
    writes: &'a mut usize,
    flushes: &'a mut usize,
}

impl Write for Counting<'_> {
    fn write(&mut self, buf: &[u8]) -> io::Result<usize> {
        *self.writes = self.writes.saturating_add(1);
        Ok(buf.len().min(5))
    }

    fn flush(&mut self) -> io::Result<()> {
        *self.flushes = self.flushes.saturating_add(1);
        Ok(())
    }
}

/// A writer of std that takes all, and can't be flushed.
#[derive(Drop)]
struct Unflushed;

impl Write for Unflushed {
    fn write(&mut self, buf: &[u8]) -> io::Result<usize> {
        Ok(buf.len())
    }

    fn flush(&mut self) -> io::Result<()> {
        Err(io::Error::from(io::ErrorKind::BrokenPipe))
    }
}

fn pass_all<Rt: Wait, G: Gate + Sync>(rt: &Rt, gate: &G) {
    for point in [
        Point::BeforeCall,
        Point::Queued,
        Point::GivesWay,
        Point::Holding,
        Point::AfterCall,
    ] {
        gate.at(rt, 0, point);
    }
}

/// Twelve bytes.
const TWELVE: &[u8] = b"twelve bytes";

fn twelve(rt: &impl Abort, alloc: Global) -> Vec<u8> {
    Vec::from_slice(alloc, TWELVE).expect(rt, "memory")
}

/// What is read of a source of twelve bytes in pieces of six, whose call of that number fails.
fn read_failing(rt: &impl Abort, alloc: Global, call: u32) -> Result<Vec<u8>, ReadError> {
    let fails = vec![in alloc; call].ok().expect(rt, "memory");
    let mut src = MemSource::new(twelve(rt, alloc), 6, fails);
    read_all(alloc, &mut src, 12)
}

#[test]
fn a_source_is_read_to_its_end_in_pieces(rt: HostRuntime) {
    let alloc = rt.alloc();
    let mut src = MemSource::new(twelve(&rt, alloc), 5, Vec::new(alloc));
    let read = read_all(alloc, &mut src, 12).expect(&rt, "bytes");
    same(&rt, &read.as_slice(), &TWELVE);
    let rest = read_all(alloc, &mut src, 12).expect(&rt, "bytes");
    same(&rt, &rest.len(), &0);
}

#[test]
fn a_chosen_call_of_a_source_fails(rt: HostRuntime) {
    let alloc = rt.alloc();
    for call in [1u32, 2, 3] {
        let error = read_failing(&rt, alloc, call).err();
        same(&rt, &error, &Some(ReadError::ReadFault));
    }
    let read = read_failing(&rt, alloc, 4).expect(&rt, "bytes");
    same(&rt, &read.len(), &12);
}

#[test]
fn one_byte_over_the_limit_is_too_large(rt: HostRuntime) {
    let alloc = rt.alloc();
    let mut src = SureSource::new(twelve(&rt, alloc));
    let error = read_all(alloc, &mut src, 11).err();
    same(&rt, &error, &Some(ReadError::TooLarge));
}

/// Twelve bytes are written to the sink, of which it takes so many.
fn takes<W: Sink>(rt: &impl Abort, out: &mut W, written: usize) {
    let fault = write_all(out, TWELVE).err();
    same(rt, &fault, &Some(WriteFault { written }));
}

/// Twelve bytes are written to the sink, which takes them all.
fn takes_all<W: Sink>(rt: &impl Abort, out: &mut W) {
    same(rt, &write_all(out, TWELVE), &Ok(()));
}

#[test]
fn a_write_fault_tells_what_was_taken(rt: HostRuntime) {
    let alloc = rt.alloc();
    let fails = vec![in alloc; 3u32].ok().expect(&rt, "memory");
    let sink = MemSink::open(alloc, 100, 5, fails);
    let mut out = sink.ok().expect(&rt, "memory");
    takes(&rt, &mut out, 10);
    same(&rt, &out.bytes(), &b"twelve byt".as_slice());
}

#[test]
fn a_write_past_the_room_fails(rt: HostRuntime) {
    let alloc = rt.alloc();
    let sink = MemSink::open(alloc, 11, 5, Vec::new(alloc));
    let mut out = sink.ok().expect(&rt, "memory");
    takes(&rt, &mut out, 10);
}

#[test]
fn a_sure_sink_keeps_what_fits(rt: HostRuntime) {
    let sink = SureSink::open(rt.alloc(), 6);
    let mut out = sink.ok().expect(&rt, "memory");
    takes_all(&rt, &mut out);
    same(&rt, &out.bytes(), &b"twelve".as_slice());
}

#[test]
fn readers_and_writers_of_std_count_their_faults(rt: HostRuntime) {
    let alloc = rt.alloc();
    let mut src = StdSource::new(TWELVE);
    let read = read_all(alloc, &mut src, 12).expect(&rt, "bytes");
    same(&rt, &read.as_slice(), &TWELVE);
    let mut src = StdSource::new(Broken);
    let error = read_all(alloc, &mut src, 12).err();
    same(&rt, &error, &Some(ReadError::ReadFault));
    let mut out = StdSink::new(Broken);
    takes(&rt, &mut out, 0);
    let mut kept = [0u8; 12];
    let mut out = StdSink::new(&mut kept[..]);
    takes_all(&rt, &mut out);
}

#[test]
fn a_sink_is_offered_all_that_is_left_and_flushed_after_each_write(rt: HostRuntime) {
    let (mut writes, mut flushes) = (0, 0);
    let mut out = StdSink::new(Counting {
        writes: &mut writes,
        flushes: &mut flushes,
    });
    takes_all(&rt, &mut out);
    drop(out);
    same(&rt, &(writes, flushes), &(3, 3));
}

#[test]
fn a_flush_that_fails_is_a_fault(rt: HostRuntime) {
    let mut out = StdSink::new(Unflushed);
    takes(&rt, &mut out, 0);
}

#[test]
fn an_open_gate_lets_everyone_pass(rt: HostRuntime) {
    pass_all(&rt, &OpenGate);
}
