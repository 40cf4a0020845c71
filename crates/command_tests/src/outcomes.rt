//! How a run of a command ended, and the streams that it is run on.
ghost use Rattle.std.specs.Prelude.{◌<◌};

use crate::checks::same;
use std::alloc::Global;
use std::process::Abort;
use syn_outer::{MemSink, MemSource, SureSink, SureSource};

/// The status and what both sinks took.
#[derive(Drop)]
pub(crate) struct Outcome {
    pub(crate) status: u8,
    pub(crate) out: SureSink,
    pub(crate) err: SureSink,
}

impl Outcome {
    /// The run had this status, this report and this line.
    pub(crate) fn is(&self, rt: &impl Abort, status: u8, report: &[u8], message: &[u8]) {
        same(rt, &self.status, &status);
        same(rt, &self.out.bytes(), &report);
        same(rt, &self.err.bytes(), &message);
    }

    /// It had this report.
    pub(crate) fn reports(&self, rt: &impl Abort, report: &str) {
        self.is(rt, 0, report.as_bytes(), b"");
    }

    /// It had no report, and this status and line.
    pub(crate) fn refuses(&self, rt: &impl Abort, status: u8, message: &str) {
        self.is(rt, status, b"", message.as_bytes());
    }
}

/// The same where the report's sink may fail.
#[derive(Drop)]
pub(crate) struct CutOutcome {
    pub(crate) status: u8,
    pub(crate) out: MemSink,
    pub(crate) err: SureSink,
}

impl CutOutcome {
    /// The run had this status, so much of its report and this line.
    pub(crate) fn is(&self, rt: &impl Abort, status: u8, report: &[u8], message: &[u8]) {
        same(rt, &self.status, &status);
        same(rt, &self.out.bytes(), &report);
        same(rt, &self.err.bytes(), &message);
    }
}

pub(crate) fn bytes_of(rt: &impl Abort, alloc: Global, bytes: &[u8]) -> Vec<u8> {
    Vec::from_slice(alloc, bytes).expect(rt, "memory")
}

/// The number of the only call that fails.
fn only(rt: &impl Abort, alloc: Global, call: u32) -> Vec<u32> {
    Vec::from_slice(alloc, &[call]).expect(rt, "memory")
}

pub(crate) fn source(rt: &impl Abort, alloc: Global, bytes: &[u8]) -> SureSource {
    SureSource::new(bytes_of(rt, alloc, bytes))
}

/// A source that gives so many bytes at a time, and fails at one call.
pub(crate) fn failing_source(
    rt: &impl Abort,
    alloc: Global,
    bytes: &[u8],
    piece: usize,
    call: u32,
) -> MemSource
    requires { 0 < piece }
{
    MemSource::new(bytes_of(rt, alloc, bytes), piece, only(rt, alloc, call))
}

pub(crate) fn sink(rt: &impl Abort, alloc: Global, room: usize) -> SureSink {
    SureSink::open(alloc, room).ok().expect(rt, "memory")
}

/// A sink that takes so many bytes at a time, and fails at one call.
pub(crate) fn failing_sink(
    rt: &impl Abort,
    alloc: Global,
    room: usize,
    piece: usize,
    call: u32,
) -> MemSink
    requires { 0 < piece }
{
    let fails = only(rt, alloc, call);
    MemSink::open(alloc, room, piece, fails)
        .ok()
        .expect(rt, "memory")
}
