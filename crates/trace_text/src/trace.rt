use bpf_isa::Profile;
use dir_table::DirCall;
use policy_source::PolicySource;
use shfl_line::Attr;

/// What a worker does.
#[derive(Clone, Copy, Debug, PartialEq, Eq)]
pub enum TraceAct {
    /// A call on the directory, whose names are places in the trace's names.
    Dir(DirCall),
    /// The attachment of a policy, by its place among the trace's policies.
    Attach(u32),
}

/// Who does what.
#[derive(Clone, Copy, Debug, PartialEq, Eq)]
pub struct TraceCall {
    pub worker: u32,
    pub act: TraceAct,
}

/// A policy as a trace declares it.
#[derive(Drop)]
pub struct NamedSource {
    pub name: Vec<u8>,
    pub source: PolicySource,
}

/// A trace: who the workers are, which policies there are, and what the workers do.
#[derive(Drop)]
pub struct Trace {
    /// Of the document: 1, or 2, which names the profile.
    pub version: u8,
    /// The profile by which the programs are judged: one in version 1.
    pub profile: Profile,
    pub workers: Vec<Attr>,
    pub policies: Vec<NamedSource>,
    /// The names of the calls on the directory in order of their bytes, each once.
    pub names: Vec<Vec<u8>>,
    pub calls: Vec<TraceCall>,
}
