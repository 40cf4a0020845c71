/// Where a run goes on after an instruction.
#[derive(Clone, Copy)]
pub enum Flow {
    /// Past so many slots.
    Past(u32),
    /// To the end, with this value.
    End(u64),
}
