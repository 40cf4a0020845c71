//! What is said of bytes that are no setup.
use crate::checks::is_told;
use sim_text::SetupError;

#[test]
fn each_fault_is_told(rt: HostRuntime) {
    let alloc = rt.alloc();
    let format = SetupError::Format { line: 7, what: 2 };
    is_told(&rt, alloc, &format, "line 7: fault 2");
    is_told(&rt, alloc, &SetupError::NoMemory, "out of memory");
}
