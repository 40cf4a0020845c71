//! The faults of a trace's lines, by their numbers.

/// No worker, or none at all.
pub const WORKER: u8 = 3;
/// One worker too many.
pub const WORKERS: u8 = 4;
/// No policy, or none at all.
pub const POLICY: u8 = 5;
/// One policy too many.
pub const POLICIES: u8 = 6;
/// A policy's name that was declared before.
pub const AGAIN: u8 = 7;
/// Digits that are no program.
pub const DIGITS: u8 = 8;
/// A program that the profile doesn't accept.
pub const PROGRAM: u8 = 9;
/// No call.
pub const CALL: u8 = 10;
/// A worker that isn't declared.
pub const STRANGER: u8 = 11;
/// A directory or a name out of range.
pub const RANGE: u8 = 12;
/// An attachment that may not be.
pub const ATTACH: u8 = 13;
/// A call, or an attachment, too many.
pub const OVER: u8 = 14;
/// No profile, in version 2.
pub const PROFILE: u8 = 15;
