//! The faults of a schedule's lines, by their numbers.

/// No form of a lock.
pub const FORM: u8 = 3;
/// No limit from 1 to 1,024.
pub const LIMIT: u8 = 4;
/// No policy.
pub const POLICY: u8 = 5;
/// A program that the profile doesn't accept.
pub const PROGRAM: u8 = 6;
/// No pass, none at all, or one too many.
pub const PASS: u8 = 7;
/// No event of this form and these passes.
pub const EVENT: u8 = 8;
/// One event too many.
pub const OVER: u8 = 9;
/// No profile, in version 2.
pub const PROFILE: u8 = 10;
