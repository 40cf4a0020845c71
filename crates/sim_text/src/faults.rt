//! The faults of a setup's lines, by their numbers.

/// No such title.
pub const TITLE: u8 = 2;

pub const PROFILE: u8 = 3;
/// No form of a lock.
pub const FORM: u8 = 4;
/// No limit from 1 to 1,024.
pub const LIMIT: u8 = 5;

pub const LAYOUT: u8 = 6;

pub const COSTS: u8 = 7;

pub const WORK: u8 = 8;
/// No end of a run.
pub const UNTIL: u8 = 9;

pub const SEEDS: u8 = 10;
/// No policy, or none at all.
pub const POLICY: u8 = 11;
/// One policy too many.
pub const POLICIES: u8 = 12;
/// A program that the profile doesn't accept.
pub const PROGRAM: u8 = 13;
/// No pass, none at all, or one too many.
pub const PASS: u8 = 14;
/// A line behind the last.
pub const OVER: u8 = 15;
