//! Directories that passes call.
mod two;
