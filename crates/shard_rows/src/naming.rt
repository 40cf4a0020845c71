//! The directories that a call names.
ghost use Rattle.std.specs.Prelude.{◌≡◌};
ghost use Rattle.shard_rows.specs.Shares.{first_named, last_named};

use dir_table::DirCall;

/// The directory that the call names first.
pub fn first_dir(call: &DirCall) -> u8
    ensures { result ≡ first_named call.now }
{
    match *call {
        DirCall::Make { dir, .. } => dir,
        DirCall::Drop { dir, .. } => dir,
        DirCall::Rename { dir, .. } => dir,
        DirCall::Find { dir, .. } => dir,
        DirCall::Count { dir } => dir,
        DirCall::Next { dir, .. } => dir,
    }
}

/// The directory that the call names last.
pub fn last_dir(call: &DirCall) -> u8
    ensures { result ≡ last_named call.now }
{
    match *call {
        DirCall::Rename { to_dir, .. } => to_dir,
        _ => first_dir(call),
    }
}
