//! The directories that a call names.
ghost use Rattle.std.specs.Prelude.{◌≡◌};
ghost use Rattle.dir_shards.specs.Naming.{other_named};

use dir_table::DirCall;

/// The other directory, where the call is a rename over two.
pub fn other_dir(call: &DirCall) -> Option<u8>
    ensures { result ≡ other_named call.now }
{
    match *call {
        DirCall::Rename { dir, to_dir, .. } => { if dir == to_dir { None } else { Some(to_dir) } }
        _ => None,
    }
}
