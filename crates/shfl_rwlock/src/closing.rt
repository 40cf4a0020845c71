//! The closing of locks gives their values back.
ghost use Rattle.std.specs.Prelude.{◌≡◌, ◌≤◌, IfOk, IfErr, vec_capacity, vec_len};

use crate::locks::RwLocks;
use std::alloc::Global;
use std::sync::RwLock;

// The values out of their locks, in `out`.
fn taken_out<T: Drop>(values: Vec<RwLock<T>>, mut out: Vec<T>) -> Vec<T>
    requires empty { vec_len out ≡ 0 }
    requires room { vec_len values ≤ vec_capacity out }
    ensures { vec_len result ≡ vec_len values }
{
    for value in values {
        out.push_reserved(value.into_inner());
    }
    out
}

impl<T: Drop> RwLocks<T> {
    /// The values, in the order of their locks. Without memory for them the locks are given back.
    pub fn close(self, alloc: Global) -> Result<Vec<T>, RwLocks<T>>
        ensures len { IfOk result (λ v. vec_len v ≡ self.id.shape.locks) }
        ensures err { IfErr result (λ r. r ≡ self) }
    {
        let Ok(out) = Vec::with_capacity(alloc, self.values.len()) else {
            return Err(self);
        };
        let RwLocks { values, .. } = self;
        Ok(taken_out(values, out))
    }
}
