//! Values in blocks of their own, with one owner or with several.
ghost use Rattle.std.specs.Prelude.{◌≡◌, map, IfOk};

use shfl_line::NoMemory;
use std::alloc::Global;
use std::sync::Arc;

/// The value in a block that several may own.
pub fn shared<T: Drop>(alloc: Global, value: T) -> Result<Arc<T, Global>, NoMemory>
    ensures { IfOk result (λ a. a.value ≡ value) }
{
    match Arc::new(alloc, value) {
        Ok(shared) => Ok(shared),
        Err(_) => Err(NoMemory),
    }
}

// The value in a block of its own.
fn boxed<T: Drop>(alloc: Global, value: T) -> Result<Box<T, Global>, NoMemory>
    ensures { IfOk result (λ b. b.value ≡ value) }
{
    match Box::new(alloc, value) {
        Ok(boxed) => Ok(boxed),
        Err(_) => Err(NoMemory),
    }
}

/// Each of the values in a block of its own, in order.
pub fn boxed_each<T: Drop>(alloc: Global, values: Vec<T>) -> Result<Vec<Box<T, Global>>, NoMemory>
    ensures { IfOk result (λ v. map (λ b. b.value) v.items ≡ values.items) }
{
    let mut boxes = Vec::with_capacity(alloc, values.len())?;
    for value in values {
        boxes.push_reserved(boxed(alloc, value)?);
    }
    Ok(boxes)
}
