ghost use Rattle.std.specs.Prelude.{◌≡◌, ◌≤◌, [], length, vec_capacity, IfOk};
ghost use Rattle.vale_steps.specs.Words.{CanAllBeGiven, indices_of, pool_with_all};

use nm_pool::Pool;
use nm_region::Buf;
use std::alloc::{AllocError, Global};

/// Makes buffers free again, in their order.
pub fn give_back(pool: &mut Pool, mut bufs: Vec<Buf>)
    requires { CanAllBeGiven pool.old bufs.items }
    ensures { pool.new ≡ pool_with_all bufs.items pool.old }
{
    bufs.reverse();
    while let Some(buf) = bufs.pop() {
        pool.give(buf);
    }
    bufs.destroy_empty();
}

/// Writes the indices of buffers into an empty vector with room for them.
pub fn indices_into(mut numbers: Vec<u32>, bufs: &[Buf]) -> Vec<u32>
    requires none { numbers.items ≡ [] }
    requires room { length bufs.now ≤ vec_capacity numbers }
    ensures { result.items ≡ indices_of bufs.now }
{
    for buf in bufs {
        numbers.push_reserved(buf.index());
    }
    numbers
}

/// The indices of buffers.
pub(crate) fn indices(alloc: Global, bufs: &[Buf]) -> Result<Vec<u32>, AllocError>
    ensures { IfOk result (λ numbers. numbers.items ≡ indices_of bufs.now) }
{
    Ok(indices_into(Vec::with_capacity(alloc, bufs.len())?, bufs))
}
