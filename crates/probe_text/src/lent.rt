// Slices as they are before they are lent.
ghost use Rattle.std.specs.Prelude.{◌≡◌, ◌≤◌, IfOk, length};
ghost use Rattle.lists.specs.Written.{each};

use crate::element::{Element, LONGEST};
use std::alloc::{AllocError, Global};

pub(crate) fn lent<T: Element>(alloc: Global, n: usize) -> Result<Vec<T>, AllocError>
    requires { n ≤ LONGEST }
    ensures items { IfOk result (λ v. v.items ≡ each T.filler_at n) }
    ensures len { IfOk result (λ v. length v.items ≡ n) }
{
    let mut lent = Vec::with_capacity(alloc, n)?;
    for i in 0..n {
        lent.push(T::filler(i as u16))?;
    }
    Ok(lent)
}
