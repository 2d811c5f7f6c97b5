// Trials of sheet files: a small file for each fault and each boundary, worked by hand.
#![tactic(auto)]

#[cfg(test)]
mod tests;

ghost use Rattle.std.specs.Prelude.{◌≡◌, ◌++◌, IfOk};

use std::alloc::{AllocError, Global};

// A file of three parts.
pub fn joined(
    alloc: Global,
    first: &[u8],
    second: &[u8],
    third: &[u8],
) -> Result<Vec<u8>, AllocError>
    ensures { IfOk result (λ v. v.items ≡ (first.now ++ second.now) ++ third.now) }
{
    let mut file = Vec::new(alloc);
    file.extend_from_slice(first)?;
    file.extend_from_slice(second)?;
    file.extend_from_slice(third)?;
    Ok(file)
}
