ghost use Rattle.std.specs.Prelude.{◌≡◌, IfOk};

use lists::Name;
use std::alloc::{AllocError, Global};

/// The name that is this text.
pub fn name_from(alloc: Global, text: &str) -> Result<Name, AllocError>
    ensures { IfOk result (λ name. name ≡ text.now) }
{
    Ok(Name::from_vec(Vec::from_slice(alloc, text.as_bytes())?))
}
