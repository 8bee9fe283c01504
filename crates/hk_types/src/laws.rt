//! Laws of the types.

ghost use Rattle.std.specs.Prelude.{◌≡◌};
ghost use Rattle.hk_types.specs.Orders.{version_key_order};
ghost use Rattle.std.specs.Ordering.{is_lt};

use crate::version_key::VersionKey;
use std::cmp::Ordering;

/// Version keys are ordered by table, then by key, then by born: `cmp` has this order, and `<` with it.
pub fn version_keys_in_order(one: &VersionKey, other: &VersionKey) -> (Ordering, bool)
    ensures cmp { result.0 ≡ version_key_order one.now other.now }
    ensures below { result.1 ≡ is_lt (version_key_order one.now other.now) }
{
    (one.cmp(other), one < other)
}
