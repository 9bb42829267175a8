ghost use Rattle.std.specs.Prelude.{◌≡◌, IfOk};
ghost use Rattle.std.specs.BTreeMap.{IsOrdered};
ghost use Rattle.std.specs.Map.{keys_of};

use sg_base::OutOfMemory;
use std::alloc::Global;
use std::collections::BTreeMap;

/// The keys of a map, in their order.
pub fn all_keys<K: Ord + Copy, V>(
    alloc: Global,
    map: &BTreeMap<K, V>,
) -> Result<Vec<K>, OutOfMemory>
    ensures keys { IfOk result (λ keys. keys.items ≡ keys_of map.now.entries) }
    ensures ordered { IsOrdered K.cmp map.now }
{
    match map.keys().copied().collect(alloc) {
        Ok(keys) => Ok(keys),
        Err(_) => Err(OutOfMemory),
    }
}
