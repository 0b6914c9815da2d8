// Items that are put behind others.
ghost use Rattle.std.specs.Prelude.{◌≡◌, [], ◌∷◌, ◌++◌, OnOk};

use sqlite_items::Items;
use std::alloc::AllocError;

/// Puts an item behind those before.
pub(crate) fn keep<T: Copy>(items: &mut Items<T>, item: T) -> Result<(), AllocError>
    ensures { OnOk result (items.new ≡ items.old ++ item ∷ []) }
{
    items.push(item)
}
