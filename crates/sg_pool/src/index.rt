// The list by page number of which frame holds a page.
ghost use Rattle.std.specs.Prelude.{◌≡◌, ◌<◌, ℕ, Some, None, length, slice_set};

// The page is in no frame from now on, where there is one.
pub(crate) fn forget(index: &mut Vec<Option<u32>>, page: Option<u32>)
    requires listed { (n : ℕ) → page ≡ Some n → n < length index.old.items }
    ensures none { page ≡ None → index.new.items ≡ index.old.items }
    ensures some { (n : ℕ) → page ≡ Some n → index.new.items ≡ slice_set index.old.items n None }
{
    if let Some(n) = page {
        index[n as usize] = None;
    }
}
