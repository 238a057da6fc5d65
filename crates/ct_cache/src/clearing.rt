// Tables that are emptied.
ghost use Rattle.std.specs.Prelude.{◌≡◌, ℕ, None, length, slice_index_or};

/// Empties all cells of a table.
pub fn clear_all<T: Drop>(cells: &mut Vec<Option<T>>)
    ensures size { length cells.new.items ≡ length cells.old.items }
    ensures cells { (i : ℕ) → slice_index_or cells.new.items i None ≡ None }
{
    for i in 0..cells.len() {
        cells[i] = None;
    }
}
