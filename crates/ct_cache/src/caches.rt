// The tables of what is known.
ghost use Rattle.std.specs.Prelude.{◌≡◌, length};
ghost use Rattle.ct_cache.specs.declared.cell.TheConstants.{NAME_CELLS, PAGE_CELLS};

use crate::cell::{NAME_CELLS, NameCell, PAGE_CELLS, PageCell};

/// What is known of a device: pages by the numbers of their virtual pages, and entries by the number of their directory's inode and
/// their name. Contracts see two maps, of at most 1,024 pages and 256 entries.
///
/// Each table has one cell for a key, by its remainder or a fold of its bytes, and what is learnt last takes the cell.
#[derive(Drop)]
pub struct Caches {
    pub(crate) pages: Vec<Option<PageCell>>,
    pub(crate) names: Vec<Option<NameCell>>,
    ghost page_cells: { length pages.items ≡ PAGE_CELLS },
    ghost name_cells: { length names.items ≡ NAME_CELLS },
}
