// Caches that know nothing.
ghost use Rattle.std.specs.Prelude.{◌≡◌, ℕ, None, IfOk, length, replicate};
ghost use Rattle.ct_cache.specs.Known.{Known};
ghost use Rattle.ct_cache.specs.Seen.{known_in};

use crate::caches::Caches;
use crate::cell::{NAME_CELLS, PAGE_CELLS};
use ct_base::NoMemory;
use std::alloc::Global;

// A table of so many cells, all of them empty.
fn empty_cells<T: Drop>(alloc: Global, count: usize) -> Result<Vec<Option<T>>, NoMemory>
    ensures { IfOk result (λ cells. cells.items ≡ replicate count None) }
{
    let mut cells = match Vec::with_capacity(alloc, count) {
        Ok(cells) => cells,
        Err(_) => return Err(NoMemory),
    };
    for _ in 0..count {
        match cells.push(None) {
            Ok(()) => {}
            Err(_) => return Err(NoMemory),
        }
    }
    Ok(cells)
}

impl Caches {
    /// Caches that know nothing. No other call of them takes memory.
    ///
    /// # Errors
    ///
    /// `NoMemory` where memory ran out.
    pub fn new(alloc: Global) -> Result<Caches, NoMemory>
        ensures { IfOk result (λ caches. known_in caches ≡ record { pages = λ p. None; names = λ k. None }) }
    {
        let pages = empty_cells(alloc, PAGE_CELLS)?;
        let names = empty_cells(alloc, NAME_CELLS)?;
        Ok(Caches { pages, names })
    }
}
