// The pages that index steps have met.
ghost use Rattle.std.specs.Prelude.{◌≡◌, ◌≢◌, ◌||◌, ℕ, ◌<◌, true, length, IfOk};
ghost use Rattle.ct_marks.specs.Marks.{is_marked, AreBlank, Marked};

use ct_base::NoMemory;
use std::alloc::Global;

/// The pages met so far, by index steps of any number, and whether one was met twice.
#[derive(Drop)]
pub struct Met {
    pub pages: Vec<u8>,
    pub twice: bool,
}

/// A mark for each of so many pages, none of them set.
pub fn no_marks(alloc: Global, pages: u64) -> Result<Vec<u8>, NoMemory>
    ensures length { IfOk result (λ v. length v.items ≡ pages) }
    ensures blank { IfOk result (λ v. AreBlank v.items) }
{
    match vec![in alloc; 0u8; pages as usize] {
        Ok(marks) => Ok(marks),
        Err(_) => Err(NoMemory),
    }
}

/// Whether a page is marked.
pub fn has_mark(marks: &Vec<u8>, page: u64) -> bool
    requires { page < length marks.now.items }
    ensures { result ≡ is_marked marks.now.items page }
{
    marks[page as usize] != 0
}

/// Marks a page.
pub fn set_mark(marks: &mut Vec<u8>, page: u64)
    requires { page < length marks.old.items }
    ensures { Marked page marks.old.items marks.new.items }
{
    marks[page as usize] = 1;
}

/// Marks a page that an entry names.
pub fn meet(next: &mut Vec<u8>, met: &mut Met, page: u64)
    requires next { page < length next.old.items }
    requires met { page < length met.old.pages.items }
    ensures next { Marked page next.old.items next.new.items }
    ensures met { Marked page met.old.pages.items met.new.pages.items }
    ensures twice { met.new.twice ≡ (met.old.twice || is_marked met.old.pages.items page) }
{
    if has_mark(&met.pages, page) {
        met.twice = true;
    }
    set_mark(&mut met.pages, page);
    set_mark(next, page);
}
