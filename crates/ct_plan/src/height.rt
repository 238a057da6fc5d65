// The heights at which ranges of pages lie alike.
ghost use Rattle.std.specs.Prelude.{◌≡◌, ◌+◌, ◌≤◌};
ghost use Rattle.ct_plan.specs.Few.{alike as alike_of, edge as edge_of};

use ct_base::TABLE_ENTRIES;

/// The greatest height up to `top` at which two pages lie alike in their blocks.
pub fn alike(top: u32, a: u64, b: u64) -> u32
    requires { top ≤ 3 }
    ensures exact { result ≡ alike_of top a b }
    ensures low { result ≤ top }
{
    if top == 0 {
        return 0;
    }
    let width = TABLE_ENTRIES.pow(top);
    if a % width == b % width {
        top
    } else {
        alike(top - 1, a, b)
    }
}

/// The lowest table, up to one above `top`, that a range with an end at a page takes only in part.
pub fn edge(top: u32, page: u64) -> u32
    requires { top ≤ 3 }
    ensures exact { result ≡ edge_of top page }
    ensures low { result ≤ top + 1 }
{
    alike(top, page, 0) + 1
}
