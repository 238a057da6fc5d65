// Whether a path lies below another.
ghost use Rattle.std.specs.Prelude.{◌≡◌};
ghost use Rattle.ct_tree.specs.Resolve.{lies_below};

use ct_path::Names;

/// Whether the second names begin with the first, and go on.
pub(crate) fn lies_below(names: Names<'_>, to: Names<'_>) -> bool
    ensures { result ≡ lies_below names.entry to.entry }
{
    let mut left = to;
    for name in names {
        match left.next() {
            None => return false,
            Some(other) => {
                if *name != *other {
                    return false;
                }
            }
        }
    }
    left.next().is_some()
}
