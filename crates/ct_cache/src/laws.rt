// What holds of all caches.
ghost use Rattle.ct_cache.specs.Known.{HasAtMost};
ghost use Rattle.ct_cache.specs.Seen.{known_in};

use crate::caches::Caches;

/// Caches know at most 1,024 pages and 256 names.
pub fn caches_are_small(caches: &Caches)
    ensures pages { HasAtMost 1024 (known_in caches.now).pages }
    ensures names { HasAtMost 256 (known_in caches.now).names }
{
    // Nothing is read: this tells how many cells there are.
    let _ = &caches.pages;
}
