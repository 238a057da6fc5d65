// The names of a path are learnt.
ghost use Rattle.std.specs.Prelude.{◌≢◌, IfSome};
ghost use Rattle.ct_cache.specs.Agrees.{Agrees};
ghost use Rattle.ct_cache.specs.Seen.{known_in};
ghost use Rattle.ct_commit.specs.Rest.{IsAtRest};
ghost use Rattle.ct_tree.specs.Lands.{files};

use ct_base::{DIRECTORY_KIND, NAME_BYTES};
use ct_cache::Caches;
use ct_inode::get;
use ct_path::parse;
use ct_pm::Pm;

/// The inode of the root directory.
const ROOT: u64 = 1;

// Learns a name in an inode's directory, unless it is known; the inode to which it leads.
fn learn_step<D: Pm>(caches: &mut Caches, dev: &D, number: u64, name: &[u8]) -> Option<u64>
    requires known { Agrees (known_in caches.old) (D.words dev.now) }
    requires rest { IsAtRest (D.words dev.now) }
    requires live { (files (D.words dev.now) number).kind ≢ 0 }
    ensures known { Agrees (known_in caches.new) (D.words dev.now) }
    ensures live { IfSome result (λ next. (files (D.words dev.now) next).kind ≢ 0) }
{
    if let Some(found) = caches.look_name(number, name) {
        return Some(found.inode);
    }
    let dir = get(dev, number);
    if dir.kind != DIRECTORY_KIND || name.len() > NAME_BYTES {
        return None;
    }
    caches.learn_name(dev, number, name);
    match caches.look_name(number, name) {
        Some(found) => Some(found.inode),
        None => None,
    }
}

/// Learns the names of a path that are not known; the inode to which they lead.
pub fn learn_names<D: Pm>(caches: &mut Caches, dev: &D, path: &[u8]) -> Option<u64>
    requires known { Agrees (known_in caches.old) (D.words dev.now) }
    requires rest { IsAtRest (D.words dev.now) }
    ensures known { Agrees (known_in caches.new) (D.words dev.now) }
    ensures live { IfSome result (λ inode. (files (D.words dev.now) inode).kind ≢ 0) }
{
    let names = match parse(path) {
        Some(names) => names,
        None => return None,
    };
    let mut number = ROOT;
    for name in names {
        match learn_step(caches, dev, number, name) {
            Some(next) => number = next,
            None => return None,
        }
    }
    Some(number)
}
