// The pairs by which a partition is given up.
ghost use Rattle.std.specs.Prelude.{◌≡◌, ◌≢◌, ◌⊎◌, ℕ, ◌+◌, ◌*◌, ◌/◌, ◌<◌, ◌≤◌, [], OnOk};
ghost use Rattle.ct_base.specs.Causes.{HasCause};
ghost use Rattle.ct_base.specs.Inode.{inode as inode_at, IsPart, part};
ghost use Rattle.ct_base.specs.Settled.{Named};
ghost use Rattle.ct_base.specs.View.{view};
ghost use Rattle.ct_base.specs.Walk.{page_at, AreTables};
ghost use Rattle.ct_cut.specs.GivenUp.{AddsGiveUp, CanGiveUp, GivesUp};
ghost use Rattle.ct_level.specs.Any.{partition};
ghost use Rattle.ct_record.specs.Seen.{Drafts, count_of, drafted, faults_under, pairs_of, words_under};
ghost use Rattle.ct_swap.specs.Swap.{LeaveTables};
ghost use Rattle.ct_words.specs.Drafted.{MapsAlike};
ghost use Rattle.ct_write.specs.Recorded.{IsBare};

use ct_base::{Inode, MOST_EXCHANGE_PAIRS, MOST_INODES, Vaddr};
use ct_header::release;
use ct_inode::get;
use ct_level::AnyPart;
use ct_pm::{Pm, PmFault};
use ct_record::Draft;
use ct_swap::pswap;
use ct_write::{page_of, staged_page};

// The partition of an inode that has one.
fn part_of(inode: Inode) -> AnyPart
    requires { IsPart (part inode) }
    ensures { partition result ≡ part inode }
{
    match Vaddr::new(inode.base) {
        Some(base) => match AnyPart::at(inode.level as u32, base) {
            Some(part) => part,
            None => unreachable!(),
        },
        None => unreachable!(),
    }
}

/// Drafts that the partition of an object is given up: the headers on its path, and the exchange of all its pages with
/// those of the staging slot, of which there are none. These are at most 138 pairs. The inode is the one that the device
/// has; what the draft makes of it is left to the caller.
///
/// The headers come first, so that a draft is not searched through the pairs of the exchange. After an error the draft has
/// some of the pairs, and is to be abandoned.
///
/// # Errors
///
/// `PmFault` where the device failed.
pub fn give_up<D: Pm>(draft: &mut Draft<D>, inode: u64) -> Result<(), PmFault>
    requires tables { AreTables (words_under draft.old) }
    requires from { 1 ≤ inode }
    requires to { inode ≤ MOST_INODES }
    requires can { CanGiveUp (words_under draft.old) (inode_at (view (words_under draft.old)) inode) }
    requires maps { MapsAlike 1 (words_under draft.old) (drafted draft.old) }
    requires leave { LeaveTables (words_under draft.old) (pairs_of draft.old) }
    requires room { count_of draft.old ≤ MOST_EXCHANGE_PAIRS }

    // After the pairs the partition is free and empty, and all else is as after those before.
    ensures gives_up { OnOk result (GivesUp (drafted draft.old) (drafted draft.new) (part (inode_at (view (words_under draft.old)) inode))) }

    // They are those of the release and of the exchange, and name no word of a page from root slot 2 on.
    ensures pairs { OnOk result (AddsGiveUp (words_under draft.old) (inode_at (view (words_under draft.old)) inode) (pairs_of draft.old) (pairs_of draft.new)) }
    ensures bare { OnOk result ((w : ℕ) → Named (pairs_of draft.new) w → Named (pairs_of draft.old) w ⊎ IsBare (words_under draft.old) w) }
    ensures some { OnOk result (count_of draft.old < count_of draft.new) }
    ensures few { OnOk result (count_of draft.new ≤ count_of draft.old + 138) }
    ensures drafts { Drafts draft.old draft.new }
    ensures cause { HasCause (faults_under draft.old) (faults_under draft.new) result }
{
    let file = get(draft.dev(), inode);
    release(draft, part_of(file))?;
    let pages = 8u64.pow(file.level as u32);
    pswap(draft, page_of(file.base), staged_page(file.base), pages)?;
    Ok(())
}
