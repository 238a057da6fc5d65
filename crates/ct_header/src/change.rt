ghost use Rattle.std.specs.Prelude.{◌+◌, ◌<◌, ◌≤◌, OnOk};
ghost use Rattle.ct_base.specs.Causes.{HasCause};
ghost use Rattle.ct_level.specs.Any.{partition};
ghost use Rattle.ct_record.specs.Seen.{Drafts, count_of, faults_under, pairs_of, words_under};
ghost use Rattle.ct_header.specs.Drafted.{AddsPairs, AreThere, NamesHeader};
ghost use Rattle.ct_words.specs.Drafted.{MapsAlike};
ghost use Rattle.ct_record.specs.Seen.{drafted};
ghost use Rattle.ct_header.specs.Drafted.{JoinsLive, KeepsOtherBytes, LeavesLive};
ghost use Rattle.ct_words.specs.Drafted.{KeepsCells};

use crate::address::MOST_WORDS;
use crate::path::set_path;
use ct_base::MOST_LONG_PAIRS;
use ct_level::AnyPart;
use ct_pm::{Pm, PmFault};
use ct_record::Draft;

/// Drafts that a free partition becomes live: a pair for each header word on its path up to the first that stays, read
/// through the draft.
///
/// After an error the draft has some of these pairs, and is to be abandoned.
///
/// # Errors
///
/// `PmFault` where the device failed.
pub fn take<D: Pm>(draft: &mut Draft<D>, part: AnyPart) -> Result<(), PmFault>
    requires maps { MapsAlike 1 (words_under draft.old) (drafted draft.old) }
    requires there { AreThere (words_under draft.old) (partition part) }
    requires room { count_of draft.old + MOST_WORDS ≤ MOST_LONG_PAIRS }

    ensures stand { OnOk result (JoinsLive (partition part) (drafted draft.old) (drafted draft.new)) }
    ensures bytes { OnOk result (KeepsOtherBytes (partition part) (drafted draft.old) (drafted draft.new)) }
    ensures cells { OnOk result (KeepsCells (drafted draft.old) (drafted draft.new)) }
    ensures maps { OnOk result (MapsAlike 1 (words_under draft.new) (drafted draft.new)) }

    ensures pairs { AddsPairs (NamesHeader (words_under draft.old) (partition part)) (pairs_of draft.old) (pairs_of draft.new) }
    ensures some { OnOk result (count_of draft.old < count_of draft.new) }
    ensures count { OnOk result (count_of draft.new + (partition part).level ≤ count_of draft.old + MOST_WORDS) }
    ensures drafts { Drafts draft.old draft.new }
    ensures cause { HasCause (faults_under draft.old) (faults_under draft.new) result }
{
    let (level, number) = part.place();
    set_path(draft, level, number, 16)?;
    Ok(())
}

/// Drafts that a live partition becomes free: a pair for each header word on its path up to the first that stays, read
/// through the draft. What is whole and free again joins.
///
/// After an error the draft has some of these pairs, and is to be abandoned.
///
/// # Errors
///
/// `PmFault` where the device failed.
pub fn release<D: Pm>(draft: &mut Draft<D>, part: AnyPart) -> Result<(), PmFault>
    requires maps { MapsAlike 1 (words_under draft.old) (drafted draft.old) }
    requires there { AreThere (words_under draft.old) (partition part) }
    requires room { count_of draft.old + MOST_WORDS ≤ MOST_LONG_PAIRS }

    ensures stand { OnOk result (LeavesLive (partition part) (drafted draft.old) (drafted draft.new)) }
    ensures bytes { OnOk result (KeepsOtherBytes (partition part) (drafted draft.old) (drafted draft.new)) }
    ensures cells { OnOk result (KeepsCells (drafted draft.old) (drafted draft.new)) }
    ensures maps { OnOk result (MapsAlike 1 (words_under draft.new) (drafted draft.new)) }

    ensures pairs { AddsPairs (NamesHeader (words_under draft.old) (partition part)) (pairs_of draft.old) (pairs_of draft.new) }
    ensures some { OnOk result (count_of draft.old < count_of draft.new) }
    ensures count { OnOk result (count_of draft.new + (partition part).level ≤ count_of draft.old + MOST_WORDS) }
    ensures drafts { Drafts draft.old draft.new }
    ensures cause { HasCause (faults_under draft.old) (faults_under draft.new) result }
{
    let (level, number) = part.place();
    set_path(draft, level, number, 0)?;
    Ok(())
}
