// How many replies there are of each kind.
ghost use Rattle.std.specs.Prelude.{◌≡◌, []};
ghost use Rattle.ct_script.specs.Shows.{reply_of};
ghost use Rattle.ct_tally.specs.Tallies.{CanCount, counts_of, with_reply};

use ct_script::Shown;

/// How many calls were answered, and how many of the replies were of a kind.
#[derive(Clone, Copy, Debug, PartialEq, Eq)]
pub struct Counts {
    pub calls: u64,

    /// The calls that were done.
    pub done: u64,

    /// The replies with bytes that were read.
    pub reads: u64,
    pub refused: u64,
}

/// The counts before a call was answered.
pub fn no_replies() -> Counts
    ensures { result ≡ counts_of [] }
{
    Counts {
        calls: 0,
        done: 0,
        reads: 0,
        refused: 0,
    }
}

/// The counts with one reply more.
pub fn counted(counts: Counts, reply: &Shown<'_>) -> Counts
    requires { CanCount counts }
    ensures { result ≡ with_reply counts (reply_of reply.now) }
{
    let calls = counts.calls + 1;
    match *reply {
        Shown::Done => Counts {
            calls,
            done: counts.done + 1,
            ..counts
        },
        Shown::Data(_) => Counts {
            calls,
            reads: counts.reads + 1,
            ..counts
        },
        Shown::Refused(_) => Counts {
            calls,
            refused: counts.refused + 1,
            ..counts
        },
        _ => Counts { calls, ..counts },
    }
}
