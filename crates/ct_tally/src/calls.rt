// The calls of a workload, one after another.
ghost use Rattle.std.specs.Prelude.{◌≡◌, ◌≤◌, ◌<◌, ◌^◌, ℕ, length};
ghost use Rattle.ct_call.specs.Calls.{Keeps};
ghost use Rattle.ct_tree.specs.Runs.{call as call_item};
ghost use Rattle.ct_tree.specs.Tree.{Tree};
ghost use Rattle.ct_gen.specs.Made.{gen_op};
ghost use Rattle.ct_shell.specs.Shows.{Replies};
ghost use Rattle.ct_tally.specs.Tallies.{counts_of};
ghost use Rattle.ct_tally.specs.Tried.{Tries, items_of};

use crate::counts::{Counts, counted, no_replies};
use ct_base::{NameBuf, PAGE_BYTES};
use ct_fs::Fs;
use ct_gen::{Gen, GenCall};
use ct_pm::{Pm, PmFault};
use ct_script::Shown;
use ct_shell::{reply_to_change, reply_to_read};
use ct_tree::Call;

/// Makes one call, and answers its reply. There is none where the device failed.
fn answer<'a, D: Pm>(fs: &mut Fs<D>, made: &GenCall, page: &'a mut [u8]) -> Option<Shown<'a>>
    requires { PAGE_BYTES ≤ length page.old }
    ensures { (inodes : ℕ) (t : Tree) → Keeps inodes fs.old.state t
        → Replies inodes t (call_item (gen_op made.now)) fs.old.state fs.new.state result }
{
    let mut first = NameBuf::new();
    let mut second = NameBuf::new();
    let call = made.call(&mut first, &mut second);
    match call {
        Call::Read { path, off, len } => reply_to_read(fs, path, off, len, page),
        _ => reply_to_change(fs, &call),
    }
}

/// Makes the calls, and counts their replies, until the device fails.
pub fn make_all<D: Pm>(fs: &mut Fs<D>, calls: Gen, page: &mut [u8]) -> Result<Counts, PmFault>
    requires few { length calls < 2 ^ 32 }
    requires page { PAGE_BYTES ≤ length page.old }
    ensures { (inodes : ℕ) (t : Tree) → Keeps inodes fs.old.state t
        → Tries inodes t (items_of calls) fs.old.state fs.new.state (λ counts replies left. counts ≡ counts_of replies) result }
{
    let mut calls = calls;
    let mut counts = no_replies();
    'calls: loop {
        let made = match calls.next() {
            Some(made) => made,
            None => return Ok(counts),
        };
        match answer(fs, &made, page) {
            Some(reply) => counts = counted(counts, &reply),
            None => return Err(PmFault),
        }
    }
}
