// The image that a crash leaves, by a choice for each line.
ghost use Rattle.std.specs.Prelude.{◌≡◌, ◌≤◌, ◌*◌, ◌+◌, ◌/◌, ◌%◌, ◌<◌, ℕ, List, length, reverse, IfOk, slice_index};
ghost use Rattle.ct_pm.specs.Images.{History, IsAllowed, after, last, is_fence};
ghost use Rattle.pm_trace.specs.Crash.{AreLastFlushes, AreShown, AreReplayed, IsChosen};

use ct_pm::Step;
use std::alloc::{AllocError, Global};

// The number of the last fence, or 0.
fn last_fence(steps: &[Step]) -> usize
    ensures is { result ≡ last is_fence (reverse steps.now) }
    ensures within { result ≤ length steps.now }
{
    let mut found = 0;
    for (i, step) in steps.iter().enumerate() {
        if let Step::Fence = *step {
            found = i + 1;
        }
    }
    found
}

// The number of each line's last flush, or 0.
fn last_flushes(alloc: Global, steps: &[Step], lines: usize) -> Result<Vec<u64>, AllocError>
    ensures { IfOk result (λ flushes. AreLastFlushes steps.now lines flushes.items) }
{
    let mut flushes = vec![in alloc; 0; lines]?;
    for (i, step) in steps.iter().enumerate() {
        if let Step::Flush { line } = *step
            && line < lines as u64
        {
            flushes[line as usize] = i as u64 + 1;
        }
    }
    Ok(flushes)
}

// The step after which each line is shown.
fn shown_steps(choice: &[u64], clock: u64, mut floors: Vec<u64>) -> Vec<u64>
    ensures { AreShown choice.now clock floors.items result.items }
{
    for i in 0..floors.len() {
        let wish = if i < choice.len() { choice[i] } else { clock };
        floors[i] = floors[i].max(wish.min(clock));
    }
    floors
}

// Makes a step in the words of those lines that go further.
fn replay_step(image: &mut Vec<u64>, step: Step, i: u64, until: &[u64])
    requires { length image.old.items ≤ 8 * length until.now }
    ensures size { length image.new.items ≡ length image.old.items }
    ensures further { (word : ℕ) → word < length image.old.items → i < slice_index until.now (word / 8) →
        slice_index image.new.items word ≡ slice_index (after image.old.items step) word }
    ensures done { (word : ℕ) → word < length image.old.items → slice_index until.now (word / 8) ≤ i →
        slice_index image.new.items word ≡ slice_index image.old.items word }
{
    match step {
        Step::Store { word, value } => {
            if word < image.len() as u64 && i < until[word as usize / 8] {
                image[word as usize] = value;
            }
        }
        Step::Flush { .. } => {}
        Step::Fence => {}
    }
}

// Makes the steps, in each line as far as it says.
fn replay(mut image: Vec<u64>, steps: &[Step], until: &[u64]) -> Vec<u64>
    requires { length image.items ≤ 8 * length until.now }
    ensures { AreReplayed steps.now until.now image.items result.items }
{
    for (i, step) in steps.iter().enumerate() {
        replay_step(&mut image, *step, i as u64, until);
    }
    image
}

// The image in which each line is as it was after the step that is chosen for it, in time for the steps and the lines.
pub fn chosen_image(
    alloc: Global,
    start: &[u64],
    steps: &[Step],
    choice: &[u64],
) -> Result<Vec<u64>, AllocError>
    requires { length start.now % 8 ≡ 0 }
    ensures chosen { IfOk result (λ image. IsChosen choice.now (record { start = start.now; steps = reverse steps.now }) image.items) }
    ensures allowed { IfOk result (λ image. IsAllowed (record { start = start.now; steps = reverse steps.now }) image.items) }
    ensures size { IfOk result (λ image. length image.items ≡ length start.now) }
{
    let fence = last_fence(steps);
    let floors = last_flushes(alloc, &steps[..fence], start.len() / 8)?;
    let until = shown_steps(choice, steps.len() as u64, floors);
    let image = start.to_vec(alloc)?;
    Ok(replay(image, steps, &until))
}
