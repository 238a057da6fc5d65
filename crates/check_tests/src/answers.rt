ghost use Rattle.ct_base.specs.Head.{HasHead};

use crate::volume::image;
use ct_base::{PARTITION_SLOT, ROOT_WORD, STAGING_SLOT};
use ct_check::{CheckFault, check, check_head};
use ct_marks::are_zero;
use ct_pm::Pm;
use std::alloc::Global;

/// The number of free pages, or the first of the rules from 8 on that fails. Root slots 2 to 9 are set in none of these images.
fn free_pages<D: Pm>(alloc: Global, dev: &D) -> Result<u64, CheckFault>
    requires head { HasHead (D.words dev.now) }
{
    if !are_zero(dev, ROOT_WORD + STAGING_SLOT, ROOT_WORD + PARTITION_SLOT) {
        return Err(CheckFault::Memory);
    }
    match check(alloc, dev) {
        Ok(frames) => Ok(frames.free()),
        Err(fault) => Err(fault),
    }
}

/// The number of free pages of an image, or the first rule that fails.
pub fn answer_on<D: Pm>(alloc: Global, dev: &D) -> Result<u64, CheckFault> {
    match check_head(dev) {
        Ok(()) => free_pages(alloc, dev),
        Err(rule) => Err(CheckFault::Damage(rule)),
    }
}

/// The same of the image with these words set anew, one list after the other.
pub fn answer(alloc: Global, first: &[(u64, u64)], then: &[(u64, u64)]) -> Result<u64, CheckFault> {
    match image(alloc, first, then) {
        Some(dev) => answer_on(alloc, &dev),
        None => Err(CheckFault::Memory),
    }
}
