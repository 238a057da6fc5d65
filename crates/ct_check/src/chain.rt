// The mount rules in their order: which is the first that fails.
ghost use Rattle.std.specs.Prelude.{◌≡◌, ◌≤◌, IfErr, IfOk};
ghost use Rattle.ct_base.specs.Rules.{Sound};
ghost use Rattle.ct_base.specs.View.{inode_count};
ghost use Rattle.ct_base.specs.Walk.{AreTables, page_count};
ghost use Rattle.ct_check.specs.Rules.{HoldBelow, Tells};

use crate::fault::CheckFault;
use ct_base::{LEAST_INODES, MOST_INODES, MOST_PAGES};
use ct_naming::{are_entries, are_named, are_names_apart, are_reached};
use ct_placing::{
    are_headers, are_in_order, are_inodes, are_mapped_in_parts, are_placed, are_tails_zero,
    is_rest_zero, sorted_extents,
};
use ct_pm::Pm;
use std::alloc::Global;

/// Mount rules 10 and 11, where all lower ones hold.
///
/// # Errors
///
/// `Damage` with the first of them that fails.
fn check_inodes<D: Pm>(dev: &D) -> Result<(), CheckFault>
    requires tables { AreTables (D.words dev.now) }
    requires few { inode_count (D.words dev.now) ≤ MOST_INODES }
    requires below { HoldBelow (D.words dev.now) 10 }
    ensures rules { IfOk result (λ _. HoldBelow (D.words dev.now) 12) }
    ensures damage { IfErr result (Tells (D.words dev.now)) }
{
    if !are_inodes(dev) {
        return Err(CheckFault::Damage(10));
    }
    if !are_placed(dev) {
        return Err(CheckFault::Damage(11));
    }
    Ok(())
}

/// Mount rules 12 to 14, where all lower ones hold.
///
/// # Errors
///
/// `Damage` with the first of them that fails, or `Memory`.
fn check_parts<D: Pm>(alloc: Global, dev: &D) -> Result<(), CheckFault>
    requires tables { AreTables (D.words dev.now) }
    requires pages { page_count (D.words dev.now) ≤ MOST_PAGES }
    requires few { inode_count (D.words dev.now) ≤ MOST_INODES }
    requires below { HoldBelow (D.words dev.now) 12 }
    ensures rules { IfOk result (λ _. HoldBelow (D.words dev.now) 15) }
    ensures damage { IfErr result (Tells (D.words dev.now)) }
{
    let extents = match sorted_extents(alloc, dev) {
        Ok(extents) => extents,
        Err(_) => return Err(CheckFault::Memory),
    };
    if !are_in_order(&extents) {
        return Err(CheckFault::Damage(12));
    }
    if !are_tails_zero(dev) {
        return Err(CheckFault::Damage(13));
    }
    if !are_mapped_in_parts(dev, &extents) {
        return Err(CheckFault::Damage(14));
    }
    Ok(())
}

/// Mount rules 10 to 14, where all lower ones hold.
///
/// # Errors
///
/// `Damage` with the first of them that fails, or `Memory`.
pub fn check_placing<D: Pm>(alloc: Global, dev: &D) -> Result<(), CheckFault>
    requires tables { AreTables (D.words dev.now) }
    requires pages { page_count (D.words dev.now) ≤ MOST_PAGES }
    requires few { inode_count (D.words dev.now) ≤ MOST_INODES }
    requires below { HoldBelow (D.words dev.now) 10 }
    ensures rules { IfOk result (λ _. HoldBelow (D.words dev.now) 15) }
    ensures damage { IfErr result (Tells (D.words dev.now)) }
{
    match check_inodes(dev) {
        Ok(()) => {}
        Err(fault) => return Err(fault),
    }
    check_parts(alloc, dev)
}

/// Mount rule 15, where all lower ones hold.
///
/// # Errors
///
/// `Damage` where it fails, or `Memory`.
pub fn check_headers<D: Pm>(alloc: Global, dev: &D) -> Result<(), CheckFault>
    requires tables { AreTables (D.words dev.now) }
    requires few { inode_count (D.words dev.now) ≤ MOST_INODES }
    requires below { HoldBelow (D.words dev.now) 15 }
    ensures rules { IfOk result (λ _. HoldBelow (D.words dev.now) 16) }
    ensures damage { IfErr result (Tells (D.words dev.now)) }
{
    let right = match are_headers(alloc, dev) {
        Ok(right) => right,
        Err(_) => return Err(CheckFault::Memory),
    };
    if !right {
        return Err(CheckFault::Damage(15));
    }
    Ok(())
}

/// Mount rules 16 and 17, where all lower ones hold.
///
/// # Errors
///
/// `Damage` with the first of them that fails.
fn check_slots<D: Pm>(dev: &D) -> Result<(), CheckFault>
    requires tables { AreTables (D.words dev.now) }
    requires pages { page_count (D.words dev.now) ≤ MOST_PAGES }
    requires few { inode_count (D.words dev.now) ≤ MOST_INODES }
    requires below { HoldBelow (D.words dev.now) 16 }
    ensures rules { IfOk result (λ _. HoldBelow (D.words dev.now) 18) }
    ensures damage { IfErr result (Tells (D.words dev.now)) }
{
    if !is_rest_zero(dev) {
        return Err(CheckFault::Damage(16));
    }
    if !are_entries(dev) {
        return Err(CheckFault::Damage(17));
    }
    Ok(())
}

/// Mount rules 18 to 20, where all lower ones hold.
///
/// # Errors
///
/// `Damage` with the first of them that fails, or `Memory`.
fn check_names<D: Pm>(alloc: Global, dev: &D) -> Result<(), CheckFault>
    requires tables { AreTables (D.words dev.now) }
    requires pages { page_count (D.words dev.now) ≤ MOST_PAGES }
    requires least { LEAST_INODES ≤ inode_count (D.words dev.now) }
    requires few { inode_count (D.words dev.now) ≤ MOST_INODES }
    requires below { HoldBelow (D.words dev.now) 18 }
    ensures rules { IfOk result (λ _. HoldBelow (D.words dev.now) 21) }
    ensures damage { IfErr result (Tells (D.words dev.now)) }
{
    let apart = match are_names_apart(alloc, dev) {
        Ok(apart) => apart,
        Err(_) => return Err(CheckFault::Memory),
    };
    if !apart {
        return Err(CheckFault::Damage(18));
    }
    let named = match are_named(alloc, dev) {
        Ok(named) => named,
        Err(_) => return Err(CheckFault::Memory),
    };
    if !named {
        return Err(CheckFault::Damage(19));
    }
    let reached = match are_reached(alloc, dev) {
        Ok(reached) => reached,
        Err(_) => return Err(CheckFault::Memory),
    };
    if !reached {
        return Err(CheckFault::Damage(20));
    }
    Ok(())
}

/// Mount rules 16 to 20, where all lower ones hold.
///
/// # Errors
///
/// `Damage` with the first of them that fails, or `Memory`.
pub fn check_files<D: Pm>(alloc: Global, dev: &D) -> Result<(), CheckFault>
    requires tables { AreTables (D.words dev.now) }
    requires pages { page_count (D.words dev.now) ≤ MOST_PAGES }
    requires least { LEAST_INODES ≤ inode_count (D.words dev.now) }
    requires few { inode_count (D.words dev.now) ≤ MOST_INODES }
    requires below { HoldBelow (D.words dev.now) 16 }
    ensures sound { IfOk result (λ _. Sound (D.words dev.now)) }
    ensures damage { IfErr result (Tells (D.words dev.now)) }
{
    match check_slots(dev) {
        Ok(()) => {}
        Err(fault) => return Err(fault),
    }
    check_names(alloc, dev)
}
