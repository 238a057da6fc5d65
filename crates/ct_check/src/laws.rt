// What holds of every image.
ghost use Rattle.std.specs.Prelude.{◌≡◌, ◌↔◌, ℕ, List};
ghost use Rattle.ct_base.specs.Head.{HasHead, HeadRule};
ghost use Rattle.ct_base.specs.Headers.{is_one};
ghost use Rattle.ct_base.specs.Inode.{little, live_parts};
ghost use Rattle.ct_base.specs.Published.{IsLocal, shows_live};
ghost use Rattle.ct_base.specs.Rules.{AreHeaders, ArePartsApart, ArePlaced, FailsFirst, Rule, Sound, number};
ghost use Rattle.ct_base.specs.Settled.{settled};
ghost use Rattle.ct_base.specs.View.{inode_count, view};
ghost use Rattle.ct_check.specs.First.{MountFailsFirst, MountHolds, MountRule, body, head, mount_number};
ghost use Rattle.ct_placing.specs.Heading.{LooksRight};
ghost use Rattle.ct_check.specs.Heads.{HeadFailsFirst};

/// Of the mount rules 0 to 20 at most one is the first that fails. It is the first of rules 0 to 7 that fails; where none of
/// these does, it is the first of rules 8 to 20 that fails on what the image settles to; where none of these does either, all
/// hold.
pub fn one_mount_rule_fails_first()
    ensures one { (img : List ℕ) (r s : MountRule) → MountFailsFirst img r → MountFailsFirst img s → mount_number r ≡ mount_number s }
    ensures head { (img : List ℕ) (r : HeadRule) → HeadFailsFirst img r ↔ MountFailsFirst img (head r) }
    ensures body { (img : List ℕ) (r : Rule) → (HasHead img × FailsFirst (settled img) r) ↔ MountFailsFirst img (body r) }
    ensures none { (img : List ℕ) → (HasHead img × Sound (settled img)) ↔ ((r : MountRule) → MountHolds img r) }
{}

/// Where the partitions of live inodes are partitions that do not meet, root slot 1 is their headers exactly where each of its
/// header words is right by the words next to it, and its bytes show these partitions live and no other. Of the words only
/// those that are not 0 need a look.
pub fn headers_stand_where_each_word_is_right()
    ensures local { (img : List ℕ) → ArePlaced (view img) (inode_count img) → ArePartsApart (view img) (inode_count img) →
        AreHeaders (view img) (inode_count img) ↔ (IsLocal (λ a. little (view img) a 8)
        × ((n j : ℕ) → shows_live (λ a. little (view img) a 8) n j ≡ is_one (live_parts (view img) (inode_count img)) n j)) }
    ensures look { (img : List ℕ) → IsLocal (λ a. little (view img) a 8) ↔ LooksRight (λ a. little (view img) a 8) }
{}
