// What plans ask for, worked out by hand.
use ct_base::{FILE_KIND, Inode, SLOT_PAGES, SLOT_SPAN};
use ct_plan::{alike, edge, write_wants};
use ct_walk::Want;

// Height, address and length of a want.
fn parts(want: &Want) -> (u32, u64, u64) {
    (want.height, want.at.get(), want.len)
}

#[test]
fn a_write_that_grows_asks_for_four_wants(rt: HostRuntime) {
    // an old partition of level 4, 8 blocks of 512 pages, of which the first page is not written
    let inode = Inode {
        kind: FILE_KIND,
        size: 4096,
        base: 10 * SLOT_SPAN,
        level: 4,
    };
    let wants = write_wants(inode, 4096, 4096 * 8 * 512, 11 * SLOT_SPAN);
    let want = [
        (1, 10 * SLOT_SPAN + 4096, 1),
        (2, 11 * SLOT_SPAN + 4096, 1),
        (1, 11 * SLOT_SPAN + 4096 * 4096, 1),
        (0, 2 * SLOT_SPAN + 4096, 4096 * 4096),
    ];
    for (found, want) in wants.iter().zip(want) {
        assert_eq!(rt; parts(found), want);
    }
}

#[test]
fn pages_lie_alike_up_to_a_height(rt: HostRuntime) {
    let heights = [
        alike(3, 1, 513),
        alike(3, 0, SLOT_PAGES),
        alike(1, 0, SLOT_PAGES),
    ];
    assert_eq!(rt; heights, [1, 3, 1]);
    assert_eq!(rt; [edge(3, 511), edge(3, 512), edge(3, 0)], [1, 2, 4]);
}
