// Images with some words set anew, and the first mount rule that fails on each.

use ct_base::{PARTITION_SLOT, SLOT_SPAN};

// The first address of root slot 10.
const BASE: u64 = PARTITION_SLOT * SLOT_SPAN;

// The length of a name of one byte in a slot, beside an inode.
const ONE_BYTE: u64 = 1 << 32;

/// The image of a format.
pub const EMPTY: &[(u64, u64)] = &[];

// A file at the front of root slot 10, and one in all of it.
const SMALL_FILE: &[(u64, u64)] = &[(18960, 1), (18962, BASE)];

const LARGE_FILE: &[(u64, u64)] = &[(18960, 1), (18962, BASE), (18963, 9)];

// The tables of the first page of root slot 10, which is page 45 and begins with a byte other than 0.
const PAGE: &[(u64, u64)] = &[
    (16906, 172033),
    (21504, 176129),
    (22016, 180225),
    (22528, 184321),
    (23040, 1),
];

/// A root directory in all of root slot 10, with two files.
pub const TWO_FILES: &[(u64, u64)] = &[
    (18953, 512),
    (18954, BASE),
    (18955, 9),
    (18960, 1),
    (18963, 15),
    (18968, 1),
    (18971, 15),
    (20993, 0x0010_3030),
    (16906, 172033),
    (21504, 176129),
    (22016, 180225),
    (22528, 184321),
    (23040, 2 + ONE_BYTE),
    (23041, 97),
    (23072, 3 + ONE_BYTE),
    (23073, 98),
];

// Two directories in root slots 10 and 11, each of which the other names.
const TWO_DIRECTORIES: &[(u64, u64)] = &[
    (18960, 2),
    (18961, 256),
    (18962, BASE),
    (18963, 9),
    (18968, 2),
    (18969, 256),
    (18970, BASE + SLOT_SPAN),
    (18971, 9),
    (20993, 0x1010_3030),
    (16906, 172033),
    (21504, 176129),
    (22016, 180225),
    (22528, 184321),
    (23040, 3 + ONE_BYTE),
    (23041, 101),
    (16907, 188417),
    (23552, 192513),
    (24064, 196609),
    (24576, 200705),
    (25088, 2 + ONE_BYTE),
    (25089, 120),
];

/// What is set in the image of a format with 256 pages and 16 inodes, what is set after it, and the first rule that fails then.
pub const ROWS: [(&[(u64, u64)], &[(u64, u64)], u32); 30] = [
    (EMPTY, &[(0, 0)], 1),
    (EMPTY, &[(1, 2)], 2),
    (EMPTY, &[(2, 257)], 3),
    (EMPTY, &[(3, 1)], 4),
    (EMPTY, &[(4, 1)], 5),
    (EMPTY, &[(512, 8185)], 6),
    (EMPTY, &[(512, 1), (527, 1)], 6),
    (EMPTY, &[(512, 1), (528, 3)], 7),
    (EMPTY, &[(16897, 155650)], 8),
    // page 37, of data, is met as a table of level 1 too: its word 8 is 2
    (EMPTY, &[(17921, 151553)], 8),
    (EMPTY, &[(17413, 139265)], 9),
    (EMPTY, &[(18952, 1)], 10),
    (EMPTY, &[(18955, 10)], 11),
    (SMALL_FILE, &[(18968, 1), (18970, BASE)], 12),
    (SMALL_FILE, PAGE, 13),
    // the same without the file
    (EMPTY, PAGE, 14),
    (EMPTY, &[(20993, 0x0029_3030)], 15),
    (EMPTY, &[(20993, 0x0010_3030)], 15),
    (LARGE_FILE, &[(20993, 0x3030)], 15),
    (EMPTY, &[(18944, 1)], 16),
    (TWO_FILES, &[(23072, 3)], 17),
    (TWO_FILES, &[(23072, 4 + ONE_BYTE)], 17),
    (TWO_FILES, &[(23073, 47)], 17),
    // a byte of padding
    (TWO_FILES, &[(23073, 25186)], 17),
    (TWO_FILES, &[(23073, 97)], 18),
    // inodes without a name, with no partition and with one; a name of the root, and a file with two names
    (EMPTY, &[(18960, 1), (18963, 15)], 19),
    (LARGE_FILE, &[(20993, 0x0010_3030)], 19),
    (TWO_FILES, &[(23072, 1 + ONE_BYTE)], 19),
    (TWO_FILES, &[(23072, 2 + ONE_BYTE)], 19),
    (TWO_DIRECTORIES, EMPTY, 20),
];
