/// What the image says of a file or a directory: the first four of the eight words of its inode.
#[derive(Clone, Copy, Debug, PartialEq, Eq)]
pub struct Inode {
    /// 0 is free, `FILE_KIND` a file, `DIRECTORY_KIND` a directory.
    pub kind: u64,

    /// The length in bytes.
    pub size: u64,

    /// The address of the partition, 0 where there is none.
    pub base: u64,

    /// The level of the partition, 0 to `TOP_LEVEL`, or `NO_PARTITION`.
    pub level: u64,
}
