/// The addresses of an inode's partition: from the base on, up to the one before the end.
#[derive(Clone, Copy, Debug)]
pub struct Extent {
    pub base: u64,
    pub end: u64,
    pub inode: u64,
}
