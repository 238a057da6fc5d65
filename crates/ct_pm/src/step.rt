/// One step of a device.
#[derive(Clone, Copy, Debug, PartialEq, Eq)]
pub enum Step {
    /// A word was set.
    Store { word: u64, value: u64 },
    /// A line was flushed.
    Flush { line: u64 },
    /// All lines flushed before were waited for.
    Fence,
}
