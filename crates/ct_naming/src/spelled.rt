/// The name in a slot of a directory, by what is sorted of it: the rest is read on the device.
#[derive(Clone, Copy, Debug)]
pub struct Spelled {
    /// The first word of its bytes, the first byte highest.
    pub first: u64,

    /// The offset of the slot.
    pub offset: u64,
}

/// A directory has many slots: each takes two words of memory while its names are compared.
const _: () = prove!(size_of::<Spelled>() == 16);
