/// The storage duration of an object (C99 6.2.4 and 7.20.3).
#[derive(Clone, Copy, Debug, PartialEq, Eq)]
pub enum Sort {
    Static,
    Automatic,
    Heap,
}

/// An object of the machine: the address of its first byte, its size in bytes, its number and its storage duration.
#[derive(Clone, Copy, Debug, PartialEq, Eq)]
pub struct Entry {
    pub base: u64,
    pub size: u64,
    pub object: u64,
    pub sort: Sort,
}
