/// A live block: its place, counted from the heap's first byte, and its length in bytes.
#[derive(Clone, Copy, Debug, PartialEq, Eq)]
pub(crate) struct LiveBlock {
    pub(crate) place: u32,
    pub(crate) length: u32,
}
