/// A part of an image, in the order of an image's bytes. `Bytes` stands for bytes that are no image.
#[derive(Clone, Copy, Debug, PartialEq, Eq)]
pub enum Part {
    Bytes,
    Static,
    Pointer,
    Function,
    Main,
    Code,
    Names,
}

/// Where an image is at fault: the first part that breaks a rule, and there the first row that does,
/// counted from 0. Where a part has too many rows it is the number of the first one too many. `Main` has
/// one row.
#[derive(Clone, Copy, Debug, PartialEq, Eq)]
pub struct BadImage {
    pub part: Part,
    pub at: u64,
}
