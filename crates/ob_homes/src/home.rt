/// Where a variable is (C99 6.2.4): in a word of the frame, or in bytes of the frame, in the row of this ordinal among those
/// of the function's variables that have bytes. `Unseen` are the bytes of an array or a structure that nothing names.
#[derive(Clone, Copy, Debug, PartialEq, Eq)]
pub enum Home {
    Plain(u32),
    Bytes(u32),
    Unseen(u32),
}

/// Where the variables of a function are, in order; the word that is 0 for the whole call, and the first word that is
/// free for the values of expressions.
#[derive(Debug, Drop)]
pub struct Homes {
    pub list: Vec<Home>,
    pub zero: u32,
    pub free: u32,
}
