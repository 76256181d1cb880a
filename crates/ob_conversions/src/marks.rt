/// Where an expression stands: the place of its first token and that of its own sign, both counted from 0,
/// and the line of the first token.
#[derive(Clone, Copy)]
pub struct Mark {
    pub first: u32,
    pub at: u32,
    pub line: u32,
}
