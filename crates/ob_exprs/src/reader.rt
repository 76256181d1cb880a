use crate::stack::Stack;
use crate::state::Mode;

/// What was read.
#[derive(Drop)]
pub struct Reader {
    pub stack: Stack,
    pub mode: Mode,
}

/// What one token leads to.
#[derive(Drop)]
pub enum Shift {
    Shifted(Reader),
    /// No tree goes on so. What was read stands for the same whole tree as before, if for any.
    Ended(Reader),
    /// No tree goes on so, and what was read is no whole tree.
    Rejected,
}
