/// What a program did at a stray access.
#[derive(Clone, Copy, Debug, PartialEq, Eq)]
pub enum Act {
    Load,
    Store,
    Free,
}

/// A stray access: its source line, what was done, the object's number (0 through the null pointer), the
/// offset in bytes (through the null pointer the displacement), and the size in bytes (0 for `Free`).
#[derive(Clone, Copy, Debug, PartialEq, Eq)]
pub struct StrayEvent {
    pub line: u32,
    pub act: Act,
    pub object: u64,
    pub offset: i64,
    pub size: u32,
}
