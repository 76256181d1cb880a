/// What becomes of stray accesses: they vanish (failure-oblivious computing), or they reach granules that
/// each object has outside its bounds (boundless memory blocks).
#[derive(Clone, Copy, Debug, PartialEq, Eq)]
pub enum Mode {
    Oblivious,
    Boundless,
}

/// What becomes of a heap object that is freed. Under `One` it dies. Under `Two` it stays known: its block
/// isn't given out again, each access through its pointer is a stray one that vanishes, and the pointer may
/// still be moved and compared.
#[derive(Clone, Copy, Debug, PartialEq, Eq)]
pub enum Profile {
    One,
    Two,
}

/// How a program is run: the mode, the most granules that are kept outside of objects (1 to 1,048,576),
/// the most pointers that are kept out of bounds (at most 1,048,576), the bytes of the heap (at most
/// 67,108,864), and what becomes of freed objects.
#[derive(Clone, Copy, Debug, PartialEq, Eq)]
pub struct RunSettings {
    pub mode: Mode,
    pub store: u64,
    pub away: u64,
    pub heap: u64,
    pub profile: Profile,
}
