/// How a run ended: with the program's own status, at one of its limits or traps, or because a device or
/// memory failed.
#[derive(Clone, Copy, Debug, PartialEq, Eq)]
pub enum Ending {
    /// The program ended with this `int` (C99 5.1.2.2.3 and 7.20.4.3).
    Ended(i64),
    /// No step was left.
    Steps,
    /// A division or remainder by zero.
    Divide,
    /// A call would not fit the stack.
    Stack,
    /// A pointer left its object, and no more such pointers can be kept.
    Descriptors,
    /// An offset lies outside -2^62 to 2^62.
    Far,
    /// The machine did as many instructions as it may.
    Spent,
    /// A read of the input failed.
    ReadFault,
    /// A write of the output failed.
    WriteFault,
    /// Too little memory.
    NoMemory,
}
