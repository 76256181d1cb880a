use ob_tree::SourceFault;

/// Why a source isn't compiled: a fault of its tokens or of its syntax at a place, or want of memory
/// (`Fault`); or it is a program that can't be compiled yet (`NotYet`).
#[derive(Clone, Copy)]
pub enum Refusal {
    Fault(SourceFault),
    NotYet,
}
