ghost use Rattle.std.specs.Prelude.{◌≤◌, ◌^◌, length, MatchResult};
ghost use Rattle.ob_first.specs.Sources.{IsCompiled, Refuses};

use crate::first_form::first_image;
use crate::refusal::Refusal;
use ob_base::NoMemory;
use ob_code::Verified;
use ob_sources::read;
use ob_tree::SourceFault;
use std::alloc::Global;

/// The image of a source of at most 1,048,576 bytes, which is a program of the first form.
///
/// - `Fault`: the first fault of the tokens (C99 6.4), else that of the syntax (6.5 to 6.9), with the line
///   and the column where it stands, both counted from 1; or want of memory.
/// - `NotYet`: the source is a program of another form.
pub fn compile_first(alloc: Global, bytes: &[u8]) -> Result<Verified, Refusal>
    requires { length bytes.now ≤ 2 ^ 20 }
    ensures { MatchResult result (IsCompiled bytes.now) (Refuses bytes.now) }
{
    let source = match read(alloc, bytes) {
        Ok(source) => source,
        Err(fault) => return Err(Refusal::Fault(fault)),
    };
    match first_image(alloc, &source.program) {
        Ok(Some(image)) => Ok(image),
        Ok(None) => Err(Refusal::NotYet),
        Err(NoMemory) => Err(Refusal::Fault(SourceFault::NoMemory)),
    }
}
