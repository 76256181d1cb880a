ghost use Rattle.std.specs.Prelude.{MatchResult};
ghost use Rattle.ob_commands.specs.Parts.{IsLoaded};
ghost use Rattle.ob_commands.specs.Delivery.{IsNoFile};

use crate::answer::Answer;
use crate::came::Came;
use ob_base::{FileAnswer, Folder};
use std::alloc::Global;

/// The bytes of the file of this name, which are at most so many; or what it came to that there are none.
pub fn load<F: Folder>(
    alloc: Global,
    name: &str,
    most: usize,
    folder: &mut F,
) -> Result<Vec<u8>, Came>
    ensures { MatchResult result
        (λ bytes. IsLoaded (record { files = F.files folder.old; faults_before = F.faults folder.old; faults_now = F.faults folder.new }) name.now most bytes.items)
        (IsNoFile (record { files = F.files folder.old; faults_before = F.faults folder.old; faults_now = F.faults folder.new }) name.now most) }
{
    match folder.load(alloc, name, most) {
        Ok(bytes) => Ok(bytes),
        Err(FileAnswer::Failed) => Err(Came::Due(Answer::FileFault, 0)),
        Err(FileAnswer::Long) => Err(Came::Due(Answer::FileLong, 0)),
        Err(FileAnswer::NoMemory) => Err(Came::Starved),
    }
}
