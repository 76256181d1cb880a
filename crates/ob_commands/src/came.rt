ghost use Rattle.std.specs.Prelude.{◌≡◌};
ghost use Rattle.ob_commands.specs.Delivery.{came_of};

use crate::answer::Answer;
use ob_model::Ending;

/// How far the program has come with a job, before the error sink is told of it: it has an answer, and the
/// output sink has taken all that is due to it (`Due`); the output sink failed (`Cut`); memory was wanting in
/// a run that keeps stores outside of objects (`Lost`); or there was no memory, and nothing was done
/// (`Starved`). With the number of instructions that were run.
#[derive(Clone, Copy)]
pub enum Came {
    Due(Answer, u64),
    Cut(u64),
    Lost(u64),
    Starved,
}

impl Came {
    /// What a run with this ending came to.
    pub(crate) fn of_run(ending: Ending, instructions: u64) -> Came
        ensures { result ≡ came_of ending instructions }
    {
        match ending {
            Ending::WriteFault => Came::Cut(instructions),
            Ending::NoMemory => Came::Lost(instructions),
            _ => Came::Due(Answer::Ran(ending), instructions),
        }
    }
}
