ghost use Rattle.std.specs.Prelude.{◌≡◌};
ghost use Rattle.ob_model.specs.Endings as endings;
ghost use Rattle.ob_words.specs.Conversion.{residue};
ghost use Rattle.ob_commands.specs.Answers.{fault_status, status_of};

use ob_code::BadImage;
use ob_model::Ending;
use ob_tree::{SourceFault, SyntaxKind};

/// What a job comes to.
///
/// `Done` where the command did its work and ran nothing, `Usage` where the words ask for nothing,
/// `FileFault` and `FileLong` where the file can't be had or is too long, `Refused` where the source is at
/// fault, `Bad` where the image is, `Ran` where a run came to an ending, and `NotYet` where a command, a
/// source or an image can't be done yet.
#[derive(Clone, Copy)]
pub enum Answer {
    Done,
    Usage,
    FileFault,
    FileLong,
    Refused(SourceFault),
    Bad(BadImage),
    Ran(Ending),
    NotYet,
}

/// The status of a program's own ending: its number modulo 128, as the non-negative remainder.
fn own_status(number: i64) -> u8
    ensures { result ≡ residue 128 number }
{
    number.rem_euclid(128) as u8
}

fn ending_status(ending: Ending) -> u8
    ensures { result ≡ endings.status_of ending }
{
    match ending {
        Ending::Ended(number) => own_status(number),
        Ending::Steps => 136,
        Ending::Divide => 137,
        Ending::Stack => 138,
        Ending::Descriptors => 139,
        Ending::Far => 140,
        Ending::Spent => 141,
        Ending::ReadFault => 142,
        Ending::WriteFault => 143,
        Ending::NoMemory => 144,
    }
}

fn fault_status(fault: SourceFault) -> u8
    ensures { result ≡ fault_status fault }
{
    match fault {
        SourceFault::Lex { .. } => 131,
        SourceFault::Syntax {
            kind: SyntaxKind::NoTree,
            ..
        } => 132,
        SourceFault::Syntax {
            kind: SyntaxKind::TooDeep,
            ..
        } => 134,
        SourceFault::Typing { .. } => 133,
        SourceFault::Statics | SourceFault::Code => 134,
        SourceFault::NoMemory => 144,
    }
}

impl Answer {
    /// The exit status of the answer.
    pub(crate) fn status(self) -> u8
        ensures { result ≡ status_of self }
    {
        match self {
            Answer::Done => 0,
            Answer::Usage => 128,
            Answer::FileFault => 129,
            Answer::FileLong => 130,
            Answer::Refused(fault) => fault_status(fault),
            Answer::Bad(_) => 135,
            Answer::Ran(ending) => ending_status(ending),
            Answer::NotYet => 145,
        }
    }
}
