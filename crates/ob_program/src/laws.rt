ghost use Rattle.ob_commands.specs.Laws.{AllIsTold, AnswersHaveCauses, BadOnly, CheckOnly, CheckWhen, EndingOnly, FailedWhen, FaultOnly, FaultWhen, FaultsAreTold, FileFaultOnly, FileLongOnly, FileLongWhen, InputIsLeft, LaterWhen, MissingWhen, NoOther, NotYetOnly, OwnOnly, ReadFaultOnly, RefusalsAreTold, RunWhen, SinksTakePrefixes, UsageOnly, UsageTakesNoMemory, UsageWhen, WriteFaultOnly};
ghost use Rattle.ob_program.specs.Language.{FirstFormsAreWritten, language};

use ob_code::law_endings;
use ob_compile::law_one_outcome as law_one_typed_tree;
use ob_first::{law_first_runs, law_one_outcome};
use ob_model::law_status;
use ob_settings::{law_jobs, law_one_job};

/// Each answer of a command has the cause that the table gives for it, and with a status of neither a failed
/// write nor want of memory all that was due was told.
pub fn law_causes()
    ensures causes { AnswersHaveCauses language }
    ensures told { AllIsTold language }
    ensures prefixes { SinksTakePrefixes language }
    ensures lines { RefusalsAreTold language }
    ensures own { OwnOnly language }
    ensures not_yet { NotYetOnly language }
    ensures no_other { NoOther language }
{
    law_endings();
    law_status();
}

/// The status of faulty usage comes exactly with it, and those of files only with their causes.
pub fn law_refusals()
    ensures usage_only { UsageOnly language }
    ensures usage_when { UsageWhen language }
    ensures usage_memory { UsageTakesNoMemory language }
    ensures file_fault { FileFaultOnly language }
    ensures file_long_only { FileLongOnly language }
    ensures file_long_when { FileLongWhen language }
    ensures missing_when { MissingWhen language }
    ensures failed_when { FailedWhen language }
    ensures bad_only { BadOnly language }
{
    law_endings();
    law_one_job();
    law_one_outcome();
    law_one_typed_tree();
    law_status();
}

/// A source's fault is told exactly where it has it; one that can't be compiled yet is told so; another is
/// run as its image says, and writes what its program says. Of one that is checked `ok` is written exactly where it
/// is accepted.
pub fn law_sources()
    ensures fault_only { FaultOnly language }
    ensures fault_when { FaultWhen language }
    ensures later_when { LaterWhen language }
    ensures run_when { RunWhen language }
    ensures check_when { CheckWhen language }
    ensures check_only { CheckOnly language }
    ensures written { FirstFormsAreWritten }
{
    law_endings();
    law_first_runs();
    law_jobs();
    law_one_job();
    law_one_outcome();
    law_one_typed_tree();
    law_status();
}

/// What the devices tell of faults is what the status tells, and each ending is that of the definition's
/// run.
pub fn law_faults()
    ensures endings { EndingOnly language }
    ensures read { ReadFaultOnly language }
    ensures write { WriteFaultOnly language }
    ensures told { FaultsAreTold language }
    ensures input { InputIsLeft language }
{
    law_endings();
    law_status();
}
