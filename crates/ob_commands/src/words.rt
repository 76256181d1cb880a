ghost use Rattle.std.specs.Prelude.{◌≡◌, ◌<◌, map, string_bytes, Err, IfOk};
ghost use Rattle.ob_settings.specs.Jobs.{AsksForJob, IsJobFor, IsUsageFor};
ghost use Rattle.ob_settings.specs.declared.job.WordsFault.TheVariants as fault;

use ob_settings::{Job, WordsFault, law_one_job, read_words};
use std::alloc::Global;

/// The job that the words ask for, where so many makers are at hand.
///
/// - `Usage`: they ask for none.
/// - `NoMemory`: they ask for one, and there is too little memory for its argument.
pub fn job_of(alloc: Global, words: &Vec<String>, makers: usize) -> Result<Job, WordsFault>
    ensures job { IfOk result (λ job. IsJobFor makers (map string_bytes words.now.items) job) }
    ensures usage { result ≡ Err fault.Usage → IsUsageFor makers (map string_bytes words.now.items) }
    ensures memory { result ≡ Err fault.NoMemory → AsksForJob (map string_bytes words.now.items) }
{
    law_one_job();
    match read_words(alloc, words) {
        Ok(job) if job.has_maker(makers) => Ok(job),
        Ok(_) => Err(WordsFault::Usage),
        Err(fault) => Err(fault),
    }
}
