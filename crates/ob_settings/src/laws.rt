ghost use Rattle.ob_settings.specs.Jobs.{ArgumentsStandThere, JobsAreFit, OneJob, ThreeAreEnough};

/// Words ask for one job at most, and that job has its maker where there are three.
pub fn law_one_job()
    ensures one { OneJob }
    ensures makers { ThreeAreEnough }
{}

/// A job's settings and steps lie in the ranges of their options, and its argument is the word at its
/// place.
pub fn law_jobs()
    ensures fit { JobsAreFit }
    ensures places { ArgumentsStandThere }
{}
