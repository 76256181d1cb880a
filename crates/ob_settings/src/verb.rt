ghost use Rattle.std.specs.Prelude.{◌≡◌};
ghost use Rattle.ob_settings.specs.Reading.{verb_named};

/// The commands of the program.
///
/// `Run` compiles a source and runs it, `Compile` writes its image, `Exec` runs an image, `Check` says
/// whether a source is a program, `Audit` runs what a source means, `Sample` makes a source and runs it,
/// `Migrate` writes an image in the newest version of its format.
#[derive(Clone, Copy, Debug, PartialEq, Eq)]
pub enum Verb {
    Run,
    Compile,
    Exec,
    Check,
    Audit,
    Sample,
    Migrate,
}

impl Verb {
    /// The command of this name.
    pub(crate) fn named(word: &str) -> Option<Verb>
        ensures { result ≡ verb_named word.now }
    {
        if word == "run" {
            Some(Verb::Run)
        } else if word == "compile" {
            Some(Verb::Compile)
        } else if word == "exec" {
            Some(Verb::Exec)
        } else if word == "check" {
            Some(Verb::Check)
        } else if word == "audit" {
            Some(Verb::Audit)
        } else if word == "sample" {
            Some(Verb::Sample)
        } else if word == "migrate" {
            Some(Verb::Migrate)
        } else {
            None
        }
    }
}
