ghost use Rattle.std.specs.Prelude.{◌≡◌};
ghost use Rattle.ob_settings.specs.Jobs.{has_maker, profile_of, settings_of};

use crate::choices::Choices;
use crate::option::Setting;
use crate::verb::Verb;
use ob_base::Text;
use ob_model::{Mode, Profile, RunSettings};

/// What the words of a command line ask for.
///
/// `argument` has the bytes of the argument's word, and `at` is its place among the words, counted from 0.
/// `steps` is the most steps of a run (0 to 1,000,000,000), `maker` the place of the maker of manufactured
/// values in the list of makers, `report` whether stray accesses are reported. `number` is the number of
/// `sample` (1 to 1000), and 0 for each other command. `profile` is the number that `--profile` gave, and 0
/// where it wasn't given, which counts as 1 in `settings`.
#[derive(Debug, Drop)]
pub struct Job {
    pub verb: Verb,
    pub argument: Text,
    pub at: usize,
    pub settings: RunSettings,
    pub steps: u64,
    pub maker: u8,
    pub report: bool,
    pub number: u32,
    pub profile: u8,
}

impl Job {
    /// Whether so many makers have the one that the job takes; a command without `--maker` needs none.
    pub fn has_maker(&self, makers: usize) -> bool
        ensures { result ≡ has_maker self.now makers }
    {
        !self.verb.has(Setting::Maker) || usize::from(self.maker) < makers
    }
}

/// Why there is no job: the words are no line of the command line (`Usage`), or there was too little
/// memory for the argument.
#[derive(Clone, Copy, Debug, PartialEq, Eq)]
pub enum WordsFault {
    Usage,
    NoMemory,
}

fn profile_of(number: u8) -> Profile
    ensures { result ≡ profile_of number }
{
    if number == 2 {
        Profile::Two
    } else {
        Profile::One
    }
}

impl Choices {
    /// The settings of a run, with the default where no option chose.
    pub(crate) fn settings(self) -> RunSettings
        ensures { result ≡ settings_of self }
    {
        RunSettings {
            mode: self.mode.unwrap_or(Mode::Oblivious),
            store: self.store.unwrap_or(65_536),
            away: self.away.unwrap_or(65_536),
            heap: self.heap.unwrap_or(4_194_304),
            profile: profile_of(self.profile.unwrap_or(0)),
        }
    }
}
