ghost use Rattle.std.specs.Prelude.{◌≡◌};
ghost use Rattle.ob_settings.specs.Options.{first_choice, maker_named, mode_named, no_choices, profile_named, where_had, with_value, without_value};

use crate::numbers::number_between;
use crate::option::Setting;
use crate::verb::Verb;
use ob_model::Mode;

/// The greatest number of steps of a run.
const MOST_STEPS: u64 = 1_000_000_000;
/// The most granules that are kept outside of objects.
const MOST_STORE: u64 = 1_048_576;
/// The most pointers that are kept out of bounds.
const MOST_AWAY: u64 = 1_048_576;
/// The most bytes of the heap.
const MOST_HEAP: u64 = 67_108_864;

/// What the options of a line choose, so far; `None` where no option did. A maker is told by its place in
/// the list of makers, a profile by its number.
#[derive(Clone, Copy, Debug)]
pub(crate) struct Choices {
    pub mode: Option<Mode>,
    pub steps: Option<u64>,
    pub store: Option<u64>,
    pub away: Option<u64>,
    pub heap: Option<u64>,
    pub maker: Option<u8>,
    pub profile: Option<u8>,
    pub report: bool,
}

fn mode_named(word: &str) -> Option<Mode>
    ensures { result ≡ mode_named word.now }
{
    if word == "oblivious" {
        Some(Mode::Oblivious)
    } else if word == "boundless" {
        Some(Mode::Boundless)
    } else {
        None
    }
}

fn maker_named(word: &str) -> Option<u8>
    ensures { result ≡ maker_named word.now }
{
    if word == "small" {
        Some(0)
    } else if word == "zero" {
        Some(1)
    } else if word == "count" {
        Some(2)
    } else {
        None
    }
}

fn profile_named(word: &str) -> Option<u8>
    ensures { result ≡ profile_named word.now }
{
    if word == "1" {
        Some(1)
    } else if word == "2" {
        Some(2)
    } else {
        None
    }
}

/// A value for a setting that has none yet. A second one is none.
fn first_choice<T: Copy>(before: Option<T>, value: Option<T>) -> Option<T>
    ensures { result ≡ first_choice before value }
{
    match before {
        None => value,
        Some(_) => None,
    }
}

impl Choices {
    pub(crate) fn none() -> Choices
        ensures { result ≡ no_choices }
    {
        Choices {
            mode: None,
            steps: None,
            store: None,
            away: None,
            heap: None,
            maker: None,
            profile: None,
            report: false,
        }
    }

    /// The choices with one more, by an option with a value; `None` where the option has no such value,
    /// or stands there already.
    fn with_value(self, setting: Setting, word: &str) -> Option<Choices>
        ensures { result ≡ with_value setting word.now self }
    {
        let number = word.as_bytes();
        match setting {
            Setting::Mode => {
                let mode = Some(first_choice(self.mode, mode_named(word))?);
                Some(Choices { mode, ..self })
            }
            Setting::Steps => {
                let steps = Some(first_choice(self.steps, number_between(0, MOST_STEPS, number))?);
                Some(Choices { steps, ..self })
            }
            Setting::Store => {
                let store = Some(first_choice(self.store, number_between(1, MOST_STORE, number))?);
                Some(Choices { store, ..self })
            }
            Setting::Away => {
                let away = Some(first_choice(self.away, number_between(0, MOST_AWAY, number))?);
                Some(Choices { away, ..self })
            }
            Setting::Heap => {
                let heap = Some(first_choice(self.heap, number_between(0, MOST_HEAP, number))?);
                Some(Choices { heap, ..self })
            }
            Setting::Maker => {
                let maker = Some(first_choice(self.maker, maker_named(word))?);
                Some(Choices { maker, ..self })
            }
            Setting::Profile => {
                let profile = Some(first_choice(self.profile, profile_named(word))?);
                Some(Choices { profile, ..self })
            }
            Setting::Report => None,
        }
    }

    /// The same by an option without a value.
    fn without_value(self, setting: Setting) -> Option<Choices>
        ensures { result ≡ without_value setting self }
    {
        if setting.is_report() && !self.report {
            Some(Choices {
                report: true,
                ..self
            })
        } else {
            None
        }
    }

    /// The choices with those of an option with a value, where the command has the option.
    pub(crate) fn chosen(self, verb: Verb, setting: Setting, word: &str) -> Option<Choices>
        ensures { result ≡ where_had verb setting (with_value setting word.now self) }
    {
        if verb.has(setting) {
            self.with_value(setting, word)
        } else {
            None
        }
    }

    /// The choices with those of an option without a value, where the command has the option.
    pub(crate) fn chosen_alone(self, verb: Verb, setting: Setting) -> Option<Choices>
        ensures { result ≡ where_had verb setting (without_value setting self) }
    {
        if verb.has(setting) {
            self.without_value(setting)
        } else {
            None
        }
    }
}
