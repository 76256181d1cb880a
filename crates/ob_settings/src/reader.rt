ghost use Rattle.std.specs.Prelude.{◌≡◌, ◌<◌, ◌^◌, map, string_bytes, ℕ, None, Err, IfOk, IsSome, IsSomeAnd};
ghost use Rattle.ob_settings.specs.Jobs.{AsksForJob, IsJobOf, IsUsage, job_of, number_of};
ghost use Rattle.ob_settings.specs.Lines.{is_plain};
ghost use Rattle.std.specs.Option.{option_map};
ghost use Rattle.ob_settings.specs.Reading.{after_end, choosing, flag_or_waits, nothing_read, option_kind, reads, setting_named, split_word, step, step_by, taking_one, taking_two, with_argument};
ghost use Rattle.ob_settings.specs.declared.job.WordsFault.TheVariants as fault;

use crate::choices::Choices;
use crate::job::{Job, WordsFault};
use crate::numbers::number_between;
use crate::option::Setting;
use crate::verb::Verb;
use ob_base::Text;
use std::alloc::Global;

/// What was read so far: what the options chose, and the place of the argument among the words.
#[derive(Clone, Copy, Debug)]
pub(crate) struct Reader {
    choices: Choices,
    place: Option<usize>,
}

/// A reader that took a word, or that word and the next.
#[derive(Clone, Copy, Debug)]
pub(crate) struct Step {
    reader: Reader,
    took_two: bool,
}

/// Whether a word before `--` is an argument: it doesn't begin with `-`, or is the word `-`.
fn is_plain(word: &str) -> bool
    ensures { result ≡ is_plain word.now }
{
    !matches!(word.as_bytes(), [b'-', _, ..])
}

/// The number of `sample`, which is its argument; 0 for each other command.
fn number_of(verb: Verb, argument: &str) -> Option<u64>
    ensures { result ≡ number_of verb argument.now }
{
    match verb {
        Verb::Sample => number_between(1, 1000, argument.as_bytes()),
        _ => Some(0),
    }
}

fn taking_one(reader: Option<Reader>) -> Option<Step>
    ensures { result ≡ option_map taking_one reader }
{
    match reader {
        Some(reader) => Some(Step {
            reader,
            took_two: false,
        }),
        None => None,
    }
}

fn taking_two(reader: Option<Reader>) -> Option<Step>
    ensures { result ≡ option_map taking_two reader }
{
    match reader {
        Some(reader) => Some(Step {
            reader,
            took_two: true,
        }),
        None => None,
    }
}

impl Reader {
    fn new() -> Reader
        ensures { result ≡ nothing_read }
    {
        Reader {
            choices: Choices::none(),
            place: None,
        }
    }

    /// The same with these choices.
    fn choosing(self, choices: Option<Choices>) -> Option<Reader>
        ensures { result ≡ choosing self choices }
    {
        match choices {
            Some(choices) => Some(Reader { choices, ..self }),
            None => None,
        }
    }

    /// The same with the argument at this place, where none stood before.
    fn with_argument(self, at: usize) -> Option<Reader>
        ensures { result ≡ with_argument at self }
    {
        match self.place {
            None => Some(Reader {
                place: Some(at),
                ..self
            }),
            Some(_) => None,
        }
    }

    /// Reads the word that ends the options, with what stands behind it.
    fn end(self, at: usize, behind: &[String]) -> Option<Step>
        requires { at < 2 ^ 63 }
        ensures { result ≡ after_end at self (map string_bytes behind.now) }
    {
        match behind {
            [] => taking_one(Some(self)),
            [_] => taking_two(self.with_argument(at + 1)),
            _ => None,
        }
    }

    /// Reads an option without `=`: alone, or with its value in the next word.
    fn named(self, verb: Verb, setting: Setting, behind: &[String]) -> Option<Step>
        ensures { (at : ℕ) → result ≡ step_by verb at self (map string_bytes behind.now) (flag_or_waits setting) }
    {
        if setting.is_report() {
            return taking_one(self.choosing(self.choices.chosen_alone(verb, setting)));
        }
        match behind {
            [] => None,
            [value, ..] => taking_two(self.choosing(
                self.choices.chosen(verb, setting, value.as_str()),
            )),
        }
    }

    /// Reads a word that begins with `-`.
    fn option(self, verb: Verb, word: &str, behind: &[String]) -> Option<Step>
        ensures { (at : ℕ) → result ≡ step_by verb at self (map string_bytes behind.now) (option_kind word.now (split_word word.now)) }
    {
        match word.split_once('=') {
            Some((name, value)) => match Setting::named(name) {
                Some(setting) => taking_one(self.choosing(
                    self.choices.chosen(verb, setting, value),
                )),
                None => None,
            },
            None => match Setting::named(word) {
                Some(setting) => self.named(verb, setting, behind),
                None => None,
            },
        }
    }

    /// Reads a word, with what stands behind it.
    fn step(self, verb: Verb, at: usize, word: &str, behind: &[String]) -> Option<Step>
        requires { at < 2 ^ 63 }
        ensures { result ≡ step verb at self word.now (map string_bytes behind.now) }
    {
        if word == "--" {
            self.end(at, behind)
        } else if is_plain(word) {
            taking_one(self.with_argument(at))
        } else {
            self.option(verb, word, behind)
        }
    }
}

/// Reads the words behind the command.
fn read_all(verb: Verb, words: &[String]) -> Option<Reader>
    ensures { result ≡ reads verb 1 nothing_read (map string_bytes words.now) }
{
    let mut reader = Reader::new();
    let mut i = 0;
    while i < words.len() {
        let Some(step) = reader.step(verb, i + 1, words[i].as_str(), &words[i + 1..]) else {
            return None;
        };
        i += if step.took_two { 2 } else { 1 };
        reader = step.reader;
    }
    Some(reader)
}

/// The job of a line with these choices, whose argument is this word at this place.
fn job_at(
    alloc: Global,
    verb: Verb,
    choices: Choices,
    at: usize,
    argument: &str,
) -> Result<Job, WordsFault>
    ensures job { IfOk result (λ job. IsSomeAnd (number_of verb argument.now) (λ number. job ≡ job_of verb argument.now at number choices)) }
    ensures usage { result ≡ Err fault.Usage → number_of verb argument.now ≡ None }
    ensures memory { result ≡ Err fault.NoMemory → IsSome (number_of verb argument.now) }
{
    let Some(number) = number_of(verb, argument) else {
        return Err(WordsFault::Usage);
    };
    let mut text = Text::new(alloc);
    let Ok(()) = text.add(argument.as_bytes()) else {
        return Err(WordsFault::NoMemory);
    };
    Ok(Job {
        verb,
        argument: text,
        at,
        settings: choices.settings(),
        steps: choices.steps.unwrap_or(10_000_000),
        maker: choices.maker.unwrap_or(0),
        report: choices.report,
        number: number as u32,
        profile: choices.profile.unwrap_or(0),
    })
}

/// The job that the words of a command line, those behind the program's name, ask for: a command, one
/// argument, and options of the command, each at most once. `Usage` comes exactly where they are no such
/// line; `NoMemory` where they are one, and there is too little memory for the argument's bytes.
///
/// A word that begins with `-` is an option before the word `--`, unless it is `-` alone. A number is 1 to
/// 10 decimal digits. The word that comes after an option's name without `=` is its value, whatever it
/// looks like.
pub fn read_words(alloc: Global, words: &Vec<String>) -> Result<Job, WordsFault>
    ensures job { IfOk result (λ job. IsJobOf (map string_bytes words.now.items) job) }
    ensures usage { result ≡ Err fault.Usage → IsUsage (map string_bytes words.now.items) }
    ensures memory { result ≡ Err fault.NoMemory → AsksForJob (map string_bytes words.now.items) }
{
    let [command, others @ ..] = words.as_slice() else {
        return Err(WordsFault::Usage);
    };
    let Some(verb) = Verb::named(command.as_str()) else {
        return Err(WordsFault::Usage);
    };
    let Some(reader) = read_all(verb, others) else {
        return Err(WordsFault::Usage);
    };
    let Some(at) = reader.place else {
        return Err(WordsFault::Usage);
    };
    job_at(alloc, verb, reader.choices, at, words[at].as_str())
}
