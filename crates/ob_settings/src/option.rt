ghost use Rattle.std.specs.Prelude.{◌≡◌};
ghost use Rattle.ob_settings.specs.Options.{has, is_profile, is_report};
ghost use Rattle.ob_settings.specs.Reading.{setting_named};

use crate::verb::Verb;

/// What an option sets.
#[derive(Clone, Copy, Debug, PartialEq, Eq)]
pub(crate) enum Setting {
    Mode,
    Steps,
    Store,
    Away,
    Heap,
    Maker,
    Profile,
    Report,
}

impl Setting {
    /// The setting of the option of this name.
    pub(crate) fn named(name: &str) -> Option<Setting>
        ensures { result ≡ setting_named name.now }
    {
        if name == "--mode" {
            Some(Setting::Mode)
        } else if name == "--steps" {
            Some(Setting::Steps)
        } else if name == "--store" {
            Some(Setting::Store)
        } else if name == "--away" {
            Some(Setting::Away)
        } else if name == "--heap" {
            Some(Setting::Heap)
        } else if name == "--maker" {
            Some(Setting::Maker)
        } else if name == "--profile" {
            Some(Setting::Profile)
        } else if name == "--report" {
            Some(Setting::Report)
        } else {
            None
        }
    }

    fn is_profile(self) -> bool
        ensures { result ≡ is_profile self }
    {
        matches!(self, Setting::Profile)
    }

    pub(crate) fn is_report(self) -> bool
        ensures { result ≡ is_report self }
    {
        matches!(self, Setting::Report)
    }
}

impl Verb {
    /// Whether the command has the option of this setting.
    pub(crate) fn has(self, setting: Setting) -> bool
        ensures { result ≡ has self setting }
    {
        match self {
            Verb::Run | Verb::Exec => true,
            Verb::Audit | Verb::Sample => !setting.is_report(),
            Verb::Compile => setting.is_profile(),
            Verb::Check | Verb::Migrate => false,
        }
    }
}
