ghost use Rattle.std.specs.Prelude.{◌≡◌};
ghost use Rattle.ob_image.specs.Reading.{Gives, version_word, profile_word, profile_in};
ghost use Rattle.ob_image.specs.Spelling.{profile_number};

use crate::faults::Stop;
use crate::layout::Version;
use crate::numbers::choice;
use ob_model::Profile;

/// The letters that an image begins with.
pub(crate) const LETTERS: [u8; 4] = [b'O', b'B', b'L', b'V'];

/// The number of a profile, 1 or 2.
pub(crate) fn profile_number(profile: Profile) -> u32
    ensures { result ≡ profile_number profile }
{
    match profile {
        Profile::One => 1,
        Profile::Two => 2,
    }
}

/// The version, behind the letters.
#[tactic(auto, unfolding(crate::specs::Reading::version_word, crate::specs::Reading::gives))]
pub(crate) fn version(bytes: &[u8]) -> Result<(Version, &[u8]), Stop>
    ensures { Gives (λ x. (x.0, x.1.now)) result (version_word bytes.now) }
{
    let (n, rest) = choice(2, bytes)?;
    if n == 1 {
        Ok((Version::One, rest))
    } else {
        Ok((Version::Two, rest))
    }
}

#[tactic(auto, unfolding(crate::specs::Reading::profile_word, crate::specs::Reading::gives))]
fn profile(bytes: &[u8]) -> Result<(Profile, &[u8]), Stop>
    ensures { Gives (λ x. (x.0, x.1.now)) result (profile_word bytes.now) }
{
    let (n, rest) = choice(2, bytes)?;
    if n == 1 {
        Ok((Profile::One, rest))
    } else {
        Ok((Profile::Two, rest))
    }
}

/// The profile, behind the version, or profile 1 where the version doesn't tell it.
#[tactic(auto, unfolding(crate::specs::Reading::profile_in, crate::specs::Reading::gives))]
pub(crate) fn profile_in(version: Version, bytes: &[u8]) -> Result<(Profile, &[u8]), Stop>
    ensures { Gives (λ x. (x.0, x.1.now)) result (profile_in version bytes.now) }
{
    match version {
        Version::One => Ok((Profile::One, bytes)),
        Version::Two => profile(bytes),
    }
}
