ghost use Rattle.std.specs.Prelude.{◌≡◌};
ghost use Rattle.ob_image.specs.Faults.{IsAnswer};
ghost use Rattle.ob_image.specs.Reading.{Gives, image_behind, image_parts, image_of, names_in};

use crate::faults::{ImageFault, Stop};
use crate::head::{LETTERS, profile_in, version};
use crate::layout::Version;
use crate::numbers::{exactly, word};
use crate::rows::counted;
use ob_code::{Image, NameRow, Rows};
use ob_model::Profile;
use std::alloc::Global;

/// The names, which version 1 doesn't tell.
#[tactic(auto, unfolding(crate::specs::Reading::names_in, crate::specs::Reading::gives))]
fn names_in(alloc: Global, version: Version, bytes: &[u8]) -> Result<(Vec<NameRow>, &[u8]), Stop>
    ensures { Gives (λ x. (x.0.items, x.1.now)) result (names_in version bytes.now) }
{
    match version {
        Version::One => Ok((Vec::new(alloc), bytes)),
        Version::Two => counted(alloc, 1_048_576, bytes),
    }
}

/// The parts behind the head.
#[tactic(auto, unfolding(crate::specs::Reading::image_behind, crate::specs::Reading::gives))]
fn behind(
    alloc: Global,
    version: Version,
    profile: Profile,
    bytes: &[u8],
) -> Result<(Image, &[u8]), Stop>
    ensures { Gives (λ x. (x.0, x.1.now)) result (image_behind version profile bytes.now) }
{
    let (statics, rest) = counted(alloc, 262_144, bytes)?;
    let (pointers, rest) = counted(alloc, 524_288, rest)?;
    let (functions, rest) = counted(alloc, 65_536, rest)?;
    let (main, rest) = word(u32::MAX, rest)?;
    let (code, rest) = counted(alloc, 1_048_576, rest)?;
    let (names, rest) = names_in(alloc, version, rest)?;
    let image = Image {
        profile,
        statics: Rows::from_vec(statics),
        pointers: Rows::from_vec(pointers),
        functions: Rows::from_vec(functions),
        main,
        code: Rows::from_vec(code),
        names: Rows::from_vec(names),
    };
    Ok((image, rest))
}

#[tactic(auto, unfolding(crate::specs::Reading::image_parts))]
fn parts(alloc: Global, bytes: &[u8]) -> Result<(Image, &[u8]), Stop>
    ensures { Gives (λ x. (x.0, x.1.now)) result (image_parts bytes.now) }
{
    let rest = exactly(&LETTERS, bytes)?;
    let (version, rest) = version(rest)?;
    let (profile, rest) = profile_in(version, rest)?;
    behind(alloc, version, profile, rest)
}

/// The image, behind which nothing follows.
#[tactic(auto, unfolding(crate::specs::Reading::image_of))]
fn whole(alloc: Global, bytes: &[u8]) -> Result<Image, Stop>
    ensures { Gives (λ image. image) result (image_of bytes.now) }
{
    let (image, rest) = parts(alloc, bytes)?;
    if !rest.is_empty() {
        return Err(Stop::Left(rest.len()));
    }
    Ok(image)
}

/// Reads the image that `bytes` spell, all of them, in version 2 or in version 1, whose images have profile
/// 1 and no names. Refused with the least place such that no image's spelling in either version begins with
/// the bytes up to and including it, or with the length where the bytes are a proper prefix of a spelling.
/// Takes memory in proportion to the bytes that are there, whatever a count says.
pub fn read_image(alloc: Global, bytes: &[u8]) -> Result<Image, ImageFault>
    ensures { IsAnswer bytes.now result }
{
    match whole(alloc, bytes) {
        Ok(image) => Ok(image),
        Err(Stop::Left(left)) => Err(ImageFault::At((bytes.len() - left) as u64)),
        Err(Stop::Memory) => Err(ImageFault::NoMemory),
    }
}
