ghost use Rattle.std.specs.Prelude.{◌≡◌, ◌↔◌, IsTrue, MatchResult, MatchOption};

use crate::faults::{BadImage, Part};
use crate::image::Image;
use crate::rules::code::code_fault;
use crate::rules::functions::function_fault;
use crate::rules::main_function::main_is_sound;
use crate::rules::names::name_fault;
use crate::rules::pointers::pointer_fault;
use crate::rules::statics::static_fault;
use ob_model::Profile;
use std::marker::Model;

/// An image that keeps every rule of the machine.
#[derive(Debug, Drop)]
pub struct Verified {
    image: Image,
}

impl Model for Verified {
    ghost use Rattle.ob_code.specs.declared.image.Image.{Image};

    ghost Value = { Image };

    ghost use Rattle.ob_code.specs.Rules.{IsVerified};

    ghost view = { λ v. v.image };

    ghost invariant = { λ v. IsVerified v.image };
}

impl Verified {
    ghost use Rattle.ob_code.specs.Rules.{IsVerified};

    /// The image, which keeps every rule.
    pub fn image(&self) -> &Image
        ensures value { result.now ≡ self.now }
        ensures rules { IsVerified self.now }
    {
        &self.image
    }

    /// The same image for another profile. Takes no memory.
    #[tactic(auto, using(crate::proofs::Profiles::verified_for))]
    pub fn with_profile(self, profile: Profile) -> Verified
        ensures { result ≡ record self { profile = profile } }
    {
        let Verified { mut image } = self;
        image.profile = profile;
        Verified { image }
    }
}

ghost use Rattle.ob_code.specs.FirstFault.{IsFirstFault};
ghost use Rattle.ob_code.specs.Rules.{IsVerified};

/// Tests an image, part by part and row by row. Refused exactly where a rule is broken, at the first part
/// and row that breaks one: static objects, pointers, functions, `main`, code, and then names. A part with
/// too many rows is at fault before any of them. Takes no memory.
pub fn verify(image: Image) -> Result<Verified, BadImage>
    ensures { MatchResult result (λ v. (v ≡ image) × IsVerified image) (IsFirstFault image) }
{
    match first_fault(&image) {
        None => Ok(Verified { image }),
        Some(bad) => Err(bad),
    }
}

fn first_fault(image: &Image) -> Option<BadImage>
    ensures { MatchOption result (IsVerified image.now) (IsFirstFault image.now) }
{
    if let Some(at) = static_fault(image) {
        return Some(BadImage {
            part: Part::Static,
            at,
        });
    }
    if let Some(at) = pointer_fault(image) {
        return Some(BadImage {
            part: Part::Pointer,
            at,
        });
    }
    if let Some(at) = function_fault(image) {
        return Some(BadImage {
            part: Part::Function,
            at,
        });
    }
    if !main_is_sound(image) {
        return Some(BadImage {
            part: Part::Main,
            at: 0,
        });
    }
    if let Some(at) = code_fault(image) {
        return Some(BadImage {
            part: Part::Code,
            at,
        });
    }
    let at = name_fault(image)?;
    Some(BadImage {
        part: Part::Names,
        at,
    })
}
