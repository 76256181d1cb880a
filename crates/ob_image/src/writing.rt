ghost use Rattle.std.specs.Prelude.{◌≡◌, ◌++◌, OnOk, IfOk};
ghost use Rattle.ob_code.specs.Rules.{IsVerified};
ghost use Rattle.ob_image.specs.Faults.{SpellsIn};
ghost use Rattle.ob_image.specs.Spelling.{spell_image, IsImage};
ghost use Rattle.ob_image.specs.declared.layout.Version.TheVariants.{Two};

use crate::fields::put_word;
use crate::head::{LETTERS, profile_number};
use crate::rows::put_rows;
use ob_base::NoMemory;
use ob_code::{Image, Verified};
use std::alloc::Global;

#[tactic(auto, unfolding(crate::specs::Spelling::spell_image))]
fn put_image(out: &mut Vec<u8>, image: &Image) -> Result<(), NoMemory>
    ensures text { OnOk result (out.new.items ≡ out.old.items ++ spell_image Two image.now) }
    ensures typed { OnOk result (IsVerified image.now → IsImage Two image.now) }
{
    out.extend_from_slice(&LETTERS)?;
    put_word(out, 2)?;
    put_word(out, profile_number(image.profile))?;
    put_rows(out, image.statics.as_slice())?;
    put_rows(out, image.pointers.as_slice())?;
    put_rows(out, image.functions.as_slice())?;
    put_word(out, image.main)?;
    put_rows(out, image.code.as_slice())?;
    put_rows(out, image.names.as_slice())?;
    Ok(())
}

/// The one spelling of a verified image in version 2, so that reading these bytes gives the image back.
pub fn write_image(alloc: Global, v: &Verified) -> Result<Vec<u8>, NoMemory>
    ensures { IfOk result (λ bytes. SpellsIn Two bytes.items v.now) }
{
    let mut out = Vec::new(alloc);
    put_image(&mut out, v.image())?;
    Ok(out)
}
