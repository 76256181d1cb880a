ghost use Rattle.std.specs.Prelude.{◌↔◌, IsTrue};
ghost use Rattle.ob_code.specs.Rules.{IsMainSound};

use crate::image::Image;

/// Whether the function that is called first exists and has no parameters.
pub fn main_is_sound(image: &Image) -> bool
    ensures { IsTrue result ↔ IsMainSound image.now }
{
    match image.functions.as_slice().get(image.main as usize) {
        Some(f) => f.params == 0,
        None => false,
    }
}
