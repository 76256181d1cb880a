ghost use Rattle.std.specs.Prelude.{◌≡◌, ◌++◌, ℕ, List, [], Result};
ghost use Rattle.ob_code.specs.declared.image.Image.{Image};
ghost use Rattle.ob_image.specs.Faults.{Reads, Spells};

/// No image's spelling begins another's, whatever their versions, and two images have two spellings.
pub fn law_no_prefix()
    ensures { (bytes rest : List ℕ) (image other : Image) → Spells bytes image → Spells (bytes ++ rest) other
        → (image ≡ other) × (rest ≡ []) }
{}

/// Reading what spells an image gives the image, and nothing else.
pub fn law_reads_back()
    ensures { (bytes : List ℕ) (image : Image) (read : Result Image ℕ) → Spells bytes image → Reads bytes read → read ≡ Ok image }
{}
