ghost use Rattle.ob_commands.specs.Migrate.{WritesTheImage};

use ob_image::law_no_prefix;

/// What `migrate` writes spells the image that was read and no other, so that the two run alike.
pub fn law_migrated()
    ensures { WritesTheImage }
{
    law_no_prefix();
}
