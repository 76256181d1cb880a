ghost use Rattle.std.specs.Prelude.{◌≡◌, Some, None, IsSome, OnOk, OnErr};
ghost use Rattle.ob_scopes.specs.Newest.{place_in, Places, Same};

use ob_base::NoMemory;
use std::collections::HashMap;

/// The place of the newest entry of each name.
pub(crate) type Newest = HashMap<Vec<u8>, usize>;

/// The place of a name.
pub(crate) fn place_of(map: &Newest, name: &[u8]) -> Option<usize>
    ensures { result ≡ place_in map.now name.now }
{
    map.get(name).copied()
}

/// Gives a name this place, whether it had one or not.
pub(crate) fn put(map: &mut Newest, name: Vec<u8>, place: usize) -> Result<(), NoMemory>
    ensures ok { OnOk result (Places map.old map.new name.items (Some place)) }
    ensures err { OnErr result (Same map.old map.new) }
{
    map.insert(name, place)?;
    Ok(())
}

/// Gives a name that has a place another one.
pub(crate) fn point(map: &mut Newest, name: &[u8], place: usize)
    requires { IsSome (place_in map.old name.now) }
    ensures { Places map.old map.new name.now (Some place) }
{
    if let Some(known) = map.get_mut(name) {
        *known = place;
    }
}

/// Takes the place from a name.
pub(crate) fn clear(map: &mut Newest, name: &[u8])
    ensures { Places map.old map.new name.now None }
{
    map.remove(name);
}
