ghost use Rattle.std.specs.Prelude.{◌≡◌, ◌++◌, OnOk};

use ob_base::NoMemory;

/// Puts all values of another list at the end of a list.
pub(crate) fn add_all<T: Drop>(list: &mut Vec<T>, more: Vec<T>) -> Result<(), NoMemory>
    ensures { OnOk result (list.new.items ≡ list.old.items ++ more.items) }
{
    let mut more = more;
    list.append(&mut more)?;
    Ok(())
}
