ghost use Rattle.std.specs.Prelude.{◌≡◌};
ghost use Rattle.ob_model.specs.Entries.{entry_at};
ghost use Rattle.ob_objects.specs.Objects.{IsInOrder};
ghost use Rattle.ob_objects_trials.specs.Sorted.{IsIndexOf, Splits};

use ob_model::Entry;

/// How many entries have a base of at most `address`, by a binary search.
pub(crate) fn count_up_to(entries: &[Entry], address: u64) -> usize
    requires { IsInOrder entries.now }
    ensures { Splits entries.now address result }
{
    let mut low = 0;
    let mut high = entries.len();
    while low < high {
        let middle = low + (high - low) / 2;
        if entries[middle].base <= address {
            low = middle + 1;
        } else {
            high = middle;
        }
    }
    low
}

/// The entry that `address` names.
pub(crate) fn named(entries: &[Entry], address: u64) -> Option<Entry>
    requires { IsInOrder entries.now }
    ensures { result ≡ entry_at address entries.now }
{
    let count = count_up_to(entries, address);
    if count == 0 {
        return None;
    }
    let entry = entries[count - 1];
    if address - entry.base <= entry.size {
        Some(entry)
    } else {
        None
    }
}

/// The index of the entry at `base`.
pub(crate) fn index_of(entries: &[Entry], base: u64) -> Option<usize>
    requires { IsInOrder entries.now }
    ensures { IsIndexOf entries.now base result }
{
    let count = count_up_to(entries, base);
    if count != 0 && entries[count - 1].base == base {
        Some(count - 1)
    } else {
        None
    }
}
