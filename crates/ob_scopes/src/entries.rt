ghost use Rattle.std.specs.Prelude.{◌≡◌, ◌∷◌, OnOk, OnErr, drop, option_map, reverse, slice_get};
ghost use Rattle.ob_scopes.specs.Bindings.{bound};
ghost use Rattle.ob_scopes.specs.Kept.{IsIndexed, bindings_of, place_of as place_among, value_at};

use crate::newest::{Newest, clear, place_of, point, put};
use ob_base::{NoMemory, Text, push_on};
use std::alloc::Global;

/// A binding of a name, and the place of the entry that it hides.
#[derive(Drop)]
pub(crate) struct Entry<T> {
    pub name: Text,
    pub value: T,
    pub before: Option<usize>,
}

/// What the entry at a place binds its name to.
fn value_at<T>(entries: &Vec<Entry<T>>, place: usize) -> Option<&T>
    ensures { option_map (λ value. value.now) result ≡ value_at entries.now.items place }
{
    match entry_at(entries, place) {
        Some(entry) => Some(&entry.value),
        None => None,
    }
}

fn entry_at<T>(entries: &Vec<Entry<T>>, place: usize) -> Option<&Entry<T>>
    ensures { option_map (λ entry. entry.now) result ≡ slice_get entries.now.items place }
{
    entries.get(place)
}

/// What the newest entry of a name binds it to.
pub(crate) fn find<'a, T>(entries: &'a Vec<Entry<T>>, newest: &Newest, name: &Text) -> Option<&'a T>
    requires { IsIndexed newest.now (reverse entries.now.items) }
    ensures { option_map (λ value. value.now) result ≡ bound name.now (bindings_of (reverse entries.now.items)) }
{
    match place_of(newest, name.bytes()) {
        Some(place) => value_at(entries, place),
        None => None,
    }
}

/// Adds an entry, which hides those of its name.
pub(crate) fn add<T: Drop>(
    alloc: Global,
    entries: &mut Vec<Entry<T>>,
    newest: &mut Newest,
    name: &Text,
    value: T,
) -> Result<(), NoMemory>
    requires { IsIndexed newest.old (reverse entries.old.items) }
    ensures indexed { IsIndexed newest.new (reverse entries.new.items) }
    ensures ok { OnOk result (reverse entries.new.items ≡ record { name = name.now; value = value; before = place_among name.now (reverse entries.old.items) } ∷ reverse entries.old.items) }
    ensures err { OnErr result (entries.new.items ≡ entries.old.items) }
{
    let key = name.copy(alloc)?;
    let name = name.copy(alloc)?;
    let before = place_of(newest, name.bytes());
    let place = entries.len();
    push_on(
        entries,
        Entry {
            name,
            value,
            before,
        },
    )?;
    match put(newest, key.into_vec(), place) {
        Ok(()) => Ok(()),
        Err(error) => {
            entries.pop();
            Err(error)
        }
    }
}

/// Takes the newest entry away, so that the one that it hid is seen again.
pub(crate) fn take_last<T: Drop>(entries: &mut Vec<Entry<T>>, newest: &mut Newest)
    requires { IsIndexed newest.old (reverse entries.old.items) }
    ensures indexed { IsIndexed newest.new (reverse entries.new.items) }
    ensures entries { reverse entries.new.items ≡ drop 1 (reverse entries.old.items) }
{
    if let Some(last) = entries.pop() {
        match last.before {
            Some(place) => point(newest, last.name.bytes(), place),
            None => clear(newest, last.name.bytes()),
        }
    }
}

/// Takes the newest entries away, so many.
#[tactic(auto, using(crate::proofs::Chains::drop_one))]
pub(crate) fn take_some<T: Drop>(entries: &mut Vec<Entry<T>>, newest: &mut Newest, count: usize)
    requires { IsIndexed newest.old (reverse entries.old.items) }
    ensures indexed { IsIndexed newest.new (reverse entries.new.items) }
    ensures entries { reverse entries.new.items ≡ drop count (reverse entries.old.items) }
{
    for turn in 0..count {
        take_last(entries, newest);
    }
}
