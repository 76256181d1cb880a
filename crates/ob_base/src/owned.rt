ghost use Rattle.std.specs.Prelude.{◌≡◌, ◌++◌, [], ◌∷◌, IfOk, OnOk, OnErr};

use crate::NoMemory;
use std::alloc::Global;

/// Lets a value go.
pub fn let_go<T: Drop>(value: T) {
    let _gone = value;
}

/// A value in a box.
pub fn boxed<T: Drop>(alloc: Global, value: T) -> Result<Box<T>, NoMemory>
    ensures { IfOk result (λ b. b.value ≡ value) }
{
    Ok(Box::new(alloc, value)?)
}

/// Two values, each in a box.
pub fn boxed_two<A: Drop, B: Drop>(
    alloc: Global,
    first: A,
    second: B,
) -> Result<(Box<A>, Box<B>), NoMemory>
    ensures first { IfOk result (λ r. r.0.value ≡ first) }
    ensures second { IfOk result (λ r. r.1.value ≡ second) }
{
    let first = boxed(alloc, first)?;
    let second = boxed(alloc, second)?;
    Ok((first, second))
}

/// Three values, each in a box.
pub fn boxed_three<A: Drop, B: Drop, C: Drop>(
    alloc: Global,
    first: A,
    second: B,
    third: C,
) -> Result<(Box<A>, Box<B>, Box<C>), NoMemory>
    ensures first { IfOk result (λ r. r.0.value ≡ first) }
    ensures second { IfOk result (λ r. r.1.value ≡ second) }
    ensures third { IfOk result (λ r. r.2.value ≡ third) }
{
    let first = boxed(alloc, first)?;
    let second = boxed(alloc, second)?;
    let third = boxed(alloc, third)?;
    Ok((first, second, third))
}

/// A value in a box, and beside it what the caller goes on with.
pub fn boxed_with<T: Drop, K: Drop>(
    alloc: Global,
    value: T,
    kept: K,
) -> Result<(Box<T>, K), NoMemory>
    ensures value { IfOk result (λ r. r.0.value ≡ value) }
    ensures kept { IfOk result (λ r. r.1 ≡ kept) }
{
    let value = boxed(alloc, value)?;
    Ok((value, kept))
}

/// Puts a value at the end of a list. `NoMemory` leaves the list, and the value is let go.
pub fn push_on<T: Drop>(list: &mut Vec<T>, value: T) -> Result<(), NoMemory>
    ensures ok { OnOk result (list.new.items ≡ list.old.items ++ value ∷ []) }
    ensures err { OnErr result (list.new.items ≡ list.old.items) }
{
    list.push(value)?;
    Ok(())
}

/// Puts a value at the end of a list, and gives back what the caller goes on with. `NoMemory`
/// leaves the list, and both values are let go.
pub fn push_with<T: Drop, K: Drop>(list: &mut Vec<T>, value: T, kept: K) -> Result<K, NoMemory>
    ensures pushed { OnOk result (list.new.items ≡ list.old.items ++ value ∷ []) }
    ensures kept { IfOk result (λ k. k ≡ kept) }
    ensures err { OnErr result (list.new.items ≡ list.old.items) }
{
    list.push(value)?;
    Ok(kept)
}

/// A list with one value more at its end.
pub fn with_last<T: Drop>(list: Vec<T>, value: T) -> Result<Vec<T>, NoMemory>
    ensures { IfOk result (λ longer. longer.items ≡ list.items ++ value ∷ []) }
{
    let mut list = list;
    list.push(value)?;
    Ok(list)
}

/// The list of one value.
pub fn listed<T: Drop>(alloc: Global, value: T) -> Result<Vec<T>, NoMemory>
    ensures { IfOk result (λ list. list.items ≡ value ∷ []) }
{
    let mut list = Vec::with_capacity(alloc, 1)?;
    list.push(value)?;
    Ok(list)
}
