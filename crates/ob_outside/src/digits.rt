ghost use Rattle.std.specs.Prelude.{◌≡◌, ◌+◌, ◌-◌, ◌%◌, ◌^◌, ◌≤◌, ◌<◌};
ghost use Rattle.ob_outside.specs.Digits.{digits_at, IsSpliced};

/// So many binary digits of a number from a place on, at most 64 in all.
pub(crate) fn digits_at(n: u64, from: u32, count: u32) -> u128
    requires { from + count ≤ 64 }
    ensures { result ≡ digits_at n from count }
{
    (u128::from(n) >> from) % (1u128 << count)
}

/// A number of so many binary digits that are all 1.
pub(crate) fn ones(count: u32) -> u128
    requires { count ≤ 64 }
    ensures value { result ≡ 2 ^ count - 1 }
    ensures few { result < 2 ^ count }
{
    (1u128 << count) - 1
}

/// The lowest binary digits of a number.
pub(crate) fn low_digits(n: u64, count: u32) -> u128
    requires { count ≤ 64 }
    ensures value { result ≡ n % 2 ^ count }
    ensures few { result < 2 ^ count }
{
    u128::from(n) % (1u128 << count)
}

/// The number with so many binary digits from a place on replaced.
pub(crate) fn spliced(old: u64, from: u32, count: u32, digits: u128) -> u128
    requires places { from + count ≤ 64 }
    requires few { digits < 2 ^ count }
    ensures { IsSpliced from count old digits result }
{
    let old = u128::from(old);
    let low = 1u128 << from;
    let high = 1u128 << (from + count);
    old % low + digits * low + old / high * high
}
