ghost use Rattle.std.specs.Prelude.{◌≡◌, ◌≤◌, ◌+◌, ◌*◌, Some, min, option_map};
ghost use Rattle.ob_tree.specs.Sizes.{appended, next_offset, padded, repeated, scalar, no_layout, round_up};

use ob_tree::StructLayout;

/// One more than the greatest size of an object: counts stop here.
const CAP: u64 = 4_194_305;

/// The layout of some bytes: how many they are, their alignment, and how many numbers and pointers.
#[derive(Drop)]
pub(crate) struct Counted {
    pub size: u64,
    pub align: u64,
    pub scalars: u64,
    ghost align_some: { 1 ≤ align },
    ghost align_few: { align ≤ 8 },
    ghost size_few: { size ≤ 4194305 },
    ghost scalars_few: { scalars ≤ size },
}

impl Counted {
    ghost use Rattle.ob_tree.specs.StructLayouts.{shown_layout};
    ghost use Rattle.ob_layout.specs.Capped.{capped, object_layout, shown};

    /// Nothing.
    pub(crate) fn none() -> Counted
        ensures { shown result ≡ no_layout }
    {
        Counted {
            size: 0,
            align: 1,
            scalars: 0,
        }
    }

    /// A number or a pointer of so many bytes.
    pub(crate) fn scalar(bytes: u64) -> Counted
        requires some { 1 ≤ bytes }
        requires few { bytes ≤ 8 }
        ensures { shown result ≡ scalar bytes }
    {
        Counted {
            size: bytes,
            align: bytes,
            scalars: 1,
        }
    }

    /// What a complete structure takes.
    pub(crate) fn of_struct(l: StructLayout) -> Counted
        ensures { shown result ≡ capped (shown_layout l) }
    {
        Counted {
            size: l.size,
            align: l.align,
            scalars: l.scalars,
        }
    }

    /// So many of this layout one behind another.
    pub(crate) fn repeat(&self, count: u64) -> Counted
        ensures { shown result ≡ capped (repeated (shown self.now) count) }
    {
        let size = product(self.size, count);
        let scalars = product(self.scalars, count).min(size);
        Counted {
            size,
            align: self.align,
            scalars,
        }
    }

    /// Where a member stands that follows this layout.
    pub(crate) fn next_offset(&self, member: &Counted) -> u64
        ensures is { result ≡ next_offset (shown self.now) (shown member.now) }
        ensures from { self.now.size ≤ result }
        ensures to { result ≤ self.now.size + 7 }
    {
        rounded(self.size, member.align)
    }

    /// This layout and a member that follows it.
    pub(crate) fn append(&self, member: &Counted) -> Counted
        ensures { shown result ≡ capped (appended (shown self.now) (shown member.now)) }
    {
        let size = (self.next_offset(member) + member.size).min(CAP);
        let scalars = (self.scalars + member.scalars).min(CAP);
        Counted {
            size,
            align: self.align.max(member.align),
            scalars,
        }
    }

    /// The members of a structure with the padding behind them.
    pub(crate) fn pad(&self) -> Counted
        ensures { shown result ≡ capped (padded (shown self.now)) }
    {
        let size = rounded(self.size, self.align).min(CAP);
        Counted {
            size,
            align: self.align,
            scalars: self.scalars,
        }
    }

    /// The layout, where it is small enough for an object.
    pub(crate) fn object(&self) -> Option<StructLayout>
        ensures { option_map shown_layout result ≡ object_layout (Some (shown self.now)) }
    {
        if self.size < CAP {
            Some(StructLayout {
                size: self.size,
                align: self.align,
                scalars: self.scalars,
            })
        } else {
            None
        }
    }
}

/// The least multiple of `align` that is at least `n`.
fn rounded(n: u64, align: u64) -> u64
    requires some { 1 ≤ align }
    requires few { align ≤ 8 }
    requires within { n ≤ 4194305 }
    ensures is { result ≡ round_up n align }
    ensures from { n ≤ result }
    ensures to { result ≤ n + 7 }
{
    n + (align - n % align) % align
}

/// A product up to the cap.
fn product(a: u64, count: u64) -> u64
    requires { a ≤ 4194305 }
    ensures { result ≡ min (a * count) 4194305 }
{
    (a as u128 * count as u128).min(CAP as u128) as u64
}
