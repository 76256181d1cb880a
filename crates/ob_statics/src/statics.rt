ghost use Rattle.std.specs.Prelude.{◌≡◌, ◌-◌, ◌<◌, length, IfOk};
ghost use Rattle.ob_flat.specs.Memory.{IsLaidOut};
ghost use Rattle.ob_code.specs.Layout.{static_base, static_blocks};
ghost use Rattle.ob_code.specs.Limits.{most_statics, most_pointers};
ghost use Rattle.ob_code.specs.Rules.{AreSound, HasStatic, IsPointerSound, IsStaticSound, pointer_at, static_at};
ghost use Rattle.ob_code.specs.Start.{with_pointer, with_pointers};
ghost use Rattle.ob_statics.specs.Contents.{static_memory};
ghost use Rattle.ob_statics.specs.Held.{KeepsRanges};

use crate::bases::{STATICS_START, bases_of, copy_rows};
use crate::bytes::{lay_bytes, put_pointer};
use ob_base::NoMemory;
use ob_code::{PointerRow, Rows, StaticRow};
use ob_flat::Flat;
use std::alloc::Global;
use std::marker::Model;

/// The static objects of an image, and the pointers that they hold. Objects are numbered from 1. It is seen
/// as the rows of both.
#[derive(Drop)]
pub struct Statics {
    rows: Rows<StaticRow>,
    pointers: Rows<PointerRow>,
    bases: Vec<u64>,
}

impl Model for Statics {
    ghost use Rattle.ob_statics.specs.Held.{IsHeld, StaticParts};

    ghost Value = { StaticParts };

    ghost view = { λ s. record { statics = s.rows; pointers = s.pointers } };

    ghost invariant = { λ s. IsHeld s.rows s.pointers s.bases.items };
}

impl Statics {
    /// Copies of the rows, which keep the rules of images. Takes all the memory that it will ever take, and
    /// answers `NoMemory` where there is too little.
    pub fn new(
        alloc: Global,
        statics: &[StaticRow],
        pointers: &[PointerRow],
    ) -> Result<Statics, NoMemory>
        requires statics { AreSound most_statics (length statics.now) (IsStaticSound statics.now) }
        requires pointers { AreSound most_pointers (length pointers.now) (IsPointerSound statics.now pointers.now) }
        ensures { IfOk result (λ s. s ≡ record { statics = statics.now; pointers = pointers.now }) }
    {
        let bases = bases_of(alloc, statics)?;
        let rows = copy_rows(alloc, statics)?;
        let pointers = Rows::from_vec(Vec::from_slice(alloc, pointers)?);
        Ok(Statics {
            rows,
            pointers,
            bases,
        })
    }

    /// The rows keep the rules of images.
    pub fn law_sound(&self)
        ensures statics { AreSound most_statics (length self.now.statics) (IsStaticSound self.now.statics) }
        ensures pointers { AreSound most_pointers (length self.now.pointers) (IsPointerSound self.now.statics self.now.pointers) }
    {
        let _ = &self.bases;
    }

    /// How many static objects there are.
    pub fn len(&self) -> u32
        ensures { result ≡ length self.now.statics }
    {
        self.rows.as_slice().len() as u32
    }

    /// The bytes that the blocks of all static objects take.
    pub fn blocks(&self) -> u64
        ensures { result ≡ static_blocks self.now.statics }
    {
        self.bases[self.rows.as_slice().len()] - STATICS_START
    }

    /// The size in bytes of the static object of this number.
    pub fn size(&self, number: u32) -> u64
        requires { HasStatic self.now.statics number }
        ensures { result ≡ (static_at self.now.statics (number - 1)).size }
    {
        self.rows.as_slice()[number as usize - 1].size
    }

    /// The address of the static object of this number.
    pub fn base(&self, number: u32) -> u64
        requires { HasStatic self.now.statics number }
        ensures { result ≡ static_base self.now.statics number }
    {
        self.bases[number as usize - 1]
    }

    /// Puts the given bytes of each static object at its place, and then each pointer, in a granule that is
    /// marked as a pointer's. All other bytes and marks are kept. Takes no memory. The memory's static range
    /// is as long as the blocks of the objects.
    pub fn lay_out(&self, flat: &mut Flat)
        requires laid_out { IsLaidOut flat.old }
        requires statics { flat.old.statics ≡ static_blocks self.now.statics }
        ensures memory { flat.new ≡ static_memory self.now.statics self.now.pointers flat.old }
        ensures ranges { KeepsRanges flat.old flat.new }
    {
        lay_bytes(flat, self.rows.as_slice(), self.bases.as_slice());
        self.lay_pointers(flat);
    }

    fn lay_pointers(&self, flat: &mut Flat)
        requires laid_out { IsLaidOut flat.old }
        requires statics { flat.old.statics ≡ static_blocks self.now.statics }
        ensures memory { flat.new ≡ with_pointers self.now.statics self.now.pointers flat.old }
        ensures ranges { KeepsRanges flat.old flat.new }
    {
        for i in 0..self.pointers.as_slice().len() {
            self.lay_pointer(flat, i);
        }
    }

    fn lay_pointer(&self, flat: &mut Flat, i: usize)
        requires pointer { i < length self.now.pointers }
        requires laid_out { IsLaidOut flat.old }
        requires statics { flat.old.statics ≡ static_blocks self.now.statics }
        ensures memory { flat.new ≡ with_pointer self.now.statics (pointer_at self.now.pointers i) flat.old }
        ensures ranges { KeepsRanges flat.old flat.new }
    {
        let row = self.pointers.as_slice()[i];
        let place = self.base(row.holder) + row.offset;
        let target = self.base(row.target) + row.target_offset;
        put_pointer(flat, place, target);
    }
}
