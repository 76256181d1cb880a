ghost use Rattle.std.specs.Prelude.{◌≡◌, ◌==◌, ◌+◌, ◌-◌, ◌<◌, ◌≤◌, ◌^◌, length, false};
ghost use Rattle.std.specs.List.{All, Contains};
ghost use Rattle.ob_model.specs.Bounded.{surviving_cells};
ghost use Rattle.ob_model.specs.Descriptors.{surviving_pairs};
ghost use Rattle.ob_model.specs.Entries.{surviving_known, with_live};
ghost use Rattle.ob_model.specs.Limits.{stack_start, heap_start};
ghost use Rattle.ob_model.specs.Objects.{is_among};
ghost use Rattle.ob_code.specs.Frames.{frame_length, local_entry, with_locals};
ghost use Rattle.ob_code.specs.Rules.{IsFrameSound};
ghost use Rattle.ob_standing.specs.Laws.{IsGivenOut};
ghost use Rattle.ob_lifetimes.specs.Living.{AreKnown, AreOfRows, Dies, LiesOutside};
ghost use Rattle.ob_lifetimes.specs.Kept.{CellHasNumber, IsBeside, PairHasNumber, heap_blocks};

use crate::Lifetimes;
use ob_code::{FunctionRow, LocalRow};
use ob_model::{Entry, Sort};

impl Lifetimes {
    // The next number, where so many are given out.
    fn give_numbers(&mut self, count: u32) -> u64
        requires { self.old.next < 2 ^ 63 }
        ensures first { result ≡ self.old.next }
        ensures least { 1 ≤ result }
        ensures given_out { All (IsGivenOut result) self.old.entries }
        ensures after { self.new ≡ record self.old { next = self.old.next + count } }
    {
        let first = self.next;
        self.next += u64::from(count);
        first
    }

    // One object of a call.
    fn insert_local(&mut self, base: u64, first: u64, row: LocalRow)
        requires few { self.old.locals < 65536 }
        requires base { 1 ≤ base }
        requires end { base + row.place + row.size < heap_start }
        requires first { 1 ≤ first }
        requires next { first + row.ordinal < self.old.next }
        requires room { All (IsBeside base first row) self.old.entries }
        ensures { self.new ≡ record self.old { entries = with_live (local_entry base first row) self.old.entries; locals = self.old.locals + 1 } }
    {
        self.pointers.stands();
        self.locals += 1;
        self.pointers.insert(Entry {
            base: base + row.place,
            size: row.size,
            object: first + u64::from(row.ordinal),
            sort: Sort::Automatic,
        });
    }

    /// Makes the objects of a call of a function whose frame lies at `base`: each local row's has the number of
    /// its ordinal after the next number, and the function's variables take the next numbers. No object lies
    /// in the frame, and the stack has room for the objects. The next number is below 2^63.
    pub fn enter(&mut self, base: u64, row: &FunctionRow)
        requires stack { stack_start ≤ base }
        requires end { base + frame_length row.now ≤ heap_start }
        requires sound { IsFrameSound row.now }
        requires few { self.old.locals + length row.now.locals ≤ 65536 }
        requires next { self.old.next < 2 ^ 63 }
        requires free { All (LiesOutside base (base + frame_length row.now)) self.old.entries }
        ensures { self.new ≡ record self.old { entries = with_locals base self.old.next row.now.locals self.old.entries; locals = self.old.locals + length row.now.locals; next = self.old.next + row.now.vars } }
    {
        let first = self.give_numbers(row.vars);
        for local in row.locals.as_slice() {
            self.insert_local(base, first, *local);
        }
    }

    // Does nothing; slots and outside granules are of objects that are known, and the heap's list is theirs.
    fn law_tables(&self)
        ensures slots { All (PairHasNumber self.now.entries) self.now.slots }
        ensures outside { All (CellHasNumber self.now.entries) self.now.outside }
        ensures blocks { self.now.blocks ≡ heap_blocks self.now.entries }
    {
        let _ = &self.next;
    }

    // One object of a call dies.
    fn end_local(&mut self, base: u64, first: u64, row: LocalRow)
        requires few { 1 ≤ self.old.locals }
        requires known { Contains self.old.entries (record { entry = local_entry base first row; freed = false }) }
        ensures { self.new ≡ record self.old { locals = self.old.locals - 1; entries = surviving_known (λ other. other == first + row.ordinal) self.old.entries; slots = surviving_pairs (λ other. other == first + row.ordinal) self.old.slots; outside = surviving_cells (λ other. other == first + row.ordinal) self.old.outside } }
    {
        self.pointers.stands();
        let object = first + u64::from(row.ordinal);
        self.locals -= 1;
        self.pointers.die(base + row.place, object);
        self.outside.forget(object);
    }

    /// The objects of a call end, whose frame lies at `base` and whose first number is `first`: they die, and
    /// their slots and outside granules go. The function's rows are all objects with such a number.
    pub fn leave(&mut self, base: u64, first: u64, row: &FunctionRow)
        requires known { AreKnown base first row.now.locals self.old.entries }
        requires own { AreOfRows (is_among first row.now.vars) base first row.now.locals self.old.entries }
        requires sound { IsFrameSound row.now }
        requires few { length row.now.locals ≤ self.old.locals }
        ensures { Dies (is_among first row.now.vars) (length row.now.locals) self.old self.new }
    {
        self.law_tables();
        for local in row.locals.as_slice() {
            self.end_local(base, first, *local);
        }
    }
}
