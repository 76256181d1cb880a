ghost use Rattle.std.specs.Prelude.{◌≡◌, ◌≤◌, OnErr};
ghost use Rattle.ob_words.specs.Conversion.{convert};
ghost use Rattle.ob_words.specs.declared.types.IntType.TheVariants.{Long};
ghost use Rattle.ob_model.specs.Pointers.{pointers_compare, difference};
ghost use Rattle.ob_frames.specs.Links.{KeepsLinks};
ghost use Rattle.ob_standing.specs.Laws.{KeepsStanding};
ghost use Rattle.ob_space.specs.Loaded.{Moves, pointer_at};

use crate::Space;
use ob_pointers::ShiftAnswer;
use ob_standing::laws::law_moves;
use ob_words::Relation;

impl Space {
    /// The word of a pointer moved by so many bytes (C99 6.5.6): null stays null; in its object, one past the end
    /// included, it is an address; any other has the word of a slot, the same for as long as its object is
    /// known. `Far` comes exactly where the displacement, or the offset plus the displacement, lies outside
    /// -2^62 to 2^62; `Full` exactly where the pointer is out of bounds, has no slot, and as many others as the
    /// settings allow stand. Both change nothing. Takes no memory.
    pub fn shift(&mut self, w: u64, displacement: i64) -> Result<u64, ShiftAnswer>
        ensures moved { Moves w displacement self.old result self.new }
        ensures unchanged { OnErr result (self.new ≡ self.old) }
        ensures links { KeepsLinks self.old.space self.new.space }
        ensures standing { KeepsStanding self.old.space self.new.space }
    {
        law_moves();
        self.frames.law_framed();
        self.living.shift(w, displacement)
    }

    /// Whether the pointers of two words stand in a relation (C99 6.5.8 and 6.5.9): by the objects' numbers,
    /// then by offsets, where null is object 0.
    pub fn order(&mut self, relation: Relation, a: u64, b: u64) -> bool
        ensures answer { result ≡ pointers_compare relation (pointer_at self.old a) (pointer_at self.old b) }
        ensures kept { self.new ≡ self.old }
    {
        self.living.order(relation, a, b)
    }

    /// How many elements of `size` bytes lie from the pointer of `b` to that of `a`, truncated toward zero and
    /// converted to `long`; 0 between two objects (C99 6.5.6). `size` is at least 1.
    pub fn difference(&mut self, a: u64, b: u64, size: u64) -> i64
        requires { 1 ≤ size }
        ensures answer { result ≡ convert Long (difference size (pointer_at self.old a) (pointer_at self.old b)) }
        ensures kept { self.new ≡ self.old }
    {
        self.living.difference(a, b, size)
    }
}
