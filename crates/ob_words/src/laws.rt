//! What holds of the definitions alone. Each law is the contract of a function that does nothing.

ghost use Rattle.std.specs.Prelude.{◌≡◌, ◌≢◌, ◌⊎◌, IfOk, IsErr, IsTrue, ◌↔◌, min, max, int_div, int_rem, ◌≤ℤ◌, ◌<ℤ◌, ◌%◌, All, length, slice_range, ◌+◌, ◌*◌, ◌^◌, ◌<◌, ◌≤◌, ℕ, ℤ, pos, ◌+ℤ◌, ◌-ℤ◌, ◌*ℤ◌, List};
ghost use Rattle.std.specs.Int.{bit_at};
ghost use Rattle.ob_words.specs.declared.types.IntType.{IntType};
ghost use Rattle.ob_words.specs.declared.types.IntType.TheVariants.{Int};
ghost use Rattle.ob_words.specs.Conversion.{convert, IsConversion};
ghost use Rattle.ob_words.specs.Types.{width, IsNumber, promote};
ghost use Rattle.ob_words.specs.Fields.{IsByte, field_at, with_field};
ghost use Rattle.ob_words.specs.Operators.{IsDivision, floor_div, divides, exact, binary, bits_of};
ghost use Rattle.ob_words.specs.declared.types.BinOp.{BinOp};
ghost use Rattle.ob_words.specs.declared.types.BinOp.TheVariants.{And, Or, Xor};
ghost use Rattle.ob_words.specs.Words.{word, number};

/// A conversion gives the one number of the type that is congruent to the given number modulo
/// 2 ^ width.
pub fn law_convert()
    ensures { (t : IntType) (n : ℤ) → IsConversion t n (convert t n) }
{}

/// A number of the type stays, so that to convert twice changes nothing more; nor does a
/// conversion to a type that isn't narrower, before another.
pub fn law_convert_twice()
    ensures own { (t : IntType) (n : ℤ) → IsNumber t n → convert t n ≡ n }
    ensures twice { (t : IntType) (n : ℤ) → convert t (convert t n) ≡ convert t n }
    ensures wider { (t u : IntType) (n : ℤ) → width t ≤ width u → convert t (convert u n) ≡ convert t n }
{}

/// To convert the parts of a sum, a difference or a product first changes nothing.
pub fn law_convert_parts()
    ensures sum { (t : IntType) (a b : ℤ) → convert t (convert t a +ℤ convert t b) ≡ convert t (a +ℤ b) }
    ensures difference { (t : IntType) (a b : ℤ) → convert t (convert t a -ℤ convert t b) ≡ convert t (a -ℤ b) }
    ensures product { (t : IntType) (a b : ℤ) → convert t (convert t a *ℤ convert t b) ≡ convert t (a *ℤ b) }
{}

/// Numbers and words undo each other: a number of a type comes back from its word, and a word from
/// its number in a type of 64 bits. The word of any number has the conversion to any type.
pub fn law_number_word()
    ensures number { (t : IntType) (n : ℤ) → IsNumber t n → number t (word n) ≡ n }
    ensures word { (t : IntType) (w : ℕ) → width t ≡ 64 → w < 2 ^ 64 → word (number t w) ≡ w }
    ensures conversion { (t : IntType) (n : ℤ) → number t (word n) ≡ convert t n }
{}

/// A field that was put is read again, up to the bytes that it has, and each range of bytes that
/// doesn't meet it is kept.
pub fn law_put()
    ensures get_after_put { (bytes : List ℕ) (at size w : ℕ) → at + size ≤ length bytes → field_at (with_field bytes at size w) at size ≡ w % 256 ^ size }
    ensures apart { (bytes : List ℕ) (at size w i j : ℕ) → at + size ≤ length bytes → (j ≤ at) ⊎ (at + size ≤ i) → slice_range (with_field bytes at size w) i j ≡ slice_range bytes i j }
    ensures length { (bytes : List ℕ) (at size w : ℕ) → at + size ≤ length bytes → length (with_field bytes at size w) ≡ length bytes }
{}

/// The number of a field is below 256 ^ size, and to put it where it was read changes nothing.
pub fn law_get()
    ensures below { (bytes : List ℕ) (at size : ℕ) → All IsByte bytes → at + size ≤ length bytes → field_at bytes at size < 256 ^ size }
    ensures put_after_get { (bytes : List ℕ) (at size : ℕ) → All IsByte bytes → at + size ≤ length bytes → with_field bytes at size (field_at bytes at size) ≡ bytes }
{}

/// Each type below 32 bits is promoted to `int`, and each other type stays.
pub fn law_promote()
    ensures narrow { (t : IntType) → width t < 32 → promote t ≡ Int }
    ensures wide { (t : IntType) → 32 ≤ width t → promote t ≡ t }
{}

/// An operator is refused exactly where it divides by 0 (C99 6.5.5), and what it gives is a number
/// of the type.
pub fn law_result()
    ensures refused { (op : BinOp) (t : IntType) (a b : ℤ) → IsErr (binary op t a b) ↔ (IsTrue (divides op) × (b ≡ pos 0)) }
    ensures number { (op : BinOp) (t : IntType) (a b : ℤ) → IfOk (binary op t a b) (IsNumber t) }
{}

/// A quotient is truncated toward zero (C99 6.5.5): it and the remainder make up what was divided,
/// the remainder is nearer to 0 than the divisor, and has no other sign than what was divided.
pub fn law_division()
    ensures { (a b : ℤ) → b ≢ pos 0 → IsDivision a b (int_div a b) (int_rem a b) }
{}

/// A shift to the right divides and rounds down.
pub fn law_right_shift()
    ensures low { (z : ℤ) (m : ℕ) → 0 < m → (floor_div z m *ℤ pos m) ≤ℤ z }
    ensures high { (z : ℤ) (m : ℕ) → 0 < m → z <ℤ (floor_div z m *ℤ pos m +ℤ pos m) }
{}

/// `&`, `|` and `^` act on each bit of two's complement for itself (C99 6.5.10 to 6.5.12).
pub fn law_bits()
    ensures and { (t : IntType) (a b : ℤ) (i : ℕ) → bit_at (bits_of t (convert t (exact And t a b))) i ≡ min (bit_at (bits_of t a) i) (bit_at (bits_of t b) i) }
    ensures or { (t : IntType) (a b : ℤ) (i : ℕ) → bit_at (bits_of t (convert t (exact Or t a b))) i ≡ max (bit_at (bits_of t a) i) (bit_at (bits_of t b) i) }
    ensures xor { (t : IntType) (a b : ℤ) (i : ℕ) → bit_at (bits_of t (convert t (exact Xor t a b))) i ≡ (bit_at (bits_of t a) i + bit_at (bits_of t b) i) % 2 }
{}
