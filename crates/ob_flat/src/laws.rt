//! What holds of the definitions alone. Each law is the contract of a function that does nothing.

ghost use Rattle.ob_flat.specs.Laws.{FieldIsRead, OtherFieldsAreKept, MarkIsRead, OtherMarksAreKept, ZerosAreRead, ZerosHaveNoMark, OthersAreKeptByZeros, OtherMarksAreKeptByZeros, LayoutIsKept};

use ob_words::laws::law_put;

/// A field that was put is read again, and every other byte of the three ranges is kept.
pub fn law_fields()
    ensures read { FieldIsRead }
    ensures others { OtherFieldsAreKept }
{
    law_put();
}

/// A mark that was set is read again, and the mark of every other granule is kept.
pub fn law_marks()
    ensures read { MarkIsRead }
    ensures others { OtherMarksAreKept }
{}

/// Bytes that were made zero hold 0 and no pointer, and every other byte and mark is kept.
pub fn law_zeros()
    ensures read { ZerosAreRead }
    ensures unmarked { ZerosHaveNoMark }
    ensures others { OthersAreKeptByZeros }
    ensures other_marks { OtherMarksAreKeptByZeros }
{}

/// A change of bytes or marks keeps the layout of the ranges.
pub fn law_layout()
    ensures { LayoutIsKept }
{
    law_put();
}
