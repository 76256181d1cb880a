//! What holds of the definitions alone. Each law is the contract of a function that does nothing.

ghost use Rattle.std.specs.Prelude.{◌≡◌};
ghost use Rattle.ob_lower.specs.CodeExamples.{CodeOfWhile, CodeOfCountdown, CodeOfHello, CodeOfCall, CodeOfAnd, CodeOfElement, CodeOfConstantElement, CodeOfNumbersFirst, CodeOfFor, CodeOfArray, CodeOfCopy, CodeOfSum, CodeOfOwnCopy, CodeOfOwnPointer, CodeOfCastCopy, FramesOfOwnNames};

/// The code of small statements, written out by hand.
pub fn law_code()
    ensures while_loop { CodeOfWhile }
    ensures countdown { CodeOfCountdown }
    ensures hello { CodeOfHello }
    ensures call { CodeOfCall }
    ensures and { CodeOfAnd }
    ensures element { CodeOfElement }
    ensures constant_element { CodeOfConstantElement }
    ensures numbers_first { CodeOfNumbersFirst }
    ensures for_loop { CodeOfFor }
    ensures array { CodeOfArray }
    ensures copy { CodeOfCopy }
    ensures sum { CodeOfSum }
    ensures own_copy { CodeOfOwnCopy }
    ensures own_pointer { CodeOfOwnPointer }
    ensures cast_copy { CodeOfCastCopy }
    ensures own_frames { FramesOfOwnNames }
{}
