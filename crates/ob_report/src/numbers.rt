ghost use Rattle.std.specs.Prelude.{◌≡◌, ◌++◌, OnOk, codes};

use itoa::{Buffer, Integer};
use ob_base::{NoMemory, Text};

/// Puts a number at the end, in decimal.
pub(crate) fn put_number<I: Integer>(text: &mut Text, n: I) -> Result<(), NoMemory>
    ensures { OnOk result (text.new ≡ text.old ++ I.text n) }
{
    let mut buffer = Buffer::new();
    text.add(buffer.format(n).as_bytes())
}

/// Puts a line of a word and a number at the end.
pub(crate) fn put_numbered<I: Integer>(text: &mut Text, word: &str, n: I) -> Result<(), NoMemory>
    ensures { OnOk result (text.new ≡ text.old ++ (word.now ++ I.text n ++ codes "\n")) }
{
    text.add(word.as_bytes())?;
    put_number(text, n)?;
    text.add(b"\n")
}
