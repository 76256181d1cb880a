ghost use Rattle.std.specs.Prelude.{◌≡◌};
ghost use Rattle.ob_model.specs.Manufactured.{place_after};
ghost use Rattle.ob_code.specs.Accesses.{made_word};

use ob_maker::Maker;
use ob_model::LoadKind;
use ob_words::{number, word};

/// Takes the next manufactured value, and gives it as the word that a load of this kind gets: that of the
/// number of its type, and null for a pointer.
pub fn make_word<M: Maker>(maker: &mut M, kind: LoadKind) -> u64
    ensures word { result ≡ made_word kind (M.cycle maker.old) (M.place maker.old) }
    ensures place { M.place maker.new ≡ place_after (M.cycle maker.old) (M.place maker.old) }
    ensures cycle { M.cycle maker.new ≡ M.cycle maker.old }
{
    let made = maker.next();
    match kind {
        LoadKind::Num(t) => word(number(t, made)),
        LoadKind::Ptr => 0,
    }
}
