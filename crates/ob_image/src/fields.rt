ghost use Rattle.std.specs.Prelude.{◌≡◌, ◌++◌, OnOk};
ghost use Rattle.ob_words.specs.Fields.{low_bytes};
ghost use Rattle.ob_image.specs.Layout.{spell_fields};

use crate::layout::Fields;
use ob_base::NoMemory;

#[tactic(auto, using(crate::proofs::Digits::byte_is))]
pub(crate) fn put_byte(out: &mut Vec<u8>, n: u8) -> Result<(), NoMemory>
    ensures { OnOk result (out.new.items ≡ out.old.items ++ low_bytes 1 n) }
{
    out.push(n)?;
    Ok(())
}

#[tactic(auto, unfolding(ob_words::specs::Fields::low_bytes))]
fn put_zeros(out: &mut Vec<u8>) -> Result<(), NoMemory>
    ensures { OnOk result (out.new.items ≡ out.old.items ++ low_bytes 2 0) }
{
    out.extend_from_slice(&[0, 0])?;
    Ok(())
}

#[tactic(auto, using(crate::proofs::Digits::word_is))]
pub(crate) fn put_word(out: &mut Vec<u8>, n: u32) -> Result<(), NoMemory>
    ensures { OnOk result (out.new.items ≡ out.old.items ++ low_bytes 4 n) }
{
    out.extend_from_slice(&n.to_le_bytes())?;
    Ok(())
}

#[tactic(auto, using(crate::proofs::Digits::long_is))]
pub(crate) fn put_long(out: &mut Vec<u8>, n: u64) -> Result<(), NoMemory>
    ensures { OnOk result (out.new.items ≡ out.old.items ++ low_bytes 8 n) }
{
    out.extend_from_slice(&n.to_le_bytes())?;
    Ok(())
}

#[tactic(auto, using(crate::proofs::Digits::count_is))]
pub(crate) fn put_count(out: &mut Vec<u8>, n: usize) -> Result<(), NoMemory>
    ensures { OnOk result (out.new.items ≡ out.old.items ++ low_bytes 4 n) }
{
    put_word(out, (n % (1 << 32)) as u32)
}

#[tactic(auto, unfolding(crate::specs::Layout::spell_fields))]
pub(crate) fn put_fields(out: &mut Vec<u8>, f: Fields) -> Result<(), NoMemory>
    ensures { OnOk result (out.new.items ≡ out.old.items ++ spell_fields f) }
{
    put_byte(out, f.op)?;
    put_byte(out, f.kind)?;
    put_zeros(out)?;
    put_word(out, f.line)?;
    put_word(out, f.a)?;
    put_word(out, f.b)?;
    put_word(out, f.c)?;
    put_long(out, f.imm)?;
    Ok(())
}
