ghost use Rattle.std.specs.Prelude.{◌≡◌, ◌++◌, OnOk, IfOk};
ghost use Rattle.ob_image.specs.Layout.{spell_instruction, AreFields, IsInstruction};
ghost use Rattle.ob_image.specs.Reading.{Gives, static_row, pointer_row, local_row, function_row, fields_row, instruction_row, name_row};
ghost use Rattle.ob_image.specs.Rules.{StaticRule, FunctionRule, InstructionRule, NameRule, NoRule, IsTyped};
ghost use Rattle.ob_image.specs.Spelling.{spell_static, spell_pointer, spell_local, spell_function, spell_name, IsStatic, IsPointer, IsLocal, IsFunction, IsNameRow};

use crate::faults::Stop;
use crate::fields::{put_count, put_fields, put_long, put_word};
use crate::fields_of::fields_of;
use crate::given::given;
use crate::instructions::instruction;
use crate::layout::{Fields, limits_of};
use crate::names::name;
use crate::numbers::{byte, from_one, long, nonzero, word, zeros};
use crate::rows::{Row, counted, put_rows};
use ob_base::NoMemory;
use ob_code::{FunctionRow, Instr, LocalRow, NameRow, PointerRow, Rows, StaticRow};
use std::alloc::Global;

impl Row for StaticRow {
    ghost use Rattle.ob_image.specs.Reading.{static_row};
    ghost use Rattle.ob_image.specs.Rules.{StaticRule};
    ghost use Rattle.ob_image.specs.Spelling.{spell_static, IsStatic};

    ghost reader = { static_row };

    ghost spelling = { spell_static };

    ghost rule = { StaticRule };

    ghost valid = { IsStatic };

    #[tactic(auto, unfolding(crate::specs::Reading::static_row, crate::specs::Reading::gives))]
    fn read(alloc: Global, bytes: &[u8]) -> Result<(StaticRow, &[u8]), Stop> {
        let (size, rest) = long(u64::MAX, bytes)?;
        let (count, rest) = long(4_194_304, rest)?;
        let (given, rest) = given(alloc, count as usize, rest)?;
        Ok((StaticRow { size, given }, rest))
    }

    #[tactic(auto, unfolding(crate::specs::Spelling::spell_static))]
    fn put(&self, out: &mut Vec<u8>) -> Result<(), NoMemory> {
        let given = self.given.bytes();
        put_long(out, self.size)?;
        put_long(out, given.len() as u64)?;
        out.extend_from_slice(given)?;
        Ok(())
    }
}

impl Row for PointerRow {
    ghost use Rattle.ob_image.specs.Reading.{pointer_row};
    ghost use Rattle.ob_image.specs.Rules.{NoRule};
    ghost use Rattle.ob_image.specs.Spelling.{spell_pointer, IsPointer};

    ghost reader = { pointer_row };

    ghost spelling = { spell_pointer };

    ghost rule = { NoRule };

    ghost valid = { IsPointer };

    #[tactic(auto, unfolding(crate::specs::Reading::pointer_row, crate::specs::Reading::gives))]
    fn read(_alloc: Global, bytes: &[u8]) -> Result<(PointerRow, &[u8]), Stop> {
        let (holder, rest) = word(u32::MAX, bytes)?;
        let (offset, rest) = long(u64::MAX, rest)?;
        let (target, rest) = word(u32::MAX, rest)?;
        let (target_offset, rest) = long(u64::MAX, rest)?;
        let row = PointerRow {
            holder,
            offset,
            target,
            target_offset,
        };
        Ok((row, rest))
    }

    #[tactic(auto, unfolding(crate::specs::Spelling::spell_pointer))]
    fn put(&self, out: &mut Vec<u8>) -> Result<(), NoMemory> {
        put_word(out, self.holder)?;
        put_long(out, self.offset)?;
        put_word(out, self.target)?;
        put_long(out, self.target_offset)?;
        Ok(())
    }
}

impl Row for LocalRow {
    ghost use Rattle.ob_image.specs.Reading.{local_row};
    ghost use Rattle.ob_image.specs.Rules.{NoRule};
    ghost use Rattle.ob_image.specs.Spelling.{spell_local, IsLocal};

    ghost reader = { local_row };

    ghost spelling = { spell_local };

    ghost rule = { NoRule };

    ghost valid = { IsLocal };

    #[tactic(auto, unfolding(crate::specs::Reading::local_row, crate::specs::Reading::gives))]
    fn read(_alloc: Global, bytes: &[u8]) -> Result<(LocalRow, &[u8]), Stop> {
        let (ordinal, rest) = word(u32::MAX, bytes)?;
        let (place, rest) = long(u64::MAX, rest)?;
        let (size, rest) = long(u64::MAX, rest)?;
        Ok((
            LocalRow {
                ordinal,
                place,
                size,
            },
            rest,
        ))
    }

    #[tactic(auto, unfolding(crate::specs::Spelling::spell_local))]
    fn put(&self, out: &mut Vec<u8>) -> Result<(), NoMemory> {
        put_word(out, self.ordinal)?;
        put_long(out, self.place)?;
        put_long(out, self.size)?;
        Ok(())
    }
}

impl Row for FunctionRow {
    ghost use Rattle.ob_image.specs.Reading.{function_row};
    ghost use Rattle.ob_image.specs.Rules.{FunctionRule};
    ghost use Rattle.ob_image.specs.Spelling.{spell_function, IsFunction};

    ghost reader = { function_row };

    ghost spelling = { spell_function };

    ghost rule = { FunctionRule };

    ghost valid = { IsFunction };

    #[tactic(auto, unfolding(crate::specs::Reading::function_row, crate::specs::Reading::gives))]
    fn read(alloc: Global, bytes: &[u8]) -> Result<(FunctionRow, &[u8]), Stop> {
        let (entry, rest) = word(u32::MAX, bytes)?;
        let (params, rest) = word(u32::MAX, rest)?;
        let (words, rest) = word(u32::MAX, rest)?;
        let (vars, rest) = word(u32::MAX, rest)?;
        let (allowance, rest) = long(u64::MAX, rest)?;
        let (locals, rest) = counted(alloc, 524_288, rest)?;
        let locals = Rows::from_vec(locals);
        let row = FunctionRow {
            entry,
            params,
            words,
            vars,
            allowance,
            locals,
        };
        Ok((row, rest))
    }

    #[tactic(auto, unfolding(crate::specs::Spelling::spell_function))]
    fn put(&self, out: &mut Vec<u8>) -> Result<(), NoMemory> {
        put_word(out, self.entry)?;
        put_word(out, self.params)?;
        put_word(out, self.words)?;
        put_word(out, self.vars)?;
        put_long(out, self.allowance)?;
        put_rows(out, self.locals.as_slice())
    }
}

#[tactic(auto, unfolding(crate::specs::Reading::fields_row, crate::specs::Reading::operands_row, crate::specs::Reading::gives))]
fn fields(bytes: &[u8]) -> Result<(Fields, &[u8]), Stop>
    ensures value { Gives (λ x. (x.0, x.1.now)) result (fields_row bytes.now) }
    ensures form { IfOk result (λ x. AreFields x.0) }
{
    let (op, rest) = from_one(28, bytes)?;
    let limits = limits_of(op);
    let (kind, rest) = byte(limits.kind, rest)?;
    let (_zeros, rest) = zeros(rest)?;
    let (line, rest) = word(limits.line, rest)?;
    let (a, rest) = word(limits.a, rest)?;
    let (b, rest) = word(limits.b, rest)?;
    let (c, rest) = word(limits.c, rest)?;
    let (imm, rest) = long(limits.imm, rest)?;
    let fields = Fields {
        op,
        kind,
        line,
        a,
        b,
        c,
        imm,
    };
    Ok((fields, rest))
}

impl Row for Instr {
    ghost use Rattle.ob_image.specs.Layout.{spell_instruction, AreFields, IsInstruction};
    ghost use Rattle.ob_image.specs.Reading.{instruction_row};
    ghost use Rattle.ob_image.specs.Rules.{InstructionRule};

    ghost reader = { instruction_row };

    ghost spelling = { spell_instruction };

    ghost rule = { InstructionRule };

    ghost valid = { IsInstruction };

    #[tactic(auto, unfolding(crate::specs::Reading::instruction_row, crate::specs::Reading::gives))]
    fn read(_alloc: Global, bytes: &[u8]) -> Result<(Instr, &[u8]), Stop> {
        let (fields, rest) = fields(bytes)?;
        Ok((instruction(fields), rest))
    }

    fn put(&self, out: &mut Vec<u8>) -> Result<(), NoMemory> {
        put_fields(out, fields_of(*self))
    }
}

impl Row for NameRow {
    ghost use Rattle.ob_image.specs.Reading.{name_row};
    ghost use Rattle.ob_image.specs.Rules.{NameRule};
    ghost use Rattle.ob_image.specs.Spelling.{spell_name, IsNameRow};

    ghost reader = { name_row };

    ghost spelling = { spell_name };

    ghost rule = { NameRule };

    ghost valid = { IsNameRow };

    #[tactic(auto, unfolding(crate::specs::Reading::name_row, crate::specs::Reading::gives))]
    fn read(alloc: Global, bytes: &[u8]) -> Result<(NameRow, &[u8]), Stop> {
        let (holder, rest) = word(u32::MAX, bytes)?;
        let (ordinal, rest) = word(u32::MAX, rest)?;
        let (line, rest) = word(u32::MAX, rest)?;
        let (frame_word, rest) = word(u32::MAX, rest)?;
        let (kind, rest) = word(12, rest)?;
        let (count, rest) = nonzero(rest)?;
        let (name, rest) = name(alloc, count as usize, rest)?;
        let row = NameRow {
            holder,
            ordinal,
            line,
            word: frame_word,
            kind,
            name,
        };
        Ok((row, rest))
    }

    #[tactic(auto, unfolding(crate::specs::Spelling::spell_name))]
    fn put(&self, out: &mut Vec<u8>) -> Result<(), NoMemory> {
        let name = self.name.bytes();
        put_word(out, self.holder)?;
        put_word(out, self.ordinal)?;
        put_word(out, self.line)?;
        put_word(out, self.word)?;
        put_word(out, self.kind)?;
        put_count(out, name.len())?;
        out.extend_from_slice(name)?;
        Ok(())
    }
}
