//! Images from text: statements that end with `;`, each a name with numbers. `object 10 ;` is a static object of 10 bytes, and
//! `room 8 ;` a local object of the function; `fn ;` ends a function that another follows. Every other statement is an
//! instruction, of which an access has its place in the code, from 1, as its source line. A function has 12 words.

use ob_base::Text;
use ob_code::{FunctionRow, Image, Instr, LocalRow, NameRow, Rows, StaticRow};
use ob_model::{LoadKind, Profile};
use ob_words::{BinOp, IntType, Relation, block};
use std::alloc::{AllocError, Global};
use std::mem;

const WORDS: u32 = 12;

// Where local objects begin in a frame, and the ordinal of the first; those before are the words'.
const FIRST_PLACE: u64 = 96;

const FIRST_LOCAL: u32 = 10;

/// A statement as far as it was read.
#[derive(Clone, Copy)]
struct Statement<'a> {
    name: &'a str,
    kind: LoadKind,
    numbers: [i64; 4],
    count: usize,
}

fn nothing<'a>() -> Statement<'a> {
    Statement {
        name: "",
        kind: LoadKind::Ptr,
        numbers: [0; 4],
        count: 0,
    }
}

fn kind_of(word: &str) -> LoadKind {
    match word {
        "char" => LoadKind::Num(IntType::Char),
        "short" => LoadKind::Num(IntType::Short),
        "int" => LoadKind::Num(IntType::Int),
        "long" => LoadKind::Num(IntType::Long),
        _ => LoadKind::Ptr,
    }
}

impl<'a> Statement<'a> {
    fn read(self, word: &'a str) -> Statement<'a> {
        let mut next = self;
        match word.parse::<i64>() {
            Ok(number) if self.count < 4 => {
                next.numbers[self.count] = number;
                next.count = self.count + 1;
            }
            _ if self.name.is_empty() => next.name = word,
            _ => next.kind = kind_of(word),
        }
        next
    }

    fn word(&self, at: usize) -> u32 {
        match self.numbers.get(at) {
            Some(number) => u32::try_from(*number).unwrap_or(0),
            None => 0,
        }
    }

    fn size(&self) -> u64 {
        u64::from(self.word(0))
    }

    // An instruction on memory, which has its place from 1 as its source line.
    fn access(&self, line: u32) -> Option<Instr> {
        let (a, b, c) = (self.word(0), self.word(1), self.word(2));
        let kind = self.kind;
        Some(match self.name {
            "load" => Instr::Load {
                kind,
                line,
                a,
                b,
                c,
            },
            "store" => Instr::Store {
                kind,
                line,
                a,
                b,
                c,
            },
            "free" => Instr::Free { line, b: a },
            "malloc" => Instr::Malloc { a, b },
            "calloc" => Instr::Calloc { a, b, c },
            _ => return None,
        })
    }

    // An instruction on pointers.
    fn pointer(&self) -> Option<Instr> {
        let (a, b, c) = (self.word(0), self.word(1), self.word(2));
        Some(match self.name {
            "static" => Instr::Static {
                a,
                imm: self.numbers[1],
            },
            "local" => Instr::Local {
                a,
                imm: self.numbers[1],
            },
            "shift" => Instr::Shift { a, b, c },
            "same" => Instr::Same { a, b, c },
            "before" => Instr::Order {
                relation: Relation::Lt,
                a,
                b,
                c,
            },
            "between" => Instr::Difference {
                a,
                b,
                c,
                imm: self.numbers[3],
            },
            "wipe" => Instr::Wipe {
                imm: self.numbers[0],
            },
            _ => return None,
        })
    }

    // Any other instruction.
    fn other(&self) -> Instr {
        let (a, b, c) = (self.word(0), self.word(1), self.word(2));
        match self.name {
            "set" => Instr::Set {
                a,
                imm: self.numbers[1],
            },
            "add" => Instr::Binary {
                kind: IntType::Long,
                operator: BinOp::Add,
                a,
                b,
                c,
            },
            "call" => Instr::Call {
                a,
                b: 2,
                imm: self.numbers[1],
            },
            "return" => Instr::Return { b: a },
            "exit" => Instr::Exit { b: a },
            _ => Instr::Tick,
        }
    }

    fn instruction(&self, line: u32) -> Instr {
        match (self.access(line), self.pointer()) {
            (Some(instr), _) => instr,
            (None, Some(instr)) => instr,
            (None, None) => self.other(),
        }
    }
}

/// An image as far as it was read: its rows, and what there is of the last function.
#[derive(Drop)]
struct Draft {
    statics: Vec<StaticRow>,
    functions: Vec<FunctionRow>,
    code: Vec<Instr>,
    locals: Vec<LocalRow>,
    entry: u32,
    place: u64,
}

fn no_draft(alloc: Global) -> Draft {
    Draft {
        statics: Vec::new(alloc),
        functions: Vec::new(alloc),
        code: Vec::new(alloc),
        locals: Vec::new(alloc),
        entry: 0,
        place: FIRST_PLACE,
    }
}

impl Draft {
    fn place_in_code(&self) -> u32 {
        u32::try_from(self.code.len()).unwrap_or(0)
    }

    fn add_static(&mut self, alloc: Global, size: u64) -> Result<(), AllocError> {
        self.statics.push(StaticRow {
            size,
            given: Text::new(alloc),
        })?;
        Ok(())
    }

    fn add_local(&mut self, size: u64) -> Result<(), AllocError> {
        let count = u32::try_from(self.locals.len()).unwrap_or(0);
        let place = self.place;
        self.place = place.saturating_add(block(size.min(4096)));
        self.locals.push(LocalRow {
            ordinal: FIRST_LOCAL.saturating_add(count),
            place,
            size,
        })?;
        Ok(())
    }

    fn add_code(&mut self, s: &Statement) -> Result<(), AllocError> {
        let line = self.place_in_code().saturating_add(1);
        self.code.push(s.instruction(line))?;
        Ok(())
    }

    fn end_function(&mut self, alloc: Global) -> Result<(), AllocError> {
        let locals = mem::replace(&mut self.locals, Vec::new(alloc));
        let (entry, allowance) = (self.entry, self.place);
        self.entry = self.place_in_code();
        self.place = FIRST_PLACE;
        self.functions.push(FunctionRow {
            entry,
            params: 0,
            words: WORDS,
            vars: 40,
            allowance,
            locals: Rows::from_vec(locals),
        })?;
        Ok(())
    }

    fn add(&mut self, alloc: Global, s: &Statement) -> Result<(), AllocError> {
        match s.name {
            "object" => self.add_static(alloc, s.size()),
            "room" => self.add_local(s.size()),
            "fn" => self.end_function(alloc),
            _ => self.add_code(s),
        }
    }

    fn add_all(&mut self, alloc: Global, text: &str) -> Result<(), AllocError> {
        let mut statement = nothing();
        for word in text.split_whitespace() {
            if word == ";" {
                self.add(alloc, &statement)?;
                statement = nothing();
            } else {
                statement = statement.read(word);
            }
        }
        self.end_function(alloc)
    }
}

// The names of the words of the first function, behind its links, which show as `long`.
fn names(alloc: Global) -> Result<Vec<NameRow>, AllocError> {
    let mut rows = Vec::new(alloc);
    for word in 2..WORDS {
        rows.push(NameRow {
            holder: 1,
            ordinal: word - 2,
            line: 1,
            word,
            kind: 7,
            name: Text::from_vec(Vec::from_slice(alloc, b"w")?),
        })?;
    }
    Ok(rows)
}

/// The image of a text, whose first function is called first.
pub fn image(alloc: Global, text: &str) -> Result<Image, AllocError> {
    let names = names(alloc)?;
    let mut draft = no_draft(alloc);
    draft.add_all(alloc, text)?;
    let Draft {
        statics,
        functions,
        code,
        ..
    } = draft;
    Ok(Image {
        profile: Profile::One,
        statics: Rows::from_vec(statics),
        pointers: Rows::from_vec(Vec::new(alloc)),
        functions: Rows::from_vec(functions),
        main: 0,
        code: Rows::from_vec(code),
        names: Rows::from_vec(names),
    })
}
