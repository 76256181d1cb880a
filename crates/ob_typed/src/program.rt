ghost use Rattle.ob_typed.specs.TypedView.{typed_parts};
ghost use Rattle.ob_typed.specs.Typing.{WellTyped};

use crate::names::VarName;
use crate::statements::TStmt;
use crate::statics::TStatic;
use ob_base::Text;
use ob_tree::{CType, Structs};

/// A function with a body (C99 6.9.1): its name, its result's type, how many parameters it has, the
/// types of its automatic objects, which begin with the parameters, and a name for each of these.
/// `nodes` is the number of expressions in its tree, and `weight` the measure by which code is limited.
#[derive(Drop)]
pub struct TFunction {
    pub name: Text,
    pub result: CType,
    pub params: u32,
    pub locals: Vec<CType>,
    pub names: Vec<VarName>,
    pub nodes: u64,
    pub weight: u64,
    pub body: TStmt,
}

/// A typed program, which is the typed tree of some program of the grammar: its structures, its static objects in the order of their tokens, its functions in
/// the order of their bodies, and the number of the function `main` among these, counted from 0.
#[derive(Drop)]
pub struct Typed {
    pub structs: Structs,
    pub statics: Vec<TStatic>,
    pub functions: Vec<TFunction>,
    pub main: u32,
    ghost well_typed: { WellTyped (typed_parts structs statics functions main) },
}
