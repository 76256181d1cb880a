//! Type specifiers and type names (C99 6.7.2, 6.7.6).
ghost use Rattle.std.specs.Prelude.{◌≡◌, [], OnOk, option_map};
ghost use Rattle.ob_tree.specs.ExpressionView.{one_member, obj_tree, obj_trees, spec_tree, type_tree};
ghost use Rattle.ob_tree.specs.Trees.{SpecTree};
ghost use Rattle.ob_tree.specs.TypeView.{plain_type};
ghost use Rattle.ob_typed.specs.Expressions.{check_member, check_members, check_names, check_spec, check_type};
ghost use Rattle.ob_context.specs.KnownView.{env_of, known_of, stand_of};
ghost use Rattle.ob_context.specs.Walks.{Walks};
ghost use Rattle.ob_expressions.specs.Lists.{member_trees};

use crate::applied::add_member;
use crate::lengths::check_lengths;
use ob_base::{Text, let_go};
use ob_context::{Env, Known, beside_part};
use ob_conversions::types::copy_type;
use ob_specifiers::{
    MemberList, close, declarator_type, int_words, mentioned, opened, struct_place,
};
use ob_tree::{CType, MemberDecl, ObjDecl, Spec, SpecNode, TypeFault, TypeName};
use ob_words::IntType;
use std::alloc::Global;

/// The type that a type name names (C99 6.7.6).
#[cycle(check)]
pub(crate) fn check_type(
    alloc: Global,
    env: &Env,
    known: &mut Known,
    t: &TypeName,
) -> Result<CType, TypeFault>
    ensures walks { Walks plain_type result (known_of known.new) (check_type (env_of env.now (stand_of known.old)) (type_tree t.now) (known_of known.old)) }
    ensures stays { OnOk result (stand_of known.new ≡ stand_of known.old) }
{
    let base = check_spec(alloc, env, known, &t.spec)?;
    let (lengths, base) = beside_part(check_lengths(alloc, env, known, &t.dims), base)?;
    Ok(declarator_type(alloc, base, t.stars, &lengths)?)
}

/// The type that a specifier names (C99 6.7.2), or its first fault.
#[cycle(check)]
pub fn check_spec(alloc: Global, env: &Env, known: &mut Known, s: &Spec) -> Result<CType, TypeFault>
    ensures walks { Walks plain_type result (known_of known.new) (check_spec (env_of env.now (stand_of known.old)) (spec_tree s.now) (known_of known.old)) }
    ensures stays { OnOk result (stand_of known.new ≡ stand_of known.old) }
{
    match &s.node {
        SpecNode::Void => Ok(CType::Void),
        SpecNode::SizeT => Ok(CType::Int(IntType::ULong)),
        SpecNode::Integer(words) => Ok(CType::Int(int_words(words))),
        SpecNode::Tag(name) => Ok(mentioned(alloc, known, name)?),
        SpecNode::Struct { tag, members } => check_struct(
            alloc,
            env,
            known,
            s.first,
            tag.as_ref(),
            members,
        ),
    }
}

/// A structure with its members (C99 6.7.2.1).
#[cycle(check)]
fn check_struct(
    alloc: Global,
    env: &Env,
    known: &mut Known,
    first: u32,
    tag: Option<&Text>,
    lines: &Vec<MemberDecl>,
) -> Result<CType, TypeFault>
    ensures walks { Walks plain_type result (known_of known.new) (check_spec (env_of env.now (stand_of known.old)) (SpecTree.Struct first (option_map (λ t. t.now) tag.entry) (member_trees lines.now.items)) (known_of known.old)) }
    ensures stays { OnOk result (stand_of known.new ≡ stand_of known.old) }
{
    let number = opened(alloc, known, tag)?;
    known.around.push(number)?;
    let list = check_members(alloc, env, known, lines)?;
    known.around.pop();
    close(
        alloc,
        known,
        number,
        struct_place(tag, first),
        list.into_rows(),
    )?;
    Ok(CType::Struct(number))
}

/// The members of a structure.
#[cycle(check)]
fn check_members(
    alloc: Global,
    env: &Env,
    known: &mut Known,
    lines: &Vec<MemberDecl>,
) -> Result<MemberList, TypeFault>
    ensures walks { Walks (λ l. l) result (known_of known.new) (check_members (env_of env.now (stand_of known.old)) [] (member_trees lines.now.items) (known_of known.old)) }
    ensures stays { OnOk result (stand_of known.new ≡ stand_of known.old) }
{
    let mut list = MemberList::new(alloc);
    for line in lines {
        check_line(alloc, env, known, line, &mut list)?;
    }
    Ok(list)
}

/// A declaration of members, behind those before it.
#[cycle(check)]
fn check_line(
    alloc: Global,
    env: &Env,
    known: &mut Known,
    line: &MemberDecl,
    list: &mut MemberList,
) -> Result<(), TypeFault>
    ensures walks { Walks (λ _. list.new) result (known_of known.new) (check_members (env_of env.now (stand_of known.old)) list.old (one_member line.now) (known_of known.old)) }
    ensures stays { OnOk result (stand_of known.new ≡ stand_of known.old) }
{
    let t = check_spec(alloc, env, known, &line.spec)?;
    let checked = check_names(alloc, env, known, &line.names, &t, list);
    let_go(t);
    checked
}

/// The declarators of members of a type.
#[cycle(check)]
fn check_names(
    alloc: Global,
    env: &Env,
    known: &mut Known,
    names: &Vec<ObjDecl>,
    t: &CType,
    list: &mut MemberList,
) -> Result<(), TypeFault>
    ensures walks { Walks (λ _. list.new) result (known_of known.new) (check_names (env_of env.now (stand_of known.old)) (plain_type t.now) list.old (obj_trees names.now.items) (known_of known.old)) }
    ensures stays { OnOk result (stand_of known.new ≡ stand_of known.old) }
{
    for o in names {
        check_member(alloc, env, known, o, t, list)?;
    }
    Ok(())
}

/// The declarator of a member.
#[cycle(check)]
fn check_member(
    alloc: Global,
    env: &Env,
    known: &mut Known,
    o: &ObjDecl,
    t: &CType,
    list: &mut MemberList,
) -> Result<(), TypeFault>
    ensures walks { Walks (λ _. list.new) result (known_of known.new) (check_member (env_of env.now (stand_of known.old)) (plain_type t.now) list.old (obj_tree o.now) (known_of known.old)) }
    ensures stays { OnOk result (stand_of known.new ≡ stand_of known.old) }
{
    let lengths = check_lengths(alloc, env, known, &o.dims)?;
    let t = copy_type(alloc, t)?;
    let t = declarator_type(alloc, t, o.stars, &lengths)?;
    add_member(alloc, known, list, t, &o.name, o.at)
}
