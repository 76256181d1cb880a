//! The members of a structure so far (C99 6.7.2.1).
ghost use Rattle.std.specs.Prelude.{◌≡◌, ◌++◌, [], ◌∷◌, IfOk, OnErr, OnOk};
ghost use Rattle.ob_tree.specs.StructsView.{plain_structs};
ghost use Rattle.ob_tree.specs.TypeView.{plain_member, plain_members, plain_type};
ghost use Rattle.ob_typed.specs.Specifiers.{has_member, member_rule};
ghost use Rattle.ob_conversions.specs.Gives.{Gives};

use crate::declarators::object_type;
use ob_base::{NoMemory, Text, let_go, push_on};
use ob_context::beside_part;
use ob_conversions::beside;
use ob_scopes::Table;
use ob_tree::{CType, MemberRow, Structs, TypeFault, TypeKind};
use std::alloc::Global;
use std::marker::Model;

/// The members of a structure so far, in order. A name among them is found without a walk.
#[derive(Drop)]
pub struct MemberList {
    rows: Vec<MemberRow>,
    names: Table<()>,
}

impl Model for MemberList {
    ghost use Rattle.std.specs.Prelude.{ℕ, List};
    ghost use Rattle.ob_tree.specs.Types.{PlainMember};
    ghost use Rattle.ob_tree.specs.TypeView.{plain_members};
    ghost use Rattle.std.specs.Coded.{coded_list};
    ghost use Rattle.ob_specifiers.specs.Codes.{member_code};
    ghost use Rattle.ob_specifiers.specs.Members.{AreNamed};

    ghost Value = { List PlainMember };

    ghost coded = { coded_list member_code };

    ghost view = { λ l. plain_members l.rows.items };

    ghost invariant = { λ l. AreNamed l.rows.items l.names.bindings };
}

impl MemberList {
    /// None. Takes no memory.
    pub fn new(alloc: Global) -> MemberList
        ensures { result ≡ [] }
    {
        MemberList {
            rows: Vec::new(alloc),
            names: Table::new(alloc),
        }
    }

    /// The members as rows.
    pub fn into_rows(self) -> Vec<MemberRow>
        ensures { plain_members result.items ≡ self }
    {
        self.rows
    }

    /// One more member, whose name stands at `at`: no two have one name, and each has a type that an object can have. After
    /// a fault the list is of no use.
    pub fn add(
        &mut self,
        alloc: Global,
        s: &Structs,
        t: CType,
        name: &Text,
        at: u32,
    ) -> Result<(), TypeFault>
        ensures { Gives (λ _. self.new) result (member_rule (plain_structs s.now) self.old (plain_type t) name.now at) }
    {
        if self.has(name) {
            let_go(t);
            return Err(TypeFault::Fault(TypeKind::Twice, at));
        }
        let part = object_type(s, &t, at);
        let (_, t) = beside_part(part, t)?;
        Ok(self.push(alloc, t, name)?)
    }

    /// Whether a member has this name.
    fn has(&self, name: &Text) -> bool
        ensures { result ≡ has_member name.now self.now }
    {
        self.names.find(name).is_some()
    }

    /// One more member. `NoMemory` leaves the list.
    fn push(&mut self, alloc: Global, t: CType, name: &Text) -> Result<(), NoMemory>
        ensures ok { OnOk result (self.new ≡ self.old ++ record { name = name.now; ty = plain_type t } ∷ []) }
        ensures err { OnErr result (self.new ≡ self.old) }
    {
        let row = row(alloc, t, name)?;
        push_on(&mut self.rows, row)?;
        match self.names.declare(alloc, name, ()) {
            Ok(()) => Ok(()),
            Err(error) => {
                let_go(self.rows.pop());
                Err(error)
            }
        }
    }
}

/// A member of a name and a type.
fn row(alloc: Global, t: CType, name: &Text) -> Result<MemberRow, NoMemory>
    ensures { IfOk result (λ r. plain_member r ≡ record { name = name.now; ty = plain_type t }) }
{
    let (name, ty) = beside(name.copy(alloc), t)?;
    Ok(MemberRow { name, ty })
}
