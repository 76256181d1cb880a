//! Names of objects (C99 6.5.1).
ghost use Rattle.std.specs.Prelude.{◌≡◌};
ghost use Rattle.ob_typed.specs.PostfixRules.{meant, name_rule};
ghost use Rattle.ob_typed.specs.Scopes.{find};
ghost use Rattle.ob_typed.specs.TypedView.{typed_lean};
ghost use Rattle.ob_scopes.specs.Names.{declared_in, lean_of, plain_meaning};
ghost use Rattle.ob_conversions.specs.CheckedView.{checked, mark};
ghost use Rattle.ob_conversions.specs.Gives.{Gives};

use ob_base::Text;
use ob_conversions::types::copy_type;
use ob_conversions::values::placed;
use ob_conversions::{Checked, Mark};
use ob_scopes::{Meaning, Names, Storage, find_name};
use ob_tree::{TypeFault, TypeKind};
use ob_typed::TLean;
use std::alloc::Global;

/// Where an object lies, as a base.
fn lean_of(storage: Storage) -> TLean
    ensures { typed_lean result ≡ lean_of storage }
{
    match storage {
        Storage::Static(number) => TLean::Static(number),
        Storage::Local(number) => TLean::Local(number),
    }
}

/// What a meaning is as an expression.
fn meant(alloc: Global, m: Mark, meaning: &Meaning) -> Result<Checked, TypeFault>
    ensures { Gives checked result (meant (mark m) (plain_meaning meaning.now)) }
{
    match meaning {
        Meaning::Variable(t, storage) => {
            let t = copy_type(alloc, t)?;
            Ok(placed(m.line, t, lean_of(*storage)))
        }
        _ => Err(TypeFault::Fault(TypeKind::NotFunction, m.first)),
    }
}

/// A name: the object that it stands for, as a place. A function's name stands in calls alone.
pub fn name_rule(alloc: Global, names: &Names, m: Mark, name: &Text) -> Result<Checked, TypeFault>
    ensures { Gives checked result (name_rule (mark m) (find name.now (declared_in names.now))) }
{
    match find_name(names, name) {
        Some(named) => meant(alloc, m, &named.meaning),
        None => Err(TypeFault::Fault(TypeKind::Unknown, m.first)),
    }
}
