//! Blocks (C99 6.2.1): each is one of names and one of tags.
ghost use Rattle.std.specs.Prelude.{◌≡◌, OnOk};
ghost use Rattle.ob_typed.specs.Declarations.{with_known};
ghost use Rattle.ob_typed.specs.Scopes.{deeper};
ghost use Rattle.ob_scopes.specs.Bindings.{entered, left};
ghost use Rattle.ob_context.specs.KnownView.{env_of, known_of, left_stand, left_tags, stand_of, with_tags, within};
ghost use Rattle.ob_variables.specs.BodyView.{body_of};

use ob_base::NoMemory;
use ob_context::Env;
use ob_variables::Body;

/// Opens a block.
pub(crate) fn enter(env: &mut Env, body: &mut Body) -> Result<(), NoMemory>
    ensures env { OnOk result (env_of env.new (stand_of body.new.known) ≡ deeper (env_of env.old (stand_of body.old.known))) }
    ensures body { OnOk result (body_of body.new ≡ body_of body.old) }
    ensures stand { OnOk result (stand_of body.new.known ≡ within (known_of body.old.known).tags (stand_of body.old.known)) }
    ensures names { OnOk result (env.new.names ≡ entered env.old.names) }
    ensures bodies { OnOk result (env.new.bodies ≡ env.old.bodies) }
{
    env.names.enter()?;
    body.known.enter()
}

/// Leaves the innermost open block: the names and the tags before it are in force again.
pub(crate) fn leave(env: &mut Env, body: &mut Body)
    ensures body { body_of body.new ≡ with_known (with_tags (left_tags (known_of body.old.known).tags (stand_of body.old.known).outer) (known_of body.old.known)) (body_of body.old) }
    ensures stand { stand_of body.new.known ≡ left_stand (stand_of body.old.known) }
    ensures names { env.new.names ≡ left env.old.names }
    ensures bodies { env.new.bodies ≡ env.old.bodies }
{
    env.names.leave();
    body.known.leave();
}
