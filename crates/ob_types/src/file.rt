use ob_context::{Bodies, Env};
use ob_typed::TFunction;
use ob_variables::Body;

/// What the items of a program add to: what is known, the names at file scope, the functions with a body so far, and
/// their names. Beside what is known stand the automatic objects of the function that is walked; `env` has the names of all
/// functions with a body.
#[derive(Drop)]
pub(crate) struct File {
    pub body: Body,
    pub env: Env,
    pub functions: Vec<TFunction>,
    pub defined: Bodies,
}
