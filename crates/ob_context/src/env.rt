use crate::bodies::Bodies;
use ob_scopes::Names;

/// What an expression stands among: the ordinary identifiers in force (C99 6.2.3), and the functions with a body,
/// by whose order functions are numbered.
#[derive(Drop)]
pub struct Env {
    pub names: Names,
    pub bodies: Bodies,
}
