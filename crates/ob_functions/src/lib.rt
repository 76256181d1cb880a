//! Function declarators (C99 6.7.5.3, 6.9.1): their parameters, and a function's own faults.
//!
//! `check_params` walks the parameters, each where those before it are declared, and `declare_params` declares them once more
//! for the body. `function_rule` declares a function at file scope, or tells why it can't be. Each answers exactly as the
//! definition of its name in `ob_typed` does, or has too little memory; after a fault what is known is of no use. Stands on
//! `ob_base`, `ob_tree`, `ob_typed`, `ob_layout`, `ob_conversions`, `ob_scopes`, `ob_context`, `ob_uses`, `ob_specifiers` and
//! `ob_expressions`.
//!
//! To be believed are `Functions` of `ob_typed`; `FunctionView` here reads parameters as the definition's.
#![tactic(auto)]

pub use declaring::declare_params;
pub use functions::function_rule;
pub use lists::{parameter_names, parameter_types};
pub use parameters::{Parameter, check_params};

mod declaring;
mod functions;
mod lists;
mod parameters;
mod rules;
mod same;
