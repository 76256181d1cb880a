//! What holds of the definitions alone. The law is the contract of a function that does nothing.

ghost use Rattle.std.specs.Prelude.{◌≡◌, ◌&&◌, ◌||◌, not, IsTrue};
ghost use Rattle.std.specs.List.{list_any};
ghost use Rattle.ob_tree.specs.ProgramValid.{ValidProgram};
ghost use Rattle.ob_tree.specs.Programs.{ProgramTree};
ghost use Rattle.ob_library.specs.declared.library.LibraryFunction.{LibraryFunction};
ghost use Rattle.ob_library.specs.Library.{library, name_of, tree_of};
ghost use Rattle.ob_prelude.specs.Calls.{item_calls, item_defines, program_calls, program_defines};
ghost use Rattle.ob_prelude.specs.Completion.{wanted, complete};

use ob_library::law_library;

/// A function of the library is appended where the program doesn't define it, and the program calls it or a function does
/// that is appended. It is one of its name. A completed program defines each function of the library that it
/// calls, and is one of the grammar where the program is.
pub fn law_completion()
    ensures needed { (p : ProgramTree) (f : LibraryFunction) → wanted p f
        ≡ (not (program_defines (name_of f) p)
        && (program_calls (name_of f) p || list_any (λ g. item_calls (name_of f) (tree_of g) && wanted p g) library)) }
    ensures named { (f : LibraryFunction) → IsTrue (item_defines (name_of f) (tree_of f)) }
    ensures defined { (p : ProgramTree) (f : LibraryFunction) → IsTrue (program_calls (name_of f) (complete p))
        → IsTrue (program_defines (name_of f) (complete p)) }
    ensures valid { (p : ProgramTree) → ValidProgram p → ValidProgram (complete p) }
{
    law_library();
}
