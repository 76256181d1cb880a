//! What holds of the definitions alone. Each law is the contract of a function that does nothing.

ghost use Rattle.ob_tree.specs.declared.faults.TypeKind.TheVariants as kinds;
ghost use Rattle.ob_typed.specs.Examples.{at};
ghost use Rattle.ob_typed.specs.Faults.{no_place};
ghost use Rattle.ob_typed.specs.FaultExamples.{undeclared_name, parts_first, two_objects, two_members, own_putchar, void_object, endless_structure, size_of_void, number_assigned, array_assigned, pointer_times, void_pointed_to, number_for_pointer, string_in_braces, no_argument, third_item, long_string};
ghost use Rattle.ob_typed.specs.MoreFaultExamples.{list_for_number, called_object, function_as_value, member_of_int, no_elements, length_divides, great_array, variable_value, break_alone, value_of_void, no_main, main_of_char, called_without_body, nested_lists, member_without_place};
ghost use Rattle.ob_typed.specs.SourceExamples.{conversions, elements, lines, recursion, strings};
ghost use Rattle.ob_typed.specs.TypedExamples.{typed_conversions, typed_elements, typed_lines, typed_recursion, typed_strings};
ghost use Rattle.ob_typed.specs.RuleExamples.{own_addresses, own_end, past_own_end, own_size, far_parameter, far_parameter_unnamed, freed_pointer, exit_call, typed_own_addresses, typed_own_end, typed_freed_pointer, typed_exit_call};
ghost use Rattle.ob_typed.specs.RuleFaultExamples.{comma_for_static, null_and_number, structure_as_result, pointers_to_two_structures, tag_in_parameters, tag_in_condition, cast_to_array, hidden_function};
ghost use Rattle.ob_typed.specs.SampledTrees.{program_one, typed_one, program_two, typed_two, program_three, typed_three, program_four, typed_four, program_five, typed_five, program_six, typed_six, program_seven, typed_seven, program_eight, typed_eight};
ghost use Rattle.ob_typed.specs.MoreSampledTrees.{program_nine, typed_nine, program_ten, typed_ten, program_eleven, typed_eleven, program_twelve, typed_twelve, program_thirteen, typed_thirteen, program_fourteen, typed_fourteen, program_fifteen, typed_fifteen, program_sixteen, typed_sixteen};
ghost use Rattle.ob_typed.specs.LastSampledTrees.{program_seventeen, typed_seventeen, program_eighteen, typed_eighteen, program_nineteen, typed_nineteen, program_twenty, typed_twenty, program_twenty_one, typed_twenty_one, program_twenty_two, typed_twenty_two, program_twenty_three, typed_twenty_three};
ghost use Rattle.ob_typed.specs.TypedLaws.{TypedTreesAreWellTyped};
ghost use Rattle.ob_typed.specs.Typing.{FirstTypeFault, Types};

/// The first faults of thirty-two programs, of each kind at least one, with the place of a token: what each
/// program is stands beside it.
pub fn law_first_faults()
    ensures undeclared_name { FirstTypeFault undeclared_name (at kinds.Unknown 7) }
    ensures parts_first { FirstTypeFault parts_first (at kinds.Unknown 10) }
    ensures two_objects { FirstTypeFault two_objects (at kinds.Twice 4) }
    ensures two_members { FirstTypeFault two_members (at kinds.Twice 7) }
    ensures own_putchar { FirstTypeFault own_putchar (at kinds.Twice 1) }
    ensures void_object { FirstTypeFault void_object (at kinds.Incomplete 1) }
    ensures endless_structure { FirstTypeFault endless_structure (at kinds.Incomplete 5) }
    ensures size_of_void { FirstTypeFault size_of_void (at kinds.Incomplete 3) }
    ensures number_assigned { FirstTypeFault number_assigned (at kinds.NotPlace 7) }
    ensures array_assigned { FirstTypeFault array_assigned (at kinds.NotPlace 13) }
    ensures pointer_times { FirstTypeFault pointer_times (at kinds.Operand 9) }
    ensures void_pointed_to { FirstTypeFault void_pointed_to (at kinds.Operand 8) }
    ensures number_for_pointer { FirstTypeFault number_for_pointer (at kinds.Assign 4) }
    ensures string_in_braces { FirstTypeFault string_in_braces (at kinds.Assign 7) }
    ensures no_argument { FirstTypeFault no_argument (at kinds.Count 6) }
    ensures third_item { FirstTypeFault third_item (at kinds.Count 11) }
    ensures long_string { FirstTypeFault long_string (at kinds.Count 6) }
    ensures list_for_number { FirstTypeFault list_for_number (at kinds.Count 3) }
    ensures called_object { FirstTypeFault called_object (at kinds.NotFunction 7) }
    ensures function_as_value { FirstTypeFault function_as_value (at kinds.NotFunction 3) }
    ensures member_of_int { FirstTypeFault member_of_int (at kinds.Member 9) }
    ensures no_elements { FirstTypeFault no_elements (at kinds.Constant 3) }
    ensures length_divides { FirstTypeFault length_divides (at kinds.Constant 3) }
    ensures great_array { FirstTypeFault great_array (at kinds.Constant 1) }
    ensures variable_value { FirstTypeFault variable_value (at kinds.Constant 6) }
    ensures break_alone { FirstTypeFault break_alone (at kinds.Jump 6) }
    ensures value_of_void { FirstTypeFault value_of_void (at kinds.Jump 6) }
    ensures no_main { FirstTypeFault no_main (at kinds.NoBody 4294967295) }
    ensures main_of_char { FirstTypeFault main_of_char (at kinds.NoBody 1) }
    ensures called_without_body { FirstTypeFault called_without_body (at kinds.NoBody 13) }
    ensures nested_lists { FirstTypeFault nested_lists (at kinds.Twice 4) }
    ensures member_without_place { FirstTypeFault member_without_place (at kinds.Member no_place) }
{}

/// The typed trees of five programs.
pub fn law_typed_trees()
    ensures recursion { Types recursion typed_recursion }
    ensures elements { Types elements typed_elements }
    ensures strings { Types strings typed_strings }
    ensures lines { Types lines typed_lines }
    ensures conversions { Types conversions typed_conversions }
{}

/// An array whose length its initialiser tells has its final size as the bound of the addresses in it, but
/// no size under `sizeof` there.
pub fn law_own_addresses()
    ensures inside { Types own_addresses typed_own_addresses }
    ensures end { Types own_end typed_own_end }
    ensures past { FirstTypeFault past_own_end (at kinds.Constant 18) }
    ensures size { FirstTypeFault own_size (at kinds.Incomplete 6) }
{}

/// A parameter that points to a type of more than 4,194,304 bytes is refused at its name, or at its first
/// token where it has none.
pub fn law_far_parameters()
    ensures named { FirstTypeFault far_parameter (at kinds.Constant 4) }
    ensures unnamed { FirstTypeFault far_parameter_unnamed (at kinds.Constant 3) }
{}

/// The first faults of eight programs, each of which shows one rule: what stands beside it.
pub fn law_rule_faults()
    ensures comma_for_static { FirstTypeFault comma_for_static (at kinds.Constant 4) }
    ensures null_and_number { FirstTypeFault null_and_number (at kinds.Constant 4) }
    ensures structure_as_result { FirstTypeFault structure_as_result (at kinds.Incomplete 7) }
    ensures pointers_to_two_structures { FirstTypeFault pointers_to_two_structures (at kinds.Operand 16) }
    ensures tag_in_parameters { FirstTypeFault tag_in_parameters (at kinds.Twice 15) }
    ensures tag_in_condition { FirstTypeFault tag_in_condition (at kinds.Incomplete 41) }
    ensures cast_to_array { FirstTypeFault cast_to_array (at kinds.Operand 20) }
    ensures hidden_function { FirstTypeFault hidden_function (at kinds.NotFunction 15) }
{}

/// The typed trees of a call of `free`, whose argument changes its type alone, and of one of `exit`.
pub fn law_builtin_calls()
    ensures free { Types freed_pointer typed_freed_pointer }
    ensures exit { Types exit_call typed_exit_call }
{}

/// The typed trees of programs made at random, as another implementation of the rules gave them.
pub fn law_sampled_trees()
    ensures one { Types program_one typed_one }
    ensures two { Types program_two typed_two }
    ensures three { Types program_three typed_three }
    ensures four { Types program_four typed_four }
    ensures five { Types program_five typed_five }
    ensures six { Types program_six typed_six }
    ensures seven { Types program_seven typed_seven }
    ensures eight { Types program_eight typed_eight }
{}

/// The typed trees of programs made at random, as another implementation of the rules gave them.
pub fn law_more_sampled_trees()
    ensures nine { Types program_nine typed_nine }
    ensures ten { Types program_ten typed_ten }
    ensures eleven { Types program_eleven typed_eleven }
    ensures twelve { Types program_twelve typed_twelve }
    ensures thirteen { Types program_thirteen typed_thirteen }
    ensures fourteen { Types program_fourteen typed_fourteen }
    ensures fifteen { Types program_fifteen typed_fifteen }
    ensures sixteen { Types program_sixteen typed_sixteen }
{}

/// The typed trees of programs made at random, as another implementation of the rules gave them.
pub fn law_last_sampled_trees()
    ensures seventeen { Types program_seventeen typed_seventeen }
    ensures eighteen { Types program_eighteen typed_eighteen }
    ensures nineteen { Types program_nineteen typed_nineteen }
    ensures twenty { Types program_twenty typed_twenty }
    ensures twenty_one { Types program_twenty_one typed_twenty_one }
    ensures twenty_two { Types program_twenty_two typed_twenty_two }
    ensures twenty_three { Types program_twenty_three typed_twenty_three }
{}

/// Every part of the typed tree of a program is well typed: each expression has the type that the rules give it for
/// its parts, and each initialiser, returned value and controlling expression fits what it is for.
pub fn law_well_typed()
    ensures { TypedTreesAreWellTyped }
{}
