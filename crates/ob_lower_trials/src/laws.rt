//! That the code of small programs does what the programs mean. Each law is the contract of a function that does nothing; the first
//! clause of each program is about its run in oblivious mode under the first profile, the other about that in boundless mode under the second.
//! What waits and what is stopped is shown in boundless mode under the second profile alone.

ghost use Rattle.ob_model.specs.declared.settings.Mode.TheVariants.{Oblivious, Boundless};
ghost use Rattle.ob_model.specs.declared.settings.Profile.TheVariants.{One, Two};
ghost use Rattle.ob_meaning.specs.Examples as basic;
ghost use Rattle.ob_meaning.specs.ControlExamples as control;
ghost use Rattle.ob_meaning.specs.RuleExamples as rules;
ghost use Rattle.ob_lower_trials.specs.Directed as directed;
ghost use Rattle.ob_lower_trials.specs.Waiting as waiting;
ghost use Rattle.ob_lower_trials.specs.Runs.{Agrees, AgreesFor, FactorialIsComputed};

/// Runs of code beside the meaning: programs that read and write past their objects.
pub fn law_overruns()
    ensures overrun_read { Agrees Oblivious One basic.overrun_read }
    ensures overrun_read_boundless { Agrees Boundless Two basic.overrun_read }
    ensures stray_store { Agrees Oblivious One basic.stray_store }
    ensures stray_store_boundless { Agrees Boundless Two basic.stray_store }
    ensures neighbours { Agrees Oblivious One basic.neighbours }
    ensures neighbours_boundless { Agrees Boundless Two basic.neighbours }
    ensures there_and_back { Agrees Oblivious One basic.there_and_back }
    ensures there_and_back_boundless { Agrees Boundless Two basic.there_and_back }
    ensures lost_pointer { Agrees Oblivious One basic.lost_pointer }
    ensures lost_pointer_boundless { Agrees Boundless Two basic.lost_pointer }
    ensures last_granule { Agrees Oblivious One basic.last_granule }
    ensures last_granule_boundless { Agrees Boundless Two basic.last_granule }
    ensures through_null { Agrees Oblivious One basic.through_null }
    ensures through_null_boundless { Agrees Boundless Two basic.through_null }
    ensures ill_aligned { Agrees Oblivious One basic.ill_aligned }
    ensures ill_aligned_boundless { Agrees Boundless Two basic.ill_aligned }
{}

/// Programs with granules outside of their objects.
pub fn law_outside()
    ensures dropping { Agrees Oblivious One basic.dropping }
    ensures dropping_boundless { Agrees Boundless Two basic.dropping }
    ensures recent_use { Agrees Oblivious One basic.recent_use }
    ensures recent_use_boundless { Agrees Boundless Two basic.recent_use }
    ensures negative { Agrees Oblivious One basic.negative }
    ensures negative_boundless { Agrees Boundless Two basic.negative }
    ensures partly_set { Agrees Oblivious One basic.partly_set }
    ensures partly_set_boundless { Agrees Boundless Two basic.partly_set }
    ensures pointer_outside { Agrees Oblivious One basic.pointer_outside }
    ensures pointer_outside_boundless { Agrees Boundless Two basic.pointer_outside }
{}

/// Programs whose pointers leave their objects, and with objects of the heap.
pub fn law_pointers()
    ensures equality { Agrees Oblivious One basic.equality }
    ensures equality_boundless { Agrees Boundless Two basic.equality }
    ensures many_pointers { Agrees Oblivious One basic.many_pointers }
    ensures many_pointers_boundless { Agrees Boundless Two basic.many_pointers }
    ensures far_away { Agrees Oblivious One basic.far_away }
    ensures far_away_boundless { Agrees Boundless Two basic.far_away }
    ensures first_fit { Agrees Oblivious One basic.first_fit }
    ensures first_fit_boundless { Agrees Boundless Two basic.first_fit }
    ensures full_heap { Agrees Oblivious One basic.full_heap }
    ensures full_heap_boundless { Agrees Boundless Two basic.full_heap }
    ensures stray_free { Agrees Oblivious One basic.stray_free }
    ensures stray_free_boundless { Agrees Boundless Two basic.stray_free }
{}

/// Programs that end otherwise than by the return of `main`.
pub fn law_ends()
    ensures division { Agrees Oblivious One basic.division }
    ensures division_boundless { Agrees Boundless Two basic.division }
    ensures endless { Agrees Oblivious One basic.endless }
    ensures endless_boundless { Agrees Boundless Two basic.endless }
    ensures echo { Agrees Oblivious One basic.echo }
    ensures echo_boundless { Agrees Boundless Two basic.echo }
{}

/// Programs with loops, choices and calls.
pub fn law_control()
    ensures nothing_done { Agrees Oblivious One control.nothing_done }
    ensures nothing_done_boundless { Agrees Boundless Two control.nothing_done }
    ensures loops { Agrees Oblivious One control.loops }
    ensures loops_boundless { Agrees Boundless Two control.loops }
    ensures choices { Agrees Oblivious One control.choices }
    ensures choices_boundless { Agrees Boundless Two control.choices }
    ensures exiting { Agrees Oblivious One control.exiting }
    ensures exiting_boundless { Agrees Boundless Two control.exiting }
    ensures factorial { FactorialIsComputed Oblivious One }
    ensures factorial_boundless { FactorialIsComputed Boundless Two }
    ensures endings { Agrees Oblivious One control.endings }
    ensures endings_boundless { Agrees Boundless Two control.endings }
{}

/// Programs with initialisers, assignments and structures.
pub fn law_assignments()
    ensures static_pointer { Agrees Oblivious One control.static_pointer }
    ensures static_pointer_boundless { Agrees Boundless Two control.static_pointer }
    ensures arrays { Agrees Oblivious One control.arrays }
    ensures arrays_boundless { Agrees Boundless Two control.arrays }
    ensures final_zero { Agrees Oblivious One control.final_zero }
    ensures final_zero_boundless { Agrees Boundless Two control.final_zero }
    ensures stepped { Agrees Oblivious One control.stepped }
    ensures stepped_boundless { Agrees Boundless Two control.stepped }
    ensures walking { Agrees Oblivious One control.walking }
    ensures walking_boundless { Agrees Boundless Two control.walking }
    ensures copied { Agrees Oblivious One control.copied }
    ensures copied_boundless { Agrees Boundless Two control.copied }
    ensures half_copied { Agrees Oblivious One control.half_copied }
    ensures half_copied_boundless { Agrees Boundless Two control.half_copied }
{}

/// Programs about one or two rules each.
pub fn law_rules()
    ensures operators { Agrees Oblivious One rules.operators }
    ensures operators_boundless { Agrees Boundless Two rules.operators }
    ensures choices { Agrees Oblivious One rules.choices }
    ensures choices_boundless { Agrees Boundless Two rules.choices }
    ensures subscripts { Agrees Oblivious One rules.subscripts }
    ensures subscripts_boundless { Agrees Boundless Two rules.subscripts }
    ensures copied_first { Agrees Oblivious One rules.copied_first }
    ensures copied_first_boundless { Agrees Boundless Two rules.copied_first }
    ensures exact_string { Agrees Oblivious One rules.exact_string }
    ensures exact_string_boundless { Agrees Boundless Two rules.exact_string }
    ensures relations { Agrees Oblivious One rules.relations }
    ensures relations_boundless { Agrees Boundless Two rules.relations }
    ensures two_objects { Agrees Oblivious One rules.two_objects }
    ensures two_objects_boundless { Agrees Boundless Two rules.two_objects }
    ensures product { Agrees Oblivious One rules.product }
    ensures product_boundless { Agrees Boundless Two rules.product }
    ensures inner_free { Agrees Oblivious One rules.inner_free }
    ensures inner_free_boundless { Agrees Boundless Two rules.inner_free }
{}

/// Programs about places where code goes wrong easily.
pub fn law_directed()
    ensures step_into_itself { Agrees Oblivious One directed.step_into_itself }
    ensures sum_into_operand { Agrees Oblivious One directed.sum_into_operand }
    ensures changed_operand { Agrees Oblivious One directed.changed_operand }
    ensures changed_variable { Agrees Oblivious One directed.changed_variable }
    ensures changed_index { Agrees Oblivious One directed.changed_index }
    ensures numbers_first { Agrees Oblivious One directed.numbers_first }
    ensures narrow { Agrees Oblivious One directed.narrow }
    ensures widened { Agrees Oblivious One directed.widened }
    ensures truths { Agrees Oblivious One directed.truths }
    ensures breaks { Agrees Oblivious One directed.breaks }
    ensures counted_down { Agrees Oblivious One directed.counted_down }
    ensures exposed_parameter { Agrees Oblivious One directed.exposed_parameter }
    ensures unnamed { Agrees Oblivious One directed.unnamed }
    ensures other_type { Agrees Oblivious One directed.other_type }
{}

/// Programs about what waits while the rest of an expression is evaluated.
pub fn law_waiting()
    ensures changed_base { Agrees Boundless Two waiting.changed_base }
    ensures changed_number { Agrees Boundless Two waiting.changed_number }
    ensures memory_steps { Agrees Boundless Two waiting.memory_steps }
    ensures narrow_memory { Agrees Boundless Two waiting.narrow_memory }
    ensures pointers_in_tests { Agrees Boundless Two waiting.pointers_in_tests }
    ensures copied_elements { Agrees Boundless Two waiting.copied_elements }
    ensures far_member { Agrees Boundless Two waiting.far_member }
    ensures static_steps { Agrees Boundless Two waiting.static_steps }
    ensures widths { Agrees Boundless Two waiting.widths }
{}

/// Programs that are stopped after some steps: calls, a loop with `continue` and `break`, and tests that write.
pub fn law_stopped()
    ensures calls_0 { AgreesFor 0 directed.exposed_parameter }
    ensures calls_1 { AgreesFor 1 directed.exposed_parameter }
    ensures calls_2 { AgreesFor 2 directed.exposed_parameter }
    ensures calls_3 { AgreesFor 3 directed.exposed_parameter }
    ensures calls_4 { AgreesFor 4 directed.exposed_parameter }
    ensures calls_5 { AgreesFor 5 directed.exposed_parameter }
    ensures calls_6 { AgreesFor 6 directed.exposed_parameter }
    ensures calls_7 { AgreesFor 7 directed.exposed_parameter }
    ensures loops_3 { AgreesFor 3 control.loops }
    ensures loops_6 { AgreesFor 6 control.loops }
    ensures loops_9 { AgreesFor 9 control.loops }
    ensures loops_12 { AgreesFor 12 control.loops }
    ensures loops_15 { AgreesFor 15 control.loops }
    ensures loops_18 { AgreesFor 18 control.loops }
    ensures loops_21 { AgreesFor 21 control.loops }
    ensures loops_24 { AgreesFor 24 control.loops }
    ensures counted_2 { AgreesFor 2 directed.counted_down }
    ensures counted_4 { AgreesFor 4 directed.counted_down }
    ensures counted_5 { AgreesFor 5 directed.counted_down }
    ensures counted_7 { AgreesFor 7 directed.counted_down }
    ensures counted_9 { AgreesFor 9 directed.counted_down }
    ensures counted_11 { AgreesFor 11 directed.counted_down }
    ensures counted_12 { AgreesFor 12 directed.counted_down }
{}
