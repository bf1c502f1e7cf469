//! Laws of an item's next action, and of types: what the definitions say of small kernels, computed by the prover.
//!
//! Elements of private arrays keep what is put there, and a budget bounds an item's actions. The launch and the runner
//! of groups use the bounds; no program calls anything here.
#![tactic(auto)]

ghost use Rattle.std.specs.Prelude.{◌≡◌, ◌≢◌, ◌⊎◌, ℕ, pos, negsuc, ◌≤ℤ◌, ◌<ℤ◌, map, length, Option, None, Some, List, [], ◌∷◌};
ghost use Rattle.clnum.specs.Integer.{Integer, converted};
ghost use Rattle.clnum.specs.declared.int_type.IntType.{IntType};
ghost use Rattle.clnum.specs.declared.int_type.IntType.TheVariants.{Uint, Ulong};
ghost use Rattle.launches.specs.Examples.{sum_by_helper, three_turns, continues, three_barriers, nested, through_local, kept_in_private, narrowed, unset_element, stored_before, loaded_behind, declared_again, in_local_array, stepped, stepped_unset, put_at, added_at, added_to_unset, unset_index, unset_value, without_ticks, called_again, added_by_helper, shorter_behind, unset_behind, hidden, local_hidden, continued_past, numbered, passed_on, stores, waits};
ghost use Rattle.clmodel.specs.Next.{Continuation, fail, Variables, look, declared_type, elements_of, base_type, fetch, put, index_of, element_at, read_element, write_element, private_array, launch_of, next};
ghost use Rattle.clmodel.specs.Next.Expressions.{ElementOf};
ghost use Rattle.clmodel.specs.Law.{IsBounded};
ghost use Rattle.clmodel.specs.Setup.{Setup};
ghost use Rattle.clmodel.specs.Typing.Samples.{AreSampled};
ghost use Rattle.clmodel.specs.declared.access.Object.TheVariants as object;
ghost use Rattle.clmodel.specs.declared.access.Operation.TheVariants as operation;
ghost use Rattle.clmodel.specs.declared.access.Width.TheVariants.{One, Four};
ghost use Rattle.clmodel.specs.declared.action.Action.TheVariants as action;
ghost use Rattle.clmodel.specs.declared.action.Answer.TheVariants.{Done};
ghost use Rattle.clmodel.specs.declared.action.Cause.TheVariants as cause;
ghost use Rattle.clmodel.specs.declared.operand.Operand.{Operand};
ghost use Rattle.clmodel.specs.declared.operand.Operand.TheVariants.{Integral};

/// An item that has been answered as often as the budget allows makes no further action: each action is a tick.
pub fn budget_bounds()
    ensures { (setup : Setup) (bytes : List ℕ → List ℕ) → IsBounded (launch_of setup bytes) setup.budget }
{}

/// What items of small kernels do (OpenCL 1.2, sections 6.9 and 6.12.8; C99 6.8.5 and 6.8.6).
pub fn small_kernels()
    ensures helper_returns { next (sum_by_helper 5) 0 [] ≡ stores 10 }
    ensures turns_are_ticks { next (sum_by_helper 4) 0 [] ≡ action.Fault cause.Budget }
    ensures three_turns { next (three_turns 6) 0 (Done ∷ Done ∷ Done ∷ []) ≡ action.End }
    ensures third_turn { next (three_turns 5) 0 (Done ∷ Done ∷ []) ≡ action.Fault cause.Budget }
    ensures continued { next (continues 2) 0 [] ≡ action.End }
    ensures first_part { next (three_barriers 9) 0 [] ≡ waits 0 [] }
    ensures body { next (three_barriers 9) 0 (Done ∷ []) ≡ waits 2 (1 ∷ []) }
    ensures third_part { next (three_barriers 9) 0 (Done ∷ Done ∷ []) ≡ waits 1 (1 ∷ []) }
    ensures body_again { next (three_barriers 9) 0 (Done ∷ Done ∷ Done ∷ []) ≡ waits 2 (2 ∷ []) }
    ensures broken { next (nested 20) 0 (Done ∷ []) ≡ waits 1 (1 ∷ 1 ∷ []) }
    ensures second_call { next (nested 20) 0 (Done ∷ Done ∷ []) ≡ waits 2 (1 ∷ 1 ∷ []) }
    ensures outer_turn { next (nested 20) 0 (Done ∷ Done ∷ Done ∷ []) ≡ waits 0 (2 ∷ 1 ∷ []) }
{}

/// What an item does in local memory (OpenCL 1.2, section 6.5.2): its launch has a place for an object for each
/// parameter, of no bytes where that isn't local memory.
pub fn local_memory()
    ensures sizes { (bytes : List ℕ → List ℕ) → (launch_of (through_local 9) bytes).local_sizes ≡ 0 ∷ 8 ∷ [] }
    ensures store { next (through_local 9) 0 [] ≡ action.Access (object.Local 1) (pos 0) (operation.Store Four 1) }
    ensures load { next (through_local 9) 0 (Done ∷ Done ∷ []) ≡ action.Access (object.Local 1) (pos 0) (operation.Load Four) }
{}

/// What items do with arrays in private and in local memory (OpenCL 1.2, sections 6.5.2 and 6.5.4).
pub fn arrays()
    ensures kept { next (kept_in_private 9) 0 [] ≡ stores 8 }
    ensures narrowed { next (narrowed 9) 0 [] ≡ stores 44 }
    ensures unset { next (unset_element 9) 0 [] ≡ action.Fault (cause.UnsetElement 106 (pos 1)) }
    ensures value_first { next (stored_before 9) 0 [] ≡ action.Fault cause.DivideByZero }
    ensures load_first { next (loaded_behind 9) 0 [] ≡ action.Fault (cause.PrivateBounds 106 (pos 2)) }
    ensures unset_again { next (declared_again 9) 0 [] ≡ action.Fault (cause.UnsetElement 106 (pos 0)) }
    ensures local { next (in_local_array 9) 0 [] ≡ action.Access (object.Local 2) (pos 1) (operation.Store Four 3) }
    ensures sizes { (bytes : List ℕ → List ℕ) → (launch_of (in_local_array 9) bytes).local_sizes ≡ 0 ∷ 0 ∷ 8 ∷ [] }
{}

/// In which order the parts of an assignment to an element are evaluated and tested, and how an index is read (OpenCL
/// 1.2, section 6.2.3; C99 6.5.2.1 and 6.5.16, which leaves the order open; the order, the range and 64 bits of an
/// index are this project's own).
pub fn elements_in_order()
    ensures stepped { next (stepped 9) 0 [] ≡ stores 4294967168 }
    ensures stepped_unset { next (stepped_unset 9) 0 [] ≡ action.Fault (cause.UnsetElement 106 (pos 1)) }
    ensures all_bits { next (put_at (record { kind = Ulong; number = pos 18446744073709551615 }) 9) 0 [] ≡ action.Fault (cause.PrivateBounds 106 (negsuc 0)) }
    ensures half_of_them { next (added_at (record { kind = Ulong; number = pos 9223372036854775808 }) 9) 0 [] ≡ action.Fault (cause.PrivateBounds 106 (negsuc 9223372036854775807)) }
    ensures unsigned { next (put_at (record { kind = Uint; number = pos 4294967295 }) 9) 0 [] ≡ action.Fault (cause.PrivateBounds 106 (pos 4294967295)) }
    ensures element_before_value { next (added_to_unset 9) 0 [] ≡ action.Fault (cause.UnsetElement 106 (pos 1)) }
    ensures index_before_value { next (unset_index 9) 0 [] ≡ action.Fault (cause.UnsetVariable 105) }
    ensures value_before_range { next (unset_value 9) 0 [] ≡ action.Fault (cause.UnsetVariable 105) }
    ensures no_ticks { next (without_ticks 1) 0 [] ≡ stores 10 }
    ensures no_ticks_behind { next (without_ticks 1) 0 (Done ∷ []) ≡ action.Fault (cause.PrivateBounds 106 (pos 1)) }
{}

/// Arrays in blocks, in turns of a loop and in helpers (OpenCL 1.2, section 6.5; C99 6.2.1, paragraph 4, and 6.2.4,
/// paragraph 5).
pub fn arrays_in_blocks()
    ensures called { next (called_again 9) 0 [] ≡ stores 1 }
    ensures called_again { next (called_again 9) 0 (Done ∷ []) ≡ action.Fault (cause.UnsetElement 106 (pos 0)) }
    ensures added_by_helper { next (added_by_helper 9) 0 [] ≡ stores 9 }
    ensures longer { next (shorter_behind 9) 0 [] ≡ stores 7 }
    ensures shorter { next (shorter_behind 9) 0 (Done ∷ []) ≡ action.Fault (cause.PrivateBounds 108 (pos 2)) }
    ensures unset_behind { next (unset_behind 9) 0 [] ≡ action.Fault (cause.UnsetElement 108 (pos 0)) }
    ensures hidden { next (hidden 9) 0 [] ≡ stores 3 }
    ensures seen_again { next (hidden 9) 0 (Done ∷ []) ≡ action.Access (object.Buffer 0) (pos 1) (operation.Store Four 1) }
    ensures hiding { next (local_hidden 9) 0 (Done ∷ []) ≡ stores 6 }
    ensures local_again { next (local_hidden 9) 0 (Done ∷ Done ∷ []) ≡ action.Access (object.Local 1) (pos 0) (operation.Load Four) }
    ensures first_turn_continued { next (continued_past 9) 0 [] ≡ stores 1 }
    ensures third_turn { next (continued_past 9) 0 (Done ∷ []) ≡ stores 2 }
{}

/// Local arrays: which objects they are, and how pointers to them are passed on (OpenCL 1.2, section 6.5.2).
pub fn local_arrays()
    ensures sizes { (bytes : List ℕ → List ℕ) → (launch_of (numbered 9) bytes).local_sizes ≡ 4 ∷ 0 ∷ 0 ∷ 0 ∷ 8 ∷ 8 ∷ [] }
    ensures numbered { next (numbered 9) 0 [] ≡ action.Access (object.Local 5) (pos 0) (operation.Store Four 3) }
    ensures narrow { next (numbered 9) 0 (Done ∷ []) ≡ action.Access (object.Local 4) (pos 4) (operation.Store One 9) }
    ensures passed_on { next (passed_on 9) 0 [] ≡ action.Access (object.Local 2) (pos 4) (operation.Store Four 1) }
{}

/// Elements of a private array of each type (OpenCL 1.2, sections 6.2.3 and 6.5.4; C99 6.5.2.1; range and unset are
/// this project's own). What is put at an index in range is read there converted to the elements' type; the other
/// elements stay, and so does the length. An index out of range is the bounds fault, for a number that is put as for
/// one that is read; an element that isn't set is the unset fault, and no element is set where an array is declared.
pub fn elements_keep()
    ensures put { (name : ℕ) (kind : IntType) (elements : List (Option ℕ)) (i v : Integer) (after : Operand → Continuation) → pos 0 ≤ℤ index_of i → index_of i <ℤ pos (length elements) → write_element name kind elements (Integral i) (Integral v) (λ new. read_element name kind new (Integral i) after) ≡ after (Integral (converted v kind)) }
    ensures kept { (name : ℕ) (kind : IntType) (elements : List (Option ℕ)) (i v j : Integer) (after : Operand → Continuation) → pos 0 ≤ℤ index_of i → index_of i <ℤ pos (length elements) → index_of i ≢ index_of j → write_element name kind elements (Integral i) (Integral v) (λ new. read_element name kind new (Integral j) after) ≡ read_element name kind elements (Integral j) after }
    ensures as_many { (name : ℕ) (kind : IntType) (elements : List (Option ℕ)) (i v : Integer) (after : ℕ → Continuation) → pos 0 ≤ℤ index_of i → index_of i <ℤ pos (length elements) → write_element name kind elements (Integral i) (Integral v) (λ new. after (length new)) ≡ after (length elements) }
    ensures put_outside { (name : ℕ) (kind : IntType) (elements : List (Option ℕ)) (i v : Integer) (after : List (Option ℕ) → Continuation) → (index_of i <ℤ pos 0) ⊎ (pos (length elements) ≤ℤ index_of i) → write_element name kind elements (Integral i) (Integral v) after ≡ fail (cause.PrivateBounds name (index_of i)) }
    ensures read_outside { (name : ℕ) (kind : IntType) (elements : List (Option ℕ)) (i : Integer) (after : Operand → Continuation) → (index_of i <ℤ pos 0) ⊎ (pos (length elements) ≤ℤ index_of i) → read_element name kind elements (Integral i) after ≡ fail (cause.PrivateBounds name (index_of i)) }
    ensures unset { (name : ℕ) (kind : IntType) (elements : List (Option ℕ)) (i : Integer) (after : Operand → Continuation) → element_at elements (index_of i) ≡ Some None → read_element name kind elements (Integral i) after ≡ fail (cause.UnsetElement name (index_of i)) }
    ensures declared { (name : ℕ) (kind : IntType) (count : ℕ) (i : Integer) (after : Operand → Continuation) → pos 0 ≤ℤ index_of i → index_of i <ℤ pos count → read_element name kind (private_array kind count name).elements (Integral i) after ≡ fail (cause.UnsetElement name (index_of i)) }
{}

/// Private arrays in scope, as assignment finds them (C99 6.5.16): what is put into an element in range is fetched
/// there converted to the elements' type, and the other elements, the other arrays and what variables hold stay.
pub fn arrays_keep()
    ensures put { (name : ℕ) (variables : Variables) (i v : Integer) → pos 0 ≤ℤ index_of i → index_of i <ℤ pos (length (elements_of variables name)) → (after : Operand → Continuation) → put (ElementOf name (Integral i)) (Integral v) variables (λ now. fetch (ElementOf name (Integral i)) now after) ≡ after (Integral (converted v (base_type (declared_type variables name)))) }
    ensures kept { (name : ℕ) (variables : Variables) (i v : Integer) → pos 0 ≤ℤ index_of i → index_of i <ℤ pos (length (elements_of variables name)) → (j : Integer) (after : Operand → Continuation) → index_of i ≢ index_of j → put (ElementOf name (Integral i)) (Integral v) variables (λ now. fetch (ElementOf name (Integral j)) now after) ≡ fetch (ElementOf name (Integral j)) variables after }
    ensures arrays { (name : ℕ) (variables : Variables) (i v : Integer) → pos 0 ≤ℤ index_of i → index_of i <ℤ pos (length (elements_of variables name)) → (x : ℕ) (after : List (Option ℕ) → Continuation) → x ≢ name → put (ElementOf name (Integral i)) (Integral v) variables (λ now. after (elements_of now x)) ≡ after (elements_of variables x) }
    ensures variables { (name : ℕ) (variables : Variables) (i v : Integer) → pos 0 ≤ℤ index_of i → index_of i <ℤ pos (length (elements_of variables name)) → (x : ℕ) (after : Option Operand → Continuation) → put (ElementOf name (Integral i)) (Integral v) variables (λ now. after (look now x)) ≡ after (look variables x) }
{}

/// The first faults of some statements with barriers and pointers.
pub fn samples()
    ensures { AreSampled }
{}
