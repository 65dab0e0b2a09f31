//! Laws of keeping, of settling a state and opening it again, and of what a step leaves of a valid state.
//!
//! One state keeps another where it lacks nothing of it but contexts that nothing in it names. A representation of the
//! machine need not have the whole state of the model; it is enough that it keeps it. What is read of both is the same,
//! the same done to both ends in the same way, and then the one keeps the other again. So what is proved of the state
//! that a world has holds of each state that it keeps.
//!
//! The definitions stand in `specs/Keeps.antt` and `specs/Alike.antt`. Each law is a function with an empty body: what
//! it ensures is the law. A state is closed where it keeps itself, which is where all that it names is there.
ghost use Rattle.std.specs.Prelude.{◌≡◌, ◌≢◌, ◌<◌, ◌≤◌, ◌+◌, ℕ, ℤ, Bool, true, false, nat_lt, if◌then◌else◌, Option};
ghost use Rattle.std.specs.Prelude.{Some, None, List, [], ◌∷◌, length, slice_get, slice_index, Ok, IsSome};
ghost use Rattle.std.specs.List.{AllByRecursion, Contains};
ghost use Rattle.cs_model.specs.declared.event.Event.{Event};
ghost use Rattle.cs_model.specs.declared.instruction.Op.{Op};
ghost use Rattle.cs_model.specs.Ref.{Ref};
ghost use Rattle.cs_model.specs.Ref as ref;
ghost use Rattle.cs_model.specs.Obj.{Obj, Context};
ghost use Rattle.cs_model.specs.State.{Kept, Run, State, IsHeld, IsValid, ContextHeld, NamesHeld, object_at, object_of};
ghost use Rattle.cs_model.specs.State.{is_read_only, put, slots_of, special_at, scheduler_of, active_process};
ghost use Rattle.cs_model.specs.Read.{IsRunning, class_of, depth_of, active_context, method_of, literals_of};
ghost use Rattle.cs_model.specs.Read.{bytecodes_of};
ghost use Rattle.cs_model.specs.Keeps.{Keeps, SameKept, Grows, KeepsState};
ghost use Rattle.cs_model.specs.Alike.{Alike, AlikeResult, SameButCount, AlikeHappened, AlikeStep, AlikeRan, AlikeMade};
ghost use Rattle.cs_model.specs.Alike.{AlikeHashed, IsHeldIf, KeepsIf, AllKeep, SoughtHeld};
ghost use Rattle.cs_model.specs.Operation.{set_pc_of, push_of, drop_of, set_stack_of, store_of, store_byte_of};
ghost use Rattle.cs_model.specs.Operation.{set_fixed_of, add_of, enter_of, kill_of, resume_of, suspend_of, leave_of};
ghost use Rattle.cs_model.specs.Operation.{cut_to_of};
ghost use Rattle.cs_model.specs.Context.{context_get, accepts, context_put};
ghost use Rattle.cs_model.specs.Enter.{can_evaluate, enter_block_of, enter_block_out};
ghost use Rattle.cs_model.specs.Instance.{instantiate, behavior_hash, take_index, hash_of, hash_given};
ghost use Rattle.cs_model.specs.Exec.{push_out, push_all, refuse_store, jump_out, special_send_out, send_selector_out};
ghost use Rattle.cs_model.specs.Exec.{fill_of, exec};
ghost use Rattle.cs_model.specs.Lookup.{lookup};
ghost use Rattle.cs_model.specs.Lookup as sought;
ghost use Rattle.cs_model.specs.Send.{begins_at, look_from, enter_out, invoke, not_understood, send, perform};
ghost use Rattle.cs_model.specs.Send.{perform_with_arguments, execute_method};
ghost use Rattle.cs_model.specs.Return.{context_birth, senders_to, home, back, local_out, nonlocal_out};
ghost use Rattle.cs_model.specs.Return.{cannot_return_out, unwind_out};
ghost use Rattle.cs_model.specs.Process.{shaped_scheduler, add_last, add_first, add_preempted, start, start_next};
ghost use Rattle.cs_model.specs.Process.{resume, signal, wait, suspend, give_way};
ghost use Rattle.cs_model.specs.PrimAnswer.{answer, receiver, argument};
ghost use Rattle.cs_model.specs.PrimObject.{slot_index, slot_at_put_prim};
ghost use Rattle.cs_model.specs.PrimUnwind.{end_between_of, end_between_prim};
ghost use Rattle.cs_model.specs.PrimRun.{fails, forgotten};
ghost use Rattle.cs_model.specs.PrimTable.{is_listed, kept_prim, prim};
ghost use Rattle.cs_model.specs.Settle.{settle_kept, open_kept, opened, settled, new_run};
ghost use Rattle.cs_model.specs.Due.{signal_external, is_idle, due};
ghost use Rattle.cs_model.specs.End.{Out, is_done, given};
ghost use Rattle.cs_model.specs.Step.{Message, primitive_in, or_enter, try_performed, try_primitive, sent, do_send};
ghost use Rattle.cs_model.specs.Step.{do_return, followed, instruction_at, bytecode, Ending, Steps, Quit, birth_limit};
ghost use Rattle.cs_model.specs.Step.{add_count, finish_of, step, run};
ghost use Rattle.cs_model.specs.Demand.{before_bytecode, last_state, first_events, states_of};
ghost use Rattle.cs_model.specs.Shallow.{ended_between, is_answer, Trial, result_of, Sending, sending_from, sent_out};
ghost use Rattle.cs_model.specs.Shallow.{trials, bytecode_state};
ghost use Rattle.cs_model.specs.Report.{place_of, report_of};
ghost use Rattle.cs_model.specs.Canon.{canon};
ghost use Rattle.cs_model.specs.Image.{described, image_of};
ghost use Rattle.cs_model.specs.SavedFile.{SavedFile, SavedObject, FitsFile, IsReadAgain, IsSeen, IsSeenAgain};
ghost use Rattle.cs_model.specs.SavedFile.{saved_bytes};
ghost use Rattle.cs_model.specs.SoundFile.{IsSoundFile, births_saved, saved_address, saved_birth, state_of_file};
ghost use Rattle.cs_model.specs.Built.{is_built_number, is_built_send, is_built_out, built_step, built_run};

/// An object that is put at a birth is there, and nothing else changes.
pub fn a_write_stands()
    ensures same { (k : Kept) (i : ℕ) (o : Obj) → object_at (put k i o) i ≡ Some o }
    ensures other { (k : Kept) (i j : ℕ) (o : Obj) → (j ≡ i → ⊥) → object_at (put k i o) j ≡ object_at k j }
    ensures rest { (k : Kept) (i : ℕ) (o : Obj) → (put k i o).rest ≡ k.rest }
{}

/// A state that keeps another one keeps itself, and all that this one keeps. States with the same objects and the same
/// rest stand for each other.
pub fn keeping_is_transitive()
    ensures itself { (v m : Kept) → Keeps v m → Keeps v v }
    ensures transitive { (u v m : Kept) → Keeps u v → Keeps v m → Keeps u m }
    ensures left { (u v m : Kept) → SameKept u v → Keeps v m → Keeps u m }
    ensures right { (v m n : Kept) → Keeps v m → SameKept m n → Keeps v n }
{}

/// A valid state keeps itself.
pub fn a_valid_state_is_closed()
    ensures { (s : State) → IsValid s → KeepsState s s }
{}

/// What is read of a state by references that it holds is the same in each state that it keeps.
pub fn keeping_agrees_in_reads()
    ensures object_at { (v m : Kept) (i : ℕ) → Keeps v m → IsSome (object_at v i) → object_at m i ≡ object_at v i }
    ensures object_of { (v m : Kept) (x : Ref) → Keeps v m → IsHeld v x → object_of m x ≡ object_of v x }
    ensures is_read_only { (v m : Kept) (x : Ref) → Keeps v m → IsHeld v x → is_read_only m x ≡ is_read_only v x }
    ensures slots_of { (v m : Kept) (n : ℕ) (x : Ref) → Keeps v m → IsHeld v x → slots_of m n x ≡ slots_of v n x }
    ensures special_at { (v m : Kept) (i : ℕ) → Keeps v m → special_at m i ≡ special_at v i }
    ensures class_of { (v m : Kept) (x : Ref) → Keeps v m → IsHeld v x → class_of m x ≡ class_of v x }
    ensures active_context { (v m : Kept) → Keeps v m → active_context m ≡ active_context v }
    ensures method_of { (v m : Kept) → Keeps v m → method_of m ≡ method_of v }
    ensures literals_of { (v m : Kept) → Keeps v m → literals_of m ≡ literals_of v }
    ensures bytecodes_of { (v m : Kept) → Keeps v m → bytecodes_of m ≡ bytecodes_of v }
    ensures scheduler_of { (v m : Kept) → Keeps v m → scheduler_of m ≡ scheduler_of v }
    ensures shaped_scheduler { (v m : Kept) → Keeps v m → shaped_scheduler m ≡ shaped_scheduler v }
    ensures active_process { (v m : Kept) → Keeps v m → active_process m ≡ active_process v }
    ensures context_get { (v m : Kept) (c : Context) (i : ℕ) → Keeps v m → ContextHeld v c
        → context_get m c i ≡ context_get v c i }
    ensures accepts { (v m : Kept) (active : Bool) (c : Context) (i : ℕ) (x : Ref) → Keeps v m
        → ContextHeld v c → IsHeld v x
        → accepts m active c i x ≡ accepts v active c i x }
    ensures can_evaluate { (v m : Kept) (x : Ref) (args : ℕ) → Keeps v m → IsHeld v x
        → can_evaluate m x args ≡ can_evaluate v x args }
    ensures hash_of { (v m : Kept) (x : Ref) → Keeps v m → IsHeld v x → hash_of m x ≡ hash_of v x }
    ensures lookup { (v m : Kept) (class selector : Ref) → Keeps v m → IsHeld v class
        → lookup m class selector ≡ lookup v class selector }
    ensures senders_to { (v m : Kept) (i goal : ℕ) → Keeps v m → IsSome (object_at v i)
        → senders_to m i goal ≡ senders_to v i goal }
    ensures home { (v m : Kept) (i : ℕ) → Keeps v m → IsSome (object_at v i) → home m i ≡ home v i }
    ensures is_idle { (v m : Kept) → Keeps v m → is_idle m ≡ is_idle v }
    ensures instruction_at { (v m : Kept) → Keeps v m → instruction_at m ≡ instruction_at v }
    ensures running { (v m : Kept) → Keeps v m → IsRunning v → IsRunning m }
{}

/// The report of a run is the same for each state that is kept, and so is the place where the run stands.
pub fn keeping_agrees_in_reports()
    ensures place { (v m : Kept) → Keeps v m → place_of m ≡ place_of v }
    ensures report { (s t : State) (e : Ending) → KeepsState s t → report_of t e ≡ report_of s e }
{}

/// What is read of a closed state is there. A state is closed where it keeps itself.
pub fn what_is_read_is_held()
    ensures special { (v : Kept) (i : ℕ) (x : Ref) → Keeps v v → special_at v i ≡ Some x → IsHeld v x }
    ensures class { (v : Kept) (x y : Ref) → Keeps v v → IsHeld v x → class_of v x ≡ Some y → IsHeld v y }
    ensures slots { (v : Kept) (n : ℕ) (x : Ref) (slots : List Ref) → Keeps v v → IsHeld v x
        → slots_of v n x ≡ Some slots
        → AllByRecursion (IsHeld v) slots }
    ensures context { (v : Kept) → Keeps v v → ContextHeld v (active_context v) }
    ensures literals { (v : Kept) → Keeps v v → AllByRecursion (IsHeld v) (literals_of v) }
    ensures scheduler { (v : Kept) (x : Ref) → Keeps v v → scheduler_of v ≡ Some x → IsHeld v x }
    ensures process { (v : Kept) (x : Ref) → Keeps v v → active_process v ≡ Some x → IsHeld v x }
    ensures method { (v : Kept) (class selector : Ref) → Keeps v v → IsHeld v class
        → SoughtHeld v (lookup v class selector) }
{}

/// Behind the same operation on both, a state that keeps another one keeps it again.
pub fn keeping_survives_an_operation()
    ensures put { (v m : Kept) (i : ℕ) (o : Obj) → Keeps v m → NamesHeld v o → Keeps (put v i o) (put m i o) }
    ensures set_pc { (v m : Kept) (pc : ℕ) → Keeps v m → Keeps (set_pc_of v pc) (set_pc_of m pc) }
    ensures push { (v m : Kept) (x : Ref) → Keeps v m → IsHeld v x → Keeps (push_of v x) (push_of m x) }
    ensures drop { (v m : Kept) (n : ℕ) → Keeps v m → Keeps (drop_of v n) (drop_of m n) }
    ensures set_stack { (v m : Kept) (i : ℕ) (x : Ref) → Keeps v m → IsHeld v x
        → Keeps (set_stack_of v i x) (set_stack_of m i x) }
    ensures store { (v m : Kept) (o : Ref) (i : ℕ) (x : Ref) → Keeps v m → IsHeld v x
        → Keeps (store_of v o i x) (store_of m o i x) }
    ensures store_byte { (v m : Kept) (o : Ref) (i b : ℕ) → Keeps v m
        → Keeps (store_byte_of v o i b) (store_byte_of m o i b) }
    ensures set_fixed { (v m : Kept) (o : Ref) (on : Bool) → Keeps v m
        → Keeps (set_fixed_of v o on) (set_fixed_of m o on) }
    ensures add { (v m : Kept) (o : Obj) → Keeps v m → NamesHeld v o → Keeps (add_of v o) (add_of m o) }
    ensures fill { (v m : Kept) (o : Ref) (values : List Ref) → Keeps v m → AllByRecursion (IsHeld v) values
        → Keeps (fill_of v o values) (fill_of m o values) }
    ensures enter { (v m : Kept) (x : Ref) (args : ℕ) (skip : Bool) → Keeps v m → IsHeld v x
        → Keeps (enter_of v x args skip) (enter_of m x args skip) }
    ensures enter_block { (v m : Kept) (x : Ref) (args : ℕ) → Keeps v m → IsHeld v x
        → Keeps (enter_block_of v x args) (enter_block_of m x args) }
    ensures kill { (v m : Kept) (i : ℕ) → Keeps v m → Keeps (kill_of v i) (kill_of m i) }
    ensures resume { (v m : Kept) (i : ℕ) → Keeps v m → IsSome (object_at v i) → Keeps (resume_of v i) (resume_of m i) }
    ensures suspend { (v m : Kept) → Keeps v m → Keeps (suspend_of v) (suspend_of m) }
    ensures leave { (v m : Kept) (x : Ref) → Keeps v m → IsHeld v x → Keeps (leave_of v x) (leave_of m x) }
    ensures cut_to { (v m : Kept) (dying : List ℕ) (i : ℕ) (x : Ref) → Keeps v m → IsSome (object_at v i) → IsHeld v x
        → Keeps (cut_to_of v dying i x) (cut_to_of m dying i x) }
    ensures context_put { (v m : Kept) (birth i : ℕ) (x : Ref) → Keeps v m → IsHeld v x
        → Keeps (context_put v birth i x) (context_put m birth i x) }
    ensures end_between { (v m : Kept) (dying : List ℕ) (i : ℕ) (x : Ref) → Keeps v m → IsHeld v x
        → Keeps (end_between_of v dying i x) (end_between_of m dying i x) }
    ensures take_index { (v m : Kept) (x : Ref) (index : ℕ) → Keeps v m → IsHeld v x
        → Keeps (take_index v x index) (take_index m x index) }
    ensures hash_given { (v m : Kept) (x : Ref) → Keeps v m → IsHeld v x → Keeps (hash_given v x) (hash_given m x) }
    ensures settle { (v m : Kept) → Keeps v m → Keeps (settle_kept v) (settle_kept m) }
    ensures open { (v m : Kept) → Keeps v m → Keeps (open_kept v) (open_kept m) }
{}

/// What a closed state has, it has behind each operation.
pub fn what_was_held_still_is()
    ensures put { (v : Kept) (i : ℕ) (o : Obj) → Keeps v v → NamesHeld v o → Grows v (put v i o) }
    ensures set_pc { (v : Kept) (pc : ℕ) → Keeps v v → Grows v (set_pc_of v pc) }
    ensures push { (v : Kept) (x : Ref) → Keeps v v → IsHeld v x → Grows v (push_of v x) }
    ensures drop { (v : Kept) (n : ℕ) → Keeps v v → Grows v (drop_of v n) }
    ensures set_stack { (v : Kept) (i : ℕ) (x : Ref) → Keeps v v → IsHeld v x → Grows v (set_stack_of v i x) }
    ensures store { (v : Kept) (o : Ref) (i : ℕ) (x : Ref) → Keeps v v → IsHeld v x → Grows v (store_of v o i x) }
    ensures store_byte { (v : Kept) (o : Ref) (i b : ℕ) → Keeps v v → Grows v (store_byte_of v o i b) }
    ensures set_fixed { (v : Kept) (o : Ref) (on : Bool) → Keeps v v → Grows v (set_fixed_of v o on) }
    ensures add { (v : Kept) (o : Obj) → Keeps v v → NamesHeld v o → Grows v (add_of v o) }
    ensures fill { (v : Kept) (o : Ref) (values : List Ref) → Keeps v v → AllByRecursion (IsHeld v) values
        → Grows v (fill_of v o values) }
    ensures enter { (v : Kept) (x : Ref) (args : ℕ) (skip : Bool) → Keeps v v → IsHeld v x
        → Grows v (enter_of v x args skip) }
    ensures enter_block { (v : Kept) (x : Ref) (args : ℕ) → Keeps v v → IsHeld v x → Grows v (enter_block_of v x args) }
    ensures kill { (v : Kept) (i : ℕ) → Keeps v v → Grows v (kill_of v i) }
    ensures resume { (v : Kept) (i : ℕ) → Keeps v v → IsSome (object_at v i) → Grows v (resume_of v i) }
    ensures suspend { (v : Kept) → Keeps v v → Grows v (suspend_of v) }
    ensures leave { (v : Kept) (x : Ref) → Keeps v v → IsHeld v x → Grows v (leave_of v x) }
    ensures cut_to { (v : Kept) (dying : List ℕ) (i : ℕ) (x : Ref) → Keeps v v → IsSome (object_at v i) → IsHeld v x
        → Grows v (cut_to_of v dying i x) }
    ensures context_put { (v : Kept) (birth i : ℕ) (x : Ref) → Keeps v v → IsHeld v x
        → Grows v (context_put v birth i x) }
    ensures end_between { (v : Kept) (dying : List ℕ) (i : ℕ) (x : Ref) → Keeps v v → IsHeld v x
        → Grows v (end_between_of v dying i x) }
    ensures take_index { (v : Kept) (x : Ref) (index : ℕ) → Keeps v v → IsHeld v x → Grows v (take_index v x index) }
    ensures hash_given { (v : Kept) (x : Ref) → Keeps v v → IsHeld v x → Grows v (hash_given v x) }
    ensures settle { (v : Kept) → Keeps v v → Grows v (settle_kept v) }
    ensures open { (v : Kept) → Keeps v v → Grows v (open_kept v) }
{}

/// A run begins alike.
pub fn keeping_survives_opening()
    ensures { (v m : Kept) (events : List Event) (snapping : Bool) → Keeps v m
        → KeepsState (opened v events snapping) (opened m events snapping) }
{}

/// A valid state that is settled and opened again is as it was, but for the slot in which its active process keeps a
/// context: that is nil, as it is while a process runs. The run begins anew.
pub fn opening_undoes_settling()
    ensures kept { (s : State) (events : List Event) (snapping : Bool) → IsValid s
        → SameKept (opened (settled s) events snapping).kept (forgotten s.kept) }
    ensures run { (k : Kept) (events : List Event) (snapping : Bool)
        → (opened k events snapping).run ≡ new_run events snapping }
{}

/// Instances are made alike, and classes get the same index.
pub fn keeping_survives_a_making()
    ensures instance { (v m : Kept) (x : Ref) (size : ℕ) → Keeps v m → IsHeld v x
        → AlikeMade v (instantiate v x size) (instantiate m x size) }
    ensures index { (v m : Kept) (x : Ref) → Keeps v m → IsHeld v x
        → AlikeHashed v (behavior_hash v x) (behavior_hash m x) }
{}

/// Each instruction ends alike, and so do the parts of which instructions are composed.
pub fn keeping_survives_an_instruction()
    ensures any { (v m : Kept) (i : Op) → Keeps v m → Alike v (exec i v) (exec i m) }
    ensures push { (v m : Kept) (x : Ref) → Keeps v m → IsHeld v x → Alike v (push_out v x) (push_out m x) }
    ensures push_all { (v m : Kept) (values : List Ref) → Keeps v m → AllByRecursion (IsHeld v) values
        → Alike v (push_all values v) (push_all values m) }
    ensures refuse_store { (v m : Kept) (o : Ref) (i : ℕ) (x : Ref) → Keeps v m → IsHeld v o → IsHeld v x
        → Alike v (refuse_store v o i x) (refuse_store m o i x) }
    ensures jump { (v m : Kept) (offset : ℤ) → Keeps v m → Alike v (jump_out v offset) (jump_out m offset) }
    ensures special_send { (v m : Kept) (special args : ℕ) → Keeps v m → Alike v (special_send_out v special args)
        (special_send_out m special args) }
    ensures selector_send { (v m : Kept) (i : ℕ) → Keeps v m → Alike v (send_selector_out v i) (send_selector_out m i) }
{}

/// A send ends alike, whatever it finds, and so does a perform.
pub fn keeping_survives_a_send()
    ensures any { (v m : Kept) (x : Ref) (args : ℕ) (above : Option Ref) → Keeps v m → IsHeld v x → IsHeldIf v above
        → Alike v (send v x args above) (send m x args above) }
    ensures invoked { (v m : Kept) (x : Ref) (args : ℕ) → Keeps v m → IsHeld v x
        → Alike v (invoke v x args) (invoke m x args) }
    ensures entered { (v m : Kept) (x : Ref) (args : ℕ) (skip : Bool) → Keeps v m → IsHeld v x
        → Alike v (enter_out v x args skip) (enter_out m x args skip) }
    ensures block { (v m : Kept) (x : Ref) (args : ℕ) → Keeps v m → IsHeld v x
        → Alike v (enter_block_out v x args) (enter_block_out m x args) }
    ensures not_understood { (v m : Kept) (x : Ref) (args : ℕ) → Keeps v m → IsHeld v x
        → Alike v (not_understood v x args) (not_understood m x args) }
    ensures performed { (v m : Kept) (args : ℕ) → Keeps v m → Alike v (perform v args) (perform m args) }
    ensures with_arguments { (v m : Kept) → Keeps v m → Alike v (perform_with_arguments v) (perform_with_arguments m) }
    ensures executed { (v m : Kept) → Keeps v m → Alike v (execute_method v) (execute_method m) }
    ensures whole { (v m : Kept) (r : Run) (x : Ref) (args : ℕ) (above : Option Ref) → Keeps v m → IsHeld v x
        → IsHeldIf v above
        → AlikeResult v (do_send r v x args above) (do_send r m x args above) }
{}

/// A return ends alike: to the sender, to the sender of the home, or to what is told of it.
pub fn keeping_survives_a_return()
    ensures any { (v m : Kept) (x : Ref) (local : Bool) → Keeps v m → IsHeld v x
        → Alike v (back v x local) (back m x local) }
    ensures local { (v m : Kept) (x : Ref) → Keeps v m → IsHeld v x → Alike v (local_out v x) (local_out m x) }
    ensures nonlocal { (v m : Kept) (x : Ref) → Keeps v m → IsHeld v x → Alike v (nonlocal_out v x) (nonlocal_out m x) }
    ensures refused { (v m : Kept) (x : Ref) → Keeps v m → IsHeld v x
        → Alike v (cannot_return_out v x) (cannot_return_out m x) }
    ensures unwound { (v m : Kept) (x : Ref) (mark : ℕ) → Keeps v m → IsHeld v x → IsSome (object_at v mark)
        → Alike v (unwind_out v x mark) (unwind_out m x mark) }
    ensures whole { (v m : Kept) (r : Run) (x : Ref) (local : Bool) → Keeps v m → IsHeld v x
        → AlikeResult v (do_return r v x local) (do_return r m x local) }
{}

/// Each operation on processes, semaphores and their lists ends alike.
pub fn keeping_survives_a_switch()
    ensures added { (v m : Kept) (list p : Ref) → Keeps v m → IsHeld v list → IsHeld v p
        → Alike v (add_last v list p) (add_last m list p) }
    ensures added_first { (v m : Kept) (list p : Ref) → Keeps v m → IsHeld v list → IsHeld v p
        → Alike v (add_first v list p) (add_first m list p) }
    ensures added_preempted { (v m : Kept) (list p : Ref) → Keeps v m → IsHeld v list → IsHeld v p
        → Alike v (add_preempted v list p) (add_preempted m list p) }
    ensures started { (v m : Kept) (p : Ref) → Keeps v m → IsHeld v p → Alike v (start v p) (start m p) }
    ensures next { (v m : Kept) → Keeps v m → Alike v (start_next v) (start_next m) }
    ensures resumed { (v m : Kept) (p : Ref) → Keeps v m → IsHeld v p → Alike v (resume v p) (resume m p) }
    ensures signalled { (v m : Kept) (x : Ref) → Keeps v m → Alike v (signal v x) (signal m x) }
    ensures waited { (v m : Kept) (x : Ref) → Keeps v m → IsHeld v x → Alike v (wait v x) (wait m x) }
    ensures suspended { (v m : Kept) (p : Ref) → Keeps v m → IsHeld v p → Alike v (suspend v p) (suspend m p) }
    ensures yielded { (v m : Kept) → Keeps v m → Alike v (give_way v) (give_way m) }
{}

/// Each primitive ends alike.
pub fn keeping_survives_a_primitive()
    ensures kept { (v m : Kept) (number args : ℕ) → Keeps v m → Alike v (kept_prim number args v)
        (kept_prim number args m) }
    ensures answered { (v m : Kept) (args : ℕ) (x : Ref) → Keeps v m → IsHeld v x
        → Alike v (answer v args x) (answer m args x) }
    ensures any { (s t : State) (number args : ℕ) → KeepsState s t
        → AlikeResult s.kept (prim number args s) (prim number args t) }
    ensures tried { (s t : State) (x : Ref) (number : ℕ) → KeepsState s t → IsHeld s.kept x
        → AlikeResult s.kept (try_primitive s x number) (try_primitive t x number) }
{}

/// The events that are due happen alike.
pub fn keeping_survives_an_event()
    ensures external { (v m : Kept) (n : ℕ) → Keeps v m → Alike v (signal_external v n) (signal_external m n) }
    ensures due { (s t : State) → KeepsState s t → AlikeHappened s.kept (due s) (due t) }
{}

/// A bytecode with all that it leads to ends alike.
pub fn keeping_survives_a_bytecode()
    ensures { (s t : State) → KeepsState s t → AlikeResult s.kept (bytecode s) (bytecode t) }
{}

/// A step of a state that keeps another one, and a step of that one, end in the same way, with the same counts, equal
/// run parts and the same next birth; the results keep each other again, and so do the states that they saved.
pub fn keeping_survives_a_step()
    ensures ending { (s t : State) → KeepsState s t → (step s).ending ≡ (step t).ending }
    ensures count { (s t : State) → KeepsState s t → (step s).count ≡ (step t).count }
    ensures run { (s t : State) → KeepsState s t → (step s).state.run ≡ (step t).state.run }
    ensures next { (s t : State) → KeepsState s t → (step s).state.kept.rest.next ≡ (step t).state.kept.rest.next }
    ensures keeps { (s t : State) → KeepsState s t → KeepsState (step s).state (step t).state }
    ensures held { (s t : State) → KeepsState s t → Grows s.kept (step s).state.kept }
    ensures snapshot { (s t : State) → KeepsState s t → KeepsIf (step s).snapshot (step t).snapshot }
{}

/// The same of a run of so many steps.
pub fn keeping_survives_a_run()
    ensures ending { (n : ℕ) (s t : State) → KeepsState s t → (run n s).ending ≡ (run n t).ending }
    ensures count { (n : ℕ) (s t : State) → KeepsState s t → (run n s).count ≡ (run n t).count }
    ensures run { (n : ℕ) (s t : State) → KeepsState s t → (run n s).state.run ≡ (run n t).state.run }
    ensures next { (n : ℕ) (s t : State) → KeepsState s t → (run n s).state.kept.rest.next ≡ (run n
        t).state.kept.rest.next }
    ensures keeps { (n : ℕ) (s t : State) → KeepsState s t → KeepsState (run n s).state (run n t).state }
    ensures held { (n : ℕ) (s t : State) → KeepsState s t → Grows s.kept (run n s).state.kept }
    ensures snapshots { (n : ℕ) (s t : State) → KeepsState s t → AllKeep (run n s).snapshots (run n t).snapshots }
{}

/// The same of the step and the run of a machine that stops where a step is not built.
pub fn keeping_survives_what_is_built()
    ensures step { (s t : State) → KeepsState s t → AlikeStep s.kept (built_step s) (built_step t) }
    ensures run { (n : ℕ) (s t : State) → KeepsState s t → AlikeRan s.kept (built_run n s) (built_run n t) }
{}

/// A step of a valid state gives a valid state, however it ends.
pub fn a_step_of_a_valid_state_is_valid()
    ensures { (s : State) → IsValid s → IsValid (step s).state }
{}

/// So does a run of so many steps, and one of a machine that stops where a step is not built.
pub fn a_run_of_a_valid_state_is_valid()
    ensures whole { (n : ℕ) (s : State) → IsValid s → IsValid (run n s).state }
    ensures built { (n : ℕ) (s : State) → IsValid s → IsValid (built_run n s).state }
{}

/// The next birth never falls.
pub fn births_never_fall()
    ensures step { (s : State) → IsValid s → s.kept.rest.next ≤ (step s).state.kept.rest.next }
    ensures run { (n : ℕ) (s : State) → IsValid s → s.kept.rest.next ≤ (run n s).state.kept.rest.next }
{}

/// A birth that was given is never given again: below the next birth nothing comes where nothing is. So the birth of
/// each new object is not below the old next birth.
pub fn no_birth_is_given_again()
    ensures step { (s : State) (i : ℕ) → IsValid s → i < s.kept.rest.next → object_at s.kept i ≡ None
        → object_at (step s).state.kept i ≡ None }
    ensures run { (n : ℕ) (s : State) (i : ℕ) → IsValid s → i < s.kept.rest.next → object_at s.kept i ≡ None
        → object_at (run n s).state.kept i ≡ None }
    ensures step_made { (s : State) (i : ℕ) → IsValid s → object_at s.kept i ≡ None → IsSome (object_at
        (step s).state.kept i)
        → s.kept.rest.next ≤ i }
    ensures run_made { (n : ℕ) (s : State) (i : ℕ) → IsValid s → object_at s.kept i ≡ None → IsSome (object_at
        (run n s).state.kept i)
        → s.kept.rest.next ≤ i }
{}

/// No object leaves: what stands at a birth stands there after each step.
pub fn no_object_leaves()
    ensures step { (s : State) (i : ℕ) → IsValid s → IsSome (object_at s.kept i)
        → IsSome (object_at (step s).state.kept i) }
    ensures run { (n : ℕ) (s : State) (i : ℕ) → IsValid s → IsSome (object_at s.kept i)
        → IsSome (object_at (run n s).state.kept i) }
{}

/// The states that a run is said to pass are those behind each event that is due, one for each event that is done, and
/// behind each step: entry n is what is left where the first n + 1 events alone are there.
pub fn a_run_passes_what_its_steps_leave()
    ensures event { (s : State) (n : ℕ) (k : Kept) → slice_get (before_bytecode s) n ≡ Some k
        → (due (first_events (n + 1) s)).state.kept ≡ k }
    ensures count { (s : State) → nat_lt birth_limit s.kept.rest.next ≡ false
        → length (before_bytecode s) + ((if is_done (due s).end then 0 else 1) + length
        (due s).state.run.events) ≡ length s.run.events }
    ensures last { (s : State) → nat_lt birth_limit s.kept.rest.next ≡ false → is_done (due s).end ≡ true
        → last_state s.kept (before_bytecode s) ≡ (due s).state.kept }
    ensures none { (s : State) → nat_lt birth_limit s.kept.rest.next ≡ true → before_bytecode s ≡ [] }
    ensures step { (n : ℕ) (s : State) → last_state s.kept (states_of n s) ≡ (run n s).state.kept }
{}

/// The state in which a step does its bytecode is the one that is said; where none is, the step completes no bytecode.
pub fn a_step_does_its_bytecode_there()
    ensures done { (s b : State) → bytecode_state s ≡ Some b → step s ≡ add_count (due s).count
        (finish_of s (bytecode b)) }
    ensures undone { (s : State) → bytecode_state s ≡ None → ((step s).ending ≢ Steps) × ((step s).ending ≢ Quit) }
{}

/// What an instruction leads to is what the send gives that it leads to, and that is what the primitives give that it
/// tries: without one nothing becomes of the run, and else it is what the last of them gives, the method of which is
/// entered where it fails, or at once where it is a perform that a perform found. So where it answers, one of them
/// gives that very answer.
pub fn a_bytecode_gives_what_its_last_primitive_gives()
    ensures sent { (r : Run) (o : Out) (a : Sending) → sending_from o ≡ Some a
        → SameButCount (followed r o) (sent r (sent_out a)) }
    ensures none { (r : Run) (o : Out) → trials r o ≡ [] → ((followed r o).run ≡ r) × ((followed r o).snapshot ≡ None) }
    ensures one { (r : Run) (o : Out) (t : Trial) → trials r o ≡ t ∷ []
        → SameButCount (followed r o) (or_enter t.state t.method (result_of t)) }
    ensures two { (r : Run) (o : Out) (t u : Trial) → trials r o ≡ t ∷ u ∷ []
        → SameButCount (followed r o) (try_performed u.state u.method u.number) }
    ensures few { (r : Run) (o : Out) → length (trials r o) ≤ 2 }
    ensures answered { (r : Run) (i : Op) (k : Kept) → is_answer (followed r (exec i k)).out.end ≡ true → (t : Trial)
        × Contains (trials r (exec i k)) t × SameButCount (followed r (exec i k)) (result_of t) }
{}

/// Where 196 answers, the contexts that are said to end are those that die, and the receiver gets the argument as its
/// sender; where 74 answers for a context, the field of its index is what is written.
pub fn the_contexts_changed_are_those_of_the_primitives()
    ensures ended { (k : Kept) (i : ℕ) → context_birth k (receiver k 1) ≡ Some i → is_answer
        (end_between_prim k 1).end ≡ true
        → end_between_prim k 1 ≡ answer (end_between_of k (ended_between k i (argument k 1 0)) i (argument k 1 0)) 1
        (ref.Obj i) }
    ensures slot { (k : Kept) (i f : ℕ) → context_birth k (receiver k 2) ≡ Some i → slot_index (argument k 2 0) ≡ Some f
        → is_answer (slot_at_put_prim k 2).end ≡ true → slot_at_put_prim k 2 ≡ answer
        (context_put k i f (argument k 2 1)) 2 (argument k 2 1) }
{}

/// What is built is said of the send that an instruction leads to, and by the primitive that this send offers; where
/// nothing is found it isn't built.
pub fn what_is_built_is_what_a_send_finds()
    ensures out { (o : Out) → is_built_out o ≡ given (sending_from o) true (λ a. is_built_send a.state a.message) }
    ensures found { (k : Kept) (m : Message) → look_from k m.selector (begins_at k m.args m.above) ≢ sought.Missing
        → is_built_send k m ≡ given (primitive_in (send k m.selector m.args m.above).end) true
        (λ p. is_built_number k m.args (Some p.1)) }
    ensures missing { (k : Kept) (m : Message) → nat_lt m.args (depth_of k) ≡ true
        → look_from k m.selector (begins_at k m.args m.above) ≡ sought.Missing → is_built_send k m ≡ false }
{}

/// A primitive whose number isn't listed fails, and so it is built.
pub fn a_number_that_is_not_listed_fails()
    ensures fails { (number args : ℕ) (s : State) → is_listed number ≡ false → prim number args s ≡ fails s }
    ensures built { (number args : ℕ) (k : Kept) → is_listed number ≡ false
        → is_built_number k args (Some number) ≡ true }
{}

/// The file of an image is read as it was put together: what is cut out of its bytes is what was given. Where each
/// object is to be seen, the visible ones are those.
pub fn a_saved_file_is_read_again()
    ensures read { (f : SavedFile) → FitsFile f → IsReadAgain f (saved_bytes f) }
    ensures seen { (f : SavedFile) → FitsFile f → AllByRecursion IsSeen f.objects → IsSeenAgain f (saved_bytes f) }
{}

/// A file whose parts fit describes the state of its objects, where each of these is to be seen.
pub fn a_file_describes_its_objects()
    ensures { (f : SavedFile) → FitsFile f → AllByRecursion IsSeen f.objects
        → described (saved_bytes f) ≡ state_of_file f }
{}

/// The image of a file without faults is the state of its objects.
pub fn the_image_of_a_sound_file_is_that_of_its_objects()
    ensures { (f : SavedFile) (limit : ℕ) → IsSoundFile f limit
        → image_of (saved_bytes f) limit ≡ Ok (state_of_file f) }
{}

/// Where each visible object has a birth, the address of one names the birth of its number.
pub fn an_address_names_the_birth_of_its_object()
    ensures { (f : SavedFile) → FitsFile f → length (births_saved f) ≡ length f.objects → (k : ℕ) (o : SavedObject)
        → slice_get f.objects k ≡ Some o → saved_birth f (saved_address f.objects k) ≡ slice_index (births_saved f) k }
{}

/// States of which one keeps the other have one form by which images are compared: it sees neither births of contexts
/// nor contexts that nothing names.
pub fn states_that_keep_each_other_have_one_form()
    ensures canon { (v m : Kept) → Keeps v m → canon v ≡ canon m }
{}
