//! What traces and the whole program promise, as laws over their definitions. The functions here do
//! nothing: their clauses are the laws.

ghost use Rattle.std.specs.Prelude.{◌≡◌, ℕ, Bool, true, false, List, [], ◌∷◌, ◌++◌, length};
ghost use Rattle.std.specs.Prelude.{Option, Result, Ok, Err, Some, None, codes};
ghost use Rattle.simulator.specs.Laws.{OneProgram, OneTrace};
ghost use Rattle.simulator.specs.Named.{RunsOn, input_of};
ghost use Rattle.simulator.specs.Program.{Closes, EndsTask, LeavesUntouched, Sides, exit_status};
ghost use Rattle.simulator.specs.Recorded.{PrintsTrace, recorded_text, unforgotten};
ghost use Rattle.command_line.specs.Audits.{kept};
ghost use Rattle.simulator.specs.WorkedSides.{Names, Never, drained, no_options, no_task, only_check};
ghost use Rattle.simulator.specs.WorkedSides.{out_of_memory, ran, starts, unread, wrote};
ghost use Rattle.command_line.specs.declared.auditing.AuditFault.TheVariants as unlogged;
ghost use Rattle.command_line.specs.declared.fault.ScriptFault.TheVariants as script;
ghost use Rattle.command_line.specs.declared.options.Task.TheVariants as task;
ghost use Rattle.simulator.specs.declared.program.Done.{Done};
ghost use Rattle.simulator.specs.declared.program.Done.TheVariants as did;
ghost use Rattle.simulator.specs.declared.program.ProgramFault.{ProgramFault};
ghost use Rattle.simulator.specs.declared.program.ProgramFault.TheVariants as fault;
ghost use Rattle.command_line.specs.declared.verdict.Verdict.{Verdict};
ghost use Rattle.session.specs.Head.{IsHead};

use command_line::law::{first_part, one_log, one_output};

/// The input determines its trace, of which a part is written where memory runs out; and a plain output has the lines
/// that its trace has as printed.
pub fn one_trace()
    ensures { OneTrace }
{}

/// What is written is that of the words and of the input that was read, and of no other input.
pub fn one_program()
    ensures { OneProgram }
{
    first_part();
    one_log();
    one_output();
}

/// Outputs that a trace does not have.
pub fn worked_traces()
    // the line of a crossing, where the trace has its first line only
    ensures swallowed { (book : Bool) (opening trace : List ℕ) → PrintsTrace book starts trace (opening ∷ []) → ⊥ }

    // a trace without its first line
    ensures none { (book : Bool) (out trace : List ℕ) → PrintsTrace book out trace [] → ⊥ }

    // no line of an event that printed something, where the trace has one
    ensures left_out { (book : Bool) (opening trace : List ℕ) → PrintsTrace book (codes "end\n") trace (opening ∷ recorded_text unforgotten ∷ []) → ⊥ }

    // whatever the output: no line of the trace has swallowed another one
    ensures one_each { (book : Bool) (out opening trace : List ℕ) (lines : List (List ℕ)) (h : PrintsTrace book out trace (opening ∷ lines)) → length h.recorded ≡ length lines }
{}

/// Ends that the program does not have.
pub fn worked_programs()
    // memory ran out, and something is written of a log, of an audit, or of an input that is only read
    ensures log_memory { (x : ℕ) → Never task.Log (wrote (x ∷ [])) out_of_memory }
    ensures audit_memory { (x : ℕ) → Never task.Audit (wrote (x ∷ [])) (Err (fault.Audit unlogged.OutOfMemory)) }
    ensures check_memory { (x : ℕ) → EndsTask None (Some only_check) (wrote (x ∷ [])) out_of_memory → ⊥ }

    // an input that is only read, of which something else is written
    ensures not_ok { EndsTask None (Some only_check) (wrote (codes "end\n")) (Ok did.Written) → ⊥ }

    // a log and a trace that are not written, and an audit that leaves octets
    ensures no_log { Never task.Log (wrote []) (Ok did.Written) }
    ensures no_trace { Never task.Trace (wrote []) (Ok did.Written) }
    ensures left { (v : Verdict) (x : ℕ) → Never task.Audit (unread (x ∷ [])) (Ok (did.Audited v)) }

    // help that is not written, and words that ask for nothing taken for a replay
    ensures no_help { Never task.Help (wrote []) (Ok did.Written) }
    ensures not_refused { (s : Sides) → EndsTask None None s (Ok did.Written) → ⊥ }

    // a session of nothing, one that writes nothing, and a line without its empty line, as in a plain replay
    ensures no_input { Never task.Live (wrote (codes "end\n")) (Ok did.Written) }
    ensures no_session { Never task.Live (wrote []) (Ok did.Written) }
    ensures unanswered { (head document : List ℕ) → IsHead head document → Never task.Live (ran (head ++ codes "\n") (codes "end\n")) (Ok did.Written) }

    // something that is written before a topology is found to be bad
    ensures answered_first { (input : List ℕ) (x : ℕ) → Never task.Live (ran input (x ∷ [])) (Err (fault.Script script.BadTopology)) }

    // what was written is held back when memory runs out, and something is written before a bad line is found
    ensures held_back { Closes out_of_memory false false false ⊥ → ⊥ }
    ensures left_written { (line : ℕ) → LeavesUntouched (Err (fault.Script (script.BadLine line))) ⊥ → ⊥ }
{}

/// What words name as the input, and which are left for what is asked.
pub fn worked_names()
    // nothing is named, or `-`: standard input
    ensures standard { input_of (codes "--book" ∷ []) ≡ Some (codes "-") }
    ensures hyphen { Names (codes "--trace" ∷ codes "-" ∷ []) (codes "-") (codes "--trace" ∷ []) }

    // a file before the options, between them and after them
    ensures before { Names (codes "net" ∷ codes "--book" ∷ []) (codes "net") (codes "--book" ∷ []) }
    ensures between { Names (codes "--book" ∷ codes "a-b" ∷ codes "--texts" ∷ []) (codes "a-b") (codes "--book" ∷ codes "--texts" ∷ []) }
    ensures behind { Names (codes "--audit" ∷ codes "x" ∷ []) (codes "x") (codes "--audit" ∷ []) }

    // two names are none, whichever they are
    ensures two { input_of (codes "a" ∷ codes "--book" ∷ codes "b" ∷ []) ≡ None }
    ensures same { input_of (codes "a" ∷ codes "a" ∷ []) ≡ None }
    ensures both { input_of (codes "-" ∷ codes "a" ∷ []) ≡ None }

    // an empty word, one that begins with a hyphen, and two hyphens name nothing, and are refused as words
    ensures empty { Names ([] ∷ []) (codes "-") ([] ∷ []) }
    ensures short { Names (codes "-b" ∷ []) (codes "-") (codes "-b" ∷ []) }
    ensures hyphens { Names (codes "--" ∷ codes "a" ∷ []) (codes "a") (codes "--" ∷ []) }
{}

/// What is left of the input that words name, and what is written.
pub fn worked_inputs()
    // words that are refused leave it unread, and nothing is written of it, even where memory runs out
    ensures unread { (input before after : Option (List ℕ)) (failed flushed : Bool) (r : Result Done ProgramFault) (h : RunsOn input no_task before after failed flushed (Unit {0}) r) → h.left ≡ input }
    ensures unwritten { (input before after : Option (List ℕ)) (failed flushed : Bool) → RunsOn input no_task before after failed flushed ⊥ out_of_memory → ⊥ }

    // nothing is written before a topology is found to be bad
    ensures untouched { (input before after : Option (List ℕ)) (failed flushed : Bool) → RunsOn input (codes "--check" ∷ []) before after failed flushed ⊥ (Err (fault.Script script.BadTopology)) → ⊥ }
{}

/// Ends that report no failure, or a wrong one.
pub fn worked_failures()
    // a read and a write failed, and the program ends as if it were done; and none failed, and one is reported
    ensures unread { Closes (Ok did.Written) true false true ⊥ → ⊥ }
    ensures unwritten { Closes (Ok did.Written) false true true ⊥ → ⊥ }
    ensures no_read { Closes (Err (fault.Script script.CannotRead)) false false true (Unit {0}) → ⊥ }
    ensures no_write { Closes (Err (fault.Audit unlogged.CannotWrite)) false false true (Unit {0}) → ⊥ }

    // help after something was read, and a replay that prints nothing
    ensures reads_first { (x : ℕ) → Never task.Help (drained x) (Err (fault.Script script.CannotWrite)) }
    ensures no_output { EndsTask None (Some no_options) (wrote []) (Ok did.Written) → ⊥ }

    // options that were read are not refused
    ensures good_words { (s : Sides) → EndsTask None (Some no_options) s (Err (fault.Script script.BadOptions)) → ⊥ }
{}

/// Exit statuses.
pub fn worked_statuses()
    // of what was written, of a log that is kept, and of one in which anything is broken, be it how a life ends
    ensures written { exit_status (Ok did.Written) ≡ 0 }
    ensures kept { exit_status (Ok (did.Audited kept)) ≡ 0 }
    ensures safe { (n : ℕ) → exit_status (Ok (did.Audited (record kept { unsuited = Some n }))) ≡ 4 }
    ensures broken { (n : ℕ) → exit_status (Ok (did.Audited (record kept { stray = Some n }))) ≡ 4 }

    // of an audit's faults
    ensures no_log { (line : ℕ) → exit_status (Err (fault.Audit (unlogged.BadLog line))) ≡ 2 }
    ensures unread { exit_status (Err (fault.Audit unlogged.CannotRead)) ≡ 1 }
    ensures memory { exit_status (Err (fault.Audit unlogged.OutOfMemory)) ≡ 3 }
    ensures unwritten { exit_status (Err (fault.Audit unlogged.CannotWrite)) ≡ 3 }
{}
