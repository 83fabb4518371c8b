ghost use Rattle.std.specs.Prelude.{ℕ, Bool, List, Option};
ghost use Rattle.pl_value.specs.declared.value.Value.{Value};
ghost use Rattle.pl_state.specs.declared.entry.Entry.{Entry};
ghost use Rattle.pl_state.specs.declared.pending.Pending.{Pending};
ghost use Rattle.pl_snap.specs.Calls as spec;
ghost use Rattle.pl_snap.specs.Model.{Merged};
ghost use Rattle.pl_snap.specs.Stamps.{Follows};

/// What the stamps tell over each call of a `Snap`: whatever has a stamp that was given before the call is what had it
/// before, and whatever is new or changed has a later one.
pub fn stamps_tell()
    ensures record_entry { (goal : ℕ) (entry : Entry) (claim : Option ℕ) (marked : Bool) (merged : Merged) → Follows merged (spec.with_entry goal entry claim marked merged) }
    ensures put_outputs { (goal : ℕ) (outputs : List (List ℕ × Value)) (merged : Merged) → Follows merged (spec.with_outputs goal outputs merged) }
    ensures retire { (row : ℕ) (merged : Merged) → Follows merged (spec.without_row row merged) }
    ensures mark_replaced { (row : ℕ) (merged : Merged) → Follows merged (spec.with_replaced row merged) }
    ensures set_rows { (entries : List Entry) (merged : Merged) → Follows merged (spec.with_rows entries merged) }
    ensures clear_base { (at : ℕ) (merged : Merged) → Follows merged (spec.without_pending at merged) }
    ensures open_pending { (ticket : ℕ) (pending : Pending) (merged : Merged) → Follows merged (spec.with_opened ticket pending merged) }
    ensures close_pending { (ticket : ℕ) (merged : Merged) → Follows merged (spec.without_opened ticket merged) }
{}
