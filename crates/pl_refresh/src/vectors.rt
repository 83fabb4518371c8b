ghost use Rattle.std.specs.Prelude.{◌≡◌, [], ◌∷◌, codes, None, Some, true};
ghost use Rattle.pl_refresh.specs.Refreshed.{pruned, refreshed};
ghost use Rattle.pl_refresh.specs.Rows.{a_row, b_row, bare_b_row, base_rows, c_row, d_row, imported_a_row, lonely_b_row, one_output, provider_row, simple_b_row, stack_row, thing_row};

use crate::row_now::RowNow;

/// Cases of rows whose things were read.
pub fn refreshed_rows()
    ensures id { (refreshed a_row (codes "y") None []).id ≡ Some (codes "y") }
    ensures inputs_stay { (refreshed a_row (codes "y") None one_output).inputs ≡ [] }
    ensures inputs { (refreshed a_row (codes "y") (Some one_output) []).inputs ≡ one_output }
    ensures outputs { (refreshed a_row (codes "y") None one_output).outputs ≡ one_output }
    ensures parent { (refreshed a_row (codes "y") None []).parent ≡ Some (codes "S") }
{}

/// Cases of references that nothing meets: none is left, some are, the parent is the next one above, no row is
/// left before, and what a row is deleted with is there or gone.
pub fn pruned_rows()
    ensures unread { pruned base_rows [] [] ≡ base_rows }
    ensures gone { pruned base_rows (RowNow.AsItWas ∷ RowNow.AsItWas ∷ RowNow.Gone ∷ RowNow.Found b_row ∷ RowNow.Gone ∷ []) [] ≡ stack_row ∷ provider_row ∷ lonely_b_row ∷ [] }
    ensures simple { pruned (stack_row ∷ provider_row ∷ a_row ∷ simple_b_row ∷ c_row ∷ []) (RowNow.AsItWas ∷ RowNow.AsItWas ∷ RowNow.Gone ∷ RowNow.Found simple_b_row ∷ RowNow.Gone ∷ []) [] ≡ stack_row ∷ provider_row ∷ thing_row (codes "b") (codes "S") ∷ [] }
    ensures alone { pruned (b_row ∷ []) (RowNow.AsItWas ∷ []) [] ≡ bare_b_row ∷ [] }
    ensures deleter_there { pruned (stack_row ∷ provider_row ∷ a_row ∷ d_row ∷ []) [] [] ≡ stack_row ∷ provider_row ∷ a_row ∷ d_row ∷ [] }
    ensures deleter_gone { pruned (stack_row ∷ provider_row ∷ a_row ∷ d_row ∷ []) (RowNow.AsItWas ∷ RowNow.AsItWas ∷ RowNow.Gone ∷ []) [] ≡ stack_row ∷ provider_row ∷ record d_row { deleted_with = None } ∷ [] }
    ensures two_above { pruned base_rows (RowNow.AsItWas ∷ RowNow.AsItWas ∷ RowNow.Gone ∷ RowNow.Gone ∷ RowNow.AsItWas ∷ []) [] ≡ stack_row ∷ provider_row ∷ record c_row { parent = Some (codes "S") } ∷ [] }
{}

/// Cases of imported entries: the row of the same URN is to be deleted, and the parent of an imported entry
/// is found in the base.
pub fn imported_rows()
    ensures replaced { pruned (stack_row ∷ provider_row ∷ a_row ∷ []) [] (imported_a_row ∷ []) ≡ stack_row ∷ provider_row ∷ record a_row { doomed = true } ∷ record imported_a_row { parent = None } ∷ [] }
    ensures below { pruned base_rows (RowNow.AsItWas ∷ RowNow.AsItWas ∷ RowNow.Gone ∷ RowNow.Gone ∷ RowNow.Gone ∷ []) (imported_a_row ∷ []) ≡ stack_row ∷ provider_row ∷ record imported_a_row { parent = Some (codes "S") } ∷ [] }
{}
