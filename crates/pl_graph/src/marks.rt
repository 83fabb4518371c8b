ghost use Rattle.std.specs.Prelude.{◌≡◌, ◌==◌, ◌||◌, find, nat_le, slice_index_or, Bool, false};
ghost use Rattle.std.specs.List.{list_any};

// The first target that isn't before the row.
pub fn first_not_before(targets: &[u64], row: u64) -> Option<u64>
    ensures { result ≡ find (λ target. nat_le row target) targets.now }
{
    targets.iter().copied().find(|target| *target >= row)
}

// Whether a row that has these targets joins the closure of `row`: one of them is that row, or is marked.
pub fn joins(targets: &[u64], row: u64, marks: &[bool]) -> bool
    ensures { result ≡ list_any (λ target. target == row || slice_index_or marks.now target false) targets.now }
{
    targets.iter().any(|target| *target == row
        || marks.get(*target as usize).copied().unwrap_or(false))
}
