ghost use Rattle.std.specs.Prelude.{◌≡◌, ◌<◌, ℕ, IfOk, IfSome, length, option_map, replicate, slice_get, true};
ghost use Rattle.pl_claims.specs.Marks as spec;
ghost use Rattle.pl_lemmas.specs.Words.{has_number};

use pl_value::OutOfMemory;
use std::alloc::Global;

/// What the goals that are decided do with a row of the state at the start.
#[derive(Clone, Copy, Debug)]
pub struct Mark {
    /// The goal that claims the row.
    pub claimer: Option<u64>,
    /// The first goal that has the row in its chain.
    pub chained: Option<u64>,
    /// Whether a goal that claims the row has it deleted first.
    pub deleted_first: bool,
}

/// The marks of so many rows, of which no goal wants one.
pub fn no_marks(alloc: Global, count: usize) -> Result<Vec<Mark>, OutOfMemory>
    ensures { IfOk result (λ marks. marks.items ≡ replicate count spec.no_mark) }
{
    let mut marks = Vec::new(alloc);
    for _ in 0..count {
        marks.push(Mark {
            claimer: None,
            chained: None,
            deleted_first: false,
        })?;
    }
    Ok(marks)
}

/// Marks the row of a claim, if there is one, with the goal that claims it.
pub fn mark_claim(marks: &mut [Mark], claim: Option<u64>, goal: u64, first: bool)
    requires { IfSome claim (λ row. row < length marks.old) }
    ensures { (row : ℕ) → slice_get marks.new row ≡ option_map (spec.claimed_by goal claim first row) (slice_get marks.old row) }
{
    if let Some(row) = claim {
        let mark = &mut marks[row as usize];
        mark.claimer = Some(goal);
        mark.deleted_first = first || mark.deleted_first;
    }
}

/// Marks the rows of a goal's chain.
pub fn mark_chain(marks: &mut [Mark], chain: &[u64], goal: u64)
    requires { (row : ℕ) → has_number chain.now row ≡ true → row < length marks.old }
    ensures { (row : ℕ) → slice_get marks.new row ≡ option_map (spec.chained_by goal chain.now row) (slice_get marks.old row) }
{
    for row in chain {
        mark_row(marks, *row, goal);
    }
}

fn mark_row(marks: &mut [Mark], at: u64, goal: u64)
    requires { at < length marks.old }
    ensures { (row : ℕ) → slice_get marks.new row ≡ option_map (spec.joined_by goal at row) (slice_get marks.old row) }
{
    let mark = &mut marks[at as usize];
    if mark.chained.is_none() {
        mark.chained = Some(goal);
    }
}

/// Takes the mark of a claim back, if there is one.
pub fn free_claim(marks: &mut [Mark], claim: Option<u64>)
    requires { IfSome claim (λ row. row < length marks.old) }
    ensures { (row : ℕ) → slice_get marks.new row ≡ option_map (spec.freed_of claim row) (slice_get marks.old row) }
{
    if let Some(row) = claim {
        let mark = &mut marks[row as usize];
        mark.claimer = None;
        mark.deleted_first = false;
    }
}

/// Takes the marks of a goal's chain back, where it is the first that has the row.
pub fn free_chain(marks: &mut [Mark], chain: &[u64], goal: u64)
    requires { (row : ℕ) → has_number chain.now row ≡ true → row < length marks.old }
    ensures { (row : ℕ) → slice_get marks.new row ≡ option_map (spec.unchained_by goal chain.now row) (slice_get marks.old row) }
{
    for row in chain {
        free_row(marks, *row, goal);
    }
}

fn free_row(marks: &mut [Mark], at: u64, goal: u64)
    requires { at < length marks.old }
    ensures { (row : ℕ) → slice_get marks.new row ≡ option_map (spec.left_by goal at row) (slice_get marks.old row) }
{
    let mark = &mut marks[at as usize];
    mark.chained = unmarked(mark.chained, goal);
}

/// The goal that a row is marked with, unless it is this one.
fn unmarked(marked: Option<u64>, goal: u64) -> Option<u64>
    ensures { result ≡ spec.unmarked marked goal }
{
    match marked {
        None => None,
        Some(own) => { if own == goal { None } else { Some(own) } }
    }
}
