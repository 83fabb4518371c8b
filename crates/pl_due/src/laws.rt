ghost use Rattle.pl_due.specs.Now.{DueTold};
ghost use Rattle.pl_due.specs.Summed.{ColumnsKnow, ColumnsTell};

use pl_model_step::{plain_reads_same, summary_knows_same, summary_tells};

/// The law that what is due after a history that is told is what the tests say by which it is found. It is proved and
/// does nothing, as those below.
pub fn due_told()
    ensures { DueTold }
{}

/// The law that what is known after a history is what the columns of its summary tell over it.
pub fn columns_know()
    ensures { ColumnsKnow }
{}

/// The law that the columns of its summary tell a history, where the count is that of its state.
pub fn columns_tell()
    ensures { ColumnsTell }
{
    plain_reads_same();
    summary_knows_same();
    summary_tells();
}
