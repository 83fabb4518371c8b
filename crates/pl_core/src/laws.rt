ghost use Rattle.pl_course.specs.Laws.{Laws};

use pl_model_step::{plain_reads_same, summary_steps, summary_tells};

/// The laws of the model that the core stands on. They are proved, and nothing is done.
pub fn model_laws()
    ensures { Laws }
{
    summary_steps();
    summary_tells();
    plain_reads_same();
}
