//! What a run came to.
ghost use Rattle.std.specs.Prelude.{◌≡◌, ◌*◌, ◌≤◌, ◌<◌, Some, IfOk};
ghost use Rattle.pl_desk_speed.specs.Printed.{report_text};

use crate::asked::Asked;
use crate::held::mutex_total;
use crate::kind::Kind;
use crate::locked::lock_total;
use pl_desk::OutOfMemory;
use std::alloc::Global;
use std::fmt;
use std::sync::Wait;
use std::thread::Threads;

#[derive(Clone, Copy)]
pub struct Report {
    pub asked: Asked,
    pub total: u64,
}

impl fmt::Display for Report {
    ghost output = { λ report. Some (report_text report) };

    fn fmt<W: fmt::Write>(&self, f: &mut fmt::Formatter<W>) -> fmt::Result {
        let Asked {
            kind,
            threads,
            turns,
        } = self.asked;
        write!(f, "{} {threads} {turns}: {}", kind.name(), self.total)
    }
}

/// The threads take their turns.
pub fn run<R: Threads + Wait + Sync>(
    rt: &R,
    alloc: Global,
    asked: Asked,
) -> Result<Report, OutOfMemory>
    requires threads { (0 < asked.threads) × (asked.threads ≤ 1000) }
    ensures asked { IfOk result (λ report. report.asked ≡ asked) }
    ensures total { IfOk result (λ report. report.asked.kind ≡ Kind.Lock → report.total ≤ report.asked.threads * report.asked.turns) }
{
    let total = match asked.kind {
        Kind::Lock => lock_total(rt, alloc, asked.threads, asked.turns)?,
        Kind::Mutex => mutex_total(rt, asked.threads, asked.turns),
    };
    Ok(Report { asked, total })
}
