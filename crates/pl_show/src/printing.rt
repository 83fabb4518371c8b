ghost use Rattle.std.specs.Prelude.{◌≤◌, OnErr, OnOk};
ghost use Rattle.pl_world.specs.Counts.{Rose};
ghost use Rattle.pl_world.specs.Told.{Grew, GrewByPart};
ghost use Rattle.pl_world.specs.Causes.{OnFailed};

use pl_world::{Sink, Trouble};
use std::alloc::Global;

/// Writes all of the bytes, however the sink cuts them. After an error some first ones may have gone out.
pub fn print<W: Sink>(alloc: Global, sink: &mut W, bytes: &[u8]) -> Result<(), Trouble>
    ensures written { OnOk result (Grew (W.written sink.old) (W.written sink.new) bytes.now) }
    ensures part_written { OnErr result (GrewByPart (W.written sink.old) (W.written sink.new) bytes.now) }
    ensures failed_rose { OnFailed result (Rose (W.faults sink.old) (W.faults sink.new)) }
    ensures faults_never_fall { W.faults sink.old ≤ W.faults sink.new }
{
    let mut sent: usize = 0;
    while sent < bytes.len() {
        let count = sink.write(alloc, &bytes[sent..])?;
        sent += count as usize;
    }
    Ok(())
}
