ghost use Rattle.std.specs.Prelude.{◌≡◌, IfErr, IfOk, Some};
ghost use Rattle.pl_path.specs.Grammar.{bad_place, IsRefusedAt, segments_of};
ghost use Rattle.pl_path.specs.Written.{IsRefusalOf, IsWritten};

use crate::fault::PathFault;
use crate::reading::Reading;
use crate::segment::Path;
use std::alloc::Global;

/// Reads a path.
pub fn parse(alloc: Global, text: &str) -> Result<Path, PathFault>
    ensures read { IfOk result (λ path. segments_of text.now ≡ Some path) }
    ensures written { IfOk result (λ path. IsWritten path text.now) }
    ensures refused { IfErr result (IsRefusedAt (bad_place text.now)) }
    ensures place { IfErr result (IsRefusalOf text.now) }
{
    let bytes = text.as_bytes();
    let mut reading = Reading::new(alloc);
    for at in 0..bytes.len() {
        let place = reading.place;
        match reading.step(bytes[at])? {
            Some(after) => reading = after,
            None => return Err(PathFault::BadPath(place.refused_at(at as u64))),
        }
    }
    let place = reading.place;
    match reading.end()? {
        Some(path) => Ok(path),
        None => Err(PathFault::BadPath(place.refused_at(bytes.len() as u64))),
    }
}
