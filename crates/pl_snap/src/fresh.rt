ghost use Rattle.std.specs.Prelude.{◌≡◌, ◌<◌, ◌++◌, length, map, OnOk};
ghost use Rattle.pl_snap.specs.Calls.{with_put};
ghost use Rattle.pl_snap.specs.Lists.{changed_at};

use pl_state::{Entries, Entry};
use pl_value::{Fields, OutOfMemory};
use std::alloc::Global;

/// A recorded entry, with the number of its goal and its stamp.
#[derive(Debug, Drop)]
pub struct Fresh {
    pub goal: u64,
    pub stamp: u64,
    pub entry: Entry,
}

/// Puts other outputs into the entry at a place, with a new stamp; takes no memory.
pub fn put_at(fresh: &mut Vec<Fresh>, place: usize, stamp: u64, outputs: Fields)
    requires { place < length fresh.old.items }
    ensures { fresh.new.items ≡ changed_at (with_put stamp outputs) place fresh.old.items }
{
    let one = &mut fresh[place];
    one.stamp = stamp;
    one.entry.outputs = outputs;
}

/// Adds copies of recorded entries to others.
pub fn copy_fresh(alloc: Global, fresh: &[Fresh], into: &mut Entries) -> Result<(), OutOfMemory>
    ensures { OnOk result (into.new ≡ into.old ++ map (λ one. one.entry) fresh.now) }
{
    for one in fresh {
        let entry = one.entry.copy(alloc)?;
        into.push(entry)?;
    }
    Ok(())
}
