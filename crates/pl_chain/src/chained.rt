ghost use Rattle.std.specs.Prelude.{◌≡◌, IfErr, IfOk, None, OnOk};
ghost use Rattle.pl_state.specs.Chain.{chain_of};
ghost use Rattle.pl_chain.specs.Claimed.{protected_of, TellsProtected};

use crate::claimed::{first_protected, set_of};
use crate::fault::ChainFault;
use crate::referring::refers_into;
use pl_sound::Seen;
use pl_state::{Entries, Entry};
use pl_value::{OutOfMemory, Rows};
use std::alloc::Global;

/// The rows that refer to the row at a place, directly or through others, rising. A row refers to rows before it
/// alone, and where two rows have one URN to both. It is refused by the first row of the chain that is protected and
/// goes along: one that is to be deleted, or that no goal claims. Its time grows with the number of rows and
/// references, times its logarithm.
pub fn chain(alloc: Global, entries: &Entries, claimed: &Rows, at: u64) -> Result<Rows, ChainFault>
    ensures listed { IfOk result (λ rows. rows ≡ chain_of entries.now at) }
    ensures unprotected { OnOk result (protected_of entries.now claimed.now at ≡ None) }
    ensures refused { IfErr result (TellsProtected entries.now claimed.now at) }
{
    let rows = chained(alloc, entries.as_slice(), at)?;
    let claimed = set_of(alloc, claimed)?;
    match first_protected(entries.as_slice(), &claimed, rows.as_slice()) {
        None => Ok(rows),
        Some(row) => {
            let urn = row.urn.copy()?;
            Err(ChainFault::Protected(urn))
        }
    }
}

fn chained(alloc: Global, rows: &[Entry], at: u64) -> Result<Rows, OutOfMemory>
    ensures { IfOk result (λ chain. chain ≡ chain_of rows.now at) }
{
    let mut seen = Seen::new(alloc);
    let mut chain = Rows::new(alloc);
    for (place, row) in rows.iter().enumerate() {
        let place = place as u64;
        if refers_into(&seen, row) {
            seen.add(row)?;
            chain.push(place)?;
        } else if place == at {
            seen.add(row)?;
        }
    }
    Ok(chain)
}
