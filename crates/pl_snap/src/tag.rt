ghost use Rattle.std.specs.Prelude.{◌≡◌, ◌+◌, ◌<◌, ◌^◌, IfOk, position, true};
ghost use Rattle.pl_snap.specs.Rows.{first_tags, has_number, rise_from};

use pl_value::OutOfMemory;
use std::alloc::Global;

/// What is kept of a row or of a pending operation beside it.
#[derive(Clone, Copy, Debug)]
pub struct Tag {
    /// The place in the state at the start, or the ticket.
    pub number: u64,
    pub stamp: u64,
}

/// So many tags, numbered from 0 and stamped from a stamp on.
pub fn new_tags(alloc: Global, count: u64, first: u64) -> Result<Vec<Tag>, OutOfMemory>
    requires { first + count < 2 ^ 64 }
    ensures { IfOk result (λ tags. tags.items ≡ first_tags first count) }
{
    let mut tags = Vec::new(alloc);
    for number in 0..count {
        let stamp = first + number;
        tags.push(Tag { number, stamp })?;
    }
    Ok(tags)
}

/// The place of the tag with this number among tags whose numbers rise, in a time that grows with the logarithm of
/// their count.
pub fn place_of(tags: &[Tag], number: u64) -> Option<usize>
    requires { rise_from 0 tags.now ≡ true }
    ensures { result ≡ position (has_number number) tags.now }
{
    tags.binary_search_by_key(&number, |tag| tag.number).ok()
}
