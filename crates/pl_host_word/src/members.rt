ghost use Rattle.std.specs.Prelude.{◌≡◌, OnOk, codes};
ghost use Rattle.serde_json.specs.View.{members_view};
ghost use Rattle.pl_json.specs.Objects.{put_if_some};
ghost use Rattle.pl_members.specs.Spelled.{number_data};
ghost use Rattle.pl_host_word.specs.Spelled.{call_data};

use crate::calls::{HostCall, call_word};
use pl_members::{Members, put_text};
use pl_value::OutOfMemory;
use serde_json::{Value, put};
use std::alloc::Global;

/// Puts the word of the call.
pub(crate) fn put_call(
    alloc: Global,
    members: &mut Members,
    call: HostCall,
) -> Result<(), OutOfMemory>
    ensures { OnOk result (members_view members.new.entries
        ≡ put_if_some (codes "call") (call_data call) (members_view members.old.entries)) }
{
    put_text(alloc, members, "call", call_word(call))
}

/// Puts the number of a request.
pub(crate) fn put_number(alloc: Global, members: &mut Members, n: u64) -> Result<(), OutOfMemory>
    ensures { OnOk result (members_view members.new.entries
        ≡ put_if_some (codes "n") (number_data n) (members_view members.old.entries)) }
{
    put(members, alloc, "n", Value::from(n))?;
    Ok(())
}
