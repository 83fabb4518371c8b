ghost use Rattle.std.specs.Prelude.{◌≡◌, ◌+◌, ◌-◌, IfOk, OnErr, OnOk, drop, is_some, length};
ghost use Rattle.std.specs.List.{cons_option};
ghost use Rattle.pl_turns.specs.Next.{Extends, all_settled, next_decided};

use crate::next::decided_next;
use pl_claims::Claims;
use pl_errands::Errands;
use pl_requests::Requests;
use pl_value::OutOfMemory;
use std::alloc::Global;

/// Decides the goals in their order as far as the replies reach, and tells how many were decided. After `OutOfMemory`
/// none of them is.
pub fn settle(
    alloc: Global,
    claims: &mut Claims,
    requests: &Requests,
    errands: &Errands,
) -> Result<u64, OutOfMemory>
    ensures decided { OnOk result (claims.new.decided ≡ all_settled requests.now errands.now claims.old) }
    ensures more { OnOk result (Extends claims.old.decided claims.new.decided) }
    ensures count { IfOk result (λ count. length claims.new.decided ≡ length claims.old.decided + count) }
    ensures run { claims.new.run ≡ claims.old.run }
    ensures unchanged { OnErr result (claims.new.decided ≡ claims.old.decided) }
{
    let before = claims.count();
    match decide_all(alloc, claims, requests, errands) {
        Ok(()) => Ok(claims.count() - before),
        Err(fault) => {
            take_back(claims, before);
            Err(fault)
        }
    }
}

/// Decides the goals in their order as far as the replies and the memory reach.
fn decide_all(
    alloc: Global,
    claims: &mut Claims,
    requests: &Requests,
    errands: &Errands,
) -> Result<(), OutOfMemory>
    ensures decided { OnOk result (claims.new.decided ≡ all_settled requests.now errands.now claims.old) }
    ensures more { Extends claims.old.decided claims.new.decided }
    ensures run { claims.new.run ≡ claims.old.run }
{
    while decide_next(alloc, claims, requests, errands)? {}
    Ok(())
}

/// Decides the next goal, if that can be, and tells whether it was.
fn decide_next(
    alloc: Global,
    claims: &mut Claims,
    requests: &Requests,
    errands: &Errands,
) -> Result<bool, OutOfMemory>
    ensures decided { OnOk result (claims.new.decided ≡ cons_option (next_decided requests.now errands.now claims.old) claims.old.decided) }
    ensures more { IfOk result (λ more. more ≡ is_some (next_decided requests.now errands.now claims.old)) }
    ensures run { claims.new.run ≡ claims.old.run }
    ensures unchanged { OnErr result (claims.new.decided ≡ claims.old.decided) }
{
    match decided_next(alloc, requests, errands, claims)? {
        None => Ok(false),
        Some(one) => {
            claims.prepare(1)?;
            claims.decide_prepared(one.decided, one.chain);
            Ok(true)
        }
    }
}

/// Takes the newest decisions back, until there are so many; takes no memory.
pub fn take_back(claims: &mut Claims, count: u64)
    ensures decided { claims.new.decided ≡ drop (length claims.old.decided - count) claims.old.decided }
    ensures run { claims.new.run ≡ claims.old.run }
{
    while claims.count() > count {
        claims.retract();
    }
}
