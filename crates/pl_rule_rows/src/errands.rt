use pl_errands::Errands;
use pl_events::{Op, Reply, Source, Subject};
use pl_value::OutOfMemory;
use std::test::Fail;

fn begun(errands: &mut Errands, op: Op) -> Result<u64, OutOfMemory> {
    errands.begin(0, 0, op)
}

fn answered(errands: &mut Errands, ticket: u64, reply: Reply) {
    if errands.is_open(ticket) {
        errands.answer(ticket, reply);
    }
}

#[test]
fn operations_are_begun_and_answered(rt: HostRuntime) -> Result<(), Fail> {
    let mut errands = Errands::new(rt.alloc());
    let check = begun(&mut errands, Op::CheckConfig(Subject::Goal(0)))?;
    answered(&mut errands, check, Reply::Gone);
    let configure = begun(&mut errands, Op::Configure(Source::Goal(0)))?;
    assert!(rt; check == 0 && configure == 1 && errands.open_count() == 1);
    answered(&mut errands, configure, Reply::Configured);
    assert!(rt; errands.lane_free(Source::Goal(0)) == Some(0));
    Ok(())
}
