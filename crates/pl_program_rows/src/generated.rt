use crate::talks::add_frame;
use pl_program::generate;
use std::alloc::Global;
use std::test::Fail;

/// The bodies of the frames that are made from the seed 1, with four things.
const FRAMES: &str =
    r#"{"call":"register","custom":false,"n":1,"name":"trial-trial","type":"pulumi:pulumi:Stack"}
{"call":"register","custom":true,"inputs":{"k":0},"n":2,"name":"r0","parent":"urn:pulumi:trial::trial::pulumi:pulumi:Stack::trial-trial","type":"toy:index:Thing"}
{"call":"register","custom":true,"dependencies":["urn:pulumi:trial::trial::toy:index:Thing::r0"],"inputs":{"k":1},"n":3,"name":"r1","parent":"urn:pulumi:trial::trial::pulumi:pulumi:Stack::trial-trial","type":"toy:index:Thing"}
{"call":"register","custom":true,"dependencies":["urn:pulumi:trial::trial::toy:index:Thing::r1"],"inputs":{"k":2},"n":4,"name":"r2","parent":"urn:pulumi:trial::trial::pulumi:pulumi:Stack::trial-trial","type":"toy:index:Thing"}
{"call":"register","custom":true,"dependencies":["urn:pulumi:trial::trial::toy:index:Thing::r0"],"inputs":{"k":3},"n":5,"name":"r3","parent":"urn:pulumi:trial::trial::pulumi:pulumi:Stack::trial-trial","type":"toy:index:Thing"}
{"call":"done"}"#;

fn is_generated(alloc: Global) -> Result<bool, Fail> {
    let mut want = Vec::new(alloc);
    for line in FRAMES.split('\n') {
        add_frame(&mut want, line)?;
    }
    let made = generate(alloc, 1, 4)?;
    Ok(made.as_slice() == want.as_slice())
}

#[test]
fn frames_are_generated(rt: HostRuntime) -> Result<(), Fail> {
    assert!(rt; is_generated(rt.alloc())?);
    Ok(())
}
