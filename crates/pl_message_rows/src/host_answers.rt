use pl_events::Answer;
use pl_host_msg::answer_bytes;
use pl_value::{Fields, Text, Value, may_stand_under};
use std::alloc::Global;
use std::test::Fail;

fn is_written(alloc: Global, n: u64, answer: Answer, text: &str) -> Result<bool, Fail> {
    let bytes = answer_bytes(alloc, n, &answer)?;
    Ok(bytes.as_slice() == text.as_bytes())
}

/// The fields with the key `k`, whose value is true.
fn one_field(alloc: Global) -> Result<Fields, Fail> {
    let mut fields = Fields::new(alloc);
    let value = Value::Flag(true);
    if value.is_value() && fields.is_below("k") && may_stand_under("k", &value) {
        fields.push(Text::from_str(alloc, "k")?, value)?;
    }
    Ok(fields)
}

fn component_is_written(alloc: Global, n: u64, urn: &str, text: &str) -> Result<bool, Fail> {
    let answer = Answer::Registered {
        urn: pl_urn::parse(alloc, urn)?,
        id: None,
        outputs: Fields::new(alloc),
    };
    is_written(alloc, n, answer, text)
}

fn thing_is_written(alloc: Global, urn: &str, text: &str) -> Result<bool, Fail> {
    let answer = Answer::Registered {
        urn: pl_urn::parse(alloc, urn)?,
        id: Some(Text::from_str(alloc, "a-1")?),
        outputs: one_field(alloc)?,
    };
    is_written(alloc, 3, answer, text)
}

fn result_is_written(alloc: Global, text: &str) -> Result<bool, Fail> {
    let answer = Answer::Result(one_field(alloc)?);
    is_written(alloc, 5, answer, text)
}

#[test]
fn writes_that_a_request_is_registered(rt: HostRuntime) -> Result<(), Fail> {
    for (n, urn, text) in [
        (
            1,
            "urn:pulumi:dev::web::pulumi:pulumi:Stack::web-dev",
            "{\"n\":1,\"ok\":{\"outputs\":{},\"urn\":\"urn:pulumi:dev::web::pulumi:pulumi:Stack::web-dev\"}}",
        ),
        (
            2,
            "urn:pulumi:dev::web::my:index:Site::s",
            "{\"n\":2,\"ok\":{\"outputs\":{},\"urn\":\"urn:pulumi:dev::web::my:index:Site::s\"}}",
        ),
    ] {
        assert!(rt; component_is_written(rt.alloc(), n, urn, text)?, "{n}");
    }
    Ok(())
}

#[test]
fn writes_results(rt: HostRuntime) -> Result<(), Fail> {
    let alloc = rt.alloc();
    let thing =
        "{\"n\":3,\"ok\":{\"id\":\"a-1\",\"outputs\":{\"k\":true},\"urn\":\"urn:pulumi:dev::web::my:index:Thing::a\"}}";
    assert!(rt; thing_is_written(alloc, "urn:pulumi:dev::web::my:index:Thing::a", thing)?);
    assert!(rt; is_written(alloc, 4, Answer::Noted, "{\"n\":4,\"ok\":{}}")?);
    assert!(rt; result_is_written(alloc, "{\"n\":5,\"ok\":{\"result\":{\"k\":true}}}")?);
    Ok(())
}
