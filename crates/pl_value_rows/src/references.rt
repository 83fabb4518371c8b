use pl_reference::read_ref;
use std::alloc::Global;
use std::test::Fail;

fn shown_reference(alloc: Global, text: &str) -> Result<String, Fail> {
    match read_ref(alloc, text) {
        Ok(made) => {
            let (urn, id) = (made.urn.as_str(), made.id.as_str());
            Ok(format!(in alloc; "{urn} {id}")?)
        }
        Err(fault) => Ok(format!(in alloc; "{fault}")?),
    }
}

#[test]
fn references_are_read(rt: HostRuntime) -> Result<(), Fail> {
    let none = "no provider reference";
    for (text, want) in [
        (
            "urn:pulumi:dev::web::pulumi:providers:aws::east::id-7",
            "urn:pulumi:dev::web::pulumi:providers:aws::east id-7",
        ),
        (
            "urn:pulumi:dev::web::pulumi:providers:aws::a::b::7",
            "urn:pulumi:dev::web::pulumi:providers:aws::a::b 7",
        ),
        (
            "urn:pulumi:dev::web::my:i:Site$pulumi:providers:aws::a:::7",
            "urn:pulumi:dev::web::my:i:Site$pulumi:providers:aws::a: 7",
        ),
        ("", none),
        ("urn:pulumi:dev::web::pulumi:providers:aws::east", none),
        ("urn:pulumi:dev::web::pulumi:providers:aws::east::", none),
        ("urn:pulumi:dev::web::aws:s3:Bucket::b::7", none),
        (
            "urn:pulumi:dev::web::pulumi:providers:aws$aws:s3:Bucket::b::7",
            none,
        ),
    ] {
        assert!(rt;
            shown_reference(rt.alloc(), text)?.as_str() == want,
            "at {text}"
        );
    }
    Ok(())
}
