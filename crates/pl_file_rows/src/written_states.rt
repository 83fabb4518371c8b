use crate::table::cells;
use pl_checkpoint::write;
use pl_state::{Entry, Snapshot};
use pl_value::Text;
use std::alloc::Global;
use std::test::Fail;

const STACK: &str = "urn:pulumi:dev::web::pulumi:pulumi:Stack::web-dev";

fn stack_row(alloc: Global, rest: &str) -> Result<Entry, Fail> {
    let urn = pl_urn::parse(alloc, STACK)?;
    let kind = Text::from_str(alloc, "pulumi:pulumi:Stack")?;
    let mut made = Entry::component(alloc, urn, kind, None)?;
    made.rest = Text::from_str(alloc, rest)?;
    Ok(made)
}

/// A state that keeps the text unread, in its entry too.
fn unread_state(alloc: Global, rest: &str) -> Result<Snapshot, Fail> {
    let mut state = Snapshot::new(alloc, Text::from_str(alloc, "a \"b\\\n")?)?;
    state.rest = Text::from_str(alloc, rest)?;
    state.entries.push(stack_row(alloc, rest)?)?;
    Ok(state)
}

fn is_written(alloc: Global, rest: &str, text: &str) -> Result<bool, Fail> {
    let state = unread_state(alloc, rest)?;
    let bytes = write(alloc, &state)?;
    Ok(bytes.as_slice() == text.as_bytes())
}

/// Texts that were kept unread, and the state that is written with them.
const WRITTEN: &str =
    r#"{} => {"checkpoint":{"latest":{"manifest":{},"pending_operations":[],"resources":[{"custom":false,"type":"pulumi:pulumi:Stack","urn":"urn:pulumi:dev::web::pulumi:pulumi:Stack::web-dev"}]},"stack":"a \"b\\\n"},"version":3}
{"a":true,"b":[1.5]} => {"checkpoint":{"latest":{"manifest":{},"pending_operations":[],"resources":[{"custom":false,"type":"pulumi:pulumi:Stack","urn":"urn:pulumi:dev::web::pulumi:pulumi:Stack::web-dev"}]},"stack":"a \"b\\\n"},"version":3}
[{"a":1}] => {"checkpoint":{"latest":{"manifest":{},"pending_operations":[],"resources":[{"custom":false,"type":"pulumi:pulumi:Stack","urn":"urn:pulumi:dev::web::pulumi:pulumi:Stack::web-dev"}]},"stack":"a \"b\\\n"},"version":3}
{"a": => {"checkpoint":{"latest":{"manifest":{},"pending_operations":[],"resources":[{"custom":false,"type":"pulumi:pulumi:Stack","urn":"urn:pulumi:dev::web::pulumi:pulumi:Stack::web-dev"}]},"stack":"a \"b\\\n"},"version":3}
{ "v" : [ {"y":{"n":-7},"x":0} ] } => {"checkpoint":{"latest":{"manifest":{},"pending_operations":[],"resources":[{"custom":false,"type":"pulumi:pulumi:Stack","urn":"urn:pulumi:dev::web::pulumi:pulumi:Stack::web-dev","v":[{"x":0,"y":{"n":-7}}]}],"v":[{"x":0,"y":{"n":-7}}]},"stack":"a \"b\\\n"},"version":3}
{"a":0,"manifest":{"magic":"m","time":"2024-05-01T10:00:00Z","version":"v3.115.0"},"n":1,"secrets_providers":{"type":"passphrase"}} => {"checkpoint":{"latest":{"a":0,"manifest":{"magic":"m","time":"2024-05-01T10:00:00Z","version":"v3.115.0"},"n":1,"pending_operations":[],"resources":[{"a":0,"custom":false,"manifest":{"magic":"m","time":"2024-05-01T10:00:00Z","version":"v3.115.0"},"n":1,"secrets_providers":{"type":"passphrase"},"type":"pulumi:pulumi:Stack","urn":"urn:pulumi:dev::web::pulumi:pulumi:Stack::web-dev"}],"secrets_providers":{"type":"passphrase"}},"stack":"a \"b\\\n"},"version":3}
{"Z":[-2,{}],"created":"2024-05-01T10:00:00Z","deletedWith":"x","pending_operations":7,"resources":null,"typf":null,"urn":"lost"} => {"checkpoint":{"latest":{"Z":[-2,{}],"created":"2024-05-01T10:00:00Z","deletedWith":"x","manifest":{},"pending_operations":[],"resources":[{"Z":[-2,{}],"created":"2024-05-01T10:00:00Z","custom":false,"deletedWith":"x","pending_operations":7,"resources":null,"type":"pulumi:pulumi:Stack","typf":null,"urn":"urn:pulumi:dev::web::pulumi:pulumi:Stack::web-dev"}],"typf":null,"urn":"lost"},"stack":"a \"b\\\n"},"version":3}"#;

fn is_line_written(alloc: Global, line: &str) -> Result<bool, Fail> {
    let (rest, text) = cells(line);
    is_written(alloc, rest, text)
}

#[test]
fn states_are_written(rt: HostRuntime) -> Result<(), Fail> {
    for line in WRITTEN.split('\n') {
        assert!(rt; is_line_written(rt.alloc(), line)?, "{line}");
    }
    Ok(())
}
