use pl_events::{Call, Exchanged, Loss, Reply};
use pl_wire::exchange;
use pl_world::{MemPipe, MemStore, PipeScript, Store};
use std::alloc::{AllocError, Global};
use std::test::Fail;

const REQUEST: &[u8; 4] = b"{ask";

/// What came of the exchange, in words.
fn told(alloc: Global, exchanged: &Exchanged) -> Result<String, AllocError> {
    match exchanged {
        Exchanged::Reply(Reply::Removed) => String::from_str(alloc, "removed"),
        Exchanged::Reply(_) => String::from_str(alloc, "another reply"),
        Exchanged::Lost(Loss::PipeFault) => String::from_str(alloc, "fault"),
        Exchanged::Lost(Loss::Ended) => String::from_str(alloc, "ended"),
        Exchanged::Lost(Loss::BadFrame(bytes)) => format!(in alloc; "bad {:?}", bytes.as_slice()),
        Exchanged::Lost(Loss::NoMemory) => Err(AllocError),
    }
}

/// What comes of a deletion under the ticket 7 over a pipe with this input, and how many bytes were given and taken.
fn deleted(alloc: Global, input: &[u8], chunks: &[usize], fails: &[u64]) -> Result<String, Fail> {
    let script = PipeScript {
        input: input.to_vec(alloc)?,
        chunks: chunks.to_vec(alloc)?,
        fails: fails.to_vec(alloc)?,
    };
    let mut pipe = MemPipe::new(alloc, script);
    let exchanged = exchange(alloc, &mut pipe, None, 7, Call::Delete, REQUEST);
    let told = told(alloc, &exchanged)?;
    let given = pipe.given_bytes(alloc)?;
    let taken = pipe.taken();
    Ok(format!(in alloc; "{told}, {} given, {} taken", given.len(), taken.len())?)
}

#[test]
fn exchanges_end_by_a_reply_or_a_loss(rt: HostRuntime) -> Result<(), Fail> {
    let alloc = rt.alloc();
    let cases: [(&[u8], &[usize], &[u64], &str); 12] = [
        (
            b"\0\0\0\x0e{\"n\":7,\"ok\":{}}",
            &[],
            &[],
            "bad [123, 34, 110, 34, 58, 55, 44, 34, 111, 107, 34, 58, 123, 125], 8 given, 18 taken",
        ),
        (
            b"\0\0\0\x0f{\"n\":7,\"ok\":{}}..",
            &[],
            &[],
            "removed, 8 given, 19 taken",
        ),
        (
            b"\0\0\0\x0f{\"n\":7,\"ok\":{}}",
            &[1],
            &[],
            "removed, 8 given, 19 taken",
        ),
        (
            b"\0\0\0\x02{}",
            &[3],
            &[],
            "bad [123, 125], 8 given, 6 taken",
        ),
        (
            b"\0\0\0\0{}",
            &[],
            &[],
            "bad [0, 0, 0, 0], 8 given, 4 taken",
        ),
        (
            b"\0@\0\x01{}",
            &[],
            &[],
            "bad [0, 64, 0, 1], 8 given, 4 taken",
        ),
        (b"", &[], &[], "ended, 8 given, 0 taken"),
        (b"\0\0\0\x02{", &[], &[], "ended, 8 given, 5 taken"),
        (b"\0\0\0\x02{}", &[], &[0], "fault, 0 given, 0 taken"),
        (b"\0\0\0\x02{}", &[3], &[2], "fault, 4 given, 0 taken"),
        (b"\0\0\0\x02{}", &[], &[2], "fault, 8 given, 0 taken"),
        (b"\0\0\0\x02{}", &[], &[3], "fault, 8 given, 4 taken"),
    ];
    for (input, chunks, fails, want) in cases {
        let found = deleted(alloc, input, chunks, fails)?;
        assert!(rt; found.as_str() == want, "{found}");
    }
    Ok(())
}

/// Whether each piece of a request that is given with a cover has the cover.
fn is_covered(alloc: Global) -> Result<bool, Fail> {
    let mut store = MemStore::new(Vec::new(alloc), Vec::new(alloc), Vec::new(alloc));
    let cover = store.replace(alloc, b"text")?;
    let mut pipe = MemPipe::new(alloc, PipeScript::empty(alloc));
    let exchanged = exchange(alloc, &mut pipe, Some(&cover), 7, Call::Create, REQUEST);
    let ended = matches!(exchanged, Exchanged::Lost(Loss::Ended));
    Ok(ended && pipe.given().iter().all(|piece| piece.1.is_some()))
}

#[test]
fn pieces_have_the_cover(rt: HostRuntime) -> Result<(), Fail> {
    assert!(rt; is_covered(rt.alloc())?);
    Ok(())
}
