use pl_value::{Bytes, OutOfMemory, Text, Words};
use pl_world::{
    CountIds, FreeGate, Gate, Ids, MAX_BODY, MemCover, MemPipe, MemSink, MemSpawner, MemStore,
    Pipe, PipeScript, Place, Sink, Spawner, Store, Trouble, read_frame, write_frame,
};
use std::alloc::{AllocError, Global};
use std::test::Fail;

const DONE: [u8; 15] = *b"{\"call\":\"done\"}";

fn script(
    alloc: Global,
    input: &[u8],
    chunks: &[usize],
    fails: &[u64],
) -> Result<PipeScript, AllocError> {
    Ok(PipeScript {
        input: input.to_vec(alloc)?,
        chunks: chunks.to_vec(alloc)?,
        fails: fails.to_vec(alloc)?,
    })
}

// What is read of a pipe with this input, in the form of `{:?}`.
fn answer_of(
    alloc: Global,
    input: &[u8],
    chunks: &[usize],
    fails: &[u64],
) -> Result<String, AllocError> {
    let mut pipe = MemPipe::new(alloc, script(alloc, input, chunks, fails)?);
    let answer = read_frame(alloc, &mut pipe);
    format!(in alloc; "{answer:?} faults {} ends {}", pipe.faults(), pipe.ends())
}

// The frame of a body, as it is written through a pipe that cuts writes at this size.
fn frame(alloc: Global, body: &[u8], chunk: usize) -> Result<Bytes, Fail> {
    let mut pipe = MemPipe::new(alloc, script(alloc, &[], &[chunk], &[])?);
    if !body.is_empty() && body.len() <= MAX_BODY {
        write_frame(alloc, &mut pipe, None, body)?;
    }
    Ok(pipe.given_bytes(alloc)?)
}

fn zeros(alloc: Global, count: usize) -> Result<Vec<u8>, AllocError> {
    vec![in alloc; 0u8; count]
}

// How long the body of the longest frame is, as it is read by chunks of this size.
fn longest_body(alloc: Global, chunk: usize) -> Result<usize, Fail> {
    let mut input = [0u8, 64, 0, 0].to_vec(alloc)?;
    input.extend_from_slice(&zeros(alloc, MAX_BODY)?)?;
    let script = PipeScript {
        input,
        chunks: vec![in alloc; chunk]?,
        fails: Vec::new(alloc),
    };
    let mut pipe = MemPipe::new(alloc, script);
    let body = read_frame(alloc, &mut pipe)?;
    Ok(body.len() + pipe.left().len())
}

#[test]
fn frame_lengths(rt: HostRuntime) -> Result<(), Fail> {
    let alloc = rt.alloc();
    for (input, wanted) in [
        ([0u8, 0, 0, 0, 9].as_slice(), "Err(Empty) faults 0 ends 0"),
        (
            [0u8, 64, 0, 1, 9].as_slice(),
            "Err(TooLong(4194305)) faults 0 ends 0",
        ),
        (
            [255u8, 255, 255, 255].as_slice(),
            "Err(TooLong(4294967295)) faults 0 ends 0",
        ),
        (
            [255u8].as_slice(),
            "Err(CutShort(Bytes { bytes: [255] })) faults 0 ends 1",
        ),
    ] {
        assert_eq!(rt; answer_of(alloc, input, &[], &[])?.as_str(), wanted);
    }
    for chunk in [5usize, 65536] {
        assert_eq!(rt; longest_body(alloc, chunk)?, 4_194_304);
    }
    Ok(())
}

#[test]
fn frames_are_read_however_they_are_cut(rt: HostRuntime) -> Result<(), Fail> {
    let alloc = rt.alloc();
    let whole = frame(alloc, &DONE, 1)?;
    assert_eq!(rt;
        whole.as_slice(),
        b"\0\0\0\x0f{\"call\":\"done\"}".as_slice()
    );
    for chunk in 1usize..20 {
        assert_eq!(rt;
            frame(alloc, &DONE, chunk)?.as_slice(),
            whole.as_slice(),
            "written by {chunk}"
        );
        for length in 0..whole.len() {
            let part = &whole.as_slice()[..length];
            let wanted = if length == 0 {
                format!(in alloc; "Err(End) faults 0 ends 1")?
            } else {
                format!(in alloc; "Err(CutShort(Bytes {{ bytes: {part:?} }})) faults 0 ends 1")?
            };
            let answer = answer_of(alloc, part, &[chunk], &[])?;
            assert_eq!(rt;
                answer.as_str(),
                wanted.as_str(),
                "{length} bytes read by {chunk}"
            );
        }
        let answer = answer_of(alloc, whole.as_slice(), &[chunk], &[])?;
        let wanted = format!(in alloc;
            "Ok(Bytes {{ bytes: {:?} }}) faults 0 ends 0",
            DONE.as_slice()
        )?;
        assert_eq!(rt;
            answer.as_str(),
            wanted.as_str(),
            "all bytes read by {chunk}"
        );
    }
    Ok(())
}

#[test]
fn frames_stop_at_a_failing_call(rt: HostRuntime) -> Result<(), Fail> {
    let alloc = rt.alloc();
    let whole = frame(alloc, &DONE, 1)?;
    for call in 0u64..19 {
        let answer = answer_of(alloc, whole.as_slice(), &[1], &[call])?;
        assert_eq!(rt;
            answer.as_str(),
            "Err(Fault) faults 1 ends 0",
            "read {call} fails"
        );
        let mut pipe = MemPipe::new(alloc, script(alloc, &[], &[1], &[call])?);
        let written = write_frame(alloc, &mut pipe, None, &DONE);
        assert_eq!(rt; written, Err(Trouble::Failed), "write {call} fails");
        assert_eq!(rt; pipe.faults(), 1);
        assert_eq!(rt; pipe.given().len() as u64, call);
    }
    Ok(())
}

// What a replacement answers, and a read after it, in the form of `{:?}`.
fn replaced<S: Store<Cover = MemCover>>(
    alloc: Global,
    store: &mut S,
    bytes: &[u8],
) -> Result<String, AllocError> {
    let cover = store.replace(alloc, bytes);
    let content = store.read(alloc);
    format!(in alloc; "{cover:?} {content:?}")
}

#[test]
fn stores_keep_each_text(rt: HostRuntime) -> Result<(), Fail> {
    let alloc = rt.alloc();
    let fails = [2u64, 3, 4].to_vec(alloc)?;
    let mut store = MemStore::new(Vec::new(alloc), fails, [4u64].to_vec(alloc)?);
    for (byte, wanted) in [
        (
            1u8,
            "Ok(MemCover { text: Bytes { bytes: [1] } }) Ok(Some(Bytes { bytes: [1] }))",
        ),
        (2, "Err(Failed) Err(Failed)"),
        (3, "Err(Failed) Ok(Some(Bytes { bytes: [3] }))"),
        (
            4,
            "Ok(MemCover { text: Bytes { bytes: [4] } }) Ok(Some(Bytes { bytes: [4] }))",
        ),
    ] {
        assert_eq!(rt; replaced(alloc, &mut store, &[byte])?.as_str(), wanted);
    }
    assert_eq!(rt;
        (store.story().len(), store.faults(), store.fails().len()),
        (3, 3, 3)
    );
    Ok(())
}

#[test]
fn pieces_bear_their_cover(rt: HostRuntime) -> Result<(), Fail> {
    let alloc = rt.alloc();
    let mut store = MemStore::new(Vec::new(alloc), Vec::new(alloc), Vec::new(alloc));
    let cover = store.replace(alloc, b"text")?;
    let mut pipe = MemPipe::new(alloc, script(alloc, &[], &[9], &[])?);
    write_frame(alloc, &mut pipe, Some(&cover), &[1])?;
    write_frame(alloc, &mut pipe, None, &[2])?;
    let given = pipe.given();
    let covers = given
        .iter()
        .map(|piece| piece.1.is_some())
        .collect::<Vec<bool>>(alloc)?;
    assert_eq!(rt;
        (cover.text(), covers.as_slice()),
        (b"text".as_slice(), [true, true, false, false].as_slice())
    );
    Ok(())
}

// What a take into a buffer of this size answers, and what the pipe tells then.
fn takes(alloc: Global, pipe: &mut MemPipe, size: usize) -> Result<String, AllocError> {
    let mut buffer = [0u8; 4];
    let count = pipe.take(&mut buffer[..size.min(4)]);
    format!(in alloc;
        "{count:?} {:?} {:?} {}",
        pipe.taken(),
        pipe.left(),
        pipe.ends()
    )
}

#[test]
fn pipes_end_after_their_input(rt: HostRuntime) -> Result<(), Fail> {
    let alloc = rt.alloc();
    let mut pipe = MemPipe::new(alloc, script(alloc, &[1, 2, 3], &[2], &[1])?);
    for (size, wanted) in [
        (1usize, "Ok(1) [1] [2, 3] 0"),
        (4, "Err(Failed) [1] [2, 3] 0"),
        (4, "Ok(2) [1, 2, 3] [] 0"),
        (0, "Ok(0) [1, 2, 3] [] 0"),
        (4, "Ok(0) [1, 2, 3] [] 1"),
    ] {
        assert_eq!(rt; takes(alloc, &mut pipe, size)?.as_str(), wanted);
    }
    assert_eq!(rt; (pipe.faults(), pipe.fails().len()), (1, 1));
    Ok(())
}

fn words(alloc: Global) -> Result<Words, OutOfMemory> {
    let mut words = Words::new(alloc);
    words.push(Text::from_str(alloc, "a")?)?;
    Ok(words)
}

// What the child's pipe has left where a start succeeds.
fn left_at_start<B: Spawner<Cover = MemCover, Pipe = MemPipe>>(
    alloc: Global,
    spawner: &mut B,
) -> Result<String, Fail> {
    let pipe = spawner.start(alloc, &words(alloc)?);
    let left = pipe.as_ref().map(|pipe| pipe.left());
    Ok(format!(in alloc; "{left:?}")?)
}

#[test]
fn spawners_hand_out_their_scripts(rt: HostRuntime) -> Result<(), Fail> {
    let alloc = rt.alloc();
    let mut scripts = Vec::new(alloc);
    for byte in 1u8..4 {
        scripts.push(script(alloc, &[byte], &[], &[])?)?;
    }
    let mut spawner = MemSpawner::new(alloc, scripts, [1u64].to_vec(alloc)?);
    let (reading, writing) = spawner.start_host(alloc, &words(alloc)?)?;
    assert_eq!(rt;
        (reading.left(), writing.left()),
        ([1u8].as_slice(), [2u8].as_slice())
    );
    for wanted in ["Err(Failed)", "Ok([3])", "Ok([])"] {
        assert_eq!(rt; left_at_start(alloc, &mut spawner)?.as_str(), wanted);
    }
    assert_eq!(rt;
        (
            spawner.started().len(),
            spawner.faults(),
            spawner.fails().len()
        ),
        (3, 1, 1)
    );
    Ok(())
}

// What a write of four bytes answers, and the next draw.
fn used<W: Sink, I: Ids, G: Gate>(
    alloc: Global,
    sink: &mut W,
    ids: &mut I,
    gate: &G,
) -> Result<String, AllocError> {
    gate.at(Place::BeforeSend(0));
    let count = sink.write(alloc, b"line");
    let id = ids.draw();
    format!(in alloc; "{count:?} {id}")
}

#[test]
fn sinks_ids_and_gates(rt: HostRuntime) -> Result<(), Fail> {
    let alloc = rt.alloc();
    let mut sink = MemSink::new(alloc, [3usize, 0].to_vec(alloc)?, [2u64].to_vec(alloc)?);
    let mut ids = CountIds::new();
    for wanted in ["Ok(3) 1", "Ok(1) 2", "Err(Failed) 3"] {
        assert_eq!(rt;
            used(alloc, &mut sink, &mut ids, &FreeGate)?.as_str(),
            wanted
        );
    }
    assert_eq!(rt; (sink.written(), sink.faults()), (b"linl".as_slice(), 1));
    assert_eq!(rt; sink.fails().len(), 1);
    Ok(())
}
