use crate::talks::{TALK, push_frame};
use pl_toy::{MemShelf, Shelf};
use pl_toy_pipe::{ToyPipe, toy_pipe};
use pl_world::{MemCover, Pipe, read_frame};
use std::alloc::Global;
use std::test::Fail;

/// Gives all of the bytes, in as many pieces as the pipe takes; whether it took them.
fn give_all<H: Shelf>(alloc: Global, pipe: &mut ToyPipe<H, MemCover>, bytes: &[u8]) -> bool {
    let mut rest = bytes;
    for _ in 0..bytes.len() {
        match pipe.hear(alloc, rest) {
            Ok(count) => rest = rest.get(count as usize..).unwrap_or(&[]),
            Err(_) => return false,
        }
    }
    rest.is_empty()
}

/// Whether the pipe gives the reply of a line to its request.
pub(crate) fn is_exchanged<H: Shelf + Send>(
    alloc: Global,
    pipe: &mut ToyPipe<H, MemCover>,
    line: &str,
) -> Result<bool, Fail> {
    let Some((request, reply)) = line.split_once(" => ") else {
        return Ok(false);
    };
    let mut frame = Vec::new(alloc);
    push_frame(&mut frame, request)?;
    let given = give_all(alloc, pipe, frame.as_slice());
    match read_frame(alloc, pipe) {
        Ok(body) => Ok(given && body.as_slice() == reply.as_bytes()),
        Err(_) => Ok(false),
    }
}

#[test]
fn a_toy_in_memory_replies(rt: HostRuntime) -> Result<(), Fail> {
    let alloc = rt.alloc();
    let shelf = MemShelf::new(alloc, Vec::new(alloc), Vec::new(alloc));
    let mut pipe: ToyPipe<MemShelf, MemCover> = toy_pipe(alloc, shelf);
    for line in TALK.lines() {
        assert!(rt; is_exchanged(alloc, &mut pipe, line)?, "{line}");
    }
    assert_eq!(rt; pipe.into_shelf().len(), 1);
    Ok(())
}

/// What comes of one more byte behind these, and how many bytes of replies there are then.
fn after(alloc: Global, bytes: &[u8]) -> Result<String, Fail> {
    let shelf = MemShelf::new(alloc, Vec::new(alloc), Vec::new(alloc));
    let mut pipe: ToyPipe<MemShelf, MemCover> = toy_pipe(alloc, shelf);
    let given = give_all(alloc, &mut pipe, bytes);
    let more = pipe.hear(alloc, b"x");
    let mut replies = [0u8; 64];
    let taken = pipe.take(&mut replies);
    Ok(format!(in alloc; "{given} {more:?} {taken:?}")?)
}

#[test]
fn a_toy_in_memory_ends_after_no_request(rt: HostRuntime) -> Result<(), Fail> {
    let cases: [(&[u8], &str); 6] = [
        (b"", "true Ok(1) Ok(0)"),
        (b"\0\0\0\x02{", "true Ok(1) Ok(0)"),
        (b"\0\0\0\x02{}", "true Err(Failed) Ok(0)"),
        (b"\0\0\0\x02{}..", "false Err(Failed) Ok(0)"),
        (b"\0\0\0\0", "true Err(Failed) Ok(0)"),
        (b"\0@\0\x01", "true Err(Failed) Ok(0)"),
    ];
    for (bytes, want) in cases {
        let found = after(rt.alloc(), bytes)?;
        assert_eq!(rt; found.as_str(), want);
    }
    Ok(())
}
