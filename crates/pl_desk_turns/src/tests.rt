ghost use Rattle.std.specs.Prelude.{◌≡◌, []};

use crate::{Notes, Work, crew, look_both, one_thread, two_threads};
use pl_desk::{OutOfMemory, join, new, split};
use std::alloc::Global;
use std::test::Fail;

fn no_notes(alloc: Global) -> Notes
    ensures { result.notes.items ≡ [] }
{
    Notes {
        title: 7,
        notes: Vec::new(alloc),
    }
}

#[test]
fn two_thousand_turns(rt: HostRuntime) -> Result<(), Fail> {
    let Ok(added) = two_threads(&rt, rt.alloc(), no_notes(rt.alloc()), 1000) else {
        panic!(rt; "no memory")
    };
    let notes = &added.notes.notes;
    let of_first = notes.iter().filter(|note| note.seat == 0).count();
    assert!(rt; added.notes.title == 7 && added.by_first == 1000 && added.by_second == 1000);
    assert!(rt; notes.len() == 2000 && of_first == 1000);
    Ok(())
}

#[test]
fn two_seats_in_one_thread(rt: HostRuntime) -> Result<(), Fail> {
    let Ok(notes) = one_thread(&rt, rt.alloc(), no_notes(rt.alloc()), 3) else {
        panic!(rt; "no memory")
    };
    assert!(rt; notes.title == 7 && notes.notes.len() == 3);
    assert!(rt; notes.notes.iter().all(|note| note.seat == 1));
    Ok(())
}

#[test]
fn eight_seats_and_one_rests(rt: HostRuntime) -> Result<(), Fail> {
    let work = Work {
        after: 600,
        turns: 100,
    };
    let Ok(notes) = crew(&rt, rt.alloc(), no_notes(rt.alloc()), 8, work) else {
        panic!(rt; "no memory")
    };
    assert!(rt; notes.title == 7 && notes.notes.len() == 800);
    for seat in 0..8 {
        let count = notes.notes.iter().filter(|note| note.seat == seat).count();
        assert!(rt; count == 100, "seat {seat} added {count} notes");
    }
    let first_at = notes.notes.iter().position(|note| note.seat == 0);
    assert!(rt; first_at.is_some_and(|at| at > 600));
    Ok(())
}

#[test]
fn any_item_and_a_desk_let_go(rt: HostRuntime) -> Result<(), Fail> {
    assert_eq!(rt;
        format!(in rt.alloc(); "{OutOfMemory}")?.as_str(),
        "out of memory"
    );
    let Ok((desk, mut first)) = new(rt.alloc(), no_notes(rt.alloc())) else {
        panic!(rt; "no memory")
    };
    let Ok(second) = split(&desk, &mut first) else {
        unreachable!()
    };
    let (mut first, second) = look_both(&rt, &desk, first, second);
    join(&desk, &mut first, second);
    drop(desk);
    Ok(())
}
