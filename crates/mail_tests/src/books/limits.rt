//! The limits: at their numbers, and one above.

use super::*;

// Adds an action, which is lawful.
fn add_action(alloc: Global, book: &mut Book, id: u32) -> Result<(), Missing> {
    match told(alloc, book, Step::Moves(id, INBOX_42, Archive))? {
        None => Ok(()),
        Some(_) => Err(Missing),
    }
}

// A book with so many actions.
fn filled(alloc: Global, count: u32) -> Result<Book, Missing> {
    let mut book = begun(alloc)?;
    for id in 1..=count {
        add_action(alloc, &mut book, id)?;
    }
    Ok(book)
}

#[test]
fn a_queue_has_a_million_actions(rt: HostRuntime) -> Result<(), Fail> {
    let rows = [
        (
            Step::Moves(1_000_001, INBOX_42, Archive),
            Some(Rule::TooMany),
        ),
        // One too many, and about a message that no action makes.
        (
            Step::Moves(1_000_001, Of::Made(1_000_001), Archive),
            Some(Rule::BadTarget),
        ),
        (Step::Shifts(1, Archive), None),
    ];
    let mut book = filled(rt.alloc(), 1_000_000)?;
    assert_eq!(rt; book.queue.len(), MAX_ACTIONS);
    tell(&rt, rt.alloc(), &mut book, &rows)?;
    Ok(())
}

#[test]
fn a_first_cache_has_200000_rows(rt: HostRuntime) -> Result<(), Fail> {
    let rows = [
        (
            Step::LearnsRows(true, 300, 1, 200_001),
            Some(Rule::TooManyRows),
        ),
        (Step::LearnsRows(true, 300, 1, 200_000), None),
    ];
    tells(&rt, rt.alloc(), &[], &rows)?;
    Ok(())
}

#[test]
fn a_later_cache_has_200000_rows(rt: HostRuntime) -> Result<(), Fail> {
    let rows = [
        (
            Step::LearnsRows(false, 300, 200_000, 200_001),
            Some(Rule::TooManyRows),
        ),
        // One too many, and a lower mark.
        (
            Step::LearnsRows(false, 299, 200_000, 200_001),
            Some(Rule::LowerMark),
        ),
        (Step::LearnsRows(false, 300, 199_999, 200_000), None),
    ];
    tells(
        &rt,
        rt.alloc(),
        &[Step::LearnsRows(true, 300, 1, 199_999)],
        &rows,
    )?;
    Ok(())
}
