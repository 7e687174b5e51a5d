//! A plain slow program for the view of a mailbox: the rows of all mailboxes stand in one list, and
//! each action looks for its row there from the front.

use action_queue::{Action, Book, Found, Known, Target};
use flag_set::FlagSet;
use local_view::{Ident, Seen};
use mail_base::{ActionId, BoxName};
use std::alloc::{AllocError, Global};

/// A row, and the mailbox that it stands in.
#[derive(Drop)]
struct Placed {
    name: BoxName,
    seen: Seen,
}

/// The rows of a mailbox.
pub fn plain_view(alloc: Global, book: &Book, name: &BoxName) -> Result<Vec<Seen>, AllocError> {
    let mut all = cached(alloc, book)?;
    act_all(alloc, book, &mut all)?;
    let mut rows = Vec::new(alloc);
    for placed in all {
        if placed.name == *name {
            rows.push(placed.seen)?;
        }
    }
    Ok(rows)
}

// The cached rows of all mailboxes.
fn cached(alloc: Global, book: &Book) -> Result<Vec<Placed>, AllocError> {
    let mut all = Vec::new(alloc);
    for known in book.boxes.as_slice() {
        put_cached(&mut all, known)?;
    }
    Ok(all)
}

fn put_cached(all: &mut Vec<Placed>, known: &Known) -> Result<(), AllocError> {
    let Some(cache) = &known.cache else {
        return Ok(());
    };
    for (uid, row) in cache.rows.as_slice() {
        let flags = row.flags.copy()?;
        let seen = Seen {
            id: Ident::Real(*uid),
            modseq: Some(row.modseq),
            flags,
        };
        all.push(Placed {
            name: known.name.copy(),
            seen,
        })?;
    }
    Ok(())
}

// Each action that waits changes the rows.
fn act_all(alloc: Global, book: &Book, all: &mut Vec<Placed>) -> Result<(), AllocError> {
    for (at, queued) in book.queue.as_slice().iter().enumerate() {
        if queued.outcome.is_some() || at >= 1_000_000 {
            continue;
        }
        if let Some(id) = ActionId::new(at as u32 + 1) {
            act(alloc, book, all, id, &queued.action)?;
        }
    }
    Ok(())
}

fn act(
    alloc: Global,
    book: &Book,
    all: &mut Vec<Placed>,
    id: ActionId,
    action: &Action,
) -> Result<(), AllocError> {
    match action {
        Action::Flag { target, add, flags } => flag_rows(book, all, target, *add, flags),
        Action::Move { target, to } => move_rows(alloc, book, all, target, id, to),
        Action::Append { to, flags, .. } => {
            let new = dummy(id, to, flags)?;
            Ok(all.push(new)?)
        }
    }
}

fn flag_rows(
    book: &Book,
    all: &mut [Placed],
    target: &Target,
    add: bool,
    flags: &FlagSet,
) -> Result<(), AllocError> {
    for placed in all.iter_mut() {
        if is_row(book, target, placed) {
            placed.seen.flags = changed(&placed.seen.flags, add, flags)?;
        }
    }
    Ok(())
}

fn changed(old: &FlagSet, add: bool, flags: &FlagSet) -> Result<FlagSet, AllocError> {
    if add {
        old.with(flags)
    } else {
        old.without(flags)
    }
}

// The target's rows go, and new ones come behind all others.
fn move_rows(
    alloc: Global,
    book: &Book,
    all: &mut Vec<Placed>,
    target: &Target,
    id: ActionId,
    to: &BoxName,
) -> Result<(), AllocError> {
    let new = dummies(alloc, book, all, target, id, to)?;
    all.retain(|placed| !is_row(book, target, placed));
    for placed in new {
        all.push(placed)?;
    }
    Ok(())
}

fn dummies(
    alloc: Global,
    book: &Book,
    all: &[Placed],
    target: &Target,
    id: ActionId,
    to: &BoxName,
) -> Result<Vec<Placed>, AllocError> {
    let mut new = Vec::new(alloc);
    for placed in all {
        if is_row(book, target, placed) {
            new.push(dummy(id, to, &placed.seen.flags)?)?;
        }
    }
    Ok(new)
}

fn dummy(id: ActionId, to: &BoxName, flags: &FlagSet) -> Result<Placed, AllocError> {
    let flags = flags.copy()?;
    Ok(Placed {
        name: to.copy(),
        seen: Seen {
            id: Ident::Dummy(id),
            modseq: None,
            flags,
        },
    })
}

// Whether a row is that of a target.
fn is_row(book: &Book, target: &Target, placed: &Placed) -> bool {
    match book.resolved(target) {
        Found::Real {
            name,
            validity,
            uid,
        } => {
            name == placed.name
                && is_cached(&placed.seen.id, uid.number())
                && has_validity(book, &name, validity.number())
        }
        Found::NotYet { by } => is_made(&placed.seen.id, by.number()),
        Found::Never { .. } => false,
    }
}

fn is_cached(id: &Ident, number: u32) -> bool {
    match id {
        Ident::Real(uid) => uid.number() == number,
        Ident::Dummy(_) => false,
    }
}

fn is_made(id: &Ident, number: u32) -> bool {
    match id {
        Ident::Real(_) => false,
        Ident::Dummy(by) => by.number() == number,
    }
}

fn has_validity(book: &Book, name: &BoxName, validity: u32) -> bool {
    match book.known(name) {
        Some(
            Known {
                cache: Some(cache),
                ..
            },
        ) => cache.validity.number() == validity,
        Some(Known { cache: None, .. }) | None => false,
    }
}
