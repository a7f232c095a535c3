//! The tree of classes, walked once.
//!
//! Nothing is promised of the numbers: they are tested afterwards.
use crate::entries::Entry;
use std::alloc::{AllocError, Global};

/// Rows by number: when each was entered and left, the one before it with the same superclass, and
/// all in the order in which they were entered.
#[derive(Drop)]
pub(crate) struct Numbered {
    pub(crate) enter: Vec<u32>,
    pub(crate) exit: Vec<u32>,
    pub(crate) before: Vec<Option<u32>>,
    pub(crate) order: Vec<u32>,
}

/// Of each row, and of all that have no superclass, the first below it, and the last one so far;
/// of each row the next and the one before with the same superclass.
#[derive(Drop)]
struct Branches {
    first: Vec<Option<u32>>,
    last: Vec<Option<u32>>,
    next: Vec<Option<u32>>,
    before: Vec<Option<u32>>,
}

fn value(values: &[Option<u32>], at: u32) -> Option<u32> {
    match values.get(at as usize) {
        None => None,
        Some(value) => *value,
    }
}

fn set(values: &mut [Option<u32>], at: u32, value: Option<u32>) {
    if (at as usize) < values.len() {
        values[at as usize] = value;
    }
}

fn set_number(values: &mut [u32], at: u32, value: u32) {
    if (at as usize) < values.len() {
        values[at as usize] = value;
    }
}

fn parent(entries: &[Entry], at: u32) -> Option<u32> {
    match entries.get(at as usize) {
        None => None,
        Some(entry) => entry.parent,
    }
}

impl Branches {
    fn of_count(alloc: Global, count: usize) -> Result<Branches, AllocError> {
        let first = vec![in alloc; None; count]?;
        let last = vec![in alloc; None; count]?;
        let next = vec![in alloc; None; count]?;
        let before = vec![in alloc; None; count]?;
        Ok(Branches {
            first,
            last,
            next,
            before,
        })
    }

    /// Puts a row behind the others below this one.
    fn put(&mut self, above: u32, row: u32) {
        let last = value(&self.last, above);
        match last {
            None => set(&mut self.first, above, Some(row)),
            Some(last) => set(&mut self.next, last, Some(row)),
        }
        set(&mut self.before, row, last);
        set(&mut self.last, above, Some(row));
    }

    /// The branches of the rows; `top` is above those that have no superclass.
    fn of_rows(alloc: Global, entries: &[Entry], top: u32) -> Result<Branches, AllocError> {
        let mut branches = Branches::of_count(alloc, entries.len() + 1)?;
        for row in 0..top {
            match parent(entries, row) {
                None => branches.put(top, row),
                Some(above) => branches.put(above, row),
            }
        }
        Ok(branches)
    }
}

/// Where a walk is: at a row, on the way in or out, with so many entered.
#[derive(Clone, Copy)]
struct Place {
    row: u32,
    is_entering: bool,
    count: u32,
}

impl Numbered {
    fn enter(&mut self, branches: &Branches, at: Place) -> Place {
        set_number(&mut self.enter, at.row, at.count);
        set_number(&mut self.order, at.count, at.row);
        let count = at.count.saturating_add(1);
        match value(&branches.first, at.row) {
            None => Place {
                row: at.row,
                is_entering: false,
                count,
            },
            Some(row) => Place {
                row,
                is_entering: true,
                count,
            },
        }
    }

    /// The next place on the way out; none above those that have no superclass.
    fn leave(&mut self, entries: &[Entry], branches: &Branches, at: Place) -> Option<Place> {
        set_number(&mut self.exit, at.row, at.count);
        let count = at.count;
        if let Some(row) = value(&branches.next, at.row) {
            return Some(Place {
                row,
                is_entering: true,
                count,
            });
        }
        let row = parent(entries, at.row)?;
        Some(Place {
            row,
            is_entering: false,
            count,
        })
    }

    fn walk(&mut self, entries: &[Entry], branches: &Branches, from: u32) {
        let mut at = Place {
            row: from,
            is_entering: true,
            count: 0,
        };
        for _ in 0..2 * entries.len() as u64 {
            if at.is_entering {
                at = self.enter(branches, at);
            } else {
                let Some(next) = self.leave(entries, branches, at) else {
                    return;
                };
                at = next;
            }
        }
    }

    /// The rows numbered, from the first that has no superclass.
    pub(crate) fn of_rows(alloc: Global, entries: &[Entry]) -> Result<Numbered, AllocError> {
        let count = entries.len();
        let top = u32::try_from(count).unwrap_or(0);
        let branches = Branches::of_rows(alloc, entries, top)?;
        let enter = vec![in alloc; 0; count]?;
        let exit = vec![in alloc; 0; count]?;
        let order = vec![in alloc; 0; count]?;
        let before = branches.before.as_slice().to_vec(alloc)?;
        let mut numbered = Numbered {
            enter,
            exit,
            before,
            order,
        };
        if let Some(first) = value(&branches.first, top) {
            numbered.walk(entries, &branches, first);
        }
        Ok(numbered)
    }
}
