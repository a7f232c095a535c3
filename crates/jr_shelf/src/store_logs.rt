// The stores of a shelf in memory. All their room is taken before the first.
ghost use Rattle.std.specs.Prelude.{◌≡◌, ◌+◌, ◌-◌, ◌<◌, ◌≤◌, [], ◌∷◌, length, map, IfOk, IsTrue};
ghost use Rattle.std.specs.List.{list_all};
ghost use Rattle.std.specs.Option.{option_copied};
ghost use Rattle.std.specs.Ordering.{nat_cmp};
ghost use Rattle.std.specs.Cmp.Lexicographic.{slice_cmp};
ghost use Rattle.std.specs.FinMap.{find};
ghost use Rattle.jr_shelf.specs.StoreLog.{entry_in, lies_in};

use crate::in_place::append_in_place;
use std::alloc::{AllocError, Global};
use std::collections::VecDeque;
use std::marker::Model;

/// How many stores a shelf in memory takes.
pub const MAX_STORES: u32 = 1_024;

/// Where a name and its bytes stand in the pool: the name from `start` to `middle`, and the bytes
/// from there to `end`.
#[derive(Clone, Copy)]
pub struct Stored {
    start: usize,
    middle: usize,
    end: usize,
}

/// The names and bytes that were stored, the newest first.
#[derive(Drop)]
pub struct StoreLog {
    entries: VecDeque<Stored>,
    pool: Vec<u8>,
    room: u32,
}

impl Model for StoreLog {
    ghost use Rattle.std.specs.Prelude.{◌+◌, ◌≤◌, length, map, IsTrue, vec_len, vec_capacity};
    ghost use Rattle.std.specs.List.{list_all};
    ghost use Rattle.std.specs.VecDeque.{deque_len, deque_capacity};
    ghost use Rattle.jr_shelf.specs.declared.store_logs.TheConstants.{MAX_STORES};
    ghost use Rattle.jr_shelf.specs.LogState.{LogState};
    ghost use Rattle.jr_shelf.specs.StoreLog.{entry_in, lies_in};

    ghost Value = { LogState };

    ghost view = { λ log. record {
      entries = map
          (entry_in log.pool.items) log.entries.items;
      room = log.room;
    } };

    ghost invariant = { λ log. (vec_len log.pool + log.room ≤ vec_capacity log.pool)
        × (MAX_STORES ≤ deque_capacity log.entries)
        × IsTrue (list_all (lies_in (length log.pool.items)) log.entries.items) };
}

impl StoreLog {
    /// An empty log with room for this many bytes, names among them, in up to `MAX_STORES` stores.
    pub fn with_room(alloc: Global, room: u32) -> Result<Self, AllocError>
        ensures entries { IfOk result (λ log. log.entries ≡ []) }
        ensures room { IfOk result (λ log. log.room ≡ room) }
    {
        Ok(StoreLog {
            entries: VecDeque::with_capacity(alloc, MAX_STORES as usize)?,
            pool: Vec::with_capacity(alloc, room as usize)?,
            room,
        })
    }

    /// How many stores it has.
    pub fn len(&self) -> usize
        ensures { result ≡ length self.now.entries }
    {
        self.entries.len()
    }

    /// How many bytes there is room for.
    pub fn room(&self) -> u32
        ensures { result ≡ self.now.room }
    {
        self.room
    }

    /// Adds a store in front. It takes no memory.
    pub fn push(&mut self, name: &str, bytes: &[u8])
        requires places { length self.old.entries < MAX_STORES }
        requires room { length name.now + length bytes.now ≤ self.old.room }
        ensures entries { self.new.entries ≡ (name.now, bytes.now) ∷ self.old.entries }
        ensures room { self.new.room ≡ self.old.room - (length name.now + length bytes.now) }
    {
        let start = self.pool.len();
        append_in_place(&mut self.pool, name.as_bytes());
        let middle = self.pool.len();
        append_in_place(&mut self.pool, bytes);
        let end = self.pool.len();
        self.entries
            .push_front_reserved(Stored { start, middle, end });
        self.room -= (end - start) as u32;
    }

    /// The bytes of the newest store of this name.
    pub fn find(&self, name: &str) -> Option<&[u8]>
        ensures { option_copied result ≡ find (slice_cmp nat_cmp) name.now self.now.entries }
    {
        find_stored(&self.entries, self.pool.as_slice(), name)
    }
}

fn find_stored<'a>(entries: &VecDeque<Stored>, pool: &'a [u8], name: &str) -> Option<&'a [u8]>
    requires { IsTrue (list_all (lies_in (length pool.now)) entries.now.items) }
    ensures { option_copied result
        ≡ find (slice_cmp nat_cmp) name.now (map (entry_in pool.now) entries.now.items) }
{
    for stored in entries {
        if name.as_bytes() == &pool[stored.start..stored.middle] {
            return Some(&pool[stored.middle..stored.end]);
        }
    }
    None
}
