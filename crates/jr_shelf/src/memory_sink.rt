ghost use Rattle.std.specs.Prelude.{◌≡◌, ◌+◌, ◌^◌, ◌<◌, ◌≤◌, Option, Some, List, ℕ, vec_len};
ghost use Rattle.std.specs.Prelude.{vec_capacity};

use crate::in_place::append_in_place;
use crate::{Failed, Memory, Sink};
use std::alloc::Global;

/// Output in memory, with puts that fail at chosen numbers.
///
/// Its puts are numbered from 1, and the number stays at the greatest u32. A put fails exactly
/// where its number is among those that it was made with, or where its bytes are more than there
/// is room for. A put that fails changes nothing.
#[derive(Drop)]
pub struct MemorySink {
    taken_bytes: Vec<u8>,
    fault_count: u64,
    last_number: u32,
    failing_numbers: Vec<u32>,
    room_left: u32,
    ghost fault_count_fits: { fault_count < 2 ^ 64 },
    ghost has_room: { vec_len taken_bytes + room_left ≤ vec_capacity taken_bytes },
}

impl MemorySink {
    ghost use Rattle.std.specs.Prelude.{IfOk};
    ghost use Rattle.jr_shelf.specs.SinkState.{new_sink, put_fails};
    ghost use Rattle.jr_shelf.specs.MemorySink.{sink_state_of};

    /// A sink that took nothing, whose puts of the failing numbers fail, and that has room for
    /// `room` bytes. The room is taken here.
    pub fn new(alloc: Global, failing: Vec<u32>, room: u32) -> Result<MemorySink, Memory>
        ensures { IfOk result (λ sink. sink_state_of sink ≡ new_sink failing.items room) }
    {
        Ok(MemorySink {
            taken_bytes: Vec::with_capacity(alloc, room as usize)?,
            fault_count: 0,
            last_number: 0,
            failing_numbers: failing,
            room_left: room,
        })
    }

    /// The bytes that it took, in order.
    pub fn bytes(&self) -> &[u8]
        ensures { result.now ≡ (sink_state_of self.now).taken }
    {
        self.taken_bytes.as_slice()
    }

    fn will_not_take(&self, bytes: &[u8]) -> bool
        ensures { result ≡ put_fails (sink_state_of self.now) bytes.now }
    {
        let next = self.last_number.saturating_add(1);
        self.failing_numbers.contains(&next) || (self.room_left as usize) < bytes.len()
    }
}

impl Sink for MemorySink {
    ghost use Rattle.std.specs.Prelude.{is_err};
    ghost use Rattle.jr_shelf.specs.SinkState.{put_fails, after_put};
    ghost use Rattle.jr_shelf.specs.MemorySink.{sink_state_of};

    ghost taken = { λ sink. Some (sink_state_of sink).taken };

    ghost faults = { λ sink. (sink_state_of sink).faults };

    fn put(&mut self, bytes: &[u8]) -> Result<(), Failed>
        // Exactly which puts fail, and all that a put leaves.
        ensures fails { is_err result ≡ put_fails (sink_state_of self.old) bytes.now }
        ensures after { sink_state_of self.new
            ≡ after_put (sink_state_of self.old) bytes.now result }
    {
        let fails = self.will_not_take(bytes);
        self.last_number = self.last_number.saturating_add(1);
        if fails {
            self.fault_count = self.fault_count.saturating_add(1);
            return Err(Failed);
        }
        append_in_place(&mut self.taken_bytes, bytes);
        self.room_left = (self.room_left as usize - bytes.len()) as u32;
        Ok(())
    }

    ghost faults_fit = { λ sink. sink.fault_count_fits };
}
