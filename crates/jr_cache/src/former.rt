//! What was bound before, had back from what is bound now.
ghost use Rattle.std.specs.Prelude.{◌≡◌, ◌<◌, length, slice_get, slice_set, OnOk, Some};
ghost use Rattle.jr_cache.specs.HadBack.{bounds_before, with_replaced};

use jr_program::MemberBound;
use std::alloc::AllocError;
use std::mem;

/// What was bound of the member of a number, in whose place another bound stands.
#[derive(Drop)]
pub struct Replaced {
    pub(crate) number: usize,
    pub(crate) bound: MemberBound,
}

/// What was bound before, as far as it isn't among what is bound now.
pub enum Former {
    /// All members were bound anew, and these are all that were bound.
    Whole(Vec<MemberBound>),
    /// Those in whose place others stand, in the order in which they were replaced.
    Parts(Vec<Replaced>),
}

// Written out, so that it is proved here: what is derived is proved anew in each crate above.
impl Drop for Former {
    fn drop(self) {
        match self {
            Former::Whole(_) => {}
            Former::Parts(_) => {}
        }
    }
}

// Puts a bound in the place of another, and hands out that.
fn exchange_at(bounds: &mut Vec<MemberBound>, number: usize, bound: MemberBound) -> MemberBound
    requires { number < length bounds.old.items }
    ensures becomes { bounds.new.items ≡ slice_set bounds.old.items number bound }
    ensures had { slice_get bounds.old.items number ≡ Some result }
{
    mem::replace(&mut bounds[number], bound)
}

// Puts a bound that was replaced where it was.
fn put_back(bounds: &mut Vec<MemberBound>, replaced: Replaced)
    ensures { bounds.new.items ≡ slice_set bounds.old.items replaced.number replaced.bound }
{
    let Replaced { number, bound } = replaced;
    if number < bounds.len() {
        drop(exchange_at(bounds, number, bound));
    } else {
        drop(bound);
    }
}

// Puts all back, the last that was replaced first.
fn put_all_back(bounds: Vec<MemberBound>, replaced: Vec<Replaced>) -> Vec<MemberBound>
    ensures { result.items ≡ with_replaced replaced.items bounds.items }
{
    let mut bounds = bounds;
    let mut replaced = replaced;
    loop {
        match replaced.pop() {
            None => return bounds,
            Some(last) => put_back(&mut bounds, last),
        }
    }
}

impl Former {
    /// What was bound before. It takes no memory.
    pub fn restore(self, bounds: Vec<MemberBound>) -> Vec<MemberBound>
        ensures { result.items ≡ bounds_before self bounds.items }
    {
        match self {
            Former::Whole(earlier) => {
                drop(bounds);
                earlier
            }
            Former::Parts(replaced) => put_all_back(bounds, replaced),
        }
    }
}

/// Bounds, some of which stand in the place of others.
pub(crate) struct Exchange {
    pub bounds: Vec<MemberBound>,
    pub replaced: Vec<Replaced>,
}

impl Drop for Exchange {
    fn drop(self) {
        let Exchange {
            bounds: _,
            replaced: _,
        } = self;
    }
}

impl Exchange {
    /// Puts a bound in the place of another.
    pub(crate) fn put(&mut self, number: usize, bound: MemberBound) -> Result<(), AllocError>
        requires { number < length self.old.bounds.items }
        ensures bounds { OnOk result
            (self.new.bounds.items ≡ slice_set self.old.bounds.items number bound) }
        ensures back { OnOk result (with_replaced self.new.replaced.items self.new.bounds.items
            ≡ with_replaced self.old.replaced.items self.old.bounds.items) }
    {
        let bound = exchange_at(&mut self.bounds, number, bound);
        self.replaced.push(Replaced { number, bound })?;
        Ok(())
    }

    /// The bounds, and what gives back those that were there before.
    pub(crate) fn parts(self) -> (Vec<MemberBound>, Former)
        ensures bounds { result.0.items ≡ self.bounds.items }
        ensures back { bounds_before result.1 result.0.items
            ≡ with_replaced self.replaced.items self.bounds.items }
    {
        let Exchange { bounds, replaced } = self;
        (bounds, Former::Parts(replaced))
    }
}
