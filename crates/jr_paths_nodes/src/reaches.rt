//! Ways down a tree, which reach twice as far from level to level. A path of any length is walked
//! by halves, since no recursion hands a `&mut` on.
use std::marker::PhantomData;

/// One step.
pub struct One;

/// The way of `L`, and from there again the way of `L`.
pub struct Twice<L>(PhantomData<L>);

/// Sixteen times as far as `L`.
pub type Sixteen<L> = Twice<Twice<Twice<Twice<L>>>>;

/// As far as 65,536 ways of `L`.
pub type Long<L> = Sixteen<Sixteen<Sixteen<Sixteen<L>>>>;

/// As far as any path.
pub type Far = Long<Long<Long<Long<One>>>>;
