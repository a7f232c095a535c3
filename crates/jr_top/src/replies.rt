//! Steps done by a session.
ghost use Rattle.std.specs.Prelude.{◌≡◌, ◌<◌, ◌↔◌, ◌++◌, ◌∷◌, [], All, map, IfOk, IsTrue, OnOk};
ghost use Rattle.jr_names.specs.ReplyView.{reply_of};
ghost use Rattle.jr_session.specs.Promises.{Promises};
ghost use Rattle.jr_session.specs.Serving.{IsServed};
ghost use Rattle.jr_session.specs.Stepping as pure;
ghost use Rattle.jr_top.specs.Scripts.{Follow, HasNoRefusal, HasRefusal, IsRefusal};
ghost use Rattle.jr_top.specs.Statuses.{IsAnswer, OnDone, OnRefused};

use crate::statuses::Status;
use jr_names::{Reply, Step};
use jr_session::Session;
use jr_steps::Steps;
use std::alloc::{AllocError, Global};
use std::marker::Brand;
use std::sync::ledger::{Blank, Ledger};

/// What the session answers to the steps, one after another. A refused one is followed by the next.
pub(crate) fn take_steps(
    alloc: Global,
    session: &mut Session,
    steps: &[Step],
) -> Result<Vec<Reply>, AllocError>
    requires { All IsServed steps.now }
    ensures { IfOk result (λ replies.
        Follow session.old steps.now (map reply_of replies.items) session.new) }
{
    take_counted::<Brand>(alloc, session, steps, Blank::new(1))
}

// The same, with a counter of what is bound, of which nothing is asked.
fn take_counted<L: Ledger>(
    alloc: Global,
    session: &mut Session,
    steps: &[Step],
    blank: Blank,
) -> Result<Vec<Reply>, AllocError>
    requires served { All IsServed steps.now }
    requires name { blank.name ≡ L.name }
    requires parts { blank.parts ≡ L.parts }
    requires some { 0 < L.parts }
    ensures { IfOk result (λ replies.
        Follow session.old steps.now (map reply_of replies.items) session.new) }
{
    let mut counter = Steps::<L>::new(blank);
    let replies = take_all(alloc, session, steps, &mut counter);
    kept(replies, counter)
}

// The same, with this counter.
fn take_all<L: Ledger>(
    alloc: Global,
    session: &mut Session,
    steps: &[Step],
    counter: &mut Steps<L>,
) -> Result<Vec<Reply>, AllocError>
    requires { All IsServed steps.now }
    ensures { IfOk result (λ replies.
        Follow session.old steps.now (map reply_of replies.items) session.new) }
{
    let mut replies = Vec::with_capacity(alloc, steps.len())?;
    for step in steps {
        let reply = session.step(alloc, step, counter)?;
        push_reply(&mut replies, reply)?;
    }
    Ok(replies)
}

// Puts a reply behind the others. Where that fails within another function, that function's proof
// goes through the variants of the reply that comes back.
fn push_reply(replies: &mut Vec<Reply>, reply: Reply) -> Result<(), AllocError>
    ensures { OnOk result (replies.new.items ≡ replies.old.items ++ reply ∷ []) }
{
    replies.push(reply)?;
    Ok(())
}

/// What the session answers to the step.
pub(crate) fn take_step(
    alloc: Global,
    session: &mut Session,
    step: &Step,
) -> Result<Reply, AllocError>
    requires { IsServed step.now }
    ensures step { IfOk result (λ reply.
        pure.Steps session.old step.now (reply_of reply) session.new) }
    ensures promises { IfOk result (λ reply.
        Promises session.old step.now (reply_of reply) session.new) }
{
    take_one::<Brand>(alloc, session, step, Blank::new(1))
}

// The same, with a counter of what is bound, of which nothing is asked.
fn take_one<L: Ledger>(
    alloc: Global,
    session: &mut Session,
    step: &Step,
    blank: Blank,
) -> Result<Reply, AllocError>
    requires served { IsServed step.now }
    requires name { blank.name ≡ L.name }
    requires parts { blank.parts ≡ L.parts }
    requires some { 0 < L.parts }
    ensures step { IfOk result (λ reply.
        pure.Steps session.old step.now (reply_of reply) session.new) }
    ensures promises { IfOk result (λ reply.
        Promises session.old step.now (reply_of reply) session.new) }
{
    let mut counter = Steps::<L>::new(blank);
    let reply = session.step(alloc, step, &mut counter);
    kept(reply, counter)
}

/// One value, behind which another is let go. Where both have types with variants of their own, the
/// proof of the function around goes through all of them.
pub(crate) fn kept<T, G: Drop>(value: T, gone: G) -> T
    ensures { result ≡ value }
{
    drop(gone);
    value
}

/// How a run ends whose steps have these replies, once all is written.
pub(crate) fn status_of(replies: &[Reply]) -> Status
    ensures answer { IsAnswer result }
    ensures done { OnDone result (HasNoRefusal (map reply_of replies.now)) }
    ensures refused { OnRefused result (HasRefusal (map reply_of replies.now)) }
{
    for reply in replies {
        if is_refusal(reply) {
            return Status::Refused;
        }
    }
    Status::Done
}

fn is_refusal(reply: &Reply) -> bool
    ensures { IsTrue result ↔ IsRefusal (reply_of reply.now) }
{
    matches!(reply, Reply::Refused(_))
}
