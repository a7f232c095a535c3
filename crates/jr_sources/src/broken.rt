//! The first of the rules that the members of a program break.
ghost use Rattle.std.specs.Prelude.{◌≡◌, ◌+◌, ◌↔◌, ◌++◌, ◌∷◌, [], ◌⊎◌, List, map, IsTrue};
ghost use Rattle.jr_bind.specs.ErrorView.{error_of};
ghost use Rattle.jr_program.specs.declared.bounds.MemberBound as raw;
ghost use Rattle.jr_sources.specs.BindingErrors.{IsNoLater};
ghost use Rattle.jr_sources.specs.Broken.{SomeErrs, IsOneOf, IsFirstOfAll, IsNearer};

use jr_bind::BindError;
use jr_program::MemberBound;
use jr_table::Rule;

/// A rule that is broken, with the number of the file and the byte there.
#[derive(Clone, Copy, Drop)]
pub(crate) struct Broken {
    pub file: u32,
    pub at: u64,
    pub rule: Rule,
}

// Whether the first stands no later than the second: by file, place and rule.
fn is_no_later(one: &Broken, other: &Broken) -> bool
    ensures { IsTrue result ↔ IsNoLater one.now.file one.now.at one.now.rule
        other.now.file other.now.at other.now.rule }
{
    let of_rule = (one.at == other.at) & (one.rule.rank() <= other.rule.rank());
    let of_place = (one.at < other.at) | of_rule;
    (one.file < other.file) | ((one.file == other.file) & of_place)
}

// Of the first up to here and the next one the first.
fn nearer(best: Option<Broken>, next: Broken) -> Broken
    ensures { IsNearer best next result }
{
    match best {
        None => next,
        Some(best) => {
            if is_no_later(&best, &next) {
                best
            } else {
                next
            }
        }
    }
}

fn place(member: &MemberBound, error: BindError) -> Broken
    ensures file { result.file ≡ member.now.file }
    ensures at { result.at ≡ member.now.start + (error_of error).at }
    ensures rule { result.rule ≡ (error_of error).rule }
{
    Broken {
        file: member.file,
        at: u64::from(member.start) + u64::from(error.at),
        rule: error.rule,
    }
}

// The first with those of one more member.
fn with_errors(best: Option<Broken>, member: &MemberBound, errors: &[BindError]) -> Option<Broken>
    ensures { (front : List raw.MemberBound) → IsFirstOfAll (SomeErrs front) best
        → IsFirstOfAll (λ f a r. SomeErrs front f a r
        ⊎ IsOneOf member.now.file member.now.start (map error_of errors.now) f a r) result }
{
    let mut best = best;
    for error in errors {
        best = Some(nearer(best, place(member, *error)));
    }
    best
}

fn with_member(best: Option<Broken>, member: &MemberBound) -> Option<Broken>
    ensures { (front : List raw.MemberBound) → IsFirstOfAll (SomeErrs front) best
        → IsFirstOfAll (SomeErrs (front ++ member.now ∷ [])) result }
{
    with_errors(best, member, member.bound.errors())
}

/// The first rule that one of the members breaks, by file, place and rule.
pub(crate) fn first_broken(members: &[MemberBound]) -> Option<Broken>
    ensures { IsFirstOfAll (SomeErrs members.now) result }
{
    let mut best = None;
    for member in members {
        best = with_member(best, member);
    }
    best
}
