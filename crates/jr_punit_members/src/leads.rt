//! Where a member or class begins, and its modifiers (JLS 8.1.1, 8.3.1, 8.4.3, 8.8.3).
ghost use Rattle.std.specs.Prelude.{◌≡◌, ◌∷◌, ◌++◌, [], IfOk, map};
ghost use Rattle.jr_ast.specs.View.{modifier_of};
ghost use Rattle.jr_pstmt.specs.OwnMachine as machine;
ghost use Rattle.jr_punit_members.specs.LeadView.{modifiers_view, lead_view};

use jr_ast::{ModWord, Modifier};
use jr_pstmt::Made;
use jr_text::Span;

/// Where a member or class begins, and its modifiers.
#[derive(Drop)]
pub struct Lead {
    /// Its first token.
    pub start: Span,
    pub modifiers: Vec<Modifier<Span>>,
}

/// The modifiers with one more.
pub fn with_modifier(
    mut modifiers: Vec<Modifier<Span>>,
    at: Span,
    word: ModWord,
) -> Made<Vec<Modifier<Span>>>
    ensures { IfOk result (λ made. modifiers_view made
        ≡ modifiers_view modifiers ++ (machine.modifier at word ∷ [])) }
{
    modifiers.push(Modifier { mark: at, word })?;
    Ok(modifiers)
}

/// Where what has the modifiers begins: with the first of them, or else with the token at hand.
fn begins_at(modifiers: &[Modifier<Span>], at: Span) -> Span
    ensures { result ≡ machine.begins_at (map modifier_of modifiers.now) at }
{
    match modifiers.split_first() {
        Some((first, _)) => first.mark,
        None => at,
    }
}

impl Lead {
    /// The modifiers, behind which the token at `at` stands.
    pub fn new(modifiers: Vec<Modifier<Span>>, at: Span) -> Lead
        ensures { lead_view result ≡ machine.lead_of (modifiers_view modifiers) at }
    {
        let start = begins_at(&modifiers, at);
        Lead { start, modifiers }
    }
}
