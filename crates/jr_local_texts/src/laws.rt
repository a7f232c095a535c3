//! What extract local and inline local owe the one form of refactorings.
ghost use Rattle.jr_local_texts.specs.Fitting.{ExtractsFit, InlinesFit};
ghost use Rattle.jr_local_texts.specs.Using.{ExtractsUse, InlinesUse};

use jr_images::rows_are_named;
use jr_local::regions_are_sound;
use jr_members::members_are_written;
use jr_text::Span;

/// What extract local makes of a program fits: its spots' changes lead from the tokens that stand
/// in the files to those of the new trees, which are shaped, and may stand where the old ones did
/// (JLS 3.2, 14.4, 15).
pub fn extracts_fit()
    ensures { ExtractsFit }
{
    members_are_written::<Span>();
    rows_are_named::<Span>();
    regions_are_sound();
}

/// What inline local makes of a program fits: the declaration goes, alone or with its lines, and
/// each read becomes a copy of the initializer, in parentheses and with spaces where it needs them
/// (JLS 3.2, 14.4, 15).
pub fn inlines_fit()
    ensures { InlinesFit }
{
    members_are_written::<Span>();
    rows_are_named::<Span>();
    regions_are_sound();
}

/// In a plan of extract local the list from the statement on becomes what its spot makes of it, and
/// in it the expression becomes the name: neither is rewritten node by node.
pub fn extracts_use()
    ensures { ExtractsUse }
{}

/// In a plan of inline local the list from the declaration on becomes what its spot makes of it,
/// and each read behind it a copy: none is rewritten node by node.
pub fn inlines_use()
    ensures { InlinesUse }
{}
