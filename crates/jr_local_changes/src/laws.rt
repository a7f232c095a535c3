//! The expression that extract local moves can be cut out, with its changes.
ghost use Rattle.jr_local_changes.specs.PieceChanges.{PiecesFit};

use jr_images::rows_are_named;
use jr_members::members_are_written;
use jr_text::Span;

/// The statement of what is selected begins in its file's text; the expression can be cut out of
/// it, and whatever changes it becomes by lie in its bytes, one behind the other, where the text can
/// be cut.
pub fn pieces_fit()
    ensures { PiecesFit }
{
    members_are_written::<Span>();
    rows_are_named::<Span>();
}
