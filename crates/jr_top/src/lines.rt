ghost use Rattle.std.specs.Prelude.{◌≡◌, IfOk, string_bytes};
ghost use Rattle.jr_names.specs.RefusalView.{refusal_of};
ghost use Rattle.jr_script.specs.RefusalTexts.{ArePlacesIn, places_of};
ghost use Rattle.jr_top.specs.Lines.{refusal_line as line_of};

use jr_ast::Name;
use jr_names::Refusal;
use jr_script::refusal_text;
use std::alloc::{AllocError, Global};

/// The line `refused NUMBER TEXT`, with its line end, for a refusal whose places are in these
/// files.
pub(crate) fn refusal_line(
    alloc: Global,
    files: &[Name],
    refusal: &Refusal,
) -> Result<String, AllocError>
    requires { ArePlacesIn files.now (places_of (refusal_of refusal.now)) }
    ensures { IfOk result (λ line. string_bytes line ≡ line_of files.now (refusal_of refusal.now)) }
{
    let number = refusal.number();
    let text = refusal_text(alloc, files, refusal)?;
    format!(in alloc; "refused {number} {text}\n")
}
