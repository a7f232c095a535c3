//! What holds of each text and what it reads as.
ghost use Rattle.jr_sources.specs.ReadingLaws.{HasOneReading};

use jr_lex::one_answer;
use jr_punit::unit_has_one_answer;

/// A text reads as one unit at most with its spans, or has one fault, and never both.
pub fn text_has_one_reading()
    ensures { HasOneReading }
{
    one_answer();
    unit_has_one_answer();
}
