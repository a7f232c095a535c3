//! A text that is put together of parts of another, and of made texts, is cut into the tokens of
//! the parts (JLS 3.2). It knows tokens and no trees; nothing in it runs.
//!
//! [`parts_spell`]: lexemes that were cut in front of some text, one run behind the other, are the
//! lexemes of the text that they make, where the last of each run may meet what comes behind it
//! (`jr_lex: Seams.Meets`).
//!
//! Definitions: `Cutting` (lexemes as they are cut, and their tokens), `Parts` (parts, seams, what
//! they spell).
#![tactic(auto)]

mod laws;

pub use laws::parts_spell;
