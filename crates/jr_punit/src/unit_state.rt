//! How far a compilation unit has been read (JLS 7.3, 7.4).
ghost use Rattle.std.specs.Prelude.{◌≡◌, ◌++◌, ◌∷◌, [], List, Option, Some, IfOk, option_map};
ghost use Rattle.jr_ast.specs.Tree.{Word};
ghost use Rattle.jr_ast.specs.View.{class_of, unit_of, word_of};
ghost use Rattle.jr_pexpr.specs.Machine.{marked};
ghost use Rattle.jr_pexpr.specs.Marked.{join};
ghost use Rattle.jr_pexpr.specs.TokenView.{token_view};
ghost use Rattle.jr_pstmt.specs.CueView.{cue_view};
ghost use Rattle.jr_pstmt.specs.Cues as pure;
ghost use Rattle.jr_punit_laws.specs.ClassMachine as Classes;
ghost use Rattle.jr_punit.specs.ClassView.{class_state};
ghost use Rattle.jr_pstmt.specs.InPlace.{GoesTo};
ghost use Rattle.jr_punit_laws.specs.UnitMachine as machine;
ghost use Rattle.jr_punit.specs.UnitView.{unit_state, words_view, classes_view};
ghost use Rattle.jr_punit.specs.UnitView.{is_package as is_package_word, IsNextUnit};

use crate::class_state::ClassState;
use jr_ast::{Class, Ident, Unit};
use jr_pexpr::Token;
use jr_pstmt::{Cue, Made, cue_of, word};
use jr_text::Span;
use std::alloc::Global;
use std::mem;

/// How far a unit has been read.
#[derive(Drop)]
pub(crate) enum UnitState {
    /// Nothing has been read.
    Start,
    /// Behind `package`, or behind a dot there.
    InPackage(Vec<Ident<Span>>),
    /// Behind a word there.
    Worded(Vec<Ident<Span>>),
    /// Behind these words and classes, in one class more, of which perhaps nothing has been read.
    InClasses(Vec<Ident<Span>>, Vec<Class<Span>>, ClassState),
}

/// The state behind a token; `None` where the token can't stand there.
type UnitStepped = Made<Option<UnitState>>;

fn add_class(classes: &mut Vec<Class<Span>>, class: Class<Span>) -> Made<()>
    ensures { IfOk result (λ _. classes_view classes.new
        ≡ classes_view classes.old ++ (class_of class ∷ [])) }
{
    classes.push(class)?;
    Ok(())
}

fn with_word(
    alloc: Global,
    mut words: Vec<Ident<Span>>,
    at: Span,
    text: &str,
) -> Made<Vec<Ident<Span>>>
    ensures { IfOk result (λ made. words_view made
        ≡ words_view words ++ (marked at text.now ∷ [])) }
{
    let name = word(alloc, at, text)?;
    words.push(name)?;
    Ok(words)
}

/// The class that has become whole is one of the unit, and the next one may come; `false` where it
/// isn't whole.
fn take_class(alloc: Global, classes: &mut Vec<Class<Span>>, class: &mut ClassState) -> Made<bool>
    ensures { (ws : List (Word Span)) → GoesTo result
        (machine.in_classes ws (classes_view classes.new) (class_state class.new))
        (option_map (machine.behind_class ws (classes_view classes.old))
        (Classes.whole (class_state class.old))) }
{
    match mem::replace(class, ClassState::new(alloc)).finish() {
        Some(whole) => {
            add_class(classes, whole)?;
            Ok(true)
        }
        None => Ok(false),
    }
}

/// Where the class has become whole, the next one may come.
fn settle(alloc: Global, classes: &mut Vec<Class<Span>>, class: &mut ClassState) -> Made<bool>
    ensures { (ws : List (Word Span)) → GoesTo result
        (machine.in_classes ws (classes_view classes.new) (class_state class.new))
        (Some (machine.class_read ws (classes_view classes.old) (class_state class.old))) }
{
    if class.is_done() {
        take_class(alloc, classes, class)
    } else {
        Ok(true)
    }
}

/// The class at hand goes on.
fn class_on(
    alloc: Global,
    classes: &mut Vec<Class<Span>>,
    class: &mut ClassState,
    at: Span,
    token: Token<'_>,
) -> Made<bool>
    ensures { (ws : List (Word Span)) → GoesTo result
        (machine.in_classes ws (classes_view classes.new) (class_state class.new))
        (machine.from_classes join ws (classes_view classes.old) (class_state class.old) at
        (token_view token.entry)) }
{
    if class.step(alloc, at, token)? {
        settle(alloc, classes, class)
    } else {
        Ok(false)
    }
}

fn is_package(token: Token<'_>) -> bool
    ensures { result ≡ is_package_word (pure.cue_of (token_view token.entry)) }
{
    match cue_of(token) {
        Cue::Package => true,
        _ => false,
    }
}

/// The first token of the first class, in a file that names no package.
fn first_class(alloc: Global, at: Span, token: Token<'_>) -> UnitStepped
    ensures { IsNextUnit result
        (machine.from_classes join [] [] Classes.start at (token_view token.entry)) }
{
    let mut classes = Vec::new(alloc);
    let mut class = ClassState::new(alloc);
    match class_on(alloc, &mut classes, &mut class, at, token) {
        Ok(goes_on) => {
            if goes_on {
                Ok(Some(UnitState::InClasses(Vec::new(alloc), classes, class)))
            } else {
                drop(class);
                Ok(None)
            }
        }
        Err(error) => {
            drop(class);
            Err(error)
        }
    }
}

fn from_start(alloc: Global, at: Span, token: Token<'_>) -> UnitStepped
    ensures { IsNextUnit result (machine.from_start join at (token_view token.entry)
        (pure.cue_of (token_view token.entry))) }
{
    if is_package(token) {
        Ok(Some(UnitState::InPackage(Vec::new(alloc))))
    } else {
        first_class(alloc, at, token)
    }
}

/// Behind a word of the package's name, or a dot. What had been read is taken.
fn from_package(alloc: Global, words: &mut Vec<Ident<Span>>, at: Span, cue: Cue<'_>) -> UnitStepped
    ensures { IsNextUnit result (machine.from_package (words_view words.old) at
        (cue_view cue.entry)) }
{
    let words = mem::replace(words, Vec::new(alloc));
    match cue {
        Cue::Word(text) => {
            let words = with_word(alloc, words, at, text)?;
            Ok(Some(UnitState::Worded(words)))
        }
        _ => Ok(None),
    }
}

fn from_worded(alloc: Global, words: &mut Vec<Ident<Span>>, cue: Cue<'_>) -> UnitStepped
    ensures { IsNextUnit result (machine.from_worded (words_view words.old)
        (cue_view cue.entry)) }
{
    let words = mem::replace(words, Vec::new(alloc));
    match cue {
        Cue::Dot => Ok(Some(UnitState::InPackage(words))),
        Cue::Semicolon => {
            Ok(Some(UnitState::InClasses(words, Vec::new(alloc), ClassState::new(alloc))))
        }
        _ => Ok(None),
    }
}

/// The unit of these parts, where no class has been begun.
fn unit(
    file: Span,
    words: Vec<Ident<Span>>,
    classes: Vec<Class<Span>>,
    class: &ClassState,
) -> Option<Unit<Span>>
    ensures { option_map unit_of result ≡ machine.whole file
        (machine.in_classes (words_view words) (classes_view classes) (class_state class.now)) }
{
    if class.is_between() {
        Some(Unit::new(file, words, classes))
    } else {
        None
    }
}

/// The next state stands there, if there is one.
fn put(to: &mut UnitState, next: UnitStepped) -> Made<bool>
    ensures { (n : Option (machine.State Span)) → IsNextUnit next n
        → GoesTo result (unit_state to.new) n }
{
    match next? {
        Some(next) => {
            drop(mem::replace(to, next));
            Ok(true)
        }
        None => Ok(false),
    }
}

impl UnitState {
    /// Nothing has been read.
    pub(crate) fn new() -> UnitState
        ensures { unit_state result ≡ machine.start }
    {
        UnitState::Start
    }

    /// Goes on with a token at `at`; `false` exactly where no unit goes on with it.
    pub(crate) fn step(&mut self, alloc: Global, at: Span, token: Token<'_>) -> Made<bool>
        ensures { GoesTo result (unit_state self.new)
            (machine.step join (unit_state self.old) at (token_view token.entry)) }
    {
        match self {
            UnitState::Start => put(self, from_start(alloc, at, token)),
            UnitState::InPackage(words) => {
                let next = from_package(alloc, words, at, cue_of(token));
                put(self, next)
            }
            UnitState::Worded(words) => {
                let next = from_worded(alloc, words, cue_of(token));
                put(self, next)
            }
            UnitState::InClasses(_, classes, class) => class_on(alloc, classes, class, at, token),
        }
    }

    /// The unit that has been read of a file of this span; `None` where it isn't whole.
    pub(crate) fn finish(self, alloc: Global, file: Span) -> Option<Unit<Span>>
        ensures { option_map unit_of result ≡ machine.whole file (unit_state self) }
    {
        match self {
            UnitState::Start => Some(Unit::new(file, Vec::new(alloc), Vec::new(alloc))),
            UnitState::InPackage(_) => None,
            UnitState::Worded(_) => None,
            UnitState::InClasses(words, classes, class) => {
                let made = unit(file, words, classes, &class);
                drop(class);
                made
            }
        }
    }
}
