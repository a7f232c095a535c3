//! The tokens of a file, by their places.
ghost use Rattle.std.specs.Prelude.{◌≡◌, ◌<◌, ◌≤◌, ◌↔◌, List, ℕ, All, Contains};
ghost use Rattle.std.specs.Prelude.{IsTrue, IfOk, IfSome, IfNone, MatchOption};
ghost use Rattle.std.specs.List.Sorted.{IsNonDecreasingBy};
ghost use Rattle.jr_lex.specs.Lexes.{Lexes};
ghost use Rattle.jr_program_laws.specs.FileParts.{IsSuperAt};
ghost use Rattle.jr_program.specs.Tokens as pure;

use jr_lex::{Item, ItemKind, Keyword, TokenKind, items_are_placed};
use jr_text::{Span, Text};
use std::alloc::{AllocError, Global};
use std::marker::Model;

/// The items of a text, with the places of its words `super`. Contracts see the items.
#[derive(Drop)]
pub struct Tokens {
    items: Vec<Item>,
    supers: Vec<u32>,
}

impl Model for Tokens {
    ghost use Rattle.std.specs.Prelude.{List};
    ghost use Rattle.jr_lex.specs.declared.items.Item as pure_item;
    ghost use Rattle.jr_program.specs.Tokens.{AreKept};

    ghost Value = { List pure_item.Item };

    ghost view = { λ t. t.items.items };

    ghost invariant = { λ t. AreKept t.items.items t.supers.items };
}

impl Tokens {
    /// The tokens of a text, whose items these are.
    pub fn new(alloc: Global, items: Vec<Item>) -> Result<Tokens, AllocError>
        requires { (text : List ℕ) × Lexes text items.items }
        ensures { IfOk result (λ tokens. tokens ≡ items.items) }
    {
        items_are_placed();
        let supers = super_places(alloc, items.as_slice())?;
        Ok(Tokens { items, supers })
    }

    /// The items.
    pub fn items(&self) -> &[Item]
        ensures { result.now ≡ self.now }
    {
        self.items.as_slice()
    }

    /// The bytes of the token that begins at this byte of the text, if one does. The tokens are
    /// those of the text.
    pub fn text_at<'a>(&self, text: &'a Text, at: u64) -> Option<&'a str>
        requires { Lexes text.now self.now }
        ensures { MatchOption result
            ((name : List ℕ) → pure.IsTokenText text.now self.now at name → ⊥)
            (λ name. pure.IsTokenText text.now self.now at name.now) }
    {
        token_at(text, self.items.as_slice(), at)
    }

    /// Where the first word `super` of the span stands, if there is one: found by halves.
    pub fn super_in(&self, span: Span) -> Option<u32>
        ensures { MatchOption result ((at : ℕ) → IsSuperAt self.now span at → ⊥)
            (IsSuperAt self.now span) }
    {
        first_in(self.supers.as_slice(), span)
    }
}

// The bytes of the token of these items that begins at this byte of the text, if one does.
fn token_at<'a>(text: &'a Text, items: &[Item], at: u64) -> Option<&'a str>
    requires { Lexes text.now items.now }
    ensures { MatchOption result ((name : List ℕ) → pure.IsTokenText text.now items.now at name → ⊥)
        (λ name. pure.IsTokenText text.now items.now at name.now) }
{
    items_are_placed();
    match items.binary_search_by_key(&at, |item| u64::from(item.span.from)) {
        Err(_) => None,
        Ok(number) => match items[number].kind {
            ItemKind::Token(_) => Some(text.part(items[number].span)),
            ItemKind::Blank => None,
            ItemKind::Comment => None,
        },
    }
}

fn is_super_word(word: Keyword) -> bool
    ensures { result ≡ pure.is_super_word word }
{
    match word {
        Keyword::Super => true,
        _ => false,
    }
}

fn is_super_token(token: TokenKind) -> bool
    ensures { result ≡ pure.is_super_token token }
{
    match token {
        TokenKind::Keyword(word) => is_super_word(word),
        TokenKind::Word => false,
        TokenKind::Int(_) => false,
        TokenKind::Text => false,
        TokenKind::Mark(_) => false,
    }
}

fn is_super(item: Item) -> bool
    ensures { result ≡ pure.is_super item }
{
    match item.kind {
        ItemKind::Token(token) => is_super_token(token),
        ItemKind::Blank => false,
        ItemKind::Comment => false,
    }
}

// Whether the item is a word `super` that begins at this byte or behind it.
fn is_super_from(item: Item, from: u32) -> bool
    ensures { IsTrue result ↔ pure.IsWordFrom item from }
{
    is_super(item) & (from <= item.span.from)
}

// Where the first word `super` stands that begins at this byte or behind it, if one does.
fn super_from(items: &[Item], from: u32) -> Option<u32>
    requires { IsNonDecreasingBy (λ i. i.span.from) items.now }
    ensures some { IfSome result (pure.IsSuperFrom items.now from) }
    ensures none { IfNone result ((at : ℕ) → pure.BeginsSuper items.now at → from ≤ at → ⊥) }
{
    for item in items {
        if is_super_from(*item, from) {
            return Some(item.span.from);
        }
    }
    None
}

/// Where the first word `super` of the span stands among the items of a text, if there is one.
pub fn first_super(items: &[Item], span: Span) -> Option<u32>
    requires { (text : List ℕ) × Lexes text items.now }
    ensures { MatchOption result ((at : ℕ) → IsSuperAt items.now span at → ⊥)
        (IsSuperAt items.now span) }
{
    items_are_placed();
    match super_from(items, span.from) {
        None => None,
        Some(at) => { if at < span.to { Some(at) } else { None } }
    }
}

// The places of the words `super`, in text order.
fn super_places(alloc: Global, items: &[Item]) -> Result<Vec<u32>, AllocError>
    ensures { IfOk result (λ places. places.items ≡ pure.super_places items.now) }
{
    let mut places = Vec::new(alloc);
    for item in items {
        if is_super(*item) {
            places.push(item.span.from)?;
        }
    }
    Ok(places)
}

// The first of the places that is in the span.
fn first_in(places: &[u32], span: Span) -> Option<u32>
    requires { IsNonDecreasingBy (λ at. at) places.now }
    ensures there { IfSome result (Contains places.now) }
    ensures within { IfSome result (λ at. (span.from ≤ at) × (at < span.to)) }
    ensures first { IfSome result (λ at. All (λ other. span.from ≤ other → at ≤ other) places.now) }
    ensures none { IfNone result (All (λ other. span.from ≤ other → span.to ≤ other) places.now) }
{
    let number = places.partition_point(|at| *at < span.from);
    match places.get(number) {
        None => None,
        Some(at) => { if *at < span.to { Some(*at) } else { None } }
    }
}
