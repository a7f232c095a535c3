//! What a statement asks of an expression that it begins with.
ghost use Rattle.std.specs.Prelude.{◌≡◌, [], Some, None, option_map};
ghost use Rattle.std.specs.Option.{is_some};
ghost use Rattle.jr_ast.specs.View.{type_of};
ghost use Rattle.jr_pexpr.specs.Machine as machine;
ghost use Rattle.jr_pexpr.specs.ExpView.{exp_in};
ghost use Rattle.jr_pexpr.specs.StackView.{stack};
ghost use Rattle.jr_pexpr.specs.StateView.{state_view};
ghost use Rattle.jr_pexpr.specs.Starts.{type_read};

use crate::kinds::{is_name_type, name_type};
use crate::stack::Stack;
use crate::state::{Mode, State};
use jr_ast::{Expr, TypeRef};
use jr_text::Span;
use std::alloc::Global;

/// A name that nothing has been begun around, as a type.
fn lone_type(on: Stack, e: Box<Expr<Span>>) -> Option<TypeRef<Span>>
    ensures { option_map type_of result ≡ type_read (machine.have (stack on) (exp_in e)) }
{
    if !on.is_empty() {
        return None;
    }
    name_type(e)
}

impl State {
    /// Behind `super` as the first token, which is at `at`.
    pub fn behind_super(alloc: Global, at: Span) -> State
        ensures { state_view result ≡ machine.at_super [] at }
    {
        State {
            on: Stack::new(alloc),
            mode: Mode::AtSuper(at),
        }
    }

    /// Whether what has been read is a name of one or two words, which may be a type (JLS 6.5.5).
    pub fn is_type(&self) -> bool
        ensures { result ≡ is_some (type_read (state_view self.now)) }
    {
        match &self.mode {
            Mode::Have(e) => self.on.is_empty() && is_name_type(e),
            _ => false,
        }
    }

    /// What has been read as a type; `None` where it is no name of one or two words.
    pub fn into_type(self) -> Option<TypeRef<Span>>
        ensures { option_map type_of result ≡ type_read (state_view self) }
    {
        let State { on, mode } = self;
        match mode {
            Mode::Have(e) => lone_type(on, e),
            other => {
                drop(other);
                None
            }
        }
    }
}
