//! Members, classes and compilation units (JLS 7.3, 8).
ghost use Rattle.std.specs.Prelude.{◌≡◌, option_map, map};
ghost use Rattle.jr_ast.specs.MemberTree as tree;
ghost use Rattle.jr_ast.specs.View.{word_of, modifier_of, type_of, param_of, expr_of, args_of};
ghost use Rattle.jr_ast.specs.View.{stmts_of, class_of, member_of, members_of, unit_of};

use crate::exprs::Expr;
use crate::names::Ident;
use crate::parts::{Modifier, Param, TypeRef};
use crate::stmts::Stmt;

/// A class (JLS 8.1).
#[cycle(member)]
#[derive(Drop)]
pub struct Class<A> {
    pub mark: A,
    pub modifiers: Vec<Modifier<A>>,
    pub name: Ident<A>,
    pub parent: Option<TypeRef<A>>,
    pub members: Vec<Member<A>>,
}

/// A member of a class (JLS 8.2).
#[cycle(member)]
#[derive(Drop)]
pub struct Member<A> {
    pub mark: A,
    pub kind: MemberKind<A>,
}

/// The kinds of members.
#[cycle(member)]
#[derive(Drop)]
pub enum MemberKind<A> {
    Field {
        modifiers: Vec<Modifier<A>>,
        ty: TypeRef<A>,
        name: Ident<A>,
        init: Option<Expr<A>>,
    },
    /// No `ret` is `void`.
    Method {
        modifiers: Vec<Modifier<A>>,
        ret: Option<TypeRef<A>>,
        name: Ident<A>,
        params: Vec<Param<A>>,
        body: Vec<Stmt<A>>,
    },
    /// `parent_args` are the arguments of a written `super(..)`, if there is one.
    Ctor {
        modifiers: Vec<Modifier<A>>,
        name: Ident<A>,
        params: Vec<Param<A>>,
        parent_args: Option<Vec<Expr<A>>>,
        body: Vec<Stmt<A>>,
    },
    Inner(Class<A>),
}

/// A compilation unit (JLS 7.3).
#[derive(Drop)]
pub struct Unit<A> {
    pub mark: A,
    pub package: Vec<Ident<A>>,
    pub classes: Vec<Class<A>>,
}

impl<A> Class<A> {
    /// A class of these parts (JLS 8.1).
    #[tactic(auto, unfolding(crate::specs::View::member_kind))]
    pub fn new(
        mark: A,
        modifiers: Vec<Modifier<A>>,
        name: Ident<A>,
        parent: Option<TypeRef<A>>,
        members: Vec<Member<A>>,
    ) -> Class<A>
        ensures { class_of result ≡ tree.class mark (map modifier_of modifiers.items) (word_of name)
            (option_map type_of parent) (members_of members.items) }
    {
        Class {
            mark,
            modifiers,
            name,
            parent,
            members,
        }
    }
}

impl<A> Member<A> {
    /// A field (JLS 8.3).
    #[tactic(auto, unfolding(crate::specs::View::member_kind))]
    pub fn field(
        mark: A,
        modifiers: Vec<Modifier<A>>,
        ty: TypeRef<A>,
        name: Ident<A>,
        init: Option<Expr<A>>,
    ) -> Member<A>
        ensures { member_of result ≡ tree.field mark (map modifier_of modifiers.items) (type_of ty)
            (word_of name) (option_map expr_of init) }
    {
        Member {
            mark,
            kind: MemberKind::Field {
                modifiers,
                ty,
                name,
                init,
            },
        }
    }

    /// A method; no `ret` is `void` (JLS 8.4).
    #[tactic(auto, unfolding(crate::specs::View::member_kind))]
    pub fn method(
        mark: A,
        modifiers: Vec<Modifier<A>>,
        ret: Option<TypeRef<A>>,
        name: Ident<A>,
        params: Vec<Param<A>>,
        body: Vec<Stmt<A>>,
    ) -> Member<A>
        ensures { member_of result ≡ tree.method mark (map modifier_of modifiers.items)
            (option_map type_of ret) (word_of name) (map param_of params.items)
            (stmts_of body.items) }
    {
        Member {
            mark,
            kind: MemberKind::Method {
                modifiers,
                ret,
                name,
                params,
                body,
            },
        }
    }

    /// A constructor, perhaps with a written `super(..)` (JLS 8.8).
    #[tactic(auto, unfolding(crate::specs::View::member_kind))]
    pub fn ctor(
        mark: A,
        modifiers: Vec<Modifier<A>>,
        name: Ident<A>,
        params: Vec<Param<A>>,
        parent_args: Option<Vec<Expr<A>>>,
        body: Vec<Stmt<A>>,
    ) -> Member<A>
        ensures { member_of result ≡ tree.constructor mark (map modifier_of modifiers.items)
            (word_of name) (map param_of params.items) (args_of parent_args) (stmts_of body.items) }
    {
        Member {
            mark,
            kind: MemberKind::Ctor {
                modifiers,
                name,
                params,
                parent_args,
                body,
            },
        }
    }

    /// A member class (JLS 8.5).
    #[tactic(auto, unfolding(crate::specs::View::member_kind))]
    pub fn inner(mark: A, class: Class<A>) -> Member<A>
        ensures { member_of result ≡ tree.inner mark (class_of class) }
    {
        Member {
            mark,
            kind: MemberKind::Inner(class),
        }
    }
}

impl<A> Unit<A> {
    /// A compilation unit of these parts (JLS 7.3).
    #[tactic(auto, unfolding(crate::specs::View::member_kind))]
    pub fn new(mark: A, package: Vec<Ident<A>>, classes: Vec<Class<A>>) -> Unit<A>
        ensures { unit_of result ≡ record {
          mark = mark;
          package_name = map word_of «package».items;
          classes = map class_of classes.items;
        } }
    {
        Unit {
            mark,
            package,
            classes,
        }
    }
}
