//! How references are spelled in one small program.
use crate::keys::{decl, name_of, ty, tys};
use crate::rows::cut_at;
use crate::scopes::scope;
use jr_lookup::{Scope, field_of, member_type, type_named, variable};
use jr_spell::{Operand, RefForm, Reference, respell};
use jr_table::{ClassKey, Decl, Found, Table};
use std::alloc::Global;
use std::process::Abort;

pub(crate) const PROGRAM: &'static str = "
class A { int x; static int s; private int q; void m() {} static void sm() {} }
class B extends A { int x; void m() {} }
class C extends B { int x; static int s; static void sm() {} }
class O {
    static int x; static int A;
    static class I { static int t; static void u() {} }
    static class P { private int v; }
    static class Q extends P {}
    static class N extends A {}
    private static class H {}
}
class W { static class D extends O.I { static void u() {} } }
class E extends O { static class B {} }
class Z extends O { static class O {} }
class V { static class G extends O {} }
class Y { static class E extends O {} }
class U { static class E extends V.G {} static class O {} }
";

/// The form of a reference; a place's class, with `static` in front if it is in a static context;
/// its locals; the asked spelling; the operand's type and text, or the class that stands in front
/// of the dot; the declaration's kind, class and name; the types of arguments; and the spelling
/// that is expected, nothing if there is none.
pub(crate) const ROWS: &'static str = "
~# A field by its simple name.
~spell FieldSimple C;;x;;field C x => x
~# A local shadows the field (JLS 6.4.1).
~spell FieldSimple C;x;x;;field C x => this.x
~# The class hides the field of its superclass (JLS 8.3).
~spell FieldSimple C;;x;;field B x => super.x
~# Two classes hide it.
~spell FieldSimple C;;x;;field A x => ((A) this).x
~# There is no object in a static context (JLS 8.1.3).
~spell FieldSimple static C;;x;;field C x =>\x20
~spell FieldSimple static C;;x;;field A x =>\x20
~# A static member is named through no value.
~spell FieldSimple B;s;s;;field A s => A.s
~spell FieldSimple static B;s;s;;field A s => A.s
~spell FieldSimple C;;s;;field A s => A.s
~# A local obscures the class (JLS 6.4.2).
~spell FieldSimple B;s A;s;;field A s =>\x20
~# A field of the class around obscures it.
~spell FieldSimple O.N;s;s;;field A s =>\x20
~# An inherited field shadows that of the class around.
~spell FieldSimple O.N;;x;;field O x => O.x
~# A private field is not inherited (JLS 8.2), and accessible in its top-level class.
~spell FieldSimple O.Q;;v;;field O.P v => super.v
~# It is not accessible elsewhere (JLS 6.6.1).
~spell FieldSimple B;;q;;field A q =>\x20
~# A member class whose name is not in scope.
~spell FieldSimple W.D;t;t;;field O.I t => O.I.t
~# A local obscures the class around it.
~spell FieldSimple W.D;t O;t;;field O.I t =>\x20
~# A member class whose name is in scope, and one that a local obscures.
~spell FieldSimple O;;t;;field O.I t => I.t
~spell FieldSimple O;I;t;;field O.I t => O.I.t
~# A field on an expression.
~spell FieldOn W.D;;c.x;C c;field C x => c.x
~spell FieldOn static W.D;;c.x;C c;field C x => c.x
~# A hidden field is reached by a cast, whose class no local obscures (JLS 6.5.5).
~spell FieldOn W.D;;c.x;C c;field B x => ((B) c).x
~spell FieldOn W.D;B;c.x;C c;field B x => ((B) c).x
~# A cast to no superclass.
~spell FieldOn W.D;;a.x;A a;field B x =>\x20
~# Another class has the name of the cast.
~spell FieldOn E;;c.x;C c;field B x =>\x20
~# A static field.
~spell FieldOn W.D;;c.s;C c;field C s =>\x20
~# A private field, elsewhere and in its top-level class.
~spell FieldOn W.D;;a.q;A a;field A q =>\x20
~spell FieldOn O;;o.v;O.Q o;field O.P v => ((P) o).v
~# The type of null has no class.
~spell FieldOn W.D;;null.x;null null;field A x =>\x20
~# A field by `super`.
~spell FieldSuper C;;super.x;;field B x => super.x
~# The superclass hides the field.
~spell FieldSuper C;;super.x;;field A x => ((A) this).x
~# A static context.
~spell FieldSuper static C;;super.x;;field B x =>\x20
~# A static field.
~spell FieldSuper C;;super.s;;field A s =>\x20
~# A method that is asked for as a field has no spelling.
~spell FieldSimple C;;m;;method B m =>\x20
~# A field or a method through a class.
~spell ThroughClass W.D;;B.s;B;field A s => B.s
~# The class hides the field.
~spell ThroughClass W.D;;C.s;C;field A s => A.s
~# A local obscures the class.
~spell ThroughClass W.D;B;B.s;B;field A s => A.s
~spell ThroughClass W.D;B A;B.s;B;field A s =>\x20
~# A class below one that has the member, and a local that obscures it.
~spell ThroughClass W;;D.t;W.D;field O.I t => D.t
~spell ThroughClass W;D;D.t;W.D;field O.I t => O.I.t
~# A class that is written behind another, and a local that obscures that one.
~spell ThroughClass B;;O.I.t;O.I;field O.I t => O.I.t
~spell ThroughClass O;O;O.I.t;O.I;field O.I t => I.t
~# Behind a class that has it as a member type.
~spell ThroughClass B;;E.I.t;O.I;field O.I t => E.I.t
~# Behind more words, and a local that obscures the first one.
~spell ThroughClass B;;V.G.I.t;O.I;field O.I t => V.G.I.t
~spell ThroughClass B;V;V.G.I.t;O.I;field O.I t => O.I.t
~# No local obscures a further word.
~spell ThroughClass B;G I;V.G.I.t;O.I;field O.I t => V.G.I.t
~# Words that find another class, which has the member too.
~spell ThroughClass Y;;E.I.t;O.I;field O.I t => E.I.t
~# One that has no such member class.
~spell ThroughClass Z;;O.I.t;O.I;field O.I t => I.t
~# The class that stands in front has no such member.
~spell ThroughClass B;;E.I.t;A;field O.I t => O.I.t
~# An instance field.
~spell ThroughClass W.D;;B.x;B;field B x =>\x20
~# A field obscures the class.
~spell ThroughClass O;;A.s;A;field A s =>\x20
~# Methods.
~spell ThroughClass W.D;;B.sm;B;method A sm => B.sm
~spell ThroughClass W.D;;C.sm;C;method A sm => A.sm
~spell ThroughClass W;D;D.u;W.D;method O.I u => O.I.u
~# An instance method.
~spell ThroughClass W.D;;B.m;B;method B m =>\x20
~# A method by its simple name.
~spell MethodSimple C;;m;;method B m => m
~# A class hides the static method (JLS 8.4.8.2).
~spell MethodSimple C;;sm;;method A sm => A.sm
~# A member class whose name is not in scope, and one whose name is.
~spell MethodSimple W.D;;u;;method O.I u => O.I.u
~spell MethodSimple O;;u;;method O.I u => I.u
~# An overridden method is called through no class.
~spell MethodSimple B;;m;;method A m =>\x20
~# A name that no method has.
~spell MethodSimple C;;n;;method B m => this.m
~# A static context.
~spell MethodSimple static C;;m;;method B m =>\x20
~# A call with an argument of type int, which no method takes.
~spell MethodSimple C;;m;;method B m;int =>\x20
~# A method on an expression.
~spell MethodOn W.D;;b.m;B b;method B m => b.m
~# An overridden method is reached by a cast.
~spell MethodOn W.D;;b.m;B b;method A m => ((A) b).m
~# A cast to no superclass.
~spell MethodOn W.D;;a.m;A a;method B m =>\x20
~# A static method.
~spell MethodOn W.D;;b.sm;B b;method A sm =>\x20
~# A class as the name of a type.
~spell ClassName O;;I;;class O.I => I
~# No local is in the way of a type.
~spell ClassName O;I;I;;class O.I => I
~# A name that is not in scope.
~spell ClassName B;;I;;class O.I => O.I
~# As it is written, behind its class or one below that.
~spell ClassName B;;O.I;;class O.I => O.I
~spell ClassName B;;E.I;;class O.I => E.I
~# Another class has the name in front.
~spell ClassName Z;;O.I;;class O.I => I
~# It has the member class too.
~spell ClassName Y;;E.I;;class O.I => E.I
~# So it has, and another class has the name of the class around.
~spell ClassName U;;E.I;;class O.I => E.I
~spell ClassName U;;O.I;;class O.I =>\x20
~# A private class.
~spell ClassName B;;O.H;;class O.H =>\x20
~# Another class has the name.
~spell ClassName E;;B;;class B =>\x20
~# A class in front of a dot.
~spell ClassInFront O;;I;;class O.I => I
~# A local obscures it.
~spell ClassInFront O;I;I;;class O.I => O.I
~# A name that is not in scope.
~spell ClassInFront B;;I;;class O.I => O.I
~# As it is written, behind its class or one below that.
~spell ClassInFront B;;O.I;O;class O.I => O.I
~spell ClassInFront B;;E.I;E;class O.I => E.I
~# A local obscures the first word, and the class around.
~spell ClassInFront B;E;E.I;E;class O.I => O.I
~spell ClassInFront B;E O;E.I;E;class O.I =>\x20
~# No local obscures a further word.
~spell ClassInFront B;I;E.I;E;class O.I => E.I
~# Another class has the name in front: one with the member class, and one without.
~spell ClassInFront Y;;E.I;E;class O.I => E.I
~spell ClassInFront Z;;O.I;O;class O.I => I
~# The class that stands in front has no such member class.
~spell ClassInFront B;;E.I;A;class O.I => O.I
~# A field obscures it.
~spell ClassInFront O;;A;;class A =>\x20
~# A local, a method by `super`, a constructor.
~spell AsAsked C;i;i;;local 0 => i
~# A later local of the name.
~spell AsAsked C;i i;i;;local 0 =>\x20
~spell AsAsked B;;super.m;;method A m => super.m
~# A static context.
~spell AsAsked static B;;super.m;;method A m =>\x20
~# A static method.
~spell AsAsked C;;super.sm;;method A sm =>\x20
~# Constructors of a creation and of `super(..)`.
~spell AsAsked W.D;;new A;A A;ctor A => new A
~spell AsAsked B;;super;;ctor A => super
~# Of no direct superclass.
~spell AsAsked C;;super;;ctor A =>\x20
~# A private one.
~spell AsAsked W.D;;new O.H;O.H O.H;ctor O.H =>\x20
";

fn form_named(form: &str) -> RefForm {
    match form {
        "FieldSimple" => RefForm::FieldSimple,
        "FieldOn" => RefForm::FieldOn,
        "FieldSuper" => RefForm::FieldSuper,
        "ThroughClass" => RefForm::ThroughClass,
        "MethodSimple" => RefForm::MethodSimple,
        "MethodOn" => RefForm::MethodOn,
        "ClassName" => RefForm::ClassName,
        "ClassInFront" => RefForm::ClassInFront,
        _ => RefForm::AsAsked,
    }
}

/// A place of a class, with `static` in front of it if it is in a static context.
fn place(rt: &impl Abort, alloc: Global, text: &str, locals: &str) -> Scope {
    match text.split_once("static ") {
        None => scope(rt, alloc, text, false, locals),
        Some((_, class)) => scope(rt, alloc, class, true, locals),
    }
}

/// The declaration of a kind, a class and a name; of locals the first one of the place.
fn target(rt: &impl Abort, alloc: Global, place: &str, text: &str) -> Box<Decl> {
    let (kind, named) = cut_at(text, " ");
    let (class, name) = cut_at(named, " ");
    let class = if kind == "local" { place } else { class };
    decl(rt, alloc, kind, class, name, "")
}

fn as_class(rt: &impl Abort, decl: &Decl) -> Option<ClassKey> {
    match decl {
        Decl::Class(key) => Some(key.copy().expect(rt, "memory")),
        Decl::Field(_) => None,
        Decl::Method(_) => None,
        Decl::Ctor(_) => None,
        Decl::Local(_) => None,
    }
}

/// The class that is found, if one is and nothing obscures it.
fn found_class(rt: &impl Abort, obscuring: &Found, found: &Found) -> Option<ClassKey> {
    match obscuring {
        Found::Nothing => match found {
            Found::One(decl) => as_class(rt, decl),
            Found::Nothing => None,
            Found::Many(_, _) => None,
            Found::NotAccessible(_) => None,
            Found::FromStatic(_) => None,
        },
        Found::One(_) => None,
        Found::Many(_, _) => None,
        Found::NotAccessible(_) => None,
        Found::FromStatic(_) => None,
    }
}

/// The class that a first word finds in front of a dot, if it finds one.
fn first_class(
    rt: &impl Abort,
    alloc: Global,
    table: &Table,
    scope: &Scope,
    word: &str,
) -> Option<ClassKey> {
    let name = name_of(rt, alloc, word);
    let obscuring = variable(table, scope, &name).expect(rt, "memory");
    let found = type_named(table, scope, &name).expect(rt, "memory");
    found_class(rt, &obscuring, &found)
}

/// The same of a word behind the name of a class.
fn next_class(
    rt: &impl Abort,
    alloc: Global,
    table: &Table,
    scope: &Scope,
    around: &Option<ClassKey>,
    word: &str,
) -> Option<ClassKey> {
    match around {
        None => None,
        Some(class) => {
            let name = name_of(rt, alloc, word);
            let obscuring = field_of(table, scope, class, &name).expect(rt, "memory");
            let found = member_type(table, scope, class, &name).expect(rt, "memory");
            found_class(rt, &obscuring, &found)
        }
    }
}

/// The class that words find in front of a dot, all of them or all but the last.
fn words_class(
    rt: &impl Abort,
    alloc: Global,
    table: &Table,
    scope: &Scope,
    words: &str,
    all: bool,
) -> Option<ClassKey> {
    let mut before = None;
    let mut last = None;
    let mut is_first = true;
    for word in words.split('.') {
        let next = if is_first {
            first_class(rt, alloc, table, scope, word)
        } else {
            next_class(rt, alloc, table, scope, &last, word)
        };
        before = last;
        last = next;
        is_first = false;
    }
    if all { last } else { before }
}

/// The class that the asked words find where it is asked by one.
fn front(
    rt: &impl Abort,
    alloc: Global,
    table: &Table,
    scope: &Scope,
    form: &str,
    asked: &str,
) -> Option<ClassKey> {
    match form {
        "ThroughClass" => words_class(rt, alloc, table, scope, asked, false),
        "ClassInFront" => words_class(rt, alloc, table, scope, asked, true),
        _ => None,
    }
}

/// A type, and a text; nothing where there is neither.
fn operand(rt: &impl Abort, alloc: Global, text: &str) -> Option<Operand> {
    if text.is_empty() {
        return None;
    }
    let (of, text) = cut_at(text, " ");
    let ty = ty(rt, alloc, of);
    let text = name_of(rt, alloc, text);
    Some(Operand { ty, text })
}

fn reference(
    rt: &impl Abort,
    alloc: Global,
    form: &str,
    asked: &str,
    of: &str,
    front: Option<ClassKey>,
    args: &str,
) -> Box<Reference> {
    let asked = name_of(rt, alloc, asked);
    let args = tys(rt, alloc, args);
    let operand = operand(rt, alloc, of);
    let reference = Reference {
        form: form_named(form),
        asked,
        operand,
        front,
        args,
    };
    Box::new(alloc, reference).expect(rt, "memory")
}

/// How a reference is spelled, nothing where there is no spelling. It is as asked exactly where
/// the text is the asked one.
pub(crate) fn spell(rt: &impl Abort, alloc: Global, table: &Table, asked: &str) -> String {
    let (form, rest) = cut_at(asked, " ");
    let (at, rest) = cut_at(rest, ";");
    let (locals, rest) = cut_at(rest, ";");
    let (asked, rest) = cut_at(rest, ";");
    let (of, rest) = cut_at(rest, ";");
    let (named, args) = cut_at(rest, ";");
    let scope = place(rt, alloc, at, locals);
    let front = front(rt, alloc, table, &scope, form, asked);
    let reference = reference(rt, alloc, form, asked, of, front, args);
    let target = target(rt, alloc, at, named);
    let spelling = respell(alloc, table, &scope, &reference, &target).expect(rt, "memory");
    match &spelling {
        None => String::new(alloc),
        Some(spelling) => {
            assert!(rt; spelling.is_asked == (spelling.text.as_str() == asked));
            String::from_str(alloc, spelling.text.as_str()).expect(rt, "memory")
        }
    }
}
