//! The texts of refusals and reports.
ghost use Rattle.std.specs.Prelude.{◌≡◌};
ghost use Rattle.jr_names.specs.RefusalView.{refusal_of};
ghost use Rattle.jr_script.specs.RefusalTexts as refusals;

use crate::rows::assert_same;
use jr_ast::Name;
use jr_names::{Lines, Names, Need, Refusal, Reply, SiteAt};
use jr_script::{refusal_text, report_text};
use jr_sync::{DepKind, Kind, Site};
use jr_table::{ClassKey, Decl, FieldKey, Found, LocalKey, MemberKey, MethodKey, Ty, Tys};
use jr_text::Place;
use std::alloc::Global;
use std::process::Abort;

fn name_of(rt: &impl Abort, alloc: Global, text: &str) -> Name {
    Name::new(alloc, text).expect(rt, "memory")
}

fn names(rt: &impl Abort, alloc: Global, texts: &[&str]) -> Vec<Name> {
    let mut names = Vec::new(alloc);
    for text in texts {
        names.push(name_of(rt, alloc, text)).expect(rt, "memory");
    }
    names
}

fn class(rt: &impl Abort, alloc: Global, text: &str) -> ClassKey {
    let name = name_of(rt, alloc, text);
    ClassKey { outer: None, name }
}

fn field(rt: &impl Abort, alloc: Global, text: &str) -> FieldKey {
    let class = class(rt, alloc, "A");
    let name = name_of(rt, alloc, text);
    FieldKey { class, name }
}

// The method `m` of A, with so many parameters of type int.
fn method(rt: &impl Abort, alloc: Global, ints: usize) -> MethodKey {
    let mut params = Vec::new(alloc);
    for _ in 0..ints {
        params.push(Ty::Int).expect(rt, "memory");
    }
    let class = class(rt, alloc, "A");
    let name = name_of(rt, alloc, "m");
    let params = Tys::from_vec(params).expect(rt, "memory");
    MethodKey {
        class,
        name,
        params,
    }
}

fn local(rt: &impl Abort, alloc: Global, ints: usize, number: u32) -> LocalKey {
    let member = MemberKey::Method(method(rt, alloc, ints));
    LocalKey { member, number }
}

fn at(at: u32) -> Place
    ensures { result ≡ record { file = 0; at = at } }
{
    Place { file: 0, at }
}

// Asserts that a refusal has this text.
fn check(rt: &impl Abort, alloc: Global, files: &[Name], refusal: Refusal, expected: &str)
    requires { refusals.ArePlacesIn files.now (refusals.places_of (refusal_of refusal)) }
{
    let text = refusal_text(alloc, files, &refusal).expect(rt, "memory");
    assert_same(rt, text.as_str(), expected);
}

#[test]
fn refusals_of_names(rt: HostRuntime) {
    let alloc = rt.alloc();
    let files = names(&rt, alloc, &["A.java"]);
    assert!(rt; files.len() == 1);
    let name = name_of(&rt, alloc, "C.java");
    let refusal = Refusal::NoSuchFile { name };
    check(&rt, alloc, &files, refusal, "NoSuchFile C.java");
    let file = name_of(&rt, alloc, "A.java");
    let refusal = Refusal::BadPlace { file, at: 999 };
    check(&rt, alloc, &files, refusal, "BadPlace A.java:999");
    let name = name_of(&rt, alloc, "goto");
    let refusal = Refusal::BadName { name };
    check(&rt, alloc, &files, refusal, "BadName goto");
    let file = name_of(&rt, alloc, "A.java");
    let kind = name_of(&rt, alloc, "Syntax");
    let refusal = Refusal::SourceError { file, at: 9, kind };
    check(&rt, alloc, &files, refusal, "SourceError A.java:9 Syntax");
    let need = name_of(&rt, alloc, Need::OneUse.name());
    let refusal = Refusal::BadTarget { at: at(41), need };
    check(&rt, alloc, &files, refusal, "BadTarget A.java:41 OneUse");
    let method = name_of(&rt, alloc, "Thread.run()");
    let refusal = Refusal::PreludeMethod { method };
    check(&rt, alloc, &files, refusal, "PreludeMethod Thread.run()");
}

#[test]
fn refusals_at_places(rt: HostRuntime) {
    let alloc = rt.alloc();
    let files = names(&rt, alloc, &["A.java"]);
    assert!(rt; files.len() == 1);
    let refusal = Refusal::Conditional { at: at(29) };
    check(&rt, alloc, &files, refusal, "Conditional A.java:29");
    let refusal = Refusal::HasReturn { at: at(7) };
    check(&rt, alloc, &files, refusal, "HasReturn A.java:7");
    let first = local(&rt, alloc, 0, 0);
    let second = local(&rt, alloc, 0, 1);
    let refusal = Refusal::TwoResults { first, second };
    check(&rt, alloc, &files, refusal, "TwoResults A.m()#0 A.m()#1");
    let method = method(&rt, alloc, 2);
    let call = at(5);
    let refusal = Refusal::ManyTargets { call, method };
    check(
        &rt,
        alloc,
        &files,
        refusal,
        "ManyTargets A.java:5 A.m(int,int)",
    );
    let refusal = Refusal::MayBeNull { at: at(0) };
    check(&rt, alloc, &files, refusal, "MayBeNull A.java:0");
    let call = at(4294967295);
    let refusal = Refusal::Recursive { call };
    check(&rt, alloc, &files, refusal, "Recursive A.java:4294967295");
}

#[test]
fn refusals_of_declarations(rt: HostRuntime) {
    let alloc = rt.alloc();
    let files = names(&rt, alloc, &["A.java"]);
    assert!(rt; files.len() == 1);
    let assigned = local(&rt, alloc, 1, 2);
    let refusal = Refusal::Assigned {
        local: assigned,
        at: at(33),
    };
    check(&rt, alloc, &files, refusal, "Assigned A.m(int)#2 A.java:33");
    let with = Decl::Local(local(&rt, alloc, 0, 1));
    let refusal = Refusal::Clash { with };
    check(&rt, alloc, &files, refusal, "Clash A.m()#1");
    let of = class(&rt, alloc, "D");
    let overridden = method(&rt, alloc, 0);
    let refusal = Refusal::OverrideChanged {
        class: of,
        method: overridden,
    };
    check(&rt, alloc, &files, refusal, "OverrideChanged D A.m()");
    let rule = name_of(&rt, alloc, "TypeMismatch");
    let refusal = Refusal::WouldNotCompile { at: at(3), rule };
    let text = "WouldNotCompile A.java:3 TypeMismatch";
    check(&rt, alloc, &files, refusal, text);
    let member = MemberKey::Method(method(&rt, alloc, 0));
    let refusal = Refusal::TooManySites {
        member,
        count: 1001,
    };
    check(&rt, alloc, &files, refusal, "TooManySites A.m() 1001");
}

#[test]
fn refusals_of_numbers(rt: HostRuntime) {
    let alloc = rt.alloc();
    let files = names(&rt, alloc, &["A.java"]);
    assert!(rt; files.len() == 1);
    let refusal = Refusal::BadSpan { from: 3, to: 2 };
    check(&rt, alloc, &files, refusal, "BadSpan 3 2");
    let refusal = Refusal::TooLong { len: 1048577 };
    check(&rt, alloc, &files, refusal, "TooLong 1048577");
    check(&rt, alloc, &files, Refusal::NothingToUndo, "NothingToUndo");
    check(&rt, alloc, &files, Refusal::NothingToRedo, "NothingToRedo");
    let refusal = Refusal::ReportFull { len: 8388609 };
    check(&rt, alloc, &files, refusal, "ReportFull 8388609");
}

// A reference to the field A.f at byte 50, which is lost to what is found.
fn check_found(rt: &impl Abort, alloc: Global, found: Found, told: &str) {
    let files = names(rt, alloc, &["A.java"]);
    assert!(rt; files.len() == 1);
    let declaration = Decl::Field(field(rt, alloc, "f"));
    let refusal = Refusal::LostBinding {
        reference: at(50),
        declaration,
        found,
    };
    let expected = format!(in alloc; "LostBinding A.java:50 A.f found {told}");
    check(
        rt,
        alloc,
        &files,
        refusal,
        expected.expect(rt, "memory").as_str(),
    );
}

// Each answer of a lookup.
#[test]
fn lost_bindings(rt: HostRuntime) {
    let alloc = rt.alloc();
    let one = Found::One(Decl::Local(local(&rt, alloc, 1, 1)));
    check_found(&rt, alloc, one, "A.m(int)#1");
    check_found(&rt, alloc, Found::Nothing, "none");
    let first = Decl::Method(method(&rt, alloc, 0));
    let second = Decl::Method(method(&rt, alloc, 1));
    check_found(&rt, alloc, Found::Many(first, second), "A.m() and A.m(int)");
    let private = Found::NotAccessible(Decl::Field(field(&rt, alloc, "g")));
    check_found(&rt, alloc, private, "A.g not accessible");
    let of_object = Found::FromStatic(Decl::Field(field(&rt, alloc, "g")));
    check_found(&rt, alloc, of_object, "A.g from static");
}

// A dependence between this site and a write of A.g.
fn check_site(
    rt: &impl Abort,
    alloc: Global,
    kind: DepKind,
    site: Site<FieldKey, LocalKey>,
    told: &str,
) {
    let files = names(rt, alloc, &["A.java"]);
    assert!(rt; files.len() == 1);
    let first = SiteAt {
        place: at(49),
        site,
    };
    let second = SiteAt {
        place: at(56),
        site: Site::Access(Kind::Store, Some(field(rt, alloc, "g"))),
    };
    let refusal = Refusal::LostDependence {
        kind,
        first,
        second,
    };
    let expected = format!(in alloc; "LostDependence {told} before A.java:56 Store A.g");
    check(
        rt,
        alloc,
        &files,
        refusal,
        expected.expect(rt, "memory").as_str(),
    );
}

// Each kind of site, as the first of two.
#[test]
fn lost_dependences(rt: HostRuntime) {
    let alloc = rt.alloc();
    let site = Site::Access(Kind::VolatileLoad, Some(field(&rt, alloc, "v")));
    check_site(
        &rt,
        alloc,
        DepKind::Sync,
        site,
        "Sync A.java:49 VolatileLoad A.v",
    );
    let site = Site::Access(Kind::Load, Some(field(&rt, alloc, "f")));
    check_site(&rt, alloc, DepKind::Field, site, "Field A.java:49 Load A.f");
    let site = Site::Access(Kind::Exit, None);
    check_site(&rt, alloc, DepKind::Sync, site, "Sync A.java:49 Exit");
    check_site(
        &rt,
        alloc,
        DepKind::Order,
        Site::Check,
        "Order A.java:49 Check",
    );
    check_site(
        &rt,
        alloc,
        DepKind::Order,
        Site::Call,
        "Order A.java:49 Call",
    );
    check_site(
        &rt,
        alloc,
        DepKind::Order,
        Site::Loop,
        "Order A.java:49 Loop",
    );
    let site = Site::Write(local(&rt, alloc, 0, 0));
    check_site(
        &rt,
        alloc,
        DepKind::Flow,
        site,
        "Flow A.java:49 Write A.m()#0",
    );
    let site = Site::Read(local(&rt, alloc, 0, 0));
    check_site(
        &rt,
        alloc,
        DepKind::Anti,
        site,
        "Anti A.java:49 Read A.m()#0",
    );
    let site = Site::Write(local(&rt, alloc, 1, 0));
    let told = "Output A.java:49 Write A.m(int)#0";
    check_site(&rt, alloc, DepKind::Output, site, told);
}

#[test]
fn replies(rt: HostRuntime) {
    let alloc = rt.alloc();
    let files = names(&rt, alloc, &["A.java"]);
    assert!(rt; files.len() == 1);
    let none = report_text(alloc, &files, &[]).expect(&rt, "memory");
    assert_same(&rt, none.as_str(), "[]\n");
    let shown = Lines::from_vec(names(&rt, alloc, &["44 B B", "61 x O.x"]));
    let changed = Names::from_vec(names(&rt, alloc, &["Worker.java", "Starter.java"]));
    let all = [
        Reply::Shown(shown),
        Reply::Edited,
        Reply::Refactored {
            files: changed,
            respelled: 1,
        },
        Reply::Undone,
        Reply::Redone,
    ];
    let text = report_text(alloc, &files, &all).expect(&rt, "memory");
    assert_same(
        &rt,
        text.as_str(),
        "[{\"lines\":[\"44 B B\",\"61 x O.x\"],\"reply\":\"shown\"},{\"reply\":\"edited\"},\
         {\"files\":[\"Worker.java\",\"Starter.java\"],\"reply\":\"refactored\",\"respelled\":1},\
         {\"reply\":\"undone\"},{\"reply\":\"redone\"}]\n",
    );
}

#[test]
fn refused_reply(rt: HostRuntime) {
    let alloc = rt.alloc();
    let files = names(&rt, alloc, &["a\"b.java"]);
    assert!(rt; files.len() == 1);
    let refusal = Refusal::Conditional { at: at(29) };
    let replies = [Reply::Refused(refusal)];
    let text = report_text(alloc, &files, &replies).expect(&rt, "memory");
    assert_same(
        &rt,
        text.as_str(),
        "[{\"number\":7,\"refusal\":\"Conditional a\\\"b.java:29\",\"reply\":\"refused\"}]\n",
    );
}
