//! Sites and edges of the first method of a class, footprints of its parts, and which of its sites
//! are those of a part. A site is told by what is done and, behind a dot, the number of its local
//! or the name of its field, with its place in the method.
use crate::methods::tell_method;
use crate::reading::put_times;
use crate::rows::{cut_at, number};
use jr_effect::dependences;
use jr_flow::Graph;
use jr_member_graphs::CfgFault;
use jr_sites::{PlacedSite, SiteGraph};
use jr_sync::Site;
use std::alloc::Global;
use std::process::Abort;

/// The class of the method: its other members, and a class below it.
const REST: &str =
    "int f;int g;volatile int v;final int c=1;static int s;A a;boolean b;A(){}A(int x){}\
    int n(int x){return x;}static void t(){}}class B extends A{}";

pub(crate) const ROWS: &'static str = "
~# A value is evaluated before it is stored; a name without a dot has no check (JLS 15.26.1).
~graph void m(){f=g;} => Load.g@11 Store.f@9 | 0-1
~graph void m(){f=v;} => VolatileLoad.v@11 Store.f@9 | 0-1
~graph void m(){v=c;} => Still.c@11 VolatileStore.v@9 | 0-1
~graph void m(){this.f=A.s;} => Load.s@18 Store.f@14 | 0-1
~# In front of a load the check stands behind its operand, of a store behind the right side.
~graph int m(A p){return p.f;} => Read.0@18 Check@20 Load.f@20 | 0-1 1-2
~graph void m(A p){p.f=g;} => Read.0@12 Load.g@16 Check@14 Store.f@14 | 0-1 1-2 2-3
~graph void m(A p){p.f+=g;} => Read.0@12 Check@14 Load.f@14 Load.g@17 Store.f@14 | 0-1 1-2 2-3 3-4
~graph void m(A p){++p.f;} => Read.0@14 Check@16 Load.f@16 Store.f@16 | 0-1 1-2 2-3
~graph int m(A p){return (p).a.f;} => Read.0@19 Check@22 Load.a@22 Check@24 Load.f@24 | 0-1 1-2 \
    2-3 3-4
~graph int m(A p){return p.s;} => Read.0@18 Check@20 Load.s@20 | 0-1 1-2
~# Locals are numbered behind parameters; a declaration writes behind its right side.
~graph int m(int p){int x=p;return x;} => Read.0@19 Write.1@17 Read.1@28 | 0-1 1-2
~graph void m(int x){x+=g;} => Read.0@14 Load.g@17 Write.0@14 | 0-1 1-2
~graph void m(int x){x++;} => Read.0@14 Write.0@14 | 0-1
~# A divisor is tested behind the operands, unless it is a literal other than zero (JLS 15.17.2).
~graph int m(int x){return x/2%3;} => Read.0@20 | none
~graph int m(int x){return x/0;} => Read.0@20 Check@22 | 0-1
~graph int m(int x){return x%(2);} => Read.0@20 Check@22 | 0-1
~graph int m(int x){return x/-2;} => Read.0@20 Check@22 | 0-1
~graph void m(int x){x/=g;} => Read.0@14 Load.g@17 Check@17 Write.0@14 | 0-1 1-2 2-3
~graph void m(A p){p.f%=g;} => Read.0@12 Check@14 Load.f@14 Load.g@17 Check@17 Store.f@14 | 0-1 \
    1-2 2-3 3-4 4-5
~# A call: target, arguments, check, call (JLS 15.12.4). `new` makes its object first.
~graph int m(A p){return p.n(f);} => Read.0@18 Load.f@22 Check@20 Call@20 | 0-1 1-2 2-3
~graph int m(){return n(this.n(f));} => Load.f@24 Call@22 Call@15 | 0-1 1-2
~graph void m(A p){p.t();A.t();} => Read.0@12 Check@14 Call@14 Call@20 | 0-1 1-2 2-3
~graph void m(){super.z();} => Call@15 | none
~graph void m(){new A(f);} => Still@9 Load.f@15 Call@9 | 0-1 1-2
~graph Object m(A p){return (B)p;} => Read.0@24 Check@21 | 0-1
~graph Object m(B p){return (A)p;} => Read.0@24 | none
~graph Object m(){return (B)null;} => none | none
~# Either branch comes behind the condition, or what follows, also where it can't in a run.
~graph void m(boolean q){if(q)f=1;else g=2;s=3;} => Read.0@21 Store.f@23 Store.g@32 Store.s@36 | \
    0-1 0-2 1-3 2-3
~graph void m(boolean q){if(q)f=1;g=2;} => Read.0@21 Store.f@23 Store.g@27 | 0-1 0-2 1-2
~graph void m(){if(true)f=1;g=2;} => Store.f@17 Store.g@21 | 0-1
~graph int m(){f=1;return 1;g=2;} => Store.f@8 Store.g@21 | none
~graph void m(boolean q,boolean r){if(q||r)f=1;} => Read.0@31 Read.1@34 Store.f@36 | 0-1 0-2 1-2
~graph void m(boolean q){f=1;if(true||q)g=2;} => Store.f@18 Read.0@31 Store.g@33 | 0-1 0-2 1-2
~graph void m(boolean q){f=1;b=false&&q;} => Store.f@18 Read.0@31 Store.b@22 | 0-1 0-2 1-2
~graph void m(boolean q){if(q&&b||b)f=1;} => Read.0@21 Load.b@24 Load.b@27 Store.f@29 | 0-1 0-2 \
    0-3 1-2 1-3 2-3
~# A loop (JLS 14.12): its own site, the condition, the body, and from there the condition.
~graph void m(boolean q){while(q)f=1;g=2;} => Loop@18 Read.0@24 Store.f@26 Store.g@30 | 0-1 1-2 \
    1-3 2-1
~graph void m(){while(true)f=1;g=2;} => Loop@9 Store.f@20 Store.g@24 | 0-1 0-2 1-0
~graph void m(boolean q){while(true||q)f=1;g=2;} => Loop@18 Read.0@30 Store.f@32 Store.g@36 | 0-1 \
    0-2 0-3 1-2 1-3 2-1 2-2 2-3
~graph void m(boolean q){while(q);f=1;} => Loop@18 Read.0@24 Store.f@27 | 0-1 1-1 1-2
~graph void m(){while(true);f=1;} => Loop@9 Store.f@21 | 0-0 0-1
~graph void m(boolean q){while(q)if(true)f=1;} => Loop@18 Read.0@24 Store.f@34 | 0-1 1-1 1-2 2-1
~graph int m(boolean q){while(q)return f;return g;} => Loop@17 Read.0@23 Load.f@32 Load.g@41 | \
    0-1 1-2 1-3
~# A monitor is left at its end, also from a `return` (JLS 14.17, 14.19); `this` isn't tested.
~graph void m(){synchronized(this){f=1;if(b)return;g=2;}s=3;} => Enter@9 Store.f@28 Load.b@35 \
    Store.g@44 Exit@48 Store.s@49 | 0-1 1-2 2-3 2-4 3-4 4-5
~graph void m(){synchronized(this){return;}f=1;} => Enter@9 Exit@35 Store.f@36 | 0-1
~graph int m(){synchronized(this){synchronized(a){return f;}}} => Enter@8 Load.a@40 Check@27 \
    Enter@27 Load.f@50 Exit@52 Exit@53 | 0-1 1-2 2-3 3-4 4-5 5-6
~graph synchronized int m(){return f;} => Enter@17 Load.f@28 Exit@30 | 0-1 1-2
~graph static synchronized void m(){} => Enter@25 Exit@29 | 0-1
~# Never null: `this`, `new`, a text, a class, a local that keeps such a value; no parameter.
~graph void m(){A p=this;p.f=1;} => Write.0@11 Read.0@18 Store.f@20 | 0-1 1-2
~graph void m(){A p=(this);A q=p;(q).f=1;} => Write.0@11 Read.0@24 Write.1@22 Read.1@27 \
    Store.f@30 | 0-1 1-2 2-3 3-4
~graph void m(){A p=this;p.f=1;p=a;} => Write.0@11 Read.0@18 Check@20 Store.f@20 Load.a@26 \
    Write.0@24 | 0-1 1-2 2-3 3-4 4-5
~graph int m(){A p=p;return p.f;} => Read.0@12 Write.0@10 Read.0@21 Check@23 Load.f@23 | 0-1 1-2 \
    2-3 3-4
~graph int m(){return new A(1).f;} => Still@15 Call@15 Load.f@24 | 0-1 1-2
~graph int m(){return ((A)this).f;} => Check@25 Load.f@25 | 0-1
~graph void m(){\"s\".z();A.class.z();} => Call@13 Call@25 | 0-1
~graph void m(A p){synchronized(p){}} => Read.0@25 Check@12 Enter@12 Exit@28 | 0-1 1-2 2-3
~# What doesn't bind has neither access nor check; a call that doesn't has both.
~graph void m(A p){p.z=f;z=g;} => Read.0@12 Load.f@16 Load.g@20 | 0-1 1-2
~graph void m(A p){p.z(f);z.t();} => Read.0@12 Load.f@16 Check@14 Call@14 Check@21 Call@21 | 0-1 \
    1-2 2-3 3-4 4-5
~# A thousand sites are told, and one more refused with their count.
~count 1*void m(boolean q){|1000*if(q);|1*} => 1000
~count 1*void m(boolean q){|1001*if(q);|1*} => too many: 1001
~count 1*void m(boolean q){|2500*if(q);|1*} => too many: 2500
~# Dependences, by the numbers of their sites.
~list void m(){f=1;f=2;} => Field 0 1
~list int m(A p){return p.f;} => Order 1 2
~list void m(){v=1;v=2;} => Field 0 1;Sync 0 1
~list int m(){return c+f;} => Sync 0 1
~list int m(){int x=1;x=2;return x;} => Output 0 1;Flow 1 2
~list void m(int x){int y=x;x=1;x=2;} => Anti 0 2;Anti 0 3;Output 2 3
~list void m(){while(true){f+=1;}} => Order 0 0;Order 0 1;Order 0 2;Order 1 0;Field 1 2;Order 2 \
    0;Field 2 1;Field 2 2
~# Of an expression: as it is evaluated for its value, also where it is a target.
~footprint 3.0 in int m(A p){return p.f;} => Read.0@18 Check@20 Load.f@20
~footprint 3.0.0 in int m(A p){return p.f;} => Read.0@18
~footprint 2.0.0 in void m(A p){p.f=g;} => Read.0@12 Check@14 Load.f@14
~footprint 2.0.1 in void m(A p){p.f=g;} => Load.g@16
~footprint 2.0 in void m(boolean q){if(q&&b)f=1;} => Read.0@21 Load.b@24
~footprint 3.0.2 in int m(A p){return p.n(f+g);} => Load.f@22 Load.g@24
~footprint 2.0 in void m(){A p=this;p.f=1;} => Read.0@18 Store.f@20
~# Of statements of a list.
~statements 1 1 3 in void m(){{f=1;g=2;s=3;}} => Store.g@14 Store.s@18
~statements 1 0 1 in void m(){{f=1;g=2;s=3;}} => Store.f@10
~statements 1 1 1 in void m(){{f=1;g=2;s=3;}} => none
~statements 1 0 2 in void m(){{A p=this;p.f=1;p=a;}} => Write.0@12 Read.0@19 Check@21 Store.f@21
~# How many stand in front of a part of a statement, or of the whole method.
~before 1 0.1 in void m(){f=g+v;} => 0
~before 1 0.1.1 in void m(){f=g+v;} => 1
~before 2 0.1 in void m(A p){p.f=g;} => 1
~before 2 0.1 in void m(A p){p.f+=g;} => 3
~before 2 0.0.0 in void m(A p){p.f=g;} => 0
~before 2 0 in void m(boolean q){while(q)f=1;} => 1
~before 2 1 in void m(boolean q){while(q)f=1;} => 2
~before 2 2 in void m(boolean q){if(q)f=1;else g=2;} => 2
~before 2 2 in void m(A p){synchronized(p){f=1;g=2;}} => 4
~before 1 0.1 in void m(){new A(f);} => 1
~before 2 0.2 in void m(A p){p.n(f);} => 1
~before - 3 in void m(boolean q){if(q);g=2;} => 1
~before - 2 in synchronized void m(){f=1;} => 1
~before - 2.0.1 in void m(){f=1;g=v;} => 1
~# Which of a method's sites are those of a statement or of an expression.
~range 3 in void m(boolean q){if(q);g=f;} => 1-3
~range 3.0.1 in void m(boolean q){if(q);g=f;} => 1-2
~range 2.1 in void m(A p){synchronized(p){p.f=1;}g=2;} => 3-6
~range 2.2 in void m(boolean q){if(q)f=1;else g=v;} => 2-4
~range 1 in void m(){;f=1;} => 0-0
~# Plain: reads of locals alone.
~plain 3.0 in int m(int x){return x+x;} => true
~plain 3.0 in int m(int x){return x/2;} => true
~plain 3.0 in int m(int x){return x/x;} => false
~plain 2.0 in int m(){return f;} => false
~plain 2.0 in int m(){return 1;} => true
~# Whether a value can't be null (JLS 15.8.3, 15.9).
~null 3.0.0 in int m(){A p=this;return p.f;} => true
~null 3.0.0 in int m(A p){return p.f;} => false
~null 4.0.0 in int m(){A p=this;p=a;return p.f;} => false
~null 2.0.0 in int m(){return ((this)).f;} => true
~null 2.0 in Object m(){return null;} => false
";

pub(crate) fn put(rt: &impl Abort, text: &mut String, piece: &str) {
    text.push_str(piece).expect(rt, "memory");
}

/// What is done at a site.
fn done_at(rt: &impl Abort, alloc: Global, placed: &PlacedSite) -> String {
    let told = match &placed.site {
        Site::Read(local) => format!(in alloc; "Read.{}", local.number),
        Site::Write(local) => format!(in alloc; "Write.{}", local.number),
        Site::Access(kind, None) => format!(in alloc; "{kind:?}"),
        Site::Access(kind, Some(field)) => format!(in alloc; "{kind:?}.{}", field.name.as_str()),
        Site::Check => format!(in alloc; "Check"),
        Site::Call => format!(in alloc; "Call"),
        Site::Loop => format!(in alloc; "Loop"),
    };
    told.expect(rt, "memory")
}

/// The sites, with their places.
pub(crate) fn tell_sites(rt: &impl Abort, alloc: Global, sites: &[PlacedSite]) -> String {
    let mut told = String::new(alloc);
    for placed in sites {
        let space = if told.is_empty() { "" } else { " " };
        let done = done_at(rt, alloc, placed);
        write!(told, "{space}{done}@{}", placed.at).expect(rt, "memory");
    }
    if told.is_empty() {
        put(rt, &mut told, "none");
    }
    told
}

fn has_edge(graph: &Graph, from: u32, to: u32) -> bool {
    graph.edges.iter().any(|edge| *edge == (from, to))
}

/// The edges, in order of their sites.
fn tell_edges(rt: &impl Abort, alloc: Global, graph: &Graph) -> String {
    let mut told = String::new(alloc);
    for from in 0..graph.size {
        for to in 0..graph.size {
            if has_edge(graph, from, to) {
                let space = if told.is_empty() { "" } else { " " };
                write!(told, "{space}{from}-{to}").expect(rt, "memory");
            }
        }
    }
    if told.is_empty() {
        put(rt, &mut told, "none");
    }
    told
}

fn tell_graph(rt: &impl Abort, alloc: Global, of: &SiteGraph) -> String {
    let sites = tell_sites(rt, alloc, of.sites.as_slice());
    let edges = tell_edges(rt, alloc, &of.graph);
    format!(in alloc; "{sites} | {edges}").expect(rt, "memory")
}

/// The dependences, with `;` between them.
fn tell_list(rt: &impl Abort, alloc: Global, of: &SiteGraph) -> String {
    let mut told = String::new(alloc);
    for found in &dependences(alloc, of).expect(rt, "memory") {
        let kind = found.kind;
        let (first, second) = (found.first, found.second);
        let mark = if told.is_empty() { "" } else { ";" };
        write!(told, "{mark}{kind:?} {first} {second}").expect(rt, "memory");
    }
    told
}

fn tell_count(rt: &impl Abort, alloc: Global, of: &SiteGraph) -> String {
    let count = of.sites.len();
    format!(in alloc; "{count}").expect(rt, "memory")
}

/// What is asked of a graph.
pub(crate) fn tell_made(
    rt: &impl Abort,
    alloc: Global,
    kind: &str,
    made: Result<SiteGraph, CfgFault>,
) -> String {
    match made {
        Err(CfgFault::Memory) => String::new(alloc),
        Err(CfgFault::TooManySites { count }) => {
            format!(in alloc; "too many: {count}").expect(rt, "memory")
        }
        Ok(of) => match kind {
            "graph" => tell_graph(rt, alloc, &of),
            "list" => tell_list(rt, alloc, &of),
            _ => tell_count(rt, alloc, &of),
        },
    }
}

/// The text of a class with the method in front.
fn class_text(rt: &impl Abort, alloc: Global, method: &str) -> String {
    let mut text = String::new(alloc);
    put(rt, &mut text, "class A{");
    put(rt, &mut text, method);
    put(rt, &mut text, REST);
    text
}

/// What is asked of the graph of a method.
pub(crate) fn tell_of_graph(rt: &impl Abort, alloc: Global, kind: &str, method: &str) -> String {
    let text = class_text(rt, alloc, method);
    tell_method(rt, alloc, text.as_str(), kind, "")
}

/// How many sites a method has, whose text is made of pieces: each behind the number of times that
/// it stands.
pub(crate) fn tell_count_of(rt: &impl Abort, alloc: Global, pieces: &str) -> String {
    let mut method = String::new(alloc);
    for piece in pieces.split('|') {
        let (times, piece) = cut_at(piece, "*");
        put_times(rt, &mut method, piece, number(rt, times));
    }
    tell_of_graph(rt, alloc, "count", method.as_str())
}

/// What is asked of a part of a method, where ` in ` parts the two.
pub(crate) fn tell_of_part(rt: &impl Abort, alloc: Global, kind: &str, asked: &str) -> String {
    let (part, method) = cut_at(asked, " in ");
    let text = class_text(rt, alloc, method);
    tell_method(rt, alloc, text.as_str(), kind, part)
}
