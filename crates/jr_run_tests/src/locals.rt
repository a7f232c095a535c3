//! Locals that are extracted, as scripts of one step over one file.
use crate::memory::{put, text_of};
use crate::renaming::run_three;
use crate::rows::cut_at;
use std::alloc::Global;
use std::process::Abort;

/// The call of the shelf that fails, the two bytes of A.java, a new name and, behind `@`, what
/// A.java holds; how the run ends, its report without the line end, and what A.java holds in the
/// end. Of what is refused nothing is stored: a store, which would be the third call of the shelf,
/// would fail.
pub(crate) const ROWS: &'static str = "
~# A plain read goes past another one; a volatile load may not pass; a loop; brackets behind a
~# word.
~extract 0 51 57 t@class A{int f;volatile int v;int m(){return this.f+this.v;}} => Done | \
    [{\"files\":[\"A.java\"],\"reply\":\"refactored\",\"respelled\":0}] | class A{int f;volatile \
    int v;int m(){int t = this.v; return this.f+t;}}
~extract 3 51 57 t@class A{int f;volatile int v;int m(){return this.v+this.f;}} => Refused | \
    [{\"number\":18,\"refusal\":\"LostDependence Sync A.java:49 VolatileLoad A.v before \
    A.java:56 Load A.f\",\"reply\":\"refused\"}] | class A{int f;volatile int v;int m(){return \
    this.v+this.f;}}
~extract 3 35 41 t@class A{int f;int g;void m(){while(this.f<3){this.g=1;}}} => Refused | \
    [{\"number\":7,\"refusal\":\"Conditional A.java:29\",\"reply\":\"refused\"}] | class A{int \
    f;int g;void m(){while(this.f<3){this.g=1;}}}
~extract 0 33 38 t@class A{int m(int a,int b){return(a+b);}} => Done | \
    [{\"files\":[\"A.java\"],\"reply\":\"refactored\",\"respelled\":0}] | class A{int m(int \
    a,int b){int t = (a+b); return t;}}
~# What may pass what, where an expression may stand, what is no value, names that are taken,
~# spellings, types, layouts, and places.
~extract 0 176 177 t@class A{int f;int g;volatile int v;volatile int u;final int c=1;static int \
    s;A a;boolean b;A(){}int n(int x){return x;}static int k(int x){return x;}void w(){}int \
    m(){return f+v;}} => Done | \
    [{\"files\":[\"A.java\"],\"reply\":\"refactored\",\"respelled\":0}] | class A{int f;int \
    g;volatile int v;volatile int u;final int c=1;static int s;A a;boolean b;A(){}int n(int \
    x){return x;}static int k(int x){return x;}void w(){}int m(){int t = v; return f+t;}}
~extract 3 176 177 t@class A{int f;int g;volatile int v;volatile int u;final int c=1;static int \
    s;A a;boolean b;A(){}int n(int x){return x;}static int k(int x){return x;}void w(){}int \
    m(){return v+f;}} => Refused | [{\"number\":18,\"refusal\":\"LostDependence Sync A.java:174 \
    VolatileLoad A.v before A.java:176 Load A.f\",\"reply\":\"refused\"}] | class A{int f;int \
    g;volatile int v;volatile int u;final int c=1;static int s;A a;boolean b;A(){}int n(int \
    x){return x;}static int k(int x){return x;}void w(){}int m(){return v+f;}}
~extract 3 177 180 t@class A{int f;int g;volatile int v;volatile int u;final int c=1;static int \
    s;A a;boolean b;A(){}int n(int x){return x;}static int k(int x){return x;}void w(){}int \
    m(){return f+(f=1);}} => Refused | [{\"number\":18,\"refusal\":\"LostDependence Field \
    A.java:174 Load A.f before A.java:177 Store A.f\",\"reply\":\"refused\"}] | class A{int \
    f;int g;volatile int v;volatile int u;final int c=1;static int s;A a;boolean b;A(){}int \
    n(int x){return x;}static int k(int x){return x;}void w(){}int m(){return f+(f=1);}}
~extract 3 179 180 t@class A{int f;int g;volatile int v;volatile int u;final int c=1;static int \
    s;A a;boolean b;A(){}int n(int x){return x;}static int k(int x){return x;}void w(){}int \
    m(){return n(1)+f;}} => Refused | [{\"number\":18,\"refusal\":\"LostDependence Order \
    A.java:174 Call before A.java:179 Load A.f\",\"reply\":\"refused\"}] | class A{int f;int \
    g;volatile int v;volatile int u;final int c=1;static int s;A a;boolean b;A(){}int n(int \
    x){return x;}static int k(int x){return x;}void w(){}int m(){return n(1)+f;}}
~extract 3 179 183 t@class A{int f;int g;volatile int v;volatile int u;final int c=1;static int \
    s;A a;boolean b;A(){}int n(int x){return x;}static int k(int x){return x;}void w(){}int \
    m(){return n(1)+n(2);}} => Refused | [{\"number\":18,\"refusal\":\"LostDependence Order \
    A.java:174 Call before A.java:179 Call\",\"reply\":\"refused\"}] | class A{int f;int \
    g;volatile int v;volatile int u;final int c=1;static int s;A a;boolean b;A(){}int n(int \
    x){return x;}static int k(int x){return x;}void w(){}int m(){return n(1)+n(2);}}
~extract 3 176 177 t@class A{int f;int g;volatile int v;volatile int u;final int c=1;static int \
    s;A a;boolean b;A(){}int n(int x){return x;}static int k(int x){return x;}void w(){}int \
    m(){return f+c;}} => Refused | [{\"number\":18,\"refusal\":\"LostDependence Sync A.java:174 \
    Load A.f before A.java:176 Still A.c\",\"reply\":\"refused\"}] | class A{int f;int \
    g;volatile int v;volatile int u;final int c=1;static int s;A a;boolean b;A(){}int n(int \
    x){return x;}static int k(int x){return x;}void w(){}int m(){return f+c;}}
~extract 0 185 186 t@class A{int f;int g;volatile int v;volatile int u;final int c=1;static int \
    s;A a;boolean b;A(){}int n(int x){return x;}static int k(int x){return x;}void w(){}int \
    m(int x){return (v=x)+g;}} => Done | \
    [{\"files\":[\"A.java\"],\"reply\":\"refactored\",\"respelled\":0}] | class A{int f;int \
    g;volatile int v;volatile int u;final int c=1;static int s;A a;boolean b;A(){}int n(int \
    x){return x;}static int k(int x){return x;}void w(){}int m(int x){int t = g; return (v=x)+t;}}
~extract 0 175 176 t@class A{int f;int g;volatile int v;volatile int u;final int c=1;static int \
    s;A a;boolean b;A(){}int n(int x){return x;}static int k(int x){return x;}void w(){}void m(A \
    p){p.f=g;}} => Done | [{\"files\":[\"A.java\"],\"reply\":\"refactored\",\"respelled\":0}] | \
    class A{int f;int g;volatile int v;volatile int u;final int c=1;static int s;A a;boolean \
    b;A(){}int n(int x){return x;}static int k(int x){return x;}void w(){}void m(A p){int t = g; \
    p.f=t;}}
~extract 0 171 172 t@class A{int f;int g;volatile int v;volatile int u;final int c=1;static int \
    s;A a;boolean b;A(){}int n(int x){return x;}static int k(int x){return x;}void w(){}void \
    m(){f+=f;}} => Done | [{\"files\":[\"A.java\"],\"reply\":\"refactored\",\"respelled\":0}] | \
    class A{int f;int g;volatile int v;volatile int u;final int c=1;static int s;A a;boolean \
    b;A(){}int n(int x){return x;}static int k(int x){return x;}void w(){}void m(){int t = f; \
    f+=t;}}
~extract 0 176 177 t@class A{int f;int g;volatile int v;volatile int u;final int c=1;static int \
    s;A a;boolean b;A(){}int n(int x){return x;}static int k(int x){return x;}void w(){}void \
    m(int x){x+=x;}} => Done | \
    [{\"files\":[\"A.java\"],\"reply\":\"refactored\",\"respelled\":0}] | class A{int f;int \
    g;volatile int v;volatile int u;final int c=1;static int s;A a;boolean b;A(){}int n(int \
    x){return x;}static int k(int x){return x;}void w(){}void m(int x){int t = x; x+=t;}}
~extract 0 174 175 t@class A{int f;int g;volatile int v;volatile int u;final int c=1;static int \
    s;A a;boolean b;A(){}int n(int x){return x;}static int k(int x){return x;}void w(){}int \
    m(){return f;}} => Done | \
    [{\"files\":[\"A.java\"],\"reply\":\"refactored\",\"respelled\":0}] | class A{int f;int \
    g;volatile int v;volatile int u;final int c=1;static int s;A a;boolean b;A(){}int n(int \
    x){return x;}static int k(int x){return x;}void w(){}int m(){int t = f; return t;}}
~extract 0 181 182 t@class A{int f;int g;volatile int v;volatile int u;final int c=1;static int \
    s;A a;boolean b;A(){}int n(int x){return x;}static int k(int x){return x;}void w(){}void \
    m(){synchronized(a){f=1;}}} => Done | \
    [{\"files\":[\"A.java\"],\"reply\":\"refactored\",\"respelled\":0}] | class A{int f;int \
    g;volatile int v;volatile int u;final int c=1;static int s;A a;boolean b;A(){}int n(int \
    x){return x;}static int k(int x){return x;}void w(){}void m(){A t = a; synchronized(t){f=1;}}}
~extract 0 181 182 t@class A{int f;int g;volatile int v;volatile int u;final int c=1;static int \
    s;A a;boolean b;A(){}int n(int x){return x;}static int k(int x){return x;}void w(){}void \
    m(){synchronized(a.a){f=1;}}} => Done | \
    [{\"files\":[\"A.java\"],\"reply\":\"refactored\",\"respelled\":0}] | class A{int f;int \
    g;volatile int v;volatile int u;final int c=1;static int s;A a;boolean b;A(){}int n(int \
    x){return x;}static int k(int x){return x;}void w(){}void m(){A t = a; \
    synchronized(t.a){f=1;}}}
~extract 0 183 189 t@class A{int f;int g;volatile int v;volatile int u;final int c=1;static int \
    s;A a;boolean b;A(){}int n(int x){return x;}static int k(int x){return x;}void w(){}boolean \
    m(int x){return x<1&&b;}} => Done | \
    [{\"files\":[\"A.java\"],\"reply\":\"refactored\",\"respelled\":0}] | class A{int f;int \
    g;volatile int v;volatile int u;final int c=1;static int s;A a;boolean b;A(){}int n(int \
    x){return x;}static int k(int x){return x;}void w(){}boolean m(int x){boolean t = x<1&&b; \
    return t;}}
~extract 3 174 175 t@class A{int f;int g;volatile int v;volatile int u;final int c=1;static int \
    s;A a;boolean b;A(){}int n(int x){return x;}static int k(int x){return x;}void w(){}void \
    m(){while(b)f=1;}} => Refused | [{\"number\":7,\"refusal\":\"Conditional \
    A.java:168\",\"reply\":\"refused\"}] | class A{int f;int g;volatile int v;volatile int \
    u;final int c=1;static int s;A a;boolean b;A(){}int n(int x){return x;}static int k(int \
    x){return x;}void w(){}void m(){while(b)f=1;}}
~extract 3 181 182 t@class A{int f;int g;volatile int v;volatile int u;final int c=1;static int \
    s;A a;boolean b;A(){}int n(int x){return x;}static int k(int x){return x;}void w(){}void \
    m(){if(b);else f=g;}} => Refused | [{\"number\":7,\"refusal\":\"Conditional \
    A.java:168\",\"reply\":\"refused\"}] | class A{int f;int g;volatile int v;volatile int \
    u;final int c=1;static int s;A a;boolean b;A(){}int n(int x){return x;}static int k(int \
    x){return x;}void w(){}void m(){if(b);else f=g;}}
~extract 0 176 177 t@class A{int f;int g;volatile int v;volatile int u;final int c=1;static int \
    s;A a;boolean b;A(){}int n(int x){return x;}static int k(int x){return x;}void w(){}void \
    m(){if(b){f=g;}}} => Done | \
    [{\"files\":[\"A.java\"],\"reply\":\"refactored\",\"respelled\":0}] | class A{int f;int \
    g;volatile int v;volatile int u;final int c=1;static int s;A a;boolean b;A(){}int n(int \
    x){return x;}static int k(int x){return x;}void w(){}void m(){if(b){int t = g; f=t;}}}
~extract 3 174 175 t@class A{int f;int g;volatile int v;volatile int u;final int c=1;static int \
    s;A a;boolean b;A(){}int n(int x){return x;}static int k(int x){return x;}void w(){}int \
    m(){return A.s;}} => Refused | [{\"number\":5,\"refusal\":\"BadTarget A.java:174 \
    Value\",\"reply\":\"refused\"}] | class A{int f;int g;volatile int v;volatile int u;final \
    int c=1;static int s;A a;boolean b;A(){}int n(int x){return x;}static int k(int x){return \
    x;}void w(){}int m(){return A.s;}}
~extract 3 168 171 t@class A{int f;int g;volatile int v;volatile int u;final int c=1;static int \
    s;A a;boolean b;A(){}int n(int x){return x;}static int k(int x){return x;}void w(){}void \
    m(){f=1;}} => Refused | [{\"number\":5,\"refusal\":\"BadTarget A.java:168 \
    Value\",\"reply\":\"refused\"}] | class A{int f;int g;volatile int v;volatile int u;final \
    int c=1;static int s;A a;boolean b;A(){}int n(int x){return x;}static int k(int x){return \
    x;}void w(){}void m(){f=1;}}
~extract 0 174 185 t@class A{int f;int g;volatile int v;volatile int u;final int c=1;static int \
    s;A a;boolean b;A(){}int n(int x){return x;}static int k(int x){return x;}void w(){}int \
    m(){return -2147483648+1;}} => Done | \
    [{\"files\":[\"A.java\"],\"reply\":\"refactored\",\"respelled\":0}] | class A{int f;int \
    g;volatile int v;volatile int u;final int c=1;static int s;A a;boolean b;A(){}int n(int \
    x){return x;}static int k(int x){return x;}void w(){}int m(){int t = -2147483648; return t+1;}}
~extract 3 165 166 t@class A{int f;int g;volatile int v;volatile int u;final int c=1;static int \
    s;A a;boolean b;A(){}int n(int x){return x;}static int k(int x){return x;}void w(){}int \
    z=s+1;} => Refused | [{\"number\":5,\"refusal\":\"BadTarget A.java:165 \
    Value\",\"reply\":\"refused\"}] | class A{int f;int g;volatile int v;volatile int u;final \
    int c=1;static int s;A a;boolean b;A(){}int n(int x){return x;}static int k(int x){return \
    x;}void w(){}int z=s+1;}
~extract 3 225 226 t@class A{int f;int g;volatile int v;volatile int u;final int c=1;static int \
    s;A a;boolean b;A(){}int n(int x){return x;}static int k(int x){return x;}void w(){}static \
    class P{P(int x){}}static class K extends P{K(int x){super(x);}}} => Refused | \
    [{\"number\":5,\"refusal\":\"BadTarget A.java:225 Value\",\"reply\":\"refused\"}] | class \
    A{int f;int g;volatile int v;volatile int u;final int c=1;static int s;A a;boolean \
    b;A(){}int n(int x){return x;}static int k(int x){return x;}void w(){}static class P{P(int \
    x){}}static class K extends P{K(int x){super(x);}}}
~extract 3 210 211 t@class A{int f;int g;volatile int v;volatile int u;final int c=1;static int \
    s;A a;boolean b;A(){}int n(int x){return x;}static int k(int x){return x;}void w(){}int \
    o(int x,int y){return x;}int m(){return o(n(1),f);}} => Refused | \
    [{\"number\":18,\"refusal\":\"LostDependence Order A.java:205 Call before A.java:210 Load \
    A.f\",\"reply\":\"refused\"}] | class A{int f;int g;volatile int v;volatile int u;final int \
    c=1;static int s;A a;boolean b;A(){}int n(int x){return x;}static int k(int x){return \
    x;}void w(){}int o(int x,int y){return x;}int m(){return o(n(1),f);}}
~extract 0 172 176 t@class A{int f;int g;volatile int v;volatile int u;final int c=1;static int \
    s;A a;boolean b;A(){}int n(int x){return x;}static int k(int x){return x;}void w(){}A \
    m(){return this;}} => Done | \
    [{\"files\":[\"A.java\"],\"reply\":\"refactored\",\"respelled\":0}] | class A{int f;int \
    g;volatile int v;volatile int u;final int c=1;static int s;A a;boolean b;A(){}int n(int \
    x){return x;}static int k(int x){return x;}void w(){}A m(){A t = this; return t;}}
~extract 3 191 192 t@class A{int f;int g;volatile int v;volatile int u;final int c=1;static int \
    s;A a;boolean b;A(){}int n(int x){return x;}static int k(int x){return x;}void w(){}int \
    m(Object o){return ((A)o).f+g;}} => Refused | [{\"number\":18,\"refusal\":\"LostDependence \
    Order A.java:183 Check before A.java:191 Load A.g\",\"reply\":\"refused\"}] | class A{int \
    f;int g;volatile int v;volatile int u;final int c=1;static int s;A a;boolean b;A(){}int \
    n(int x){return x;}static int k(int x){return x;}void w(){}int m(Object o){return ((A)o).f+g;}}
~extract 0 180 183 t@class A{int f;int g;volatile int v;volatile int u;final int c=1;static int \
    s;A a;boolean b;A(){}int n(int x){return x;}static int k(int x){return x;}void w(){}int \
    m(int x){return (x=f)+1;}} => Done | \
    [{\"files\":[\"A.java\"],\"reply\":\"refactored\",\"respelled\":0}] | class A{int f;int \
    g;volatile int v;volatile int u;final int c=1;static int s;A a;boolean b;A(){}int n(int \
    x){return x;}static int k(int x){return x;}void w(){}int m(int x){int t = x=f; return (t)+1;}}
~extract 3 179 180 t@class A{int f;int g;volatile int v;volatile int u;final int c=1;static int \
    s;A a;boolean b;A(){}int n(int x){return x;}static int k(int x){return x;}void w(){}int \
    m(int t){return f;}} => Refused | [{\"number\":14,\"refusal\":\"Clash \
    A.m(int)#0\",\"reply\":\"refused\"}] | class A{int f;int g;volatile int v;volatile int \
    u;final int c=1;static int s;A a;boolean b;A(){}int n(int x){return x;}static int k(int \
    x){return x;}void w(){}int m(int t){return f;}}
~extract 3 170 171 t@class A{int f;int g;volatile int v;volatile int u;final int c=1;static int \
    s;A a;boolean b;A(){}int n(int x){return x;}static int k(int x){return x;}void w(){}void \
    m(){f=g;{int t=1;}int t=2;}} => Refused | [{\"number\":14,\"refusal\":\"Clash \
    A.m()#0\",\"reply\":\"refused\"}] | class A{int f;int g;volatile int v;volatile int u;final \
    int c=1;static int s;A a;boolean b;A(){}int n(int x){return x;}static int k(int x){return \
    x;}void w(){}void m(){f=g;{int t=1;}int t=2;}}
~extract 0 171 172 t@class A{int f;int g;volatile int v;volatile int u;final int c=1;static int \
    s;A a;boolean b;A(){}int n(int x){return x;}static int k(int x){return x;}void w(){}void \
    m(){{f=g;}int t=1;}} => Done | \
    [{\"files\":[\"A.java\"],\"reply\":\"refactored\",\"respelled\":0}] | class A{int f;int \
    g;volatile int v;volatile int u;final int c=1;static int s;A a;boolean b;A(){}int n(int \
    x){return x;}static int k(int x){return x;}void w(){}void m(){{int t = g; f=t;}int t=1;}}
~extract 3 171 172 t@class A{int f;int g;volatile int v;volatile int u;final int c=1;static int \
    s;A a;boolean b;A(){}int n(int x){return x;}static int k(int x){return x;}void w(){}void \
    m(){if(b){int t=1;}}} => Refused | [{\"number\":14,\"refusal\":\"Clash \
    A.m()#0\",\"reply\":\"refused\"}] | class A{int f;int g;volatile int v;volatile int u;final \
    int c=1;static int s;A a;boolean b;A(){}int n(int x){return x;}static int k(int x){return \
    x;}void w(){}void m(){if(b){int t=1;}}}
~extract 3 174 175 int@class A{int f;int g;volatile int v;volatile int u;final int c=1;static \
    int s;A a;boolean b;A(){}int n(int x){return x;}static int k(int x){return x;}void w(){}int \
    m(){return f;}} => Refused | [{\"number\":3,\"refusal\":\"BadName \
    int\",\"reply\":\"refused\"}] | class A{int f;int g;volatile int v;volatile int u;final int \
    c=1;static int s;A a;boolean b;A(){}int n(int x){return x;}static int k(int x){return \
    x;}void w(){}int m(){return f;}}
~extract 0 181 184 s@class A{int f;int g;volatile int v;volatile int u;final int c=1;static int \
    s;A a;boolean b;A(){}int n(int x){return x;}static int k(int x){return x;}void w(){}static \
    int m(){return s+1;}} => Done | \
    [{\"files\":[\"A.java\"],\"reply\":\"refactored\",\"respelled\":1}] | class A{int f;int \
    g;volatile int v;volatile int u;final int c=1;static int s;A a;boolean b;A(){}int n(int \
    x){return x;}static int k(int x){return x;}void w(){}static int m(){int s = A.s+1; return s;}}
~extract 3 181 185 A@class A{int f;int g;volatile int v;volatile int u;final int c=1;static int \
    s;A a;boolean b;A(){}int n(int x){return x;}static int k(int x){return x;}void w(){}static \
    int m(){return k(1)+A.s;}} => Refused | [{\"number\":16,\"refusal\":\"LostBinding A.java:186 \
    A found A.m()#0\",\"reply\":\"refused\"}] | class A{int f;int g;volatile int v;volatile int \
    u;final int c=1;static int s;A a;boolean b;A(){}int n(int x){return x;}static int k(int \
    x){return x;}void w(){}static int m(){return k(1)+A.s;}}
~extract 0 170 171 g@class A{int f;int g;volatile int v;volatile int u;final int c=1;static int \
    s;A a;boolean b;A(){}int n(int x){return x;}static int k(int x){return x;}void w(){}void \
    m(){g=f;}} => Done | [{\"files\":[\"A.java\"],\"reply\":\"refactored\",\"respelled\":1}] | \
    class A{int f;int g;volatile int v;volatile int u;final int c=1;static int s;A a;boolean \
    b;A(){}int n(int x){return x;}static int k(int x){return x;}void w(){}void m(){int g = f; \
    this.g=g;}}
~extract 0 174 175 g@class A{int f;int g;volatile int v;volatile int u;final int c=1;static int \
    s;A a;boolean b;A(){}int n(int x){return x;}static int k(int x){return x;}void w(){}void \
    m(){g=1;g=f;g=2;}} => Done | \
    [{\"files\":[\"A.java\"],\"reply\":\"refactored\",\"respelled\":2}] | class A{int f;int \
    g;volatile int v;volatile int u;final int c=1;static int s;A a;boolean b;A(){}int n(int \
    x){return x;}static int k(int x){return x;}void w(){}void m(){g=1;int g = f; \
    this.g=g;this.g=2;}}
~extract 3 217 220 A@class A{int f;int g;volatile int v;volatile int u;final int c=1;static int \
    s;A a;boolean b;A(){}int n(int x){return x;}static int k(int x){return x;}void w(){}static \
    class K extends A{static int s;int m(int x){return x+1+A.s;}}} => Refused | \
    [{\"number\":16,\"refusal\":\"LostBinding A.java:221 A found \
    A.K.m(int)#1\",\"reply\":\"refused\"}] | class A{int f;int g;volatile int v;volatile int \
    u;final int c=1;static int s;A a;boolean b;A(){}int n(int x){return x;}static int k(int \
    x){return x;}void w(){}static class K extends A{static int s;int m(int x){return x+1+A.s;}}}
~extract 0 36 37 t@class A{\rint f;\r\tint m(){\r\t  return f+1;\r}} => Done | \
    [{\"files\":[\"A.java\"],\"reply\":\"refactored\",\"respelled\":0}] | class A{\rint \
    f;\r\tint m(){\r\t  int t = f;\r\t  return t+1;\r}}
~extract 3 179 180 f@class A{int f;int g;volatile int v;volatile int u;final int c=1;static int \
    s;A a;boolean b;A(){}int n(int x){return x;}static int k(int x){return x;}void w(){}int \
    m(int q){return \
    q+f+f+f+f+f+f+f+f+f+f+f+f+f+f+f+f+f+f+f+f+f+f+f+f+f+f+f+f+f+f+f+f+f+f+f+f+f+f+f+f+f+f+f+f+f+f\
    +f+f+f+f+f+f+f+f+f+f+f+f+f+f+f+f+f+f+f+f+f+f+f+f+f+f+f+f+f+f+f+f+f+f+f+f+f+f+f+f+f+f+f+f+f+f+\
    f+f+f+f+f+f+f+f+f+f+f+f+f+f+f+f+f+f+f+f+f+f+f+f+f+f+f+f+f+f+f+f+f+f+f+f+f+f+f+f+f+f+f+f+f+f+f\
    +f+f+f+f+f+f+f+f;}} => Refused | [{\"number\":17,\"refusal\":\"WouldNotCompile A.java:714 \
    Deep\",\"reply\":\"refused\"}] | class A{int f;int g;volatile int v;volatile int u;final int \
    c=1;static int s;A a;boolean b;A(){}int n(int x){return x;}static int k(int x){return \
    x;}void w(){}int m(int q){return \
    q+f+f+f+f+f+f+f+f+f+f+f+f+f+f+f+f+f+f+f+f+f+f+f+f+f+f+f+f+f+f+f+f+f+f+f+f+f+f+f+f+f+f+f+f+f+f\
    +f+f+f+f+f+f+f+f+f+f+f+f+f+f+f+f+f+f+f+f+f+f+f+f+f+f+f+f+f+f+f+f+f+f+f+f+f+f+f+f+f+f+f+f+f+f+\
    f+f+f+f+f+f+f+f+f+f+f+f+f+f+f+f+f+f+f+f+f+f+f+f+f+f+f+f+f+f+f+f+f+f+f+f+f+f+f+f+f+f+f+f+f+f+f\
    +f+f+f+f+f+f+f+f;}}
~extract 3 5 99 t@class A{int f;int m(){return f;}} => Refused | \
    [{\"number\":2,\"refusal\":\"BadPlace A.java:99\",\"reply\":\"refused\"}] | class A{int \
    f;int m(){return f;}}
~extract 3 9 8 t@class A{int f;int m(){return f;}} => Refused | \
    [{\"number\":2,\"refusal\":\"BadPlace A.java:9\",\"reply\":\"refused\"}] | class A{int f;int \
    m(){return f;}}
~extract 3 192 195 t@class A{int f;int g;volatile int v;volatile int u;final int c=1;static int \
    s;A a;boolean b;A(){}int n(int x){return x;}static int k(int x){return x;}void w(){}void \
    m(int x){if(x<1)f=1;else if(x<g)f=2;}} => Refused | [{\"number\":7,\"refusal\":\"Conditional \
    A.java:173\",\"reply\":\"refused\"}] | class A{int f;int g;volatile int v;volatile int \
    u;final int c=1;static int s;A a;boolean b;A(){}int n(int x){return x;}static int k(int \
    x){return x;}void w(){}void m(int x){if(x<1)f=1;else if(x<g)f=2;}}
~extract 3 174 175 t@class A{int f;int g;volatile int v;volatile int u;final int c=1;static int \
    s;A a;boolean b;A(){}int n(int x){return x;}static int k(int x){return x;}void w(){}void \
    m(){a.a.f=g;}} => Refused | [{\"number\":18,\"refusal\":\"LostDependence Order A.java:170 \
    Check before A.java:174 Load A.g\",\"reply\":\"refused\"}] | class A{int f;int g;volatile \
    int v;volatile int u;final int c=1;static int s;A a;boolean b;A(){}int n(int x){return \
    x;}static int k(int x){return x;}void w(){}void m(){a.a.f=g;}}
~extract 3 220 223 t@class A{int f;int g;volatile int v;volatile int u;final int c=1;static int \
    s;A a;boolean b;A(){}int n(int x){return x;}static int k(int x){return x;}void w(){}static \
    class K extends A{static int s;int m(){return (A.s=1)+A.s;}}} => Refused | \
    [{\"number\":18,\"refusal\":\"LostDependence Field A.java:215 Store A.s before A.java:222 \
    Load A.s\",\"reply\":\"refused\"}] | class A{int f;int g;volatile int v;volatile int u;final \
    int c=1;static int s;A a;boolean b;A(){}int n(int x){return x;}static int k(int x){return \
    x;}void w(){}static class K extends A{static int s;int m(){return (A.s=1)+A.s;}}}
~extract 0 181 184 t@class A{int f;int g;volatile int v;volatile int u;final int c=1;static int \
    s;A a;boolean b;A(){}int n(int x){return x;}static int k(int x){return x;}void w(){}int \
    m(int x){return f+x/2;}} => Done | \
    [{\"files\":[\"A.java\"],\"reply\":\"refactored\",\"respelled\":0}] | class A{int f;int \
    g;volatile int v;volatile int u;final int c=1;static int s;A a;boolean b;A(){}int n(int \
    x){return x;}static int k(int x){return x;}void w(){}int m(int x){int t = x/2; return f+t;}}
~extract 0 176 179 t@class A{int f;int g;volatile int v;volatile int u;final int c=1;static int \
    s;A a;boolean b;A(){}int n(int x){return x;}static int k(int x){return x;}void w(){}Object \
    m(){return\"s\";}} => Done | \
    [{\"files\":[\"A.java\"],\"reply\":\"refactored\",\"respelled\":0}] | class A{int f;int \
    g;volatile int v;volatile int u;final int c=1;static int s;A a;boolean b;A(){}int n(int \
    x){return x;}static int k(int x){return x;}void w(){}Object m(){String t = \"s\"; return t;}}
~extract 0 194 197 t@class A{int f;int g;volatile int v;volatile int u;final int c=1;static int \
    s;A a;boolean b;A(){}int n(int x){return x;}static int k(int x){return x;}void w(){}boolean \
    m(Object o){if(b)f=1;return(o)==null;}} => Done | \
    [{\"files\":[\"A.java\"],\"reply\":\"refactored\",\"respelled\":0}] | class A{int f;int \
    g;volatile int v;volatile int u;final int c=1;static int s;A a;boolean b;A(){}int n(int \
    x){return x;}static int k(int x){return x;}void w(){}boolean m(Object o){if(b)f=1;Object t = \
    (o); return t==null;}}
~extract 0 191 194 A@class A{int f;int g;volatile int v;volatile int u;final int c=1;static int \
    s;A a;boolean b;A(){}int n(int x){return x;}static int k(int x){return x;}void w(){}Object \
    m(Object o,A p){Object q=p.a;return (A)o;}} => Done | \
    [{\"files\":[\"A.java\"],\"reply\":\"refactored\",\"respelled\":0}] | class A{int f;int \
    g;volatile int v;volatile int u;final int c=1;static int s;A a;boolean b;A(){}int n(int \
    x){return x;}static int k(int x){return x;}void w(){}Object m(Object o,A p){A A = p.a; \
    Object q=A;return (A)o;}}
~extract 0 217 220 K@class A{int f;int g;volatile int v;volatile int u;final int c=1;static int \
    s;A a;boolean b;A(){}int n(int x){return x;}static int k(int x){return x;}void w(){}static \
    class K{static int z(){return 1;}}int m(A p){int q=p.f;return K.z();}} => Done | \
    [{\"files\":[\"A.java\"],\"reply\":\"refactored\",\"respelled\":1}] | class A{int f;int \
    g;volatile int v;volatile int u;final int c=1;static int s;A a;boolean b;A(){}int n(int \
    x){return x;}static int k(int x){return x;}void w(){}static class K{static int z(){return \
    1;}}int m(A p){int K = p.f; int q=K;return A.K.z();}}
~extract 0 188 191 q@class A{int f;int g;volatile int v;volatile int u;final int c=1;static int \
    s;A a;boolean b;A(){}int n(int x){return x;}static int k(int x){return x;}void w(){}static A \
    q;int m(A p){return p.f+q.f;}} => Done | \
    [{\"files\":[\"A.java\"],\"reply\":\"refactored\",\"respelled\":1}] | class A{int f;int \
    g;volatile int v;volatile int u;final int c=1;static int s;A a;boolean b;A(){}int n(int \
    x){return x;}static int k(int x){return x;}void w(){}static A q;int m(A p){int q = p.f; \
    return q+A.q.f;}}
~extract 0 178 179 t@class A{int f;int g;volatile int v;volatile int u;final int c=1;static int \
    s;A a;boolean b;A(){}int n(int x){return x;}static int k(int x){return x;}void w(){}int \
    m(){\n \t return f;}} => Done | \
    [{\"files\":[\"A.java\"],\"reply\":\"refactored\",\"respelled\":0}] | class A{int f;int \
    g;volatile int v;volatile int u;final int c=1;static int s;A a;boolean b;A(){}int n(int \
    x){return x;}static int k(int x){return x;}void w(){}int m(){\n \t int t = f;\n \t return t;}}
~extract 0 181 182 t@class A{int f;int g;volatile int v;volatile int u;final int c=1;static int \
    s;A a;boolean b;A(){}int n(int x){return x;}static int k(int x){return x;}void w(){}int \
    m(){\n  /**/return f;}} => Done | \
    [{\"files\":[\"A.java\"],\"reply\":\"refactored\",\"respelled\":0}] | class A{int f;int \
    g;volatile int v;volatile int u;final int c=1;static int s;A a;boolean b;A(){}int n(int \
    x){return x;}static int k(int x){return x;}void w(){}int m(){\n  /**/int t = f; return t;}}
~extract 0 191 192 t@class A{int f;int g;volatile int v;volatile int u;final int c=1;static int \
    s;A a;boolean b;A(){}int n(int x){return x;}static int k(int x){return x;}void w(){}int \
    m(){\n    return 1 +\n        g;\n}} => Done | \
    [{\"files\":[\"A.java\"],\"reply\":\"refactored\",\"respelled\":0}] | class A{int f;int \
    g;volatile int v;volatile int u;final int c=1;static int s;A a;boolean b;A(){}int n(int \
    x){return x;}static int k(int x){return x;}void w(){}int m(){\n    int t = g;\n    return 1 \
    +\n        t;\n}}
~# Line ends of two bytes, a monitor, letters of two bytes, comments on both sides, a list's \
    end.
~extract 0 39 40 t@class A{\r\n\tint f;\r\n\tint m(){\r\n\t\treturn f+1;\r\n\t}\r\n}\r\n => \
    Done | [{\"files\":[\"A.java\"],\"reply\":\"refactored\",\"respelled\":0}] | class \
    A{\r\n\tint f;\r\n\tint m(){\r\n\t\tint t = f;\r\n\t\treturn t+1;\r\n\t}\r\n}\r\n
~extract 0 50 51 t@class A{int f;int g;void m(){synchronized(this){g=f;}}} => Done | \
    [{\"files\":[\"A.java\"],\"reply\":\"refactored\",\"respelled\":0}] | class A{int f;int \
    g;void m(){synchronized(this){int t = f; g=t;}}}
~extract 0 31 33 λ@class Ä{int ü;int m(){return ü+1;}} => Done | \
    [{\"files\":[\"A.java\"],\"reply\":\"refactored\",\"respelled\":0}] | class Ä{int ü;int \
    m(){int λ = ü; return λ+1;}}
~extract 0 38 39 t@class A{int f;int m(){/*a*/return/*b*/f/*c*/;}} => Done | \
    [{\"files\":[\"A.java\"],\"reply\":\"refactored\",\"respelled\":0}] | class A{int f;int \
    m(){/*a*/int t = f; return/*b*/t/*c*/;}}
~extract 0 35 36 t@class A{int f;int g;void m(){f=1;g=f;}} => Done | \
    [{\"files\":[\"A.java\"],\"reply\":\"refactored\",\"respelled\":0}] | class A{int f;int \
    g;void m(){f=1;int t = f; g=t;}}
";

/// A script that extracts the expression of these bytes.
fn extract_of(rt: &impl Abort, alloc: Global, from: &str, to: &str, name: &str) -> String {
    let mut script = text_of(
        rt,
        alloc,
        "[{\"step\":\"extract_local\",\"file\":\"A.java\",\"from\":",
    );
    put(rt, &mut script, from);
    put(rt, &mut script, ",\"to\":");
    put(rt, &mut script, to);
    put(rt, &mut script, ",\"name\":\"");
    put(rt, &mut script, name);
    put(rt, &mut script, "\"}]");
    script
}

pub(crate) fn run_extract(rt: &impl Abort, alloc: Global, asked: &str) -> String {
    let (call, asked) = cut_at(asked, " ");
    let (from, asked) = cut_at(asked, " ");
    let (to, asked) = cut_at(asked, " ");
    let (name, text) = cut_at(asked, "@");
    let script = extract_of(rt, alloc, from, to, name);
    let line = "run s.json A.java";
    run_three(rt, alloc, script.as_str(), text, call, line, "A.java")
}
