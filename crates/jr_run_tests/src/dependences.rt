//! Shows of dependences: lines, refusals, and the length of what is shown.
ghost use Rattle.std.specs.Prelude.{◌≡◌, ◌<◌};
ghost use Rattle.jr_session.specs.Serving.{IsServed};

use crate::depths::put_pieces;
use crate::memory::{put, put_times};
use crate::rows::{assert_same, cut_at};
use crate::runs::run_line;
use crate::shows::{files, name_of, put_step, show, text_of};
use jr_names::{Step, What};
use jr_session::Session;
use jr_steps::Steps;
use jr_text::Text;
use std::alloc::Global;
use std::marker::Brand;
use std::process::Abort;
use std::sync::ledger::{Blank, Ledger};

/// Texts of A.java and B.java, and what a show of the first one's dependences tells: its lines, or
/// the number and the text of a refusal.
pub(crate) const ROWS: &'static str = "
~# A line for each dependence, in order of sites; a loop's site depends on itself.
~depends class A{int f;volatile int v;int m(){return this.v+this.f;}} => A.m() Sync 49 56
~depends class A{int f;void m(){while(true){f=1;}}} => A.m() Order 23 23;A.m() Order 23 35;\
    A.m() Order 35 23;A.m() Field 35 35
~# Each kind by itself.
~depends class A{int f;int m(A p){return p.f;}} => A.m(A) Order 34 34
~depends class A{int f;void m(){f=1;f=2;}} => A.m() Field 23 27
~depends class A{volatile int v;volatile int w;void m(){v=1;w=1;}} => A.m() Sync 47 51
~depends class A{int m(){int x=1;return x;}} => A.m() Flow 20 31
~depends class A{void m(boolean x){if(x);x=true;}} => A.m(boolean) Anti 29 32
~depends class A{void m(){int x=1;x=2;}} => A.m() Output 21 25
~# What flows stops at a write; the two others don't.
~depends class A{int m(){int x=1;x=2;x=3;return x;}} => A.m() Output 20 24;A.m() Output 20 28;\
    A.m() Output 24 28;A.m() Flow 28 39
~depends class A{void m(boolean x){if(x);x=true;x=false;}} => A.m(boolean) Anti 29 32;\
    A.m(boolean) Anti 29 39;A.m(boolean) Output 32 39
~depends class A{boolean m(boolean q){boolean x=true;if(q)x=false;return x;}} => A.m(boolean) \
    Output 37 49;A.m(boolean) Flow 37 64;A.m(boolean) Flow 49 64
~depends class A{boolean m(boolean q,boolean x){while(true){if(x)x=q;}}} => A.m(boolean,\
    boolean) Order 39 39;A.m(boolean,boolean) Anti 54 56;A.m(boolean,boolean) Flow 56 54;\
    A.m(boolean,boolean) Output 56 56
~# One pair may have two lines, and a pair of places as many as there are pairs of sites there.
~depends class A{volatile int v;void m(){v=1;v=2;}} => A.m() Field 32 36;A.m() Sync 32 36
~depends class A{int f;void m(){while(true){f+=1;}}} => A.m() Order 23 23;A.m() Order 23 35;\
    A.m() Order 23 35;A.m() Order 35 23;A.m() Field 35 35;A.m() Order 35 23;A.m() Field 35 35;\
    A.m() Field 35 35
~# Sites and not places are in order: a right side comes before the store.
~depends class A{int f;int g;void m(A p){p.f=g;}} => A.m(A) Order 36 34;A.m(A) Order 34 34
~# The grid's cells that the rows below leave out: a plain access in front of a volatile store
~# and of a volatile load, and behind the two.
~depends class A{int f;volatile int v;void m(){v=f;}} => A.m() Sync 40 38
~depends class A{int f;int g;volatile int v;void m(){f=1;g=v;}} => A.m() Sync 50 48
~depends class A{int f;volatile int v;void m(){v=1;f=2;}} =>\x20
~depends class A{volatile int v;volatile int w;boolean m(){v=1;return w==1;}} => A.m() Sync 50 \
    61
~# Targets that are never null, and others (JLS 15.8.3, 15.9): a local by a chain of locals, one
~# in parentheses, one that is assigned in a branch, one that is its own initializer; a cast.
~depends class A{int f;void m(){A p=this;A q=(p);(q).f=1;}} => A.m() Flow 25 37;A.m() Flow 34 \
    41
~depends class A{int f;void m(boolean c){A p=this;if(c)p=null;p.f=1;}} => A.m(boolean) Output \
    34 46;A.m(boolean) Flow 34 53;A.m(boolean) Flow 46 53;A.m(boolean) Order 55 55
~depends class A{int f;void m(){A p=p;p.f=1;}} => A.m() Anti 27 25;A.m() Flow 25 29;A.m() \
    Order 31 31
~depends class A{int f;int m(){return ((A)this).f;}} => A.m() Order 39 39
~depends class A{int f;int m(){return new A().f;}} => A.m() Order 29 29;A.m() Sync 29 37;A.m() \
    Order 29 37
~# Divisors (JLS 15.17.2): a bare literal other than zero has no check.
~depends class A{int f;int m(int x){return x/2+f;}} =>\x20
~depends class A{int f;int m(int x){return x/0+f;}} => A.m(int) Order 36 38
~depends class A{int f;int m(int x){return x%-2+f;}} => A.m(int) Order 36 39
~depends class A{int f;int m(int x){return x/(2)+f;}} => A.m(int) Order 36 40
~depends class A{int f;int g;void m(){f/=g;}} => A.m() Order 29 32;A.m() Field 29 29;A.m() \
    Order 32 32;A.m() Order 32 29
~# Casts (JLS 15.16): downwards, upwards, to the same class, of null.
~depends class A{A a;B m(){return (B)a;}}@class B extends A{} => A.m() Order 28 25
~depends class A{B b;A m(){return (A)b;}}@class B extends A{} =>\x20
~depends class A{A a;A m(){return (A)a;}} =>\x20
~depends class A{int f;void m(){B b=(B)null;f=1;}}@class B extends A{} =>\x20
~# Calls (JLS 15.12.4): the target, the arguments, the check, the call.
~depends class A{int f;int m(A p){return p.k(f);}int k(int a){return a;}} => A.m(A) Order 36 \
    34;A.m(A) Order 36 34;A.m(A) Order 34 34
~depends class A extends B{int f;void k(){super.k();f=1;}}@class B{void k(){}} => A.k() Order \
    39 43
~depends class A{static void k(){A.k();k();}} => A.k() Order 26 30
~# Constructors (JLS 8.8.7, 12.5): a written `super(..)`, one that isn't, with an argument, final
~# fields; a constructor that isn't written has no line.
~depends class A{int f;A(){super();f=1;}} => A.new() Order 18 26
~depends class A{int f;private A(int a){f=a;}} => A.new(int) Order 22 31
~depends class A extends B{A(){super(B.g);}}@class B{static int g;B(int a){}} => A.new() Order \
    30 22
~depends class A{final int f;final int g;A(){f=1;g=2;}} => A.new() Order 32 36;A.new() Order \
    32 40;A.new() Sync 36 40
~depends class A extends B{int f=1;}@class B{B(){k();}void k(){}} =>\x20
~# Initializers: an instance field is stored behind them, a static one isn't.
~depends class A{volatile int v;volatile int w=v;} => A.w Sync 38 36
~depends class A{int g;final int f=g;} => A.f Sync 26 24
~depends class A{A a=new A();static Object o=new Object();} => A.a Order 12 12;A.a Sync 12 10;\
    A.a Order 12 10;A.o Order 36 36
~depends class A{volatile int v=1;static int s=-1;} =>\x20
~# Members in text order, those of a member class where it stands; heads have none.
~depends class A{int f=f;static class B{int g=g;B(){g=1;}}void m(){f=1;f=2;}}class C{int h=h;} \
    => A.f Field 14 12;A.B.g Field 37 35;A.B.new() Order 39 43;A.m() Field 58 62;C.h Field 82 \
    80
~# Fields of other files and classes; only the shown file's members have lines.
~depends class A{void m(){B.v=1;B.v=2;}}@class B{static volatile int v;int w=w;} => A.m() \
    Field 19 25;A.m() Sync 19 25
~depends class A extends B{int f;void m(){f=1;super.f=2;this.f=3;}}@class B{int f;} => A.m() \
    Field 33 52
~depends class A extends B{void m(){f=1;super.f=2;}}@class B{int f;} => A.m() Field 27 37
~depends class A{int f;}@class B{void m(){f=1;}} =>\x20
~# Loops (JLS 14.12): a condition that may meet no site, a body that meets none, one that returns,
~# what stands behind a loop that doesn't end.
~depends class A{int f;void m(boolean x){while(true||(x=true)){f=1;}}} => A.m(boolean) Order \
    32 54;A.m(boolean) Output 45 45;A.m(boolean) Field 54 54
~depends class A{volatile boolean v;void m(){while(v);}} => A.m() Order 36 42;A.m() Sync 42 42
~depends class A{volatile boolean v;void m(){while(v)return;}} => A.m() Order 36 42
~depends class A{volatile boolean v;void m(){while(v){if(true)return;}}} => A.m() Order 36 42;\
    A.m() Sync 42 42
~depends class A{int f;void m(){while(true);f=1;}} => A.m() Order 23 23;A.m() Order 23 35
~# Branches: none reaches the other; the right operand may be left out.
~depends class A{int f;void m(boolean q){if(q)f=1;else f=2;}} =>\x20
~depends class A{int f;void m(boolean q){if(q)f=1;else f=2;f=3;}} => A.m(boolean) Field 37 50;\
    A.m(boolean) Field 46 50
~depends class A{boolean m(boolean x){boolean y=true;boolean z=x||(y=x);return y;}} => \
    A.m(boolean) Output 37 58;A.m(boolean) Flow 37 70;A.m(boolean) Flow 58 70
~# A monitor whose block doesn't complete leads to its end alone.
~depends class A{int f;void m(){synchronized(this){return;}f=1;}} => A.m() Sync 23 49
~depends class A{int f;synchronized int m(){return f;}} => A.m() Sync 31 42;A.m() Sync 31 44;\
    A.m() Sync 42 44
~# Broken rules are no refusal; what doesn't bind has no access and no check.
~depends class A{int f;void m(A p){int y=true;p.z=f;p.f=z;}} => A.m(A) Order 41 45;A.m(A) \
    Field 41 45;A.m(A) Order 45 45
~depends class A extends A.B{static class B{}} => 4 SourceError A.java:16 NoSuperclass
~depends class A{int f;void m(){f=1;f=2;}}@class B{ => 4 SourceError B.java:8 Syntax
~depends class A{int f;void m(){f=1;f=2;}}@# => 4 SourceError B.java:0 BadByte
";

/// Members of a class with these fields, and the lines of a show of the class.
const FIELDS: &str = "class A{int f;int g;volatile int v;volatile int w;final int c=1;static int s;\
    static volatile int u;A a;boolean b;";

pub(crate) const AMONG: &'static str = "
~among void m(){f=g;} =>\x20
~among void m(){f=1;g=f;} => A.m() Field 122 128
~among void m(){f=1;f=2;} => A.m() Field 122 126
~among int m(){return f+f;} =>\x20
~among int m(){return f+v;} =>\x20
~among int m(){return v+w;} => A.m() Sync 128 130
~among void m(){v=1;int x=f;} =>\x20
~among void m(){v=1;w=2;} => A.m() Sync 122 126
~among int m(){return c+c;} => A.m() Sync 128 130
~among int m(){return c+f;} => A.m() Sync 128 130
~among int m(){return this.f+this.a.f;} => A.m() Order 133 142;A.m() Order 140 142;A.m() Order \
    142 142
~among int m(A p){return (p).f+(this).f;} => A.m(A) Order 135 135;A.m(A) Order 135 144
~among void m(A p,int x){p.f=x;} => A.m(A,int) Order 133 133
~among void m(A p){p.f=g;} => A.m(A) Order 129 127;A.m(A) Order 127 127
~among void m(){synchronized(\"s\"){f=1;}} => A.m() Sync 122 140;A.m() Sync 122 144;A.m() Sync \
    140 144
~among void m(){synchronized(A.class){f=1;}} => A.m() Sync 122 144;A.m() Sync 122 148;A.m() \
    Sync 144 148
~among void m(){A p=this;p.f=1;} => A.m() Flow 124 131
~among void m(){A p=this;p.f=1;p=a;} => A.m() Flow 124 131;A.m() Output 124 137;A.m() Anti 131 \
    137;A.m() Order 133 133;A.m() Order 133 139
~among void m(A p){A q=p;q.f=1;} => A.m(A) Flow 127 131;A.m(A) Order 133 133
~among void m(){A q=a;q.f=1;} => A.m() Order 126 130;A.m() Flow 124 128;A.m() Order 130 130
~among void m(A p){p.f=1;} => A.m(A) Order 127 127
~among void m(){f+=g;} => A.m() Field 122 122
~among void m(A p){p.f+=g;} => A.m(A) Order 127 127;A.m(A) Order 127 130;A.m(A) Order 127 127;\
    A.m(A) Field 127 127
~among void m(){f++;} => A.m() Field 122 122
~among void m(A p){++p.f;} => A.m(A) Order 129 129;A.m(A) Order 129 129;A.m(A) Field 129 129
~among void m(int x){x+=f;} => A.m(int) Anti 127 127
~among void m(int x){x++;--x;} => A.m(int) Anti 127 127;A.m(int) Anti 127 133;A.m(int) Flow \
    127 133;A.m(int) Output 127 133;A.m(int) Anti 133 133
~among void m(int x){x%=f;} => A.m(int) Anti 127 127;A.m(int) Order 130 130
~among int m(int x){return x/2+x/0+x%1;} =>\x20
~among int m(int x){return x*f;} =>\x20
~among Object m(){return (A)null;} =>\x20
~among void n(){}void m(){n();f=1;} => A.m() Order 132 136
~among void n(){}void m(){this.n();f=1;} => A.m() Order 137 141
~among void n(){}void m(A p){p.n();} => A.m(A) Order 137 137
~among void m(Thread t){t.start();f=1;} => A.m(Thread) Order 132 132;A.m(Thread) Order 132 140;\
    A.m(Thread) Order 132 140
~among void m(){f=1;new A();g=1;} => A.m() Sync 122 126;A.m() Order 122 126;A.m() Order 126 \
    126;A.m() Sync 126 134;A.m() Order 126 134
~among static class P{P(int x){}}static class K extends P{K(int x){super(x+s);}} => \
    A.K.new(int) Order 181 173
~among A x=new A();static Object o=new Object(); => A.x Order 117 117;A.x Sync 117 115;A.x \
    Order 117 115;A.o Order 141 141
~among void m(){synchronized(this){f=1;}} => A.m() Sync 122 141;A.m() Sync 122 145;A.m() Sync \
    141 145
~among void m(){f=1;synchronized(this){g=1;}f=2;} => A.m() Sync 122 149;A.m() Field 122 150;\
    A.m() Sync 126 145;A.m() Sync 126 149;A.m() Sync 126 150;A.m() Sync 145 149
~among void m(A p){synchronized(p){}} => A.m(A) Order 125 125;A.m(A) Order 125 141;A.m(A) Sync \
    125 141
~among void m(){synchronized(this){}synchronized(this){}} => A.m() Sync 122 141;A.m() Sync 122 \
    142;A.m() Sync 122 161;A.m() Sync 141 142;A.m() Sync 141 161;A.m() Sync 142 161
~among static synchronized void m(){s=1;} => A.m() Sync 138 142;A.m() Sync 138 146;A.m() Sync \
    142 146
~among int m(){synchronized(this){synchronized(a){return f;}}} => A.m() Sync 121 153;A.m() \
    Order 121 140;A.m() Sync 121 140;A.m() Sync 121 163;A.m() Sync 121 165;A.m() Sync 121 166;\
    A.m() Order 153 140;A.m() Sync 153 165;A.m() Sync 153 166;A.m() Order 140 140;A.m() Order \
    140 163;A.m() Order 140 165;A.m() Order 140 166;A.m() Sync 140 163;A.m() Sync 140 165;\
    A.m() Sync 140 166;A.m() Sync 163 165;A.m() Sync 163 166;A.m() Sync 165 166
~among int m(boolean q){synchronized(this){if(q)return f;g=1;}return 2;} => A.m(boolean) Sync \
    130 161;A.m(boolean) Sync 130 163;A.m(boolean) Sync 130 167;A.m(boolean) Sync 161 167;\
    A.m(boolean) Sync 163 167
~among synchronized int m(boolean q){synchronized(a){if(q){v=1;return 1;}}return f;} => \
    A.m(boolean) Sync 130 156;A.m(boolean) Order 130 143;A.m(boolean) Sync 130 143;\
    A.m(boolean) Sync 130 165;A.m(boolean) Sync 130 179;A.m(boolean) Sync 130 187;A.m(boolean) \
    Sync 130 189;A.m(boolean) Order 156 143;A.m(boolean) Sync 156 165;A.m(boolean) Sync 156 \
    179;A.m(boolean) Sync 156 189;A.m(boolean) Order 143 143;A.m(boolean) Order 143 165;\
    A.m(boolean) Order 143 179;A.m(boolean) Order 143 187;A.m(boolean) Order 143 189;\
    A.m(boolean) Sync 143 165;A.m(boolean) Sync 143 179;A.m(boolean) Sync 143 187;A.m(boolean) \
    Sync 143 189;A.m(boolean) Sync 165 179;A.m(boolean) Sync 165 189;A.m(boolean) Sync 179 189;\
    A.m(boolean) Sync 187 189
~among void m(boolean q){if(q);else{}f=1;} =>\x20
~among int m(boolean q){if(q){v=1;return 1;}f=1;return f;} => A.m(boolean) Field 150 161
~among void m(boolean q){b=q&&b;} => A.m(boolean) Field 136 131
~among boolean m(boolean q,boolean r){return q||r||b;} =>\x20
~among boolean m(boolean q,boolean r){return q&&(r=b);} =>\x20
~among void m(boolean q,int x){boolean r=q&&(x=1)==1;f=x;} => A.m(boolean,int) Flow 151 161
~among void m(boolean q){if(!(q||b))f=1;} =>\x20
~among void m(boolean q){while(q)f=1;} => A.m(boolean) Order 131 139;A.m(boolean) Field 139 139
~among void m(){while(true){f=g;}} => A.m() Order 122 122;A.m() Order 122 136;A.m() Order 122 \
    134;A.m() Order 136 122;A.m() Order 134 122;A.m() Field 134 134
~among void m(){while(b);} => A.m() Order 122 128
~among int m(boolean q){while(q)return f;return g;} => A.m(boolean) Order 130 145;A.m(boolean) \
    Order 130 154
~among void m(boolean q){while(q){while(b)f=1;g=1;}} => A.m(boolean) Order 131 140;\
    A.m(boolean) Order 131 146;A.m(boolean) Order 131 148;A.m(boolean) Order 131 152;\
    A.m(boolean) Order 140 140;A.m(boolean) Order 140 146;A.m(boolean) Order 140 148;\
    A.m(boolean) Order 140 152;A.m(boolean) Order 146 140;A.m(boolean) Order 148 140;\
    A.m(boolean) Field 148 148;A.m(boolean) Order 152 140;A.m(boolean) Field 152 152
~among void m(boolean q){synchronized(this){while(q){f=1;}}} => A.m(boolean) Order 131 150;\
    A.m(boolean) Sync 131 159;A.m(boolean) Sync 131 164;A.m(boolean) Order 150 159;\
    A.m(boolean) Order 150 164;A.m(boolean) Field 159 159;A.m(boolean) Sync 159 164
~among void m(boolean q){while(q){synchronized(this){f=1;}}} => A.m(boolean) Order 131 140;\
    A.m(boolean) Order 131 159;A.m(boolean) Order 131 163;A.m(boolean) Sync 140 140;\
    A.m(boolean) Sync 140 159;A.m(boolean) Sync 140 163;A.m(boolean) Field 159 159;\
    A.m(boolean) Sync 159 163;A.m(boolean) Sync 163 140;A.m(boolean) Sync 163 163
~among void m(){synchronized(this){while(b){if(b)return;}}f=1;} => A.m() Order 122 141;A.m() \
    Sync 122 147;A.m() Sync 122 153;A.m() Sync 122 163;A.m() Sync 122 164;A.m() Order 141 147;\
    A.m() Order 141 153;A.m() Order 141 163;A.m() Order 141 164;A.m() Sync 147 163;A.m() Sync \
    153 163
~among int m(boolean q){int x=1;if(q)x=2;return x;} => A.m(boolean) Output 134 143;\
    A.m(boolean) Flow 134 154;A.m(boolean) Flow 143 154
~among int m(int x){int y=x;x=2;x=3;return x+y;} => A.m(int) Anti 132 134;A.m(int) Anti 132 \
    138;A.m(int) Flow 130 151;A.m(int) Output 134 138;A.m(int) Flow 138 149
~among void m(int x,int y){x=y;y=x;} => A.m(int,int) Anti 135 137;A.m(int,int) Flow 133 139
~among void m(boolean q,int x){while(q)x=x+1;} => A.m(boolean,int) Anti 147 145;A.m(boolean,\
    int) Flow 145 147;A.m(boolean,int) Output 145 145
~among void m(){;{f=1;{}};{g=f;}} => A.m() Field 124 135
~among void m(){z=f;v=1;} => A.m() Sync 124 126
~among void m(A p){p.z=f;g=1;} =>\x20
~among void m(A p){p.z(f);} => A.m(A) Order 129 127;A.m(A) Order 129 127;A.m(A) Order 127 127
~among void m(){A.z(f);} => A.m() Order 126 124
~among void m(){new A(f);} => A.m() Sync 122 128;A.m() Order 122 122;A.m() Order 128 122
~among int m(A p){return p.s+this.s;} => A.m(A) Order 133 133;A.m(A) Order 133 140
~among static int m(){return this.f+u;} =>\x20
~among int m(){v=1;return 1;f=2;} =>\x20
~among void n(){}void m(){f=n()+v;} => A.m() Order 134 138;A.m() Order 134 132;A.m() Sync 138 \
    132
~among void m(){synchronized(f){g=1;}} => A.m() Order 135 122;A.m() Sync 135 142;A.m() Order \
    122 122;A.m() Order 122 138;A.m() Order 122 142;A.m() Sync 122 138;A.m() Sync 122 142;\
    A.m() Sync 138 142
~among int m(){int x=x+1;return x;} => A.m() Anti 127 125;A.m() Flow 125 138
~among void m(){Z x=a;x.f=1;x=x;} => A.m() Flow 124 128;A.m() Flow 124 136;A.m() Output 124 \
    134;A.m() Anti 128 134;A.m() Anti 136 134
~among static class P{P(int x){}}static class K extends P{K(){s=1;}} => A.K.new() Order 164 168
";

/// Pieces of texts, each behind the number of times that it stands, and what a show tells.
pub(crate) const MANY: &'static str = "
~# A thousand sites whose lines are too long, and one more; as many without lines, and more.
~many 1*class A{int f;void m(){|1000*f=1;|1*}} => 23 ReportFull 10224765
~many 1*class A{int f;void m(){|1001*f=1;|1*}} => 24 TooManySites A.m() 1001
~many 1*class A{void m(boolean a){|1000*if(a);|1*}} =>\x20
~many 1*class A{void m(boolean a){|1001*if(a);|1*}} => 24 TooManySites A.m(boolean) 1001
~many 1*class A{void m(boolean a){|2500*if(a);|1*}} => 24 TooManySites A.m(boolean) 2500
~# The first such member in text order, here of a constructor with its call of a `super()` that
~# isn't written; of the shown file alone.
~many 1*class A{void k(boolean a){|1000*if(a);|1*}static class B{B(boolean a){|1000*if(a);|1*}}\
    void m(boolean a){|1002*if(a);|1*}} => 24 TooManySites A.B.new(boolean) 1001
~many 1*class A{int f;void m(){f=1;f=2;}}@1*class B{void m(boolean a){|1001*if(a);|1*}} => \
    A.m() Field 23 27
~# Behind what is wrong with a text or a declaration, whatever rules are broken; in front of what
~# the lines come to.
~many 1*class A{void m(boolean a){|1001*if(a);|1*}}@1*class B{ => 4 SourceError B.java:8 Syntax
~many 1*class A{void m(Z z){|1001*if(z);|1*}} => 4 SourceError A.java:15 NoTy
~many 1*class A{void m(A a){|1001*if(a);|1*}} => 24 TooManySites A.m(A) 1001
~many 1*class A{int f;void m(){|1000*f=1;|1*}void n(boolean a){|1001*if(a);|1*}} => 24 \
    TooManySites A.n(boolean) 1001
~# Lines that are only counted: of locals, and in a loop of each site with each.
~many 1*class A{void mmmmmmmmmmmmmmmmmmmm(int x){|500*x=x;|1*}} => 23 ReportFull 10514950
~many 1*class A{volatile int v;void m(){while(true){|499*v++;|1*}}} => 23 ReportFull 33876614
~# What the lines of all members come to.
~many 1*class A{int f;void m(){|700*f=1;|1*}void n(){|700*f=1;|1*}} => 23 ReportFull 10090065
";

/// Scripts over A.java, which holds `class A{}`, or over the two files of renames in scripts: shows
/// behind edits, what is undone and done again, a rename that respells, and what is refused. A show
/// tells what the present texts have.
pub(crate) const SCRIPTS: &'static str = "
~one 0 [{\"step\":\"edit\",\"file\":\"A.java\",\"from\":8,\"to\":8,\"text\":\"int f;volatile \
    int v;int m(){return this.v+this.f;}\"},{\"step\":\"show\",\"file\":\"A.java\",\
    \"what\":\"dependences\"},{\"step\":\"undo\"},{\"step\":\"show\",\"file\":\"A.java\",\
    \"what\":\"dependences\"},{\"step\":\"redo\"},{\"step\":\"show\",\"file\":\"A.java\",\
    \"what\":\"dependences\"},{\"step\":\"show\",\"file\":\"A.java\",\"what\":\"bindings\"},{\
    \"step\":\"edit\",\"file\":\"A.java\",\"from\":14,\"to\":23,\"text\":\"\"},{\
    \"step\":\"show\",\"file\":\"A.java\",\"what\":\"dependences\"}] => Done | [{\
    \"reply\":\"edited\"},{\"lines\":[\"A.m() Sync 49 56\"],\"reply\":\"shown\"},{\
    \"reply\":\"undone\"},{\"lines\":[],\"reply\":\"shown\"},{\"reply\":\"redone\"},{\
    \"lines\":[\"A.m() Sync 49 56\"],\"reply\":\"shown\"},{\"lines\":[\"49 v A.v\",\"56 f \
    A.f\"],\"reply\":\"shown\"},{\"reply\":\"edited\"},{\"lines\":[],\"reply\":\"shown\"}] | \
    class A{int f;int v;int m(){return this.v+this.f;}}
~two [{\"step\":\"show\",\"file\":\"B.java\",\"what\":\"dependences\"},{\"step\":\"edit\",\
    \"file\":\"B.java\",\"from\":32,\"to\":32,\"text\":\"x=1;\"},{\"step\":\"show\",\
    \"file\":\"B.java\",\"what\":\"dependences\"},{\"step\":\"edit\",\"file\":\"A.java\",\
    \"from\":8,\"to\":8,\"text\":\"volatile \"},{\"step\":\"show\",\"file\":\"B.java\",\
    \"what\":\"dependences\"},{\"step\":\"undo\"},{\"step\":\"show\",\"file\":\"B.java\",\
    \"what\":\"dependences\"},{\"step\":\"rename\",\"file\":\"B.java\",\"at\":22,\"name\":\"x\"}\
    ,{\"step\":\"show\",\"file\":\"B.java\",\"what\":\"dependences\"}] => Done | [{\"lines\":[],\
    \"reply\":\"shown\"},{\"reply\":\"edited\"},{\"lines\":[\"B.m() Field 32 43\"],\
    \"reply\":\"shown\"},{\"reply\":\"edited\"},{\"lines\":[\"B.m() Field 32 43\",\"B.m() Sync \
    32 43\"],\"reply\":\"shown\"},{\"reply\":\"undone\"},{\"lines\":[\"B.m() Field 32 43\"],\
    \"reply\":\"shown\"},{\"files\":[\"B.java\"],\"reply\":\"refactored\",\"respelled\":2},{\
    \"lines\":[\"B.m() Field 38 55\"],\"reply\":\"shown\"}] | class A{int x;} class B extends A{\
    int x;int m(){super.x=1;return super.x;}}
~one 3 [{\"step\":\"show\",\"file\":\"C.java\",\"what\":\"dependences\"},{\"step\":\"edit\",\
    \"file\":\"A.java\",\"from\":8,\"to\":9,\"text\":\"\"},{\"step\":\"show\",\
    \"file\":\"C.java\",\"what\":\"dependences\"},{\"step\":\"show\",\"file\":\"A.java\",\
    \"what\":\"dependences\"},{\"step\":\"undo\"},{\"step\":\"show\",\"file\":\"A.java\",\
    \"what\":\"dependences\"}] => Refused | [{\"number\":1,\"refusal\":\"NoSuchFile C.java\",\
    \"reply\":\"refused\"},{\"reply\":\"edited\"},{\"number\":1,\"refusal\":\"NoSuchFile \
    C.java\",\"reply\":\"refused\"},{\"number\":4,\"refusal\":\"SourceError A.java:8 Syntax\",\
    \"reply\":\"refused\"},{\"reply\":\"undone\"},{\"lines\":[],\"reply\":\"shown\"}] | class A{\
    }
";

const SCRIPT: &str = "[{\"step\":\"show\",\"file\":\"A.java\",\"what\":\"dependences\"}]";

/// A text without what it begins and ends with, where it does both.
fn between<'a>(text: &'a str, front: &str, back: &str) -> &'a str {
    match text.strip_prefix(front) {
        None => text,
        Some(rest) => match rest.strip_suffix(back) {
            None => text,
            Some(inner) => inner,
        },
    }
}

/// The lines of a run's one show with `;` between them, or its refusal; else the run's end as it
/// is.
fn tell_lines(rt: &impl Abort, alloc: Global, told: &str) -> String {
    let shown = between(told, "Done | [{\"lines\":[", "],\"reply\":\"shown\"}]\n");
    let shown = between(shown, "\"", "\"");
    let front = "Refused | [{\"number\":";
    let shown = between(shown, front, "\",\"reply\":\"refused\"}]\n");
    let lines = shown.replace(alloc, "\",\"", ";").expect(rt, "memory");
    let bare = lines.as_str().replace(alloc, ",\"refusal\":\"", " ");
    bare.expect(rt, "memory")
}

/// What a run of a show of A.java tells; a store, which would be the fourth call of the shelf,
/// would fail.
pub(crate) fn tell_dependences<'a>(
    rt: &impl Abort,
    alloc: Global,
    first: &'a str,
    second: &'a str,
) -> String {
    let script: &str = SCRIPT;
    let held = [
        ("s.json", script.as_bytes()),
        ("A.java", first.as_bytes()),
        ("B.java", second.as_bytes()),
    ];
    let end = run_line(rt, alloc, held.as_slice(), "run s.json A.java B.java", 4, 0);
    tell_lines(rt, alloc, end.told.as_str())
}

pub(crate) fn show_dependences(rt: &impl Abort, alloc: Global, texts: &str) -> String {
    let (first, second) = cut_at(texts, "@");
    tell_dependences(rt, alloc, first, second)
}

pub(crate) fn show_among(rt: &impl Abort, alloc: Global, members: &str) -> String {
    let mut text = String::new(alloc);
    put(rt, &mut text, FIELDS);
    put(rt, &mut text, members);
    put(rt, &mut text, "}");
    tell_dependences(rt, alloc, text.as_str(), "")
}

pub(crate) fn show_many(rt: &impl Abort, alloc: Global, pieces: &str) -> String {
    let (first, second) = cut_at(pieces, "@");
    let mut text = String::new(alloc);
    put_pieces(rt, &mut text, first);
    let mut other = String::new(alloc);
    if second != "" {
        put_pieces(rt, &mut other, second);
    }
    tell_dependences(rt, alloc, text.as_str(), other.as_str())
}

// The dependences of a file.
fn show_sites(rt: &impl Abort, alloc: Global, name: &str) -> Step
    ensures { IsServed result }
{
    let file = name_of(rt, alloc, name);
    Step::Show {
        file,
        what: What::Dependences,
    }
}

// A class of such a name, whose only line is of two stores.
fn storing(rt: &impl Abort, alloc: Global, count: usize) -> Text {
    let mut text = String::new(alloc);
    put(rt, &mut text, "class ");
    put_times(rt, &mut text, "a", count);
    put(rt, &mut text, "{int f;void m(){f=1;f=2;}}");
    text_of(rt, alloc, text.as_str())
}

// Fourteen shows of dependences of a large file and one of its bindings are answered; then what is
// told of one more, and of one of a small file.
fn full_of_both<L: Ledger>(rt: &impl Abort, alloc: Global, small: Text, blank: Blank) -> String
    requires name { blank.name ≡ L.name }
    requires parts { blank.parts ≡ L.parts }
    requires some { 0 < L.parts }
{
    let mut steps = Steps::<L>::new(blank);
    let large = storing(rt, alloc, 524_261);
    let files = files(rt, alloc, ("A.java", large), ("B.java", small));
    let mut session = Session::begin(alloc, files).expect(rt, "a session");
    let large = show_sites(rt, alloc, "A.java");
    for _ in 0..14 {
        session.step(alloc, &large, &mut steps).expect(rt, "memory");
    }
    let bound = show(rt, alloc, "A.java");
    session.step(alloc, &bound, &mut steps).expect(rt, "memory");
    let small = show_sites(rt, alloc, "B.java");
    let mut text = String::new(alloc);
    put_step(rt, alloc, &mut session, &large, &mut steps, &mut text);
    put_step(rt, alloc, &mut session, &small, &mut steps, &mut text);
    text
}

fn assert_full(rt: &impl Abort, alloc: Global, count: usize, expected: &str) {
    let small = storing(rt, alloc, count);
    let text = full_of_both::<Brand>(rt, alloc, small, Blank::new(1));
    assert_same(rt, text.as_str(), expected);
}

// The line of dependences of A.java has 524,261 + 4 + 1 + 5 + 1 + 6 + 1 + 6 bytes, which are
// 524,285, and its two lines of bindings 6 + 3 + 524,261 + 2 each. Fourteen and one leave 74: for a
// line of 58 + 4 + 1 + 5 + 1 + 2 + 1 + 2 bytes, but not for one more.
#[test]
fn a_report_is_full_of_both(rt: HostRuntime) {
    let alloc = rt.alloc();
    let ten = "aaaaaaaaaa";
    let mut expected = String::new(alloc);
    put(&rt, &mut expected, "full 8912819|");
    put_times(&rt, &mut expected, ten, 5);
    put(&rt, &mut expected, "aaaaaaaa.m() Field 80 84;|");
    assert_full(&rt, alloc, 58, expected.as_str());
    assert_full(&rt, alloc, 59, "full 8912819|full 8388609|");
}
