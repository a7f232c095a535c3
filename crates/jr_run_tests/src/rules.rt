//! The rules of a sound program: what a show tells of a program that breaks one, and of its nearest
//! neighbour that doesn't (JLS 6, 8, 14, 15).
//!
//! Of each two rows the first breaks the rule, where nothing is broken beside it but what comes of
//! what isn't bound. `javac` refuses each first program and takes each second one, but where a
//! remark says otherwise.

pub(crate) const ROWS: &'static str = "
~# A member of a member class, in a body: a class, its member class, a field.
~show class O{static class K{static int x;}int m(){return O.K.x;}}@ => 52 O O;54 K O.K;56 x O.K.x;
~# A value's name finds nothing; so it has no type, and what is due isn't there.
~show class A{int m(){return n;}}@ => 23 error NoVariable;23 error TypeMismatch;
~show class A{int n;int m(){return n;}}@ => 29 n A.n;
~show class A{int m(){return this.n;}}@ => 23 error TypeMismatch;28 error NoVariable;
~show class A{int n;int m(){return this.n;}}@ => 34 n A.n;
~show class A extends B{int m(){return f;}}@class B{private int f;} => 16 B B;33 error \
    NoVariable;33 error TypeMismatch;
~show class A extends B{int m(){return f;}}@class B{int f;} => 16 B B;33 f B.f;
~show class A extends B{int m(){return f;}}@class B extends C{private int f;}class C{int f;} => \
    16 B B;33 error NoVariable;33 error TypeMismatch;
~show class A extends B{int m(){return f;}}@class B extends C{}class C{int f;} => 16 B B;33 f \
    C.f;
~# A type's name in a body.
~show class A{Class c=Z.class;}@ => 8 Class Class;16 error NoType;
~show class A{Class c=A.class;}@ => 8 Class Class;16 A A;
~show class A{void m(){Z.m();}}@ => 17 error NoType;19 error NoMethod;
~show class A{static void m(){A.m();}}@ => 24 A A;26 m A.m();
~# A call, a creation, a written `super(..)`.
~show class A{void m(){n();}}@ => 17 error NoMethod;
~show class A{void m(){m();}}@ => 17 m A.m();
~show class A{void m(int a){m(true);}}@ => 22 error NoMethod;
~show class A{void m(int a){m(1);}}@ => 22 m A.m(int);
~show class A{void m(){new A(1);}}@ => 17 error NoMethod;21 A A;
~show class A{void m(){new A();}}@ => 17 new A.new();21 A A;
~show class A extends B{A(){super(true);}}@class B{B(int a){}} => 16 B B;22 error NoMethod;
~show class A extends B{A(){super(1);}}@class B{B(int a){}} => 16 B B;22 super B.new(int);
~# None of several methods is the most specific.
~show class A{void m(A a,B b){}void m(B b,A a){}void n(){m(null,null);}}@class B extends A{} => \
    15 A A;19 B B;32 B B;36 A A;51 error Ambiguous;
~show class A{void m(A a,B b){}void m(B b,A a){}void m(B a,B b){}void n(){m(null,null);}}@class \
    B extends A{} => 15 A A;19 B B;32 B B;36 A A;49 B B;53 B B;68 m A.m(B,B);
~show class A{void m(A a){}void m(B b){}void n(){m(null);}}@class B{} => 15 A A;28 B B;43 error \
    Ambiguous;
~show class A{void m(A a){}void m(B b){}void n(){m(null);}}@class B extends A{} => 15 A A;28 B \
    B;43 m A.m(B);
~# What is private in another class at the top.
~show class A{void m(B b){b.n();}}@class B{private void n(){}} => 15 B B;20 b A.m(B)#0;22 error \
    Private;
~show class A{void m(K k){k.n();}static class K{private void n(){}}}@class B{} => 15 K A.K;20 k \
    A.m(A.K)#0;22 n A.K.n();
~show class A{B.K f;}@class B{private static class K{}} => 8 B B;10 error Private;
~show class A{B.K f;}@class B{static class K{}} => 8 B B;10 K B.K;
~show class A{void m(){new B();}}@class B{private B(){}} => 17 error Private;21 B B;
~show class A{void m(){new A();}private A(){}}@class B{} => 17 new A.new();21 A A;
~show class A{void m(){new B.K();}}@class B{private static class K{}} => 17 error NoMethod;21 B \
    B;23 error Private;
~show class A{void m(){new K();}private static class K{}}@class B{} => 17 new A.K.new();21 K A.K;
~# What wants an object, where there is none.
~show class A{void n(){}static void m(){n();}}@ => 34 error StaticContext;
~show class A{static void n(){}static void m(){n();}}@ => 41 n A.n();
~show class A{static A m(){return this;}}@ => 15 A A;28 error StaticContext;
~show class A{A m(){return this;}}@ => 8 A A;
~show class A{void n(){}static class K{void m(){n();}}}@ => 42 error StaticContext;
~show class A{void n(){}static class K extends A{void m(){n();}}}@ => 41 A A;52 n A.n();
~show class A extends B{A(){super(this);}}@class B{B(B b){}} => 16 B B;22 super B.new(B);28 \
    error StaticContext;
~show class A extends B{A(A a){super(a);}}@class B{B(B b){}} => 16 B B;20 A A;25 super B.new(B);\
    31 a A.new(A)#0;
~show class A extends B{static void m(){super.n();}}@class B{void n(){}} => 16 B B;34 error \
    StaticContext;40 n B.n();
~show class A extends B{void m(){super.n();}}@class B{void n(){}} => 16 B B;33 n B.n();
~# A static member through a value. javac takes all of these.
~show class A{static void n(){}void m(){this.n();}}@ => 39 n A.n();39 error StaticThroughValue;
~show class A{static void n(){}void m(){A.n();}}@ => 34 A A;36 n A.n();
~show class A{static int f;int m(A a){return a.f;}}@ => 27 A A;39 a A.m(A)#0;41 f A.f;41 error \
    StaticThroughValue;
~show class A{static int f;int m(A a){return A.f;}}@ => 27 A A;39 A A;41 f A.f;
~show class A extends B{int m(){return super.f;}}@class B{static int f;} => 16 B B;39 f B.f;39 \
    error StaticThroughValue;
~show class A extends B{int m(){return super.f;}}@class B{int f;} => 16 B B;39 f B.f;
~# An instance member through a class; the second `A` is a parameter.
~show class A{void n(){}void m(){A.n();}}@ => 27 A A;29 n A.n();29 error InstanceThroughType;
~show class A{void n(){}void m(A A){A.n();}}@ => 25 A A;30 A A.m(A)#0;32 n A.n();
~show class A{int f;int m(){return A.f;}}@ => 29 A A;31 f A.f;31 error InstanceThroughType;
~show class A{static int f;int m(){return A.f;}}@ => 36 A A;38 f A.f;
~# Initializers, right sides, returned values, conditions, locks.
~show class A{void m(){int a=true;}}@ => 23 error TypeMismatch;
~show class A{void m(){boolean a=true;}}@ =>\x20
~show class A{int f=null;}@ => 14 error TypeMismatch;
~show class A{A f=null;}@ => 8 A A;
~show class A{void m(A a,B b){b=a;}}@class B extends A{} => 15 A A;19 B B;24 b A.m(A,B)#1;26 a \
    A.m(A,B)#0;26 error TypeMismatch;
~show class A{void m(A a,B b){a=b;}}@class B extends A{} => 15 A A;19 B B;24 a A.m(A,B)#0;26 b \
    A.m(A,B)#1;
~show class A{A m(){return 1;}}@ => 8 A A;21 error TypeMismatch;
~show class A{A m(){return null;}}@ => 8 A A;
~show class A{void m(int a){if(a);}}@ => 25 a A.m(int)#0;25 error TypeMismatch;
~show class A{void m(boolean a){if(a);}}@ => 29 a A.m(boolean)#0;
~show class A{void m(int a){while(a);}}@ => 28 a A.m(int)#0;28 error TypeMismatch;
~show class A{void m(boolean a){while(a);}}@ => 32 a A.m(boolean)#0;
~show class A{void m(){synchronized(null){}}}@ => 30 error TypeMismatch;
~show class A{void m(){synchronized(this){}}}@ =>\x20
~# Operators.
~show class A{boolean m(){return 1==true;}}@ => 27 error Operands;
~show class A{boolean m(){return true==true;}}@ =>\x20
~show class A{int m(boolean b){return 1+ -b;}}@ => 35 error Operands;36 b A.m(boolean)#0;
~show class A{int m(int b){return 1+ -b;}}@ => 32 b A.m(int)#0;
~show class A{boolean m(int a){return!a;}}@ => 31 error Operands;32 a A.m(int)#0;
~show class A{boolean m(boolean a){return!a;}}@ => 36 a A.m(boolean)#0;
~show class A{boolean m(A a,B b){return a==b;}}@class B{} => 18 A A;22 B B;34 a A.m(A,B)#0;34 \
    error Operands;37 b A.m(A,B)#1;
~show class A{boolean m(A a,B b){return a==b;}}@class B extends A{} => 18 A A;22 B B;34 a \
    A.m(A,B)#0;37 b A.m(A,B)#1;
~show class A{void m(boolean a){a++;}}@ => 26 a A.m(boolean)#0;26 error Operands;
~show class A{void m(int a){a++;}}@ => 22 a A.m(int)#0;
~show class A{void m(int a){a+=true;}}@ => 22 a A.m(int)#0;22 error Operands;
~show class A{void m(int a){a+=1;}}@ => 22 a A.m(int)#0;
~# Casts.
~show class A{A m(B b){return(A)b;}}@class B{} => 8 A A;12 B B;23 error BadCast;24 A A;26 b \
    A.m(B)#0;
~show class A{A m(B b){return(A)b;}}@class B extends A{} => 8 A A;12 B B;24 A A;26 b A.m(B)#0;
~show class A{A m(int a){return(A)a;}}@ => 8 A A;25 error BadCast;26 A A;28 a A.m(int)#0;
~show class A{B m(A a){return(B)a;}}@class B extends A{} => 8 B B;12 A A;24 B B;26 a A.m(A)#0;
~# What is final.
~show class A{void m(final int a){a=1;}}@ => 28 a A.m(int)#0;28 error FinalAssigned;
~show class A{void m(int a){a=1;}}@ => 22 a A.m(int)#0;
~show class A{final int f=1;A(){f=2;}}@ => 26 f A.f;26 error FinalAssigned;
~show class A{final int f;A(){f=2;}}@ => 24 f A.f;
~show class A{final int f;A(A a){f=1;a.f=2;}}@ => 22 A A;27 f A.f;31 a A.new(A)#0;33 f A.f;33 \
    error FinalAssigned;
~show class A{final int f;A(A a){this.f=1;}}@ => 22 A A;32 f A.f;
~show class A extends B{A(){f=2;}}@class B{final int f;B(){f=1;}} => 16 B B;22 f B.f;22 error \
    FinalAssigned;
~show class A extends B{A(){f=2;}}@class B{int f;B(){f=1;}} => 16 B B;22 f B.f;
~show class A{static final int f=1;A(){f=2;}}@ => 33 f A.f;33 error FinalAssigned;
~show class A{static int f=1;A(){f=2;}}@ => 27 f A.f;
~# A local in the scope of another of its name.
~show class A{void m(int a){int a=1;}}@ => 26 error Redeclared;
~show class A{int a;void m(){int a=1;}}@ =>\x20
~show class A{void m(){int a=1;{int a=2;}}}@ => 30 error Redeclared;
~show class A{void m(){{int a=2;}int a=1;}}@ =>\x20
~# A local in its own initializer, a field in that of itself or of an earlier one.
~show class A{void m(){int a=a;}}@ => 23 a A.m()#0;23 error Forward;
~show class A{int a;void m(){int a=this.a;}}@ => 34 a A.a;
~show class A{int f=g;int g=1;}@ => 14 g A.g;14 error Forward;
~show class A{int g=1;int f=g;}@ => 22 g A.g;
~show class A{int f=f;}@ => 14 f A.f;14 error Forward;
~show class A{int f=this.f;}@ => 19 f A.f;
~# A call that gives no value, as a value: what takes it is broken too.
~show class A{void n(){}boolean m(){return n()==null;}}@ => 37 n A.n();37 error Operands;37 \
    error VoidValue;
~show class A{A n(){return null;}boolean m(){return n()==null;}}@ => 8 A A;46 n A.n();
~show class A{void n(){}void m(){return n();}}@ => 27 error ReturnForm;34 n A.n();34 error \
    VoidValue;
~show class A{void n(){}void m(){n();return;}}@ => 27 n A.n();
~# `return`.
~show class A{void m(){return 1;}}@ => 17 error ReturnForm;
~show class A{void m(){return;}}@ =>\x20
~show class A{int m(){return;}}@ => 16 error ReturnForm;
~show class A{int m(){return 1;}}@ =>\x20
~show class A{A(){return null;}}@ => 12 error ReturnForm;
~show class A{A(){return;}}@ =>\x20
~# A body that can complete normally.
~show class A{int m(boolean a){if(a)return 1;}}@ => 12 error MissingReturn;28 a A.m(boolean)#0;
~show class A{int m(boolean a){if(a)return 1;else return 2;}}@ => 28 a A.m(boolean)#0;
~show class A{int m(boolean a){while(a);}}@ => 12 error MissingReturn;31 a A.m(boolean)#0;
~show class A{int m(){while((true));}}@ =>\x20
~show class A{int m(){synchronized(this){}}}@ => 12 error MissingReturn;
~show class A{int m(){synchronized(this){return 1;}}}@ =>\x20
~# A statement that can't be reached.
~show class A{void m(){return;;}}@ => 24 error Unreachable;
~show class A{void m(){{return;}}}@ =>\x20
~show class A{void m(){while(true);m();}}@ => 29 m A.m();29 error Unreachable;
~show class A{void m(boolean a){while(a);m(a);}}@ => 32 a A.m(boolean)#0;35 m A.m(boolean);37 a \
    A.m(boolean)#0;
~show class A{void m(boolean a){if(a)return;else{return;}a=true;}}@ => 29 a A.m(boolean)#0;51 a \
    A.m(boolean)#0;51 error Unreachable;
~show class A{void m(boolean a){if(a)return;a=true;}}@ => 29 a A.m(boolean)#0;38 a \
    A.m(boolean)#0;
~# A condition of constants alone. javac refuses the first and takes the others.
~show class A{void m(){while(false);}}@ => 23 error ConstantCondition;
~show class A{void m(){while(true);}}@ =>\x20
~show class A{void m(){final int a=1;while(a<2);}}@ => 37 a A.m()#0;37 error ConstantCondition;
~show class A{void m(){int a=1;while(a<2);}}@ => 31 a A.m()#0;
~show class A{static final boolean f=true;void m(){while(A.f);}}@ => 51 A A;51 error \
    ConstantCondition;53 f A.f;
~show class A{final boolean f=true;void m(){while(this.f);}}@ => 49 f A.f;
~show class A{final int f=1;void m(){while(f<2);}}@ => 37 f A.f;37 error ConstantCondition;
~show class A{void m(final int f){while(f<2);}}@ => 34 f A.m(int)#0;
~# A method over one of a superclass.
~show class A extends B{void m(){}}@class B{public void m(){}} => 16 B B;23 error Override;
~show class A extends B{public void m(){}}@class B{void m(){}} => 16 B B;
~show class A extends B{static void m(){}}@class B{void m(){}} => 16 B B;30 error Override;
~show class A extends B{static void m(){}}@class B{private void m(){}} => 16 B B;
~show class A extends B{int m(){return 1;}}@class B{void m(){}} => 16 B B;22 error Override;
~show class A extends B{int m(int a){return 1;}}@class B{void m(){}} => 16 B B;
~show class A extends B{static void m(){}}@class B{static final void m(){}} => 16 B B;30 error \
    Override;
~show class A extends B{static final void m(){}}@class B{static void m(){}} => 16 B B;
~show class A extends B{private void m(){}}@class B{void m(){}} => 16 B B;31 error Override;
~show class A extends B{private void m(){}}@class B{private void m(){}} => 16 B B;
~# An implicit `super()`.
~show class A extends B{}@class B{B(int a){}} => 6 error SuperCtor;16 B B;
~show class A extends B{}@class B{B(){}} => 16 B B;
~show class A extends B{A(){}}@class B{B(int a){}} => 16 B B;18 error SuperCtor;
~show class A extends B{A(){super(1);}}@class B{B(int a){}} => 16 B B;22 super B.new(int);
~show class A extends B{}@class B{private B(){}} => 6 error SuperCtor;16 B B;
~show class A{private A(){}static class K extends A{}}@class B{} => 44 A A;
~# A final superclass.
~show class A extends B{}@final class B{} => 16 B B;16 error FinalClass;
~show final class A extends B{}@class B{} => 22 B B;
~# A name of Object's methods. javac refuses the first, whose access is weaker, and takes the
~# others.
~show class A{int hashCode(){return 1;}}@ => 12 error ObjectMethod;
~show class A{int hashcode(){return 1;}}@ =>\x20
~show class A{void m(A a){a.notify();}}@ => 15 A A;20 a A.m(A)#0;22 error NoMethod;22 error \
    ObjectMethod;
~show class A{void m(A a){a.inform();}void inform(){}}@ => 15 A A;20 a A.m(A)#0;22 inform \
    A.inform();
";
