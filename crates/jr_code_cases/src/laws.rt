//! The programs, each the contract of a function that does nothing.
ghost use Rattle.jr_code_cases.specs.Cases.{
  VolatileFlag,
  Overflow,
  ZeroDivisor,
  NullReceiver,
  CountedLoop,
  Monitor,
  Dispatch,
  Initializers,
  FirstValues,
  Literals,
  SecondStart,
  Bumps,
  FailedCast,
  HandedOver,
};
ghost use Rattle.jr_code_cases.specs.WrongTurns.{Endless, VoidValue, MissingReturn, Down};

/// A volatile flag: its accesses are told as such (JLS 8.3.1.4).
pub fn volatile_flag()
    ensures { VolatileFlag }
{}

/// An int that overflows, and what is divided (JLS 4.2.2, 15.17). The run is the only one.
pub fn overflow()
    ensures { Overflow }
{}

/// A division by zero throws, and nothing is stored (JLS 15.17.2).
pub fn zero_divisor()
    ensures { ZeroDivisor }
{}

/// A null receiver throws behind the evaluation of what is stored (JLS 15.26.1).
pub fn null_receiver()
    ensures { NullReceiver }
{}

/// A loop with a counter (JLS 14.12).
pub fn counted_loop()
    ensures { CountedLoop }
{}

/// A synchronized method (JLS 8.4.3.6).
pub fn monitor()
    ensures { Monitor }
{}

/// An override that calls what it overrides (JLS 15.12.4.4).
pub fn dispatch()
    ensures { Dispatch }
{}

/// A superclass's constructor, and then the initializers (JLS 12.5).
pub fn initializers()
    ensures { Initializers }
{}

/// What static fields begin with (JLS 12.4.2).
pub fn first_values()
    ensures { FirstValues }
{}

/// Two string literals of the same characters (JLS 3.10.5). The run is the only one.
pub fn literals()
    ensures { Literals }
{}

/// A thread that is started twice (java.lang.Thread.start).
pub fn second_start()
    ensures { SecondStart }
{}

/// `a.f++` and `a.f += x` (JLS 15.14.2, 15.26.2).
pub fn bumps()
    ensures { Bumps }
{}

/// A cast that fails (JLS 15.16).
pub fn failed_cast()
    ensures { FailedCast }
{}

/// A thread that waits for what another hands over by a volatile store (JLS 17.4.5).
pub fn handed_over()
    ensures { HandedOver }
{}

/// `while (true)` is no loop behind which a return is missing: the program is sound, and its run
/// comes to no end (JLS 14.21).
pub fn endless()
    ensures { Endless }
{}

/// A call without a result is no value (JLS 15.12).
pub fn void_value()
    ensures { VoidValue }
{}

/// A method with a result that can complete normally is none (JLS 8.4.7).
pub fn missing_return()
    ensures { MissingReturn }
{}

/// A superclass's value isn't assigned to a local of a subclass (JLS 5.2).
pub fn down()
    ensures { Down }
{}
