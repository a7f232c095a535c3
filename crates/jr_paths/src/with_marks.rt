//! A copy of a tree with other marks.
ghost use Rattle.std.specs.Prelude.{IfOk};
ghost use Rattle.std.specs.Fn.{FnReturnsAt};
ghost use Rattle.jr_paths_copies.specs.Same as same;
ghost use Rattle.jr_ast.specs.MemberTree as tree;
ghost use Rattle.jr_ast.specs.View.{unit_of};

use jr_ast::Unit;
use jr_paths_copies::{classes, mark_by, words};
use std::alloc::{AllocError, Global};

fn unit<B: Drop, A, F: Fn(&A) -> B>(
    alloc: Global,
    of: &Unit<A>,
    f: &F,
) -> Result<Unit<B>, AllocError>
    requires { F.IsAlwaysCallable f.now }
    ensures { IfOk result (λ x. same.SameUnit (FnReturnsAt F.Fn f.now)
        (unit_of of.now) (unit_of x)) }
{
    let path = words(alloc, &of.package, f)?;
    let all = classes(alloc, &of.classes, f)?;
    Ok(Unit::new(mark_by(&of.mark, f), path, all))
}

/// Trees that are copied with other marks.
pub trait WithMarks<A>: Sized {
    /// The tree that is copied.
    ghost whole: { Self → tree.Unit A };

    /// The same tree but for its marks. Where `f` has one answer for each mark, a node's new mark
    /// is the answer for its old one.
    ///
    /// `Err` comes only where memory runs out.
    fn with_marks<B: Drop, F: Fn(&A) -> B + Drop>(
        &self,
        alloc: Global,
        f: F,
    ) -> Result<Unit<B>, AllocError>
        requires { F.IsAlwaysCallable f }
        ensures { IfOk result (λ u. same.SameUnit (FnReturnsAt F.Fn f)
            (whole self.now) (unit_of u)) };
}

impl<A> WithMarks<A> for Unit<A> {
    ghost whole = { unit_of };

    fn with_marks<B: Drop, F: Fn(&A) -> B + Drop>(
        &self,
        alloc: Global,
        f: F,
    ) -> Result<Unit<B>, AllocError> {
        unit(alloc, self, &f)
    }
}
