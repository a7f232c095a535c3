//! The types of arguments.
use jr_table::Kind;
use std::alloc::{AllocError, Global};

/// The types of arguments, if each has one.
#[derive(Drop)]
pub struct Args {
    kinds: Vec<Kind>,
    is_typed: bool,
}

impl Args {
    ghost use Rattle.std.specs.Prelude.{◌≡◌, [], OnOk, option_map};
    ghost use Rattle.jr_bind_expr.specs.ArgsView.{kinds_of, with_last};

    /// No arguments.
    pub fn new(alloc: Global) -> Args
        ensures { kinds_of result ≡ Some [] }
    {
        Args {
            kinds: Vec::new(alloc),
            is_typed: true,
        }
    }

    /// Puts an argument behind the others.
    pub fn put(&mut self, kind: Option<Kind>) -> Result<(), AllocError>
        ensures { OnOk result (kinds_of self.new ≡ with_last (kinds_of self.old) kind) }
    {
        match kind {
            None => {
                self.is_typed = false;
                Ok(())
            }
            Some(kind) => {
                self.kinds.push(kind)?;
                Ok(())
            }
        }
    }

    /// The types.
    pub fn as_slice(&self) -> Option<&[Kind]>
        ensures { option_map (λ k. k.now) result ≡ kinds_of self.now }
    {
        if self.is_typed {
            Some(self.kinds.as_slice())
        } else {
            None
        }
    }
}
