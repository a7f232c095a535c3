//! Where the body of a method or constructor begins.
ghost use Rattle.std.specs.Prelude.{IfOk};
ghost use Rattle.jr_new_words.specs.Mappings.{renumbered};
ghost use Rattle.jr_new_words.specs.MappingView.{renumbering_of};
ghost use Rattle.jr_new_words.specs.Scopes.{AreTables, IsBare};
ghost use Rattle.jr_local_parts.specs.Begun.{BeginsBody};

use jr_bind::Bound;
use jr_bodies::Code;
use jr_new_bodies::{Here, Spots};
use jr_new_files::{param_types, push_params};
use jr_new_words::{LocalMapping, Renumbering, Scopes, Tables};
use jr_table::Facts;
use std::alloc::{AllocError, Global};

/// The body of a method or constructor that is walked: the program and what becomes of it, what
/// binding knows of the member, the member's first byte, whether it is static, and its code.
#[derive(Clone, Copy, Drop)]
pub struct WalkedBody<'a> {
    pub tables: Tables<'a>,
    pub bound: &'a Bound,
    pub from: u32,
    pub is_static: bool,
    pub code: Code<'a>,
}

// What a path would drop in pieces goes by a call.

fn forget(scopes: Scopes<'_>) {
    drop(scopes)
}

/// Lets a place go.
pub fn forget_here(here: Here<'_>) {
    drop(here)
}

/// Where a body begins: its parameters are in scope (JLS 8.4.1), and of the member's locals this
/// becomes; none is made yet. The only fault is want of memory.
pub fn begin_body<'a>(
    alloc: Global,
    of: &WalkedBody<'a>,
    numbers: &'a Renumbering<'a>,
) -> Result<Here<'a>, AllocError>
    requires tables { AreTables of.now.tables }
    requires bare { IsBare (renumbered (renumbering_of numbers.now)) }
    ensures { IfOk result (BeginsBody of.now (renumbering_of numbers.now)) }
{
    let key = of.bound.member();
    let locals = LocalMapping::Renumbered(numbers);
    let mut scopes = Scopes::begin_with(alloc, &of.tables, key, of.is_static, locals)?;
    let pushed = push_params(&mut scopes, param_types(key), of.code.params);
    match pushed {
        Ok(()) => Ok(Here {
            scopes,
            bound: of.bound,
            from: of.from,
            spots: Spots::Nowhere,
        }),
        Err(error) => {
            forget(scopes);
            Err(error)
        }
    }
}
