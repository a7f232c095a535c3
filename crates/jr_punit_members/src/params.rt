//! How far parameters have been read (JLS 8.4.1).
ghost use Rattle.std.specs.Prelude.{◌≡◌, ◌∷◌, ◌++◌, [], Some, IfOk, IfSome, map, option_map};
ghost use Rattle.std.specs.Option.{is_some};
ghost use Rattle.jr_ast.specs.View.{type_of, param_of};
ghost use Rattle.jr_pexpr.specs.Marked.{join};
ghost use Rattle.jr_pstmt.specs.CueView.{cue_view};
ghost use Rattle.jr_pstmt.specs.Cues as pure;
ghost use Rattle.jr_pstmt.specs.TypeMachine as types;
ghost use Rattle.jr_pstmt.specs.TypeStateView.{type_state};
ghost use Rattle.jr_pstmt.specs.ParameterMachine as machine;
ghost use Rattle.jr_punit_members.specs.ParamView.{params_view, param_state, IsNextParam};

use jr_ast::{ModWord, Param, TypeRef};
use jr_pstmt::{Cue, Made, TypeState, word};
use jr_text::Span;
use std::alloc::Global;

/// How far parameters have been read.
#[derive(Drop)]
pub enum ParamState {
    /// A parameter is to come: the first, or one behind a comma.
    Want(Vec<Param<Span>>),
    /// In the type of a parameter: those before it, its first token, whether it is `final`.
    InType(Vec<Param<Span>>, Span, bool, TypeState),
    /// Behind a parameter.
    Have(Vec<Param<Span>>),
}

/// The state behind a token; `None` where the token can't stand there.
type Stepped = Made<Option<ParamState>>;

/// A modifier of a parameter, which is `final`.
fn begin_final(params: Vec<Param<Span>>, at: Span, word: ModWord) -> Stepped
    ensures { IsNextParam result (machine.begin_final (params_view params) at word) }
{
    match word {
        ModWord::Final => Ok(Some(ParamState::InType(params, at, true, TypeState::Want(true)))),
        _ => Ok(None),
    }
}

/// The first token of a parameter's type.
fn begin_type(alloc: Global, params: Vec<Param<Span>>, at: Span, cue: Cue<'_>) -> Stepped
    ensures { IsNextParam result
        (machine.begin_type (params_view params) at (cue_view cue.entry)) }
{
    match TypeState::begin(alloc, true, at, cue)? {
        Some(ty) => Ok(Some(ParamState::InType(params, at, false, ty))),
        None => Ok(None),
    }
}

/// A token where a parameter is to come.
fn from_want(alloc: Global, params: Vec<Param<Span>>, at: Span, cue: Cue<'_>) -> Stepped
    ensures { IsNextParam result (machine.from_want (params_view params) at (cue_view cue.entry)) }
{
    match cue {
        Cue::Modifier(word) => begin_final(params, at, word),
        _ => begin_type(alloc, params, at, cue),
    }
}

/// The parameters with one more.
fn with_param(mut params: Vec<Param<Span>>, param: Param<Span>) -> Stepped
    ensures { IsNextParam result
        (Some (machine.have (params_view params ++ (param_of param ∷ [])))) }
{
    params.push(param)?;
    Ok(Some(ParamState::Have(params)))
}

/// The word of a parameter.
fn at_word(
    alloc: Global,
    params: Vec<Param<Span>>,
    start: Span,
    is_final: bool,
    ty: TypeRef<Span>,
    at: Span,
    text: &str,
) -> Stepped
    ensures { IsNextParam result (machine.named join (params_view params) start is_final at
        (pure.a_word text.now) (type_of ty)) }
{
    let mark = Span {
        from: start.from,
        to: at.to,
    };
    let name = word(alloc, at, text)?;
    with_param(
        params,
        Param {
            mark,
            is_final,
            ty,
            name,
        },
    )
}

/// The type goes on.
fn type_goes_on(
    alloc: Global,
    params: Vec<Param<Span>>,
    start: Span,
    is_final: bool,
    ty: TypeState,
    at: Span,
    cue: Cue<'_>,
) -> Stepped
    ensures { IsNextParam result
        (option_map (machine.in_type (params_view params) start is_final)
        (types.cue_step join (type_state ty) at (cue_view cue.entry))) }
{
    match ty.step(alloc, at, cue)? {
        Some(ty) => Ok(Some(ParamState::InType(params, start, is_final, ty))),
        None => Ok(None),
    }
}

/// A word behind what has been read of a type.
fn word_behind(
    alloc: Global,
    params: Vec<Param<Span>>,
    start: Span,
    is_final: bool,
    ty: TypeState,
    at: Span,
    text: &str,
) -> Stepped
    ensures { IsNextParam result (machine.from_type join (params_view params) start is_final
        (type_state ty) at (pure.a_word text.now)) }
{
    let cue = Cue::Word(text);
    match ty {
        TypeState::Want(primitive) => {
            let ty = TypeState::Want(primitive);
            type_goes_on(alloc, params, start, is_final, ty, at, cue)
        }
        TypeState::Have(ty) => at_word(alloc, params, start, is_final, ty, at, text),
        TypeState::Dotted(outer) => {
            let ty = TypeState::Dotted(outer);
            type_goes_on(alloc, params, start, is_final, ty, at, cue)
        }
    }
}

/// A token behind what has been read of a type.
fn from_type(
    alloc: Global,
    params: Vec<Param<Span>>,
    start: Span,
    is_final: bool,
    ty: TypeState,
    at: Span,
    cue: Cue<'_>,
) -> Stepped
    ensures { IsNextParam result (machine.from_type join (params_view params) start is_final
        (type_state ty) at (cue_view cue.entry)) }
{
    match cue {
        Cue::Word(text) => word_behind(alloc, params, start, is_final, ty, at, text),
        _ => type_goes_on(alloc, params, start, is_final, ty, at, cue),
    }
}

/// A comma behind a parameter.
fn comma(params: Vec<Param<Span>>, cue: Cue<'_>) -> Stepped
    ensures { IsNextParam result
        (pure.at_comma (cue_view cue.entry) (machine.want (params_view params))) }
{
    match cue {
        Cue::Comma => Ok(Some(ParamState::Want(params))),
        _ => Ok(None),
    }
}

impl ParamState {
    /// Nothing has been read.
    pub fn new(alloc: Global) -> ParamState
        ensures { param_state result ≡ machine.start }
    {
        ParamState::Want(Vec::new(alloc))
    }

    /// The state behind a token at `at`; `None` exactly where no parameters go on with it.
    pub fn step(self, alloc: Global, at: Span, cue: Cue<'_>) -> Stepped
        ensures { IsNextParam result
            (machine.cue_step join (param_state self) at (cue_view cue.entry)) }
    {
        match self {
            ParamState::Want(params) => from_want(alloc, params, at, cue),
            ParamState::InType(params, start, is_final, ty) => {
                from_type(alloc, params, start, is_final, ty, at, cue)
            }
            ParamState::Have(params) => comma(params, cue),
        }
    }

    /// The parameters that have been read; `None` where they aren't whole.
    pub fn finish(self) -> Option<Vec<Param<Span>>>
        ensures { option_map params_view result ≡ machine.whole (param_state self) }
    {
        match self {
            ParamState::Want(params) => {
                if params.is_empty() {
                    Some(params)
                } else {
                    None
                }
            }
            ParamState::InType(params, _, _, ty) => {
                drop(params);
                drop(ty);
                None
            }
            ParamState::Have(params) => Some(params),
        }
    }
}
