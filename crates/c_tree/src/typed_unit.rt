// Typed units and the program.
use crate::typed_expr::TExpr;
use crate::typed_stmt::{TBlock, TDeclr, TInit};
use c_type::{CType, Tags};
use num_le::Name;

/// An enumerator: its name, the 32 bits of its value, and its expression if it has one.
pub struct TEnumerator {
    pub name: Name,
    pub value: u32,
    pub expr: Option<TExpr>,
}

impl Drop for TEnumerator {
    fn drop(self) {
        let TEnumerator {
            name: _,
            value: _,
            expr: _,
        } = self;
    }
}

/// A declaration of members.
#[cycle(typed_specs)]
pub struct TMembers {
    pub spec: TSpec,
    pub declrs: Vec<TDeclr>,
}

impl Drop for TMembers {
    #[cycle(typed_specs)]
    fn drop(self) {
        let TMembers { spec: _, declrs: _ } = self;
    }
}

/// The type that begins a declaration, with the tag that it defines.
#[cycle(typed_specs)]
pub enum TSpec {
    Plain(CType),
    /// The body of a structure, with the structure's number among the tags of the unit.
    Struct(u32, Vec<TMembers>),
    /// The body of an enumeration, with its number among the tags of the unit.
    Enum(u32, Vec<TEnumerator>),
}

impl Drop for TSpec {
    #[cycle(typed_specs)]
    fn drop(self) {
        match self {
            TSpec::Plain(_) => {}
            TSpec::Struct(_, _) => {}
            TSpec::Enum(_, _) => {}
        }
    }
}

/// What a declarator at file level is bound to.
#[derive(Clone, Copy, Drop)]
pub enum Bound {
    /// A static object, with its number in the unit.
    Own(u32),
    /// An external object, declared without `extern`.
    Outside,
    /// An external object, declared with `extern`.
    Elsewhere,
    /// A static function.
    OwnFunction,
    /// An external function.
    OutsideFunction,
}

/// A declarator at file level with its initialiser.
pub struct TItem {
    pub declr: TDeclr,
    pub bound: Bound,
    pub init: Option<TInit>,
}

impl Drop for TItem {
    fn drop(self) {
        let TItem {
            declr: _,
            bound: _,
            init: _,
        } = self;
    }
}

/// A declaration of parameters.
pub struct TParDecl {
    pub spec: TSpec,
    pub declrs: Vec<TDeclr>,
}

impl Drop for TParDecl {
    fn drop(self) {
        let TParDecl { spec: _, declrs: _ } = self;
    }
}

/// A parameter of a function, by its place in the list of names.
#[derive(Drop)]
pub struct TParam {
    pub name: Name,
    pub ty: CType,
}

/// A function body: the numbers of its braces' starts, whose lines are the block's.
pub struct TFunc {
    pub name: Name,
    pub is_static: bool,
    pub result: CType,
    pub params: Vec<TParam>,
    pub declared: Vec<TParDecl>,
    pub open: u32,
    pub body: TBlock,
    pub close: u32,
}

impl Drop for TFunc {
    fn drop(self) {
        let TFunc {
            name: _,
            is_static: _,
            result: _,
            params: _,
            declared: _,
            open: _,
            body: _,
            close: _,
        } = self;
    }
}

/// A part of a unit.
pub enum TExt {
    Typedef(TSpec, Vec<TDeclr>),
    TagOnly(TSpec),
    Object(TSpec, Vec<TItem>),
    Func(TSpec, TFunc),
}

impl Drop for TExt {
    fn drop(self) {
        match self {
            TExt::Typedef(_, _) => {}
            TExt::TagOnly(_) => {}
            TExt::Object(_, _) => {}
            TExt::Func(_, _) => {}
        }
    }
}

/// A unit with each name bound and each conversion written.
///
/// Its tags stand in the order of their closing braces. `texts` has the bytes of each string text
/// that is an object, the zero byte too, in textual order.
#[derive(Drop)]
pub struct TypedUnit {
    pub tags: Tags,
    pub texts: Vec<Name>,
    pub exts: Vec<TExt>,
}

/// The units of a program. `classes` gives for each unit and each of its tags the number that it
/// shares with the tags of other units that agree with it.
#[derive(Drop)]
pub struct Program {
    pub units: Vec<TypedUnit>,
    pub classes: Vec<Vec<u32>>,
}

/// A start: its file, and its number among the starts of that file.
#[derive(Clone, Copy, Drop)]
pub struct StartId {
    pub file: u32,
    pub index: u32,
}
