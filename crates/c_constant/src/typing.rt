// The types of expressions, and the sizes of types.
ghost use Rattle.std.specs.Prelude.{◌≡◌, map};
ghost use Rattle.c_type.specs.Of.{type_of as type_lem, tag_of};
ghost use Rattle.c_type.specs.Sizes.{size as size_lem, no_tag};
ghost use Rattle.c_type.specs.Names.{at_or};
ghost use Rattle.c_type.specs.Types as t;
ghost use Rattle.c_tree.specs.TExpr.{type_of as type_of_lem};
ghost use Rattle.c_tree.specs.TypedOf.{expr_of};
ghost use Rattle.c_constant.specs.Views.{told};

use c_tree::TExpr;
use c_type::{CType, Kind, Tag, TagId};

/// The type of an expression.
#[derive(Clone, Copy, Drop)]
pub enum ExprType<'a> {
    Int,
    Unsigned,
    /// A type that the tree tells.
    Told(&'a CType),
}

/// The type of an expression.
pub fn type_of(expr: &TExpr) -> ExprType<'_>
    ensures { told result ≡ type_of_lem (expr_of expr.now) }
{
    match expr {
        TExpr::SizeOf(_) | TExpr::SizeOfType(_) => ExprType::Unsigned,
        TExpr::Both(_, _) | TExpr::Either(_, _) => ExprType::Int,
        TExpr::Name(ty, _)
        | TExpr::Int(ty, _)
        | TExpr::Text(ty, _)
        | TExpr::Unary(ty, _, _)
        | TExpr::Deref(ty, _)
        | TExpr::Address(ty, _)
        | TExpr::Step(ty, _, _)
        | TExpr::Cast(ty, _)
        | TExpr::Convert(ty, _)
        | TExpr::Decay(ty, _)
        | TExpr::Designate(ty, _)
        | TExpr::Binary(ty, _, _, _)
        | TExpr::Comma(ty, _, _)
        | TExpr::Choice(ty, _, _, _)
        | TExpr::Assign(ty, _, _)
        | TExpr::Update(ty, _, _, _, _)
        | TExpr::Index(ty, _, _)
        | TExpr::Call(ty, _, _)
        | TExpr::Member(ty, _, _)
        | TExpr::Arrow(ty, _, _) => ExprType::Told(ty),
    }
}

fn is_signed_kind(ty: &CType) -> bool
    ensures { result ≡ t.signed_type (type_lem ty.now) }
{
    match ty {
        CType::Num(Kind::Char | Kind::Short | Kind::Int | Kind::Long) | CType::Enum(_) => true,
        _ => false,
    }
}

/// The size of a structure or union, 0 where its tag isn't there.
fn tag_size(tags: &[Tag], tag: TagId) -> u32
    ensures { result ≡ (at_or no_tag (map tag_of tags.now) tag.0).size }
{
    match tags.get(tag.0 as usize) {
        Some(tag) => tag.size,
        None => 0,
    }
}

/// The size of a type in bytes, 0 where its tag isn't there. A size above 4294967295 counts as that.
pub fn size(tags: &[Tag], ty: &CType) -> u32
    ensures { result ≡ size_lem (map tag_of tags.now) (type_lem ty.now) }
{
    match ty {
        CType::Num(Kind::Char | Kind::UChar) => 1,
        CType::Num(Kind::Short | Kind::UShort) => 2,
        CType::Num(_) | CType::Ptr(_) | CType::Enum(_) => 4,
        CType::Void | CType::Fun(_) => 0,
        CType::Arr(n, element) => n.saturating_mul(size(tags, element)),
        CType::Struct(tag) | CType::Union(tag) => tag_size(tags, *tag),
    }
}

impl ExprType<'_> {
    /// Whether numbers of the type are read with a sign. An enumeration is taken as int.
    pub fn is_signed(&self) -> bool
        ensures { result ≡ t.signed_type (told self.now) }
    {
        match self {
            ExprType::Int => true,
            ExprType::Unsigned => false,
            ExprType::Told(ty) => is_signed_kind(ty),
        }
    }

    /// Whether the type is an integer type or an enumeration.
    pub fn is_integer(&self) -> bool
        ensures { result ≡ t.is_integer (told self.now) }
    {
        match self {
            ExprType::Int | ExprType::Unsigned => true,
            ExprType::Told(ty) => matches!(ty, CType::Num(_) | CType::Enum(_)),
        }
    }

    /// Whether the type is a pointer.
    pub fn is_pointer(&self) -> bool
        ensures { result ≡ t.is_pointer (told self.now) }
    {
        match self {
            ExprType::Int | ExprType::Unsigned => false,
            ExprType::Told(ty) => matches!(ty, CType::Ptr(_)),
        }
    }

    /// The size of the type in bytes.
    pub fn size(&self, tags: &[Tag]) -> u32
        ensures { result ≡ size_lem (map tag_of tags.now) (told self.now) }
    {
        match self {
            ExprType::Int | ExprType::Unsigned => 4,
            ExprType::Told(ty) => size(tags, ty),
        }
    }
}
