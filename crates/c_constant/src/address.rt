// The constants that are addresses.
ghost use Rattle.std.specs.Prelude.{◌≡◌, map};
ghost use Rattle.c_type.specs.Of.{type_of as type_lem, tag_of, members_of};
ghost use Rattle.c_type.specs.Names.{at_or};
ghost use Rattle.c_type.specs.Sizes.{size as size_lem, no_member};
ghost use Rattle.c_type.specs.Types as t;
ghost use Rattle.c_rule.specs.RuleDecls as r;
ghost use Rattle.c_tree.specs.TypedOf.{expr_of, ref_of};
ghost use Rattle.c_constant.specs.Views.{told, spot_option};

use crate::number::{constant, is_zero};
use crate::spot::Spot;
use crate::typing::{ExprType, size, type_of};
use c_tree::{Ref, TBinary, TExpr};
use c_type::{CType, Member, Tag};

/// The size of an object. An array whose dimension is missing has at least one element.
fn least_size(tags: &[Tag], ty: &CType) -> u32
    ensures { result ≡ r.least_size (map tag_of tags.now) (type_lem ty.now) }
{
    match ty {
        CType::Arr(0, element) => size(tags, element),
        _ => size(tags, ty),
    }
}

fn is_lasting(name: &Ref) -> bool
    ensures { result ≡ r.is_lasting (ref_of name.now) }
{
    matches!(name, Ref::Static(_) | Ref::Ext(_))
}

/// The offset of the member with that number, 0 where it isn't there.
fn offset_at(members: &[Member], number: u32) -> u32
    ensures { result ≡ (at_or no_member (members_of members.now) number).off }
{
    match members.get(number as usize) {
        Some(member) => member.off,
        None => 0,
    }
}

/// The offset of a structure's member.
fn member_off(tags: &[Tag], ty: &CType, number: u32) -> u32
    ensures { result ≡ r.member_off (map tag_of tags.now) (type_lem ty.now) number }
{
    match ty {
        CType::Struct(tag) => match tags.get(tag.0 as usize) {
            Some(tag) => offset_at(&tag.members, number),
            None => 0,
        },
        _ => 0,
    }
}

impl ExprType<'_> {
    /// The offset of a member of an expression of this type.
    fn member_off(&self, tags: &[Tag], number: u32) -> u32
        ensures { result ≡ r.member_off (map tag_of tags.now) (told self.now) number }
    {
        match self {
            ExprType::Int | ExprType::Unsigned => 0,
            ExprType::Told(ty) => member_off(tags, ty, number),
        }
    }

    /// The offset of a member of what an expression of this type points to.
    fn target_off(&self, tags: &[Tag], number: u32) -> u32
        ensures { result ≡ r.member_off (map tag_of tags.now) (t.target (told self.now)) number }
    {
        match self {
            ExprType::Told(CType::Ptr(to) | CType::Fun(to)) => member_off(tags, to, number),
            _ => 0,
        }
    }
}

/// The size of what a type points to.
fn target_size(tags: &[Tag], ty: &CType) -> u32
    ensures { result ≡ size_lem (map tag_of tags.now) (t.target (type_lem ty.now)) }
{
    match ty {
        CType::Ptr(to) | CType::Fun(to) => size(tags, to),
        _ => 0,
    }
}

/// The spot that a place names, if it is known before the run.
#[cycle(spots)]
pub fn place_spot(tags: &[Tag], place: &TExpr) -> Option<Spot>
    ensures { spot_option result ≡ r.place_spot (map tag_of tags.now) (expr_of place.now) }
{
    match place {
        TExpr::Name(ty, name) => {
            is_lasting(name).then_some(Spot::at_begin(least_size(tags, ty)))
        }
        TExpr::Text(ty, _) => Some(Spot::at_begin(size(tags, ty))),
        TExpr::Deref(_, pointer) => pointer_spot(tags, pointer),
        TExpr::Index(ty, pointer, number) => {
            pointer_spot(tags, pointer)?.moved_by(tags, size(tags, ty), false, number)
        }
        TExpr::Member(_, whole, number) => {
            let off = type_of(whole).member_off(tags, *number);
            place_spot(tags, whole)?.moved(false, u64::from(off))
        }
        TExpr::Arrow(_, pointer, number) => {
            let off = type_of(pointer).target_off(tags, *number);
            pointer_spot(tags, pointer)?.moved(false, u64::from(off))
        }
        _ => None,
    }
}

/// The spot that a pointer names, if it is known before the run.
#[cycle(spots)]
pub fn pointer_spot(tags: &[Tag], pointer: &TExpr) -> Option<Spot>
    ensures { spot_option result ≡ r.pointer_spot (map tag_of tags.now) (expr_of pointer.now) }
{
    match pointer {
        TExpr::Address(_, place) | TExpr::Decay(_, place) => place_spot(tags, place),
        TExpr::Binary(ty, TBinary::Add, a, b) => {
            if type_of(a).is_pointer() {
                pointer_spot(tags, a)?.moved_by(tags, target_size(tags, ty), false, b)
            } else {
                pointer_spot(tags, b)?.moved_by(tags, target_size(tags, ty), false, a)
            }
        }
        TExpr::Binary(ty, TBinary::Sub, a, b) => {
            pointer_spot(tags, a)?.moved_by(tags, target_size(tags, ty), true, b)
        }
        _ => None,
    }
}

fn names_function(expr: &TExpr) -> bool
    ensures { result ≡ r.names_function (expr_of expr.now) }
{
    matches!(expr, TExpr::Name(CType::Fun(_), _))
}

/// Whether an expression is the address of a function.
pub fn is_function_address(expr: &TExpr) -> bool
    ensures { result ≡ r.is_function_address (expr_of expr.now) }
{
    match expr {
        TExpr::Designate(_, a) | TExpr::Address(_, a) => names_function(a),
        _ => false,
    }
}

/// Whether a scalar of that type and of static life can begin with the value of an expression.
///
/// An integer takes a constant. A pointer takes the constant 0, a spot in an object of static life, or the address of a
/// function.
pub fn is_known(tags: &[Tag], ty: &CType, value: &TExpr) -> bool
    ensures { result ≡ r.is_known (map tag_of tags.now) (type_lem ty.now) (expr_of value.now) }
{
    match ty {
        CType::Num(_) | CType::Enum(_) => constant(tags, value).is_some(),
        CType::Ptr(_) => {
            (type_of(value).is_integer() && is_zero(tags, value))
                || pointer_spot(tags, value).is_some()
                || is_function_address(value)
        }
        _ => false,
    }
}
