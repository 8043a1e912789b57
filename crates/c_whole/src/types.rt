// Whether types of two units agree.
ghost use Rattle.std.specs.Prelude.{◌≡◌, ℕ, List, Bool, length};
ghost use Rattle.std.specs.Option.{option_map};
ghost use Rattle.c_type.specs.Of.{type_of, tag_of, member_of, members_of};
ghost use Rattle.c_join.specs.JoinTypes as s;
ghost use Rattle.c_join.specs.JoinChecks.{class_of, same_class};
ghost use Rattle.c_whole.specs.Types.{classes_of, by_classes, inside, leaf_agrees, member_agrees};

use c_type::{CType, Member, Tag, TagId};

/// The numbers of the tags of each unit.
#[derive(Clone, Copy, Drop)]
pub struct Classes<'a> {
    pub list: &'a [Vec<u32>],
}

/// Two units whose types are compared, where tags with one number are one.
#[derive(Clone, Copy, Drop)]
pub struct Between<'a> {
    pub classes: Classes<'a>,
    pub left: usize,
    pub right: usize,
}

impl<'a> Classes<'a> {
    /// The number of a tag, if it is there.
    pub fn class_of(&self, unit: usize, tag: usize) -> Option<u32>
        ensures { result ≡ class_of (classes_of self.now) (s.at unit tag) }
    {
        self.list.get(unit)?.get(tag).copied()
    }
}

/// What two types are made of by the same derivation, if they are.
fn inside<'t>(a: &'t CType, b: &'t CType) -> Option<(&'t CType, &'t CType)>
    ensures { option_map (λ p. (type_of p.0.now, type_of p.1.now)) result ≡ inside (type_of a.now) (type_of b.now) }
{
    match (a, b) {
        (CType::Ptr(a), CType::Ptr(b)) | (CType::Fun(a), CType::Fun(b)) => Some((a, b)),
        (CType::Arr(n, a), CType::Arr(m, b)) => { if n == m { Some((a, b)) } else { None } }
        _ => None,
    }
}

impl<'a> Between<'a> {
    /// Whether a tag of the left unit and one of the right have one number.
    fn same_tag(&self, left: TagId, right: TagId) -> bool
        ensures { result ≡ by_classes self.now left.0 right.0 }
    {
        let left = self.classes.class_of(self.left, left.0 as usize);
        let right = self.classes.class_of(self.right, right.0 as usize);
        match (left, right) {
            (Some(left), Some(right)) => left == right,
            (None, None) => true,
            _ => false,
        }
    }

    /// Whether two types are one that aren't made by the same derivation.
    fn leaf_agrees(&self, a: &CType, b: &CType) -> bool
        ensures { result ≡ leaf_agrees (by_classes self.now) (type_of a.now) (type_of b.now) }
    {
        match (a, b) {
            (CType::Num(a), CType::Num(b)) => a == b,
            (CType::Void, CType::Void) => true,
            (CType::Struct(a), CType::Struct(b))
            | (CType::Union(a), CType::Union(b))
            | (CType::Enum(a), CType::Enum(b)) => self.same_tag(*a, *b),
            _ => false,
        }
    }

    /// Whether a type of the left unit and one of the right are one.
    ///
    /// A type may be derived any number of times, so it goes down by a loop.
    pub fn agree(&self, a: &CType, b: &CType) -> bool
        ensures { result ≡ s.agree_by (by_classes self.now) (type_of a.now) (type_of b.now) }
    {
        let (mut a, mut b) = (a, b);
        while let Some((x, y)) = inside(a, b) {
            a = x;
            b = y;
        }
        self.leaf_agrees(a, b)
    }

    /// Whether declarations of the two types agree, where a missing dimension is 0.
    pub fn declare_alike(&self, a: &CType, b: &CType) -> bool
        ensures { result ≡ s.declare_alike (by_classes self.now) (type_of a.now) (type_of b.now) }
    {
        match (a, b) {
            (CType::Arr(n, a), CType::Arr(m, b)) => {
                (*n == 0 || (*m == 0 || n == m)) && self.agree(a, b)
            }
            _ => self.agree(a, b),
        }
    }

    fn member_agrees(&self, a: &Member, b: &Member) -> bool
        ensures { result ≡ member_agrees (by_classes self.now) (member_of a.now) (member_of b.now) }
    {
        a.name.is(b.name.as_slice()) && self.agree(&a.ty, &b.ty)
    }

    fn members_agree(&self, a: &[Member], b: &[Member]) -> bool
        ensures { result ≡ s.members_agree (by_classes self.now) (members_of a.now) (members_of b.now) }
    {
        if a.len() != b.len() {
            return false;
        }
        for i in 0..a.len() {
            if !self.member_agrees(&a[i], &b[i]) {
                return false;
            }
        }
        true
    }

    /// Whether a tag of the left unit and one of the right are alike.
    pub fn alike(&self, a: &Tag, b: &Tag) -> bool
        ensures { result ≡ s.alike (by_classes self.now) (tag_of a.now) (tag_of b.now) }
    {
        let name = a.name.as_slice();
        !name.is_empty()
            && (b.name.is(name) && (a.kind == b.kind && self.members_agree(&a.members, &b.members)))
    }
}
