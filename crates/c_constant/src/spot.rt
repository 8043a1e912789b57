// Offsets in objects of static life.
ghost use Rattle.std.specs.Prelude.{◌≤◌};

use crate::number::constant;
use crate::typing::type_of;
use c_tree::TExpr;
use c_type::Tag;

/// An offset in an object of static life of that size, in bytes. The end of the object is a spot in it.
#[derive(Clone, Copy, Drop)]
pub struct Spot {
    pub size: u32,
    pub off: u32,
    ghost inside: { off ≤ size },
}

impl Spot {
    ghost use Rattle.std.specs.Prelude.{◌≡◌, ◌*◌, map, true, false};
    ghost use Rattle.c_type.specs.Of.{tag_of};
    ghost use Rattle.c_type.specs.Types as t;
    ghost use Rattle.c_tree.specs.Constant.{constant as constant_lem, given};
    ghost use Rattle.c_rule.specs.RuleDecls as r;
    ghost use Rattle.c_tree.specs.TExpr.{type_of as type_of_lem};
    ghost use Rattle.c_tree.specs.TypedOf.{expr_of};
    ghost use Rattle.c_constant.specs.Views.{spot_of, spot_option};

    /// Bytes that so many elements take.
    fn bytes(count: u32, step: u32) -> u64
        ensures { result ≡ count * step }
    {
        u64::from(count) * u64::from(step)
    }

    /// The begin of an object.
    pub fn at_begin(size: u32) -> Spot
        ensures { spot_of result ≡ record { size = size; off = 0 } }
    {
        Spot { size, off: 0 }
    }

    fn raised(self, by: u64) -> Option<Spot>
        ensures { spot_option result ≡ r.moved_by false by (spot_of self) }
    {
        if by > u64::from(self.size - self.off) {
            return None;
        }
        Some(Spot {
            size: self.size,
            off: self.off + by as u32,
        })
    }

    fn lowered(self, by: u64) -> Option<Spot>
        ensures { spot_option result ≡ r.moved_by true by (spot_of self) }
    {
        if by > u64::from(self.off) {
            return None;
        }
        Some(Spot {
            size: self.size,
            off: self.off - by as u32,
        })
    }

    /// The spot that lies so many bytes up or down, inside its object or at its end.
    pub fn moved(self, down: bool, by: u64) -> Option<Spot>
        ensures { spot_option result ≡ r.moved_by down by (spot_of self) }
    {
        if down {
            self.lowered(by)
        } else {
            self.raised(by)
        }
    }

    /// The spot that lies so many elements up or down. The number is read by its type.
    pub fn moved_elements(self, step: u32, signed: bool, down: bool, count: u32) -> Option<Spot>
        ensures { spot_option result ≡ r.moved_elements step signed down count (spot_of self) }
    {
        if signed && count >= 0x8000_0000 {
            self.moved(!down, Spot::bytes(u32::MAX - count + 1, step))
        } else {
            self.moved(down, Spot::bytes(count, step))
        }
    }

    /// The spot that lies so many elements of a type up or down, if the number is a constant.
    pub fn moved_by(self, tags: &[Tag], of: u32, down: bool, number: &TExpr) -> Option<Spot>
        ensures { spot_option result
            ≡ given (constant_lem (map tag_of tags.now) (expr_of number.now)) (λ n. r.moved_elements of (t.signed_type (type_of_lem (expr_of number.now))) down n (spot_of self)) }
    {
        let count = constant(tags, number)?;
        self.moved_elements(of, type_of(number).is_signed(), down, count)
    }
}
