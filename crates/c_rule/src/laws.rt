// Laws of the typing rules, and of the typing function beside them.
ghost use Rattle.c_rule.specs.Laws.{
  FailsApart,
  FailsByNumber,
  IsComplete,
  IsRefused,
  IsSound,
  OneTypedExpr,
  OneTypedUnit,
  TagsAreLaid,
};

/// Where an expression stands, at most one typed expression belongs to it.
#[tactic(auto, using(crate::proofs::OneExpr::expr_one))]
pub fn expression_has_one_type()
    ensures law { OneTypedExpr }
{
    // The law is all that is promised.
}

/// A unit has at most one typed unit.
pub fn unit_has_one_type()
    ensures law { OneTypedUnit }
{
    // The law is all that is promised.
}

/// A unit in which a rule fails has no typed unit.
pub fn failed_rule_leaves_no_type()
    ensures law { FailsApart }
{
    // The law is all that is promised.
}

/// A rule that fails in a unit is one of the 24.
pub fn failed_rule_is_one_of_24()
    ensures law { FailsByNumber }
{
    // The law is all that is promised.
}

/// A tag of a typed unit holds by value earlier tags alone, and has the sizes and offsets that the
/// types of its members give.
pub fn typed_tags_are_laid()
    ensures law { TagsAreLaid }
{
    // The law is all that is promised.
}

/// What the typing function gives is the unit's typed tree, and a rule that it says to fail fails in the unit.
pub fn what_is_judged_holds()
    ensures law { IsSound }
{
    // The law is all that is promised.
}

/// The typed tree of a unit is what the typing function gives.
pub fn what_is_typed_is_judged()
    ensures law { IsComplete }
{
    // The law is all that is promised.
}

/// Where a rule fails in a unit, the typing function gives no tree.
pub fn what_fails_is_refused()
    ensures law { IsRefused }
{
    // The law is all that is promised.
}
