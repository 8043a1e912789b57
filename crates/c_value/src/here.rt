// The rules on expressions where they stand. Each takes the parts first, so that they are judged first.
ghost use Rattle.c_type.specs.Of.{type_of};
ghost use Rattle.c_rule.specs.RuleExprs as r;
ghost use Rattle.c_rule.specs.RuleScope.{Is, onward};
ghost use Rattle.c_rule.specs.RuleTypes.{sized_type as sized_type_rule};
ghost use Rattle.c_tree.specs.TExpr as e;
ghost use Rattle.c_tree.specs.TreeOf.{type_name_of};
ghost use Rattle.c_scope.specs.EnvOf.{env_of};
ghost use Rattle.c_scope.specs.Says.{Says};
ghost use Rattle.c_operator.specs.Boxed.{boxed};

use c_operator::assignments::assignment;
use c_operator::by_operator::{binary, post_op, unary};
use c_operator::choice::choice;
use c_operator::postfix::{arrow, dot, subscript};
use c_operator::unary::{cast, size_of, step};
use c_operator::values::node;
use c_scope::{Scopes, TypeErr, sized_type};
use c_tree::{AssignOp, BinaryOp, StepOp, TExpr, TypeName, UnaryOp};
use c_type::CType;
use num_le::Name;

/// An assignment, by its operator.
pub fn assigned(
    place: Box<TExpr>,
    value: Box<TExpr>,
    c: &Scopes,
    line: u32,
    op: AssignOp,
) -> Result<Box<TExpr>, TypeErr>
    ensures { Says boxed (r.assignment (env_of c.now) op (boxed place) (boxed value)) result }
{
    assignment(c.alloc, line, c.tags(), op, place, value)
}

/// `? :`.
pub fn chosen(
    test: Box<TExpr>,
    a: Box<TExpr>,
    b: Box<TExpr>,
    c: &Scopes,
    line: u32,
) -> Result<Box<TExpr>, TypeErr>
    ensures { Says boxed (r.choice (env_of c.now) (boxed test) (boxed a) (boxed b)) result }
{
    choice(c.alloc, line, c.tags(), test, a, b)
}

/// A binary operator.
pub fn of_two(
    a: Box<TExpr>,
    b: Box<TExpr>,
    c: &Scopes,
    line: u32,
    op: BinaryOp,
) -> Result<Box<TExpr>, TypeErr>
    ensures { Says boxed (r.binary (env_of c.now) op (boxed a) (boxed b)) result }
{
    binary(c.alloc, line, c.tags(), op, a, b)
}

/// A unary operator.
pub fn of_one(a: Box<TExpr>, c: &Scopes, line: u32, op: UnaryOp) -> Result<Box<TExpr>, TypeErr>
    ensures { Says boxed (r.unary (env_of c.now) op (boxed a)) result }
{
    unary(c.alloc, line, c.tags(), op, a)
}

/// `sizeof` of an expression.
pub fn sized(a: Box<TExpr>, c: &Scopes, line: u32) -> Result<Box<TExpr>, TypeErr>
    ensures { Says boxed (r.size_of (env_of c.now) (boxed a)) result }
{
    size_of(c.alloc, line, c.tags(), a)
}

/// `sizeof` of a type.
pub fn sized_by(c: &Scopes, types: &TypeName) -> Result<Box<TExpr>, TypeErr>
    ensures { Says boxed (onward (sized_type_rule (env_of c.now) (type_name_of types.now)) (λ s. Is (e.size_of_type s))) result }
{
    let ty = sized_type(c, types)?;
    Ok(node(c.alloc, TExpr::SizeOfType(ty))?)
}

/// A cast to a type.
pub fn cast_to(a: Box<TExpr>, c: &Scopes, line: u32, ty: CType) -> Result<Box<TExpr>, TypeErr>
    ensures { Says boxed (r.cast (env_of c.now) (type_of ty) (boxed a)) result }
{
    cast(c.alloc, line, c.tags(), ty, a)
}

/// `[ ]`.
pub fn indexed(a: Box<TExpr>, i: Box<TExpr>, c: &Scopes, line: u32) -> Result<Box<TExpr>, TypeErr>
    ensures { Says boxed (r.subscript (env_of c.now) (boxed a) (boxed i)) result }
{
    subscript(c.alloc, line, c.tags(), a, i)
}

/// `.`.
pub fn member(a: Box<TExpr>, c: &Scopes, line: u32, name: &Name) -> Result<Box<TExpr>, TypeErr>
    ensures { Says boxed (r.dot (env_of c.now) (boxed a) name.now) result }
{
    dot(c.alloc, line, c.tags(), a, name.as_slice())
}

/// `->`.
pub fn member_behind(
    a: Box<TExpr>,
    c: &Scopes,
    line: u32,
    name: &Name,
) -> Result<Box<TExpr>, TypeErr>
    ensures { Says boxed (r.arrow (env_of c.now) (boxed a) name.now) result }
{
    arrow(c.alloc, line, c.tags(), a, name.as_slice())
}

/// `++` or `--` behind an operand.
pub fn stepped(a: Box<TExpr>, c: &Scopes, line: u32, op: StepOp) -> Result<Box<TExpr>, TypeErr>
    ensures { Says boxed (r.step (env_of c.now) (r.post_op op) (boxed a)) result }
{
    step(c.alloc, line, c.tags(), post_op(op), a)
}
