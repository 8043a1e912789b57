// What an opcode asks for.
use isa386::{ArithOp, Cond, Narrow, Way, WidenOp};

/// What an opcode says of the bytes behind it.
#[derive(Clone, Copy)]
pub(crate) enum Form {
    /// Nothing follows.
    Whole(WholeForm),
    /// A signed byte follows.
    Byte(ByteForm),
    /// A number of four bytes follows.
    Number(NumberForm),
    /// A ModRM byte and what belongs to it follow.
    Operand(OperandForm),
    /// A ModRM byte and what belongs to it follow, and then a number of four bytes.
    Numbered(NumberedForm),
}

#[derive(Clone, Copy)]
pub(crate) enum WholeForm {
    PushForm(u8),
    PopForm(u8),
    CltdForm,
    RetForm,
    LeaveForm,
    NopForm,
    Int3Form,
    MovsbForm,
    StosbForm,
    CldForm,
}

#[derive(Clone, Copy)]
pub(crate) enum ByteForm {
    ShortJump,
    ShortBranch(Cond),
}

#[derive(Clone, Copy)]
pub(crate) enum NumberForm {
    MoveNumber(u8),
    PushNumber,
    CallNear,
    JumpNear,
    BranchNear(Cond),
}

#[derive(Clone, Copy)]
pub(crate) enum OperandForm {
    MoveForm(Way),
    NarrowForm(Narrow),
    LeaForm,
    ToForm(ArithOp),
    FromForm(ArithOp),
    TestForm,
    ImulForm,
    /// `notl`, `negl`, `divl` and `idivl`.
    GroupForm,
    ShiftForm,
    SetForm(Cond),
    WidenForm(WidenOp),
    CallForm,
}

#[derive(Clone, Copy)]
pub(crate) enum NumberedForm {
    MoveNumbered,
    ArithNumbered,
}
