// The rows of the instruction table.

/// The width of a displacement: none, a signed byte, or four bytes.
#[derive(Debug, Clone, Copy, PartialEq, Eq)]
pub enum Dw {
    D0,
    D8,
    D32,
}

/// An operand that a ModRM byte names. Registers 0 to 7 are eax, ecx, edx, ebx, esp, ebp, esi, edi, and
/// as byte registers al, cl, dl, bl, ah, ch, dh, bh.
#[derive(Debug, Clone, Copy, PartialEq, Eq)]
pub enum Opnd {
    /// A register.
    Reg(u8),
    /// The memory at the sum of `base`, `index` shifted left by its scale, and `disp`.
    Mem {
        base: Option<u8>,
        /// A register and a scale of 0 to 3. None where no SIB byte stands, and register 4 with scale 0
        /// where one stands without an index register.
        index: Option<(u8, u8)>,
        disp: i32,
        width: Dw,
    },
}

/// The way of a move between a register and an operand.
#[derive(Debug, Clone, Copy, PartialEq, Eq)]
pub enum Way {
    /// `movl r, rm`
    ToOperand,
    /// `movl rm, r`
    ToRegister,
}

/// Where an immediate is moved, which chooses between two encodings.
#[derive(Debug, Clone, Copy, PartialEq, Eq)]
pub enum Dest {
    /// `movl $n, r`
    Register(u8),
    /// `movl $n, rm`
    Operand(Opnd),
}

/// The moves of a byte or a word.
#[derive(Debug, Clone, Copy, PartialEq, Eq)]
pub enum Narrow {
    /// `movb r8, rm8`
    ByteToOperand,
    /// `movb rm8, r8`
    ByteToRegister,
    /// `movw r16, rm16`
    WordToOperand,
}

/// The instructions that push or pop one value.
#[derive(Debug, Clone, Copy, PartialEq, Eq)]
pub enum StackOp {
    /// `pushl r`
    Push(u8),
    /// `pushl $n`
    PushImm(u32),
    /// `popl r`
    Pop(u8),
}

/// `addl`, `orl`, `andl`, `subl`, `xorl`, `cmpl`.
#[derive(Debug, Clone, Copy, PartialEq, Eq)]
pub enum ArithOp {
    Add,
    Or,
    And,
    Sub,
    Xor,
    Cmp,
}

/// `notl` and `negl`.
#[derive(Debug, Clone, Copy, PartialEq, Eq)]
pub enum UnaryOp {
    Not,
    Neg,
}

/// `divl` and `idivl`.
#[derive(Debug, Clone, Copy, PartialEq, Eq)]
pub enum DivideOp {
    Unsigned,
    Signed,
}

/// `shll`, `shrl` and `sarl`.
#[derive(Debug, Clone, Copy, PartialEq, Eq)]
pub enum ShiftOp {
    Left,
    Right,
    Arithmetic,
}

/// The conditions of `setcc` and `jcc`, but for the two that need the parity flag.
#[derive(Debug, Clone, Copy, PartialEq, Eq)]
pub enum Cond {
    Overflow,
    NotOverflow,
    Below,
    AboveOrEqual,
    Equal,
    NotEqual,
    BelowOrEqual,
    Above,
    Sign,
    NotSign,
    Less,
    GreaterOrEqual,
    LessOrEqual,
    Greater,
}

/// The moves that widen a byte or a word, by its sign or by zeros.
#[derive(Debug, Clone, Copy, PartialEq, Eq)]
pub enum WidenOp {
    /// `movsbl`
    SignedByte,
    /// `movswl`
    SignedWord,
    /// `movzbl`
    ZeroByte,
    /// `movzwl`
    ZeroWord,
}

/// What is called.
#[derive(Debug, Clone, Copy, PartialEq, Eq)]
pub enum Callee {
    /// `call l`: the distance from the end of the instruction.
    Relative(i32),
    /// `call *rm`
    Indirect(Opnd),
}

/// Where a jump goes: the distance from the end of the instruction, in four bytes or in one.
#[derive(Debug, Clone, Copy, PartialEq, Eq)]
pub enum Target {
    Near(i32),
    Short(i8),
}

/// The row `ret`, `leave`, `nop`.
#[derive(Debug, Clone, Copy, PartialEq, Eq)]
pub enum PlainOp {
    Ret,
    Leave,
    Nop,
}

/// The row `rep movsb`, `rep stosb`, `cld`.
#[derive(Debug, Clone, Copy, PartialEq, Eq)]
pub enum StringOp {
    RepMovsb,
    RepStosb,
    Cld,
}

/// An instruction: one variant for each row of the table.
#[derive(Debug, Clone, Copy, PartialEq, Eq)]
pub enum Ins {
    /// `movl r, rm` and `movl rm, r`
    Move(Way, u8, Opnd),
    /// `movl $n, r` and `movl $n, rm`
    MoveImm(Dest, u32),
    /// `movb r8, rm8`, `movb rm8, r8` and `movw r16, rm16`
    MoveNarrow(Narrow, u8, Opnd),
    /// `leal m, r`
    Lea(u8, Opnd),
    /// `pushl r`, `pushl $n` and `popl r`
    Stack(StackOp),
    /// `addl r, rm` and its kind
    ArithTo(ArithOp, u8, Opnd),
    /// `addl rm, r` and its kind
    ArithFrom(ArithOp, u8, Opnd),
    /// `addl $n, rm` and its kind
    ArithImm(ArithOp, Opnd, u32),
    /// `testl r, rm`
    Test(u8, Opnd),
    /// `imull rm, r`
    Imul(u8, Opnd),
    /// `notl rm` and `negl rm`
    Unary(UnaryOp, Opnd),
    /// `divl rm` and `idivl rm`
    Divide(DivideOp, Opnd),
    /// `cltd`
    Cltd,
    /// `shll %cl, rm`, `shrl %cl, rm` and `sarl %cl, rm`
    Shift(ShiftOp, Opnd),
    /// `setcc rm8`
    Set(Cond, Opnd),
    /// `movsbl rm, r` and its kind
    Widen(WidenOp, u8, Opnd),
    /// `call l` and `call *rm`
    Call(Callee),
    /// `jmp l`
    Jump(Target),
    /// `jcc l`
    Branch(Cond, Target),
    /// `ret`, `leave` and `nop`
    Plain(PlainOp),
    /// `int3`
    Int3,
    /// `rep movsb`, `rep stosb` and `cld`
    Str(StringOp),
    /// `lcall $7, $0`
    Lcall,
}
