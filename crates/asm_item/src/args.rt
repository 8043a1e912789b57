// The arguments of a statement, as they are written.

/// A number as it is written: a minus sign or none, and a size.
#[derive(Clone, Copy)]
pub struct Number {
    pub minus: bool,
    pub size: u32,
}

/// The size of a register.
#[derive(Clone, Copy, PartialEq, Eq)]
pub enum Size {
    /// One byte, as `%al`.
    Byte,
    /// Two bytes, as `%ax`.
    Short,
    /// Four bytes, as `%eax`.
    Full,
}

/// What may stand alone or behind `*`.
#[derive(Clone, Copy)]
pub enum Operand<'a> {
    /// `%eax`
    Register(Size, u8),
    /// `n`
    Number(Number),
    /// `name`
    Name(&'a [u8]),
    /// `name + n`
    Plus(&'a [u8], Number),
    /// `name - n`
    Minus(&'a [u8], Number),
    /// `n(%eax)`
    Base(Number, u8),
}

/// An argument of a statement.
#[derive(Clone, Copy)]
pub enum Arg<'a> {
    Plain(Operand<'a>),
    /// `*` and an operand
    Star(Operand<'a>),
    /// `$n`
    Imm(Number),
    /// `$name`
    ImmName(&'a [u8]),
    /// `"text"`
    Text(&'a [u8]),
    /// `.`, the present place
    Here,
}
