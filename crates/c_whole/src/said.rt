// What a unit says of external names and of functions.
use c_tree::{TExpr, TParam};
use c_type::CType;

/// Whose name it is.
#[derive(Clone, Copy, Drop)]
pub enum Whose<'a> {
    External(&'a [u8]),
    /// A static function.
    Hidden(&'a [u8]),
    /// The function body of the unit with this number.
    Own(u32),
    /// A function that the unit doesn't define.
    Outer(&'a [u8]),
}

/// What is said of a name.
#[derive(Clone, Copy, Drop)]
pub enum Said<'a> {
    /// A declaration that defines nothing.
    Declared(&'a CType),
    /// An object declared without `extern` and without an initialiser.
    Common(&'a CType),
    /// An initialised object.
    Begun(&'a CType),
    /// A function body, with its result and its parameters.
    Defined(&'a CType, &'a [TParam]),
    /// A use of an object.
    Used,
    /// A use of a function, with the type that it has there.
    Named(&'a CType),
    /// A call by name.
    Called(&'a [TExpr]),
}

/// One thing said of one name.
#[derive(Clone, Copy, Drop)]
pub struct Event<'a> {
    pub about: Whose<'a>,
    pub says: Said<'a>,
}
