// Marks and words by their places in the lists of the language.

/// `->`
pub const ARROW: u8 = 4;
/// `(`
pub const OPEN_ROUND: u8 = 21;
/// `)`
pub const CLOSE_ROUND: u8 = 22;
/// `[`
pub const OPEN_SQUARE: u8 = 23;
/// `]`
pub const CLOSE_SQUARE: u8 = 24;
/// `{`
pub const OPEN_BRACE: u8 = 25;
/// `}`
pub const CLOSE_BRACE: u8 = 26;
/// `.`
pub const DOT: u8 = 27;
/// `,`
pub const COMMA: u8 = 28;
/// `;`
pub const SEMICOLON: u8 = 29;
/// `:`
pub const COLON: u8 = 30;
/// `?`
pub const QUESTION: u8 = 31;
/// `*`
pub const STAR: u8 = 35;

/// `sizeof`
pub const SIZEOF: u8 = 17;
