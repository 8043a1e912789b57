// Marks and words by their places in the lists of the language.

pub const OPEN_ROUND: u8 = 21;

pub const CLOSE_ROUND: u8 = 22;

pub const OPEN_SQUARE: u8 = 23;

pub const CLOSE_SQUARE: u8 = 24;

pub const OPEN_BRACE: u8 = 25;

pub const CLOSE_BRACE: u8 = 26;

pub const COMMA: u8 = 28;

pub const SEMICOLON: u8 = 29;

pub const EQUALS: u8 = 32;

pub const STAR: u8 = 35;

pub const REGISTER: u8 = 14;
