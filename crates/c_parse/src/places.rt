// Words and marks by their places in the lists of the language.

pub const BREAK: u8 = 1;

pub const CASE: u8 = 2;

pub const CONTINUE: u8 = 4;

pub const DEFAULT: u8 = 5;

pub const DO: u8 = 6;

pub const ELSE: u8 = 7;

pub const FOR: u8 = 10;

pub const IF: u8 = 11;

pub const RETURN: u8 = 15;

pub const SWITCH: u8 = 20;

pub const WHILE: u8 = 24;

pub const OPEN_ROUND: u8 = 21;

pub const CLOSE_ROUND: u8 = 22;

pub const OPEN_BRACE: u8 = 25;

pub const CLOSE_BRACE: u8 = 26;

pub const SEMICOLON: u8 = 29;

pub const COLON: u8 = 30;
