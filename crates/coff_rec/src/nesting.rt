// What a symbol is where tags, functions and blocks nest.
ghost use Rattle.std.specs.Prelude.{◌≡◌, ◌<◌, ◌+◌, ◌^◌};
ghost use Rattle.coff_rec.specs.Scopes.{EndsAreScopes};
ghost use Rattle.coff_rec.specs.Nesting.{kind_in_body, kind_in_block, kind_of, nothing_open, around_after, blocks_after};

use crate::codes::{
    C_BLOCK, C_ENTAG, C_EOS, C_EXT, C_FCN, C_MOE, C_MOS, C_MOU, C_STAT, C_STRTAG, C_UNTAG,
};
use crate::types::is_function_type;

/// What a symbol is for the nesting.
#[derive(Clone, Copy, Debug, PartialEq, Eq)]
pub enum Kind {
    Tag,
    Member,
    /// `.eos`.
    EndOfTag,
    Function,
    /// `.bf` and `.ef`.
    BodyBegin,
    BodyEnd,
    /// `.bb` and `.eb`.
    BlockBegin,
    BlockEnd,
    /// A symbol of class C_FCN or C_BLOCK of another name: it has no place.
    Misnamed,
    Other,
}

/// What is open before a symbol.
#[derive(Clone, Copy, Debug)]
pub struct Around {
    /// The members of a tag may go on.
    pub tag: bool,
    /// There is a function that hasn't had its `.bf`.
    pub function: bool,
    /// A body is open.
    pub body: bool,
    /// How many blocks are open.
    pub blocks: usize,
}

impl Around {
    /// Nothing is open.
    pub fn nothing() -> Around
        ensures nothing { result ≡ nothing_open }
    {
        Around {
            tag: false,
            function: false,
            body: false,
            blocks: 0,
        }
    }

    /// What is open after a symbol of this kind.
    pub fn after(self, kind: Kind) -> Around
        requires few { self.blocks + 1 < 2 ^ 64 }
        ensures after { result ≡ around_after kind self }
    {
        Around {
            tag: match kind {
                Kind::Tag => true,
                Kind::Member => self.tag,
                _ => false,
            },
            function: match kind {
                Kind::Function => true,
                Kind::BodyBegin => false,
                _ => self.function,
            },
            body: match kind {
                Kind::BodyBegin => true,
                Kind::BodyEnd => false,
                _ => self.body,
            },
            blocks: blocks_then(kind, self.blocks),
        }
    }
}

fn blocks_then(kind: Kind, blocks: usize) -> usize
    requires few { blocks + 1 < 2 ^ 64 }
    ensures after { result ≡ blocks_after kind blocks }
{
    match kind {
        Kind::BlockBegin => blocks + 1,
        Kind::BlockEnd => blocks.saturating_sub(1),
        Kind::BodyBegin => 0,
        Kind::BodyEnd => 0,
        _ => blocks,
    }
}

/// What a symbol of this class, name, section and type word is.
pub fn symbol_kind(class: u8, name: &[u8], section: i16, ty: u16) -> Kind
    ensures kind { result ≡ kind_of class name.now section ty }
{
    if class == C_STRTAG || class == C_UNTAG || class == C_ENTAG {
        Kind::Tag
    } else if class == C_MOS || class == C_MOU || class == C_MOE {
        Kind::Member
    } else if class == C_EOS {
        Kind::EndOfTag
    } else if class == C_FCN {
        body_kind(name)
    } else if class == C_BLOCK {
        block_kind(name)
    } else if (class == C_EXT || class == C_STAT) && section == 1 && is_function_type(ty) {
        Kind::Function
    } else {
        Kind::Other
    }
}

fn body_kind(name: &[u8]) -> Kind
    ensures kind { result ≡ kind_in_body name.now }
{
    if name == b".bf".as_slice() {
        Kind::BodyBegin
    } else if name == b".ef".as_slice() {
        Kind::BodyEnd
    } else {
        Kind::Misnamed
    }
}

fn block_kind(name: &[u8]) -> Kind
    ensures kind { result ≡ kind_in_block name.now }
{
    if name == b".bb".as_slice() {
        Kind::BlockBegin
    } else if name == b".eb".as_slice() {
        Kind::BlockEnd
    } else {
        Kind::Misnamed
    }
}

/// Where a block ends, by what lies behind its `.bb`, is where whole scopes end.
pub fn ends_are_scopes()
    ensures law { EndsAreScopes }
{
    // The law is all that is promised.
}
