// The items of an assembly text.

use isa386::{Field, Ins};
use num_le::Name;
use std::alloc::{AllocError, Global};
use std::marker::Model;

/// A name plus a number, in a field of an instruction.
#[derive(Debug, Drop)]
pub struct Label {
    pub field: Field,
    pub name: Name,
    pub add: i32,
}

/// Four bytes of data: a number, or a name plus a number.
#[derive(Debug, Drop)]
pub enum Word {
    Number(u32),
    Label(Name, i32),
}

/// The value of a symbol: a number, a label's address, or the present place.
#[derive(Debug, Drop)]
pub enum Val {
    Number(u32),
    Label(Name),
    Here,
}

/// A group from `.def` to `.endef`, which describes one symbol (syms(4)). What a group leaves out is 0
/// or None.
#[derive(Debug, Drop)]
pub struct DefGroup {
    pub name: Name,
    pub val: Val,
    /// The storage class.
    pub scl: i32,
    /// The type word.
    pub ty: u16,
    /// The name of the structure's or enumeration's tag.
    pub tag: Option<Name>,
    /// The line number.
    pub line: u32,
    /// The size in bytes.
    pub size: u32,
    /// The dimensions of an array, the outermost first.
    pub dims: [u16; 4],
}

/// A statement of the text, or a group.
#[derive(Debug, Drop)]
pub enum Item {
    /// An instruction, and the label that one of its fields holds.
    Code(Ins, Option<Label>),
    /// `name:`, a label here.
    Label(Name),
    /// `.byte`: one byte.
    Byte(u8),
    /// `.value`: two bytes.
    Value(u16),
    /// `.long`: four bytes.
    Long(Word),
    /// `.zero`: this many zero bytes.
    Zero(u32),
    /// `.align 4`: fill up to a multiple of 4.
    Align,
    /// `.text` is 1 and `.data` is 2.
    Section(u8),
    /// `.globl`: the name is external.
    Globl(Name),
    /// `.comm`: a common of this many bytes.
    Comm(Name, u32),
    /// `.lcomm`: this many zero bytes in .bss.
    Lcomm(Name, u32),
    /// `.def` to `.endef`.
    Def(DefGroup),
    /// `.ln`: a line entry at this place.
    Ln(u32),
    /// `.file`: the name of the source file.
    File(Name),
}

/// The items of a text, in order.
#[derive(Debug, Drop)]
pub struct Items {
    list: Vec<Item>,
}

impl Model for Items {
    ghost use Rattle.std.specs.Prelude.{List};
    ghost use Rattle.asm_item.specs.declared.model.Item.{Item};

    ghost Value = { List Item };

    ghost view = { λ s. s.list.items };
}

impl Items {
    ghost use Rattle.std.specs.Prelude.{◌≡◌, [], ◌∷◌, ◌++◌, length, OnOk, OnErr};

    /// No items.
    pub fn new(alloc: Global) -> Items
        ensures empty { result ≡ [] }
    {
        Items {
            list: Vec::new(alloc),
        }
    }

    /// Puts an item at the end. After an error the items are as before.
    pub fn push(&mut self, item: Item) -> Result<(), AllocError>
        ensures added { OnOk result (self.new ≡ self.old ++ item ∷ []) }
        ensures unchanged { OnErr result (self.new ≡ self.old) }
    {
        Ok(self.list.push(item)?)
    }

    /// The items in order.
    pub fn as_slice(&self) -> &[Item]
        ensures items { result.now ≡ self.now }
    {
        &self.list
    }

    /// The items in order, taken out.
    pub fn into_vec(self) -> Vec<Item>
        ensures items { result.items ≡ self }
    {
        self.list
    }
}

impl From<Vec<Item>> for Items {
    ghost use Rattle.std.specs.Prelude.{◌≡◌};

    ghost from_gives = { λ v s. s ≡ v.items };

    fn from(list: Vec<Item>) -> Items {
        Items { list }
    }
}
