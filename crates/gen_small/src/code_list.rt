// The code of a function as a list of instructions, labels and jumps.
ghost use Rattle.std.specs.Prelude.{◌≡◌, ◌∷◌, [], ◌++◌, IfOk, map};
ghost use Rattle.gen_small.specs.Items as s;
ghost use Rattle.gen_small.specs.Listed.{item_of};

use isa386::{Cond, Ins};
use std::alloc::{AllocError, Global};
use std::marker::Model;

/// A place in the code of a function that a jump or call names.
#[derive(Clone, Copy, Drop)]
pub enum Label {
    /// The function's first instruction.
    Entry,
    /// Where it returns, with its value in %eax.
    Close,
    /// The first place of the loop with that start.
    Top(u32),
    /// The place behind that loop.
    End(u32),
}

/// One item of code.
#[derive(Clone, Copy, Drop)]
pub enum Item {
    /// The start with that number, a `nop`.
    Start(u32),
    /// The start of an opening brace.
    Open(u32),
    Op(Ins),
    Label(Label),
    /// `jmp`, `jcc` and `call` to a label.
    Goto(Label),
    If(Cond, Label),
    CallTo(Label),
}

/// A function whose automatic objects are all of type int: its number, and the number of its objects.
#[derive(Clone, Copy, Drop)]
pub struct IntFrame {
    pub fun: u32,
    pub objects: u32,
}

/// The code of a function.
#[derive(Drop)]
pub struct Code {
    frame: IntFrame,
    list: Vec<Item>,
}

impl Model for Code {
    ghost use Rattle.std.specs.Prelude.{map};
    ghost use Rattle.gen_small.specs.Listed.{Listing, item_of};

    ghost Value = { Listing };

    ghost view = { λ s. record { frame = s.frame; items = map (item_of s.frame.fun) s.list.items } };
}

impl Code {
    /// No code yet.
    pub fn new(alloc: Global, frame: IntFrame) -> Code
        ensures frame { result.frame ≡ frame }
        ensures empty { result.items ≡ [] }
    {
        Code {
            frame,
            list: Vec::new(alloc),
        }
    }

    /// The function whose code it is.
    pub fn frame(&self) -> IntFrame
        ensures { result ≡ self.now.frame }
    {
        self.frame
    }

    /// The items in order.
    pub fn items(&self) -> &[Item]
        ensures { map (item_of self.now.frame.fun) result.now ≡ self.now.items }
    {
        &self.list
    }

    /// Appends an item.
    pub fn push(&mut self, item: Item) -> Result<(), AllocError>
        ensures kept { self.new.frame ≡ self.old.frame }
        ensures added { IfOk result (λ _. self.new.items ≡ self.old.items ++ item_of self.old.frame.fun item ∷ []) }
    {
        self.list.push(item)?;
        Ok(())
    }

    /// Appends instructions.
    pub fn push_all(&mut self, ops: &[Ins]) -> Result<(), AllocError>
        ensures kept { self.new.frame ≡ self.old.frame }
        ensures added { IfOk result (λ _. self.new.items ≡ self.old.items ++ map s.Op ops.now) }
    {
        for op in ops {
            self.push(Item::Op(*op))?;
        }
        Ok(())
    }
}
