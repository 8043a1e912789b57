// The addresses of labels.
ghost use Rattle.std.specs.Prelude.{◌≡◌, ◌≢◌, ◌≤◌, ℕ, IfOk, length, slice_index, []};
ghost use Rattle.gen_small.specs.Placing.{slot_of, known, first_known};

use crate::code_list::Label;
use std::alloc::{AllocError, Global};
use std::marker::Model;

/// The addresses of labels, by the numbers of their starts; 0 stands for none.
#[derive(Drop)]
pub(crate) struct Places {
    table: Vec<u32>,
}

impl Model for Places {
    ghost use Rattle.std.specs.Prelude.{List, ℕ};

    ghost Value = { List ℕ };

    ghost view = { λ s. s.table.items };
}

fn slot(label: Label) -> usize
    ensures { result ≡ slot_of label }
{
    match label {
        Label::Entry => 0,
        Label::Close => 1,
        Label::Top(start) => 2 * start as usize + 2,
        Label::End(start) => 2 * start as usize + 3,
    }
}

impl Places {
    /// No address is known.
    pub(crate) fn new(alloc: Global) -> Places
        ensures { result ≡ [] }
    {
        Places {
            table: Vec::new(alloc),
        }
    }

    /// The address of a label, 0 where none is known.
    pub(crate) fn get(&self, label: Label) -> u32
        ensures { result ≡ known self.now label }
    {
        match self.table.get(slot(label)) {
            Some(address) => *address,
            None => 0,
        }
    }

    // Makes room for so many addresses.
    fn grow(&mut self, count: usize) -> Result<(), AllocError>
        ensures room { IfOk result (λ _. count ≤ length self.new) }
        ensures same { IfOk result (λ _. (k : ℕ) → slice_index self.new k ≡ slice_index self.old k) }
    {
        for _ in self.table.len()..count {
            self.table.push(0)?;
        }
        Ok(())
    }

    /// Notes the address of a label, if none is known.
    pub(crate) fn note(&mut self, label: Label, address: u32) -> Result<(), AllocError>
        ensures here { IfOk result (λ _. slice_index self.new (slot_of label) ≡ first_known (slice_index self.old (slot_of label)) address) }
        ensures others { IfOk result (λ _. (k : ℕ) → k ≢ slot_of label → slice_index self.new k ≡ slice_index self.old k) }
    {
        let slot = slot(label);
        self.grow(slot + 1)?;
        if self.table[slot] == 0 {
            self.table[slot] = address;
        }
        Ok(())
    }
}
