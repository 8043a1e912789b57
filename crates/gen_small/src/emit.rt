// The bytes of code.
ghost use Rattle.std.specs.Prelude.{◌≡◌, ◌≤◌, ◌<◌, ◌+◌, ◌++◌, ℕ, IfOk, IfSome, if◌then◌else◌};
ghost use Rattle.mach_mem.specs.Addresses.{text_start, statics_start};
ghost use Rattle.isa386.specs.Encoding.{encoding};
ghost use Rattle.isa386.specs.Row.{IsRow};
ghost use Rattle.gen_small.specs.declared.code_list.Label.{Label as CodeLabel};
ghost use Rattle.gen_small.specs.Emitted as e;
ghost use Rattle.gen_small.specs.Laid.{is_label};
ghost use Rattle.gen_small.specs.Listed.{label_of, item_of};
ghost use Rattle.gen_small.specs.Placing.{known, first_known, coded, IsRowItem, AreRows};
ghost use Rattle.gen_small.specs.Whole.{label_in, laid};
ghost use Rattle.gen_small.specs.Items.{Name};

use crate::code_list::{Code, Item, Label};
use crate::places::Places;
use arrayvec::ArrayVec;
use isa386::{Callee, Ins, PlainOp, Target, encode, len};
use std::alloc::{AllocError, Global};

// The first address of .text.
const TEXT_START: u32 = 0x1_0000;

// The number of bytes of an item.
fn width(item: &Item) -> u32
    ensures bytes { (f : ℕ) → result ≡ e.width (item_of f item.now) }
{
    match item {
        Item::Start(_) | Item::Open(_) => 1,
        Item::Op(op) => u32::from(len(op)),
        Item::Label(_) => 0,
        Item::Goto(_) | Item::CallTo(_) => 5,
        Item::If(_, _) => 6,
    }
}

// Notes the address of an item, if it is a label.
fn note_item(places: &mut Places, item: &Item, address: u32) -> Result<(), AllocError>
    requires some { 0 < address }
    ensures noted { IfOk result (λ _. (f : ℕ) (n : CodeLabel) (further : ℕ) → first_known (known places.new n) further ≡ first_known (known places.old n) (if is_label (label_of f n) (item_of f item.now) then address else further)) }
{
    if let Item::Label(label) = item {
        places.note(*label, address)?;
    }
    Ok(())
}

// Where the labels of code stand.
fn places(alloc: Global, code: &Code) -> Result<Places, AllocError>
    requires fits { e.end_of text_start code.now.items ≤ statics_start }
    ensures known { IfOk result (λ p. (n : CodeLabel) → known p n ≡ label_in code.now.items (label_of code.now.frame.fun n)) }
{
    let mut places = Places::new(alloc);
    let mut address = TEXT_START;
    for item in code.items() {
        note_item(&mut places, item, address)?;
        address += width(item);
    }
    Ok(places)
}

// How far it is from the address behind an instruction to a label.
fn distance(next: u32, label: u32) -> i32
    ensures { result ≡ e.distance next label }
{
    label.wrapping_sub(next).cast_signed()
}

// The instruction of an item at an address. A label has none.
fn instruction(item: &Item, address: u32, places: &Places) -> Option<Ins>
    requires fits { address ≤ statics_start }
    requires row { IsRowItem item.now }
    ensures row { IfSome result (λ i. IsRow i) }
    ensures bytes { (f : ℕ) (label : Name → ℕ) → ((n : CodeLabel) → known places.now n ≡ label (label_of f n)) → coded result ≡ e.item_bytes label address (item_of f item.now) }
{
    let to = |width: u32, label: Label| distance(address + width, places.get(label));
    match *item {
        Item::Start(_) | Item::Open(_) => Some(Ins::Plain(PlainOp::Nop)),
        Item::Op(op) => Some(op),
        Item::Label(_) => None,
        Item::Goto(label) => Some(Ins::Jump(Target::Near(to(5, label)))),
        Item::If(cond, label) => Some(Ins::Branch(cond, Target::Near(to(6, label)))),
        Item::CallTo(label) => Some(Ins::Call(Callee::Relative(to(5, label)))),
    }
}

fn push_instruction(bytes: &mut Vec<u8>, ins: &Ins) -> Result<(), AllocError>
    requires row { IsRow ins.now }
    ensures bytes { IfOk result (λ _. bytes.new.items ≡ bytes.old.items ++ encoding ins.now) }
{
    let mut code = ArrayVec::new();
    encode(ins, &mut code);
    bytes.extend_from_slice(&code)
}

fn push_item(
    bytes: &mut Vec<u8>,
    item: &Item,
    address: u32,
    places: &Places,
) -> Result<(), AllocError>
    requires fits { address ≤ statics_start }
    requires row { IsRowItem item.now }
    ensures bytes { (f : ℕ) (label : Name → ℕ) → ((n : CodeLabel) → known places.now n ≡ label (label_of f n)) → IfOk result (λ _. bytes.new.items ≡ bytes.old.items ++ e.item_bytes label address (item_of f item.now)) }
{
    match instruction(item, address, places) {
        Some(ins) => push_instruction(bytes, &ins),
        None => Ok(()),
    }
}

/// The bytes of code, the first of which stands at 0x00010000.
pub(crate) fn text(alloc: Global, code: &Code) -> Result<Vec<u8>, AllocError>
    requires fits { e.end_of text_start code.now.items ≤ statics_start }
    requires rows { AreRows code.now.items }
    ensures bytes { IfOk result (λ v. v.items ≡ laid code.now.items) }
{
    let places = places(alloc, code)?;
    let mut bytes = Vec::new(alloc);
    let mut address = TEXT_START;
    for item in code.items() {
        push_item(&mut bytes, item, address, &places)?;
        address += width(item);
    }
    Ok(bytes)
}
