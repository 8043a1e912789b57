use asm_item::{
    DefGroup, Field, Item, Items, Keyword, Label, Size, Val, Word, is_file, is_name, is_name_byte,
    is_normal, print, register_name,
};
use isa386::{Dest, Dw, Ins, Opnd, Target};
use num_le::Name;
use std::alloc::{AllocError, Global};
use std::test::Fail;

fn store(alloc: Global) -> Result<Item, AllocError> {
    let absolute = Opnd::Mem {
        base: None,
        index: None,
        disp: 0,
        width: Dw::D32,
    };
    let label = Label {
        field: Field::Disp,
        name: Name::of(alloc, b"w")?,
        add: -4,
    };
    Ok(Item::Code(
        Ins::MoveImm(Dest::Operand(absolute), 0xFFFF_FFF9),
        Some(label),
    ))
}

fn load() -> Item {
    let local = Opnd::Mem {
        base: Some(5),
        index: None,
        disp: 0,
        width: Dw::D32,
    };
    Item::Code(Ins::Lea(0, local), None)
}

fn group(alloc: Global) -> Result<Item, AllocError> {
    Ok(Item::Def(DefGroup {
        name: Name::of(alloc, b"a")?,
        val: Val::Here,
        scl: -1,
        ty: 0xF2,
        tag: None,
        line: 0,
        size: 6,
        dims: [2, 3, 0, 0],
    }))
}

fn written(alloc: Global) -> Result<Items, AllocError> {
    let mut items = Items::new(alloc);
    items.push(Item::File(Name::of(alloc, b"h.c")?))?;
    items.push(Item::Section(2))?;
    items.push(Item::Label(Name::of(alloc, b"w")?))?;
    items.push(Item::Long(Word::Label(Name::of(alloc, b"w")?, 8)))?;
    items.push(store(alloc)?)?;
    items.push(load())?;
    items.push(group(alloc)?)?;
    Ok(items)
}

#[test]
fn items_are_printed(rt: HostRuntime) -> Result<(), Fail> {
    let items = written(rt.alloc())?;
    assert!(rt; is_normal(&items));
    let text = print(rt.alloc(), &items)?;
    assert_eq!(rt;
        text.as_slice(),
        b"\t.file \"h.c\"\n\t.data\nw:\n\t.long w + 8\n\tmovl $-7, w + -4\n\tleal 0(%ebp), %eax\n\t.def a; .val .; .scl -1; .type 242; .size 6; .dim 2, 3; .endef\n".as_slice()
    );
    Ok(())
}

#[test]
fn what_is_not_normal(rt: HostRuntime) -> Result<(), Fail> {
    let mut items = Items::new(rt.alloc());
    items.push(Item::Code(Ins::Jump(Target::Near(0)), None))?;
    assert!(rt; !is_normal(&items));
    assert!(rt; !is_name(b"."));
    assert!(rt; is_name(b".eos"));
    assert!(rt; !is_name_byte(b'$'));
    assert!(rt; !is_file(b"much_too_long.c"));
    assert_eq!(rt; register_name(Size::Short, 7), b"di".as_slice());
    assert_eq!(rt; Keyword::Leave.text(), b"leave".as_slice());
    assert_eq!(rt; items.as_slice().len(), 1);
    assert_eq!(rt; Items::from(items.into_vec()).as_slice().len(), 1);
    Ok(())
}
