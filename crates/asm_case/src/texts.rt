use asm_item::{Item, Items, is_normal, print};
use asm_read::{AsmErr, read};
use isa386::{Cond, Ins, Opnd, Target};
use std::alloc::{AllocError, Global};
use std::test::Fail;

/// Each instruction in each operand form, each directive and each part of a group, as they are printed.
const ROWS: &[u8] = b"\t.file \"rows.c\"
\t.text
\tmovl %eax, %edi
\tmovl %ecx, -4(%ebp)
\tmovl 0(%esp), %edx
\tmovl w, %ebx
\tmovl w + -8, %esp
\tmovl 4096, %ebp
\tmovl $-1, %esi
\tmovl $w, %edi
\tmovl $7, w
\tmovl $w, 8(%eax)
\tmovb %al, %cl
\tmovb %dl, w
\tmovb 1(%ecx), %bl
\tmovw %ax, %di
\tmovw %si, 2(%edx)
\tleal 12(%ebx), %eax
\tpushl %ecx
\tpushl $5
\tpushl $w
\tpopl %edx
\taddl %eax, %ecx
\torl w, %eax
\tandl $15, %eax
\tsubl $4, %esp
\txorl %eax, %eax
\tcmpl $0, w + 4
\ttestl %eax, 0(%eax)
\timull w, %eax
\tnotl %eax
\tnegl w
\tdivl %ecx
\tidivl 0(%ecx)
\tcltd
\tshll %cl, %eax
\tshrl %cl, w
\tsarl %cl, 4(%esp)
\tseto %al
\tsetg w
\tmovsbl %cl, %eax
\tmovswl w, %eax
\tmovzbl 0(%eax), %eax
\tmovzwl %cx, %eax
\tcall f
\tcall *%eax
\tcall *w
f:
\tjmp f
\tjno f
\tjae f
\tjbe f
\tjns f
\tjge f
\tret
\tleave
\tnop
\tint3
\trep movsb
\trep stosb
\tcld
\tlcall $7, $0
\t.data
\t.globl w
\t.comm c, 4
\t.lcomm l, 8
w:
\t.byte 255
\t.value 65535
\t.long 4294967295
\t.long w
\t.long w + -4
\t.zero 3
\t.align 4
\t.def s; .val w; .scl 2; .type 8; .tag t; .line 3; .size 24; .dim 2, 3; .endef
\t.def m; .val 4; .scl -1; .endef
\t.ln 9
";

/// A program by hand, and what is printed of it.
const H_S: &[u8] = b"\t.file \"h.c\"
\t.text
\t.globl main
\t.def main; .val main; .scl 2; .type 044; .endef
main:
\tpushl %ebp
\tmovl %esp, %ebp
\t.def .bf; .val .; .scl 101; .line 2; .endef
\t.ln 1
\tnop
\t.ln 2
\tmovl $7, w
\t.ln 3
\tmovl w, %eax
\t.def .ef; .val .; .scl 101; .line 4; .endef
\t.ln 4
\tnop
\tleave
\tret
\t.def main; .val .; .scl -1; .endef
\t.data
\t.globl w
\t.def w; .val w; .scl 2; .type 04; .endef
w:
\t.long 3
";

const H_S_PRINTED: &[u8] = b"\t.file \"h.c\"
\t.text
\t.globl main
\t.def main; .val main; .scl 2; .type 36; .endef
main:
\tpushl %ebp
\tmovl %esp, %ebp
\t.def .bf; .val .; .scl 101; .line 2; .endef
\t.ln 1
\tnop
\t.ln 2
\tmovl $7, w
\t.ln 3
\tmovl w, %eax
\t.def .ef; .val .; .scl 101; .line 4; .endef
\t.ln 4
\tnop
\tleave
\tret
\t.def main; .val .; .scl -1; .endef
\t.data
\t.globl w
\t.def w; .val w; .scl 2; .type 4; .endef
w:
\t.long 3
";

/// A text by hand, and what is printed of it.
const WRITTEN: &[u8] = b"a: b: nop; / two labels
 movl $0x1F , ( % eax ) ;; .byte 017;.byte -1
.long w - 4; .long w - -4; lcall $07, $-0 / and a comment; ret
.def a ; .dim 1
.endef; .file \"a;/b\"";

const PRINTED: &[u8] = b"a:
b:
\tnop
\tmovl $31, 0(%eax)
\t.byte 15
\t.byte 255
\t.long w + -4
\t.long w + 4
\tlcall $7, $0
\t.def a; .dim 1; .endef
\t.file \"a;/b\"
";

/// Texts that are no assembly text, and the lines at which they leave it.
const REFUSED: [(&[u8], u32); 24] = [
    (b"movl $w, w", 1),
    (b"nop\nmovl %eax", 2),
    (b"movl %eax, $1", 1),
    (b"movl w - 4, %eax", 1),
    (b"movb %ah, w", 1),
    (b"jmp 5", 1),
    (b"lcall $7, $1", 1),
    (b"shll %dl, %eax", 1),
    (b".byte 256", 1),
    (b".byte -129", 1),
    (b".long 4294967296", 1),
    (b".value 08", 1),
    (b".ln 0", 1),
    (b".align 8", 1),
    (b".file \"a\"\n\n.file \"b\"", 3),
    (b".file \"fifteen_bytes.c\"", 1),
    (b".:", 1),
    (b"\n.scl 2", 2),
    (b".def a; .scl 2; .val 1; .endef", 1),
    (b".def a; .scl 2;\n.scl 2; .endef", 2),
    (b".def a\nnop\n.endef", 2),
    (b".def a; .dim 1, 2, 3, 4, 5; .endef", 1),
    (b"nop\n.def a\n.val .", 2),
    (b"nop \"", 1),
];

/// What stands behind `j` and `set`, and the condition that it names.
const CONDITIONS: [(&[u8], Cond); 14] = [
    (b"o", Cond::Overflow),
    (b"no", Cond::NotOverflow),
    (b"b", Cond::Below),
    (b"ae", Cond::AboveOrEqual),
    (b"e", Cond::Equal),
    (b"ne", Cond::NotEqual),
    (b"be", Cond::BelowOrEqual),
    (b"a", Cond::Above),
    (b"s", Cond::Sign),
    (b"ns", Cond::NotSign),
    (b"l", Cond::Less),
    (b"ge", Cond::GreaterOrEqual),
    (b"le", Cond::LessOrEqual),
    (b"g", Cond::Greater),
];

fn few(alloc: Global, text: &[u8]) -> Result<Items, AsmErr> {
    if text.len() > 262144 {
        return Err(AsmErr::Memory);
    }
    read(alloc, text)
}

/// What is printed of the items of a text.
fn printed(alloc: Global, text: &[u8]) -> Result<Option<Vec<u8>>, AllocError> {
    match few(alloc, text) {
        Ok(items) if is_normal(&items) => Ok(Some(print(alloc, &items)?)),
        _ => Ok(None),
    }
}

fn comes_back_as(alloc: Global, text: &[u8], wanted: &[u8]) -> Result<bool, AllocError> {
    match printed(alloc, text)? {
        Some(bytes) => Ok(bytes.as_slice() == wanted),
        None => Ok(false),
    }
}

fn refused_at(alloc: Global, text: &[u8]) -> Option<u32> {
    match few(alloc, text) {
        Err(AsmErr::NotAsm(line)) => Some(line),
        _ => None,
    }
}

#[test]
fn rows_come_back(rt: HostRuntime) -> Result<(), Fail> {
    assert!(rt; comes_back_as(rt.alloc(), ROWS, ROWS)?);
    assert!(rt; comes_back_as(rt.alloc(), WRITTEN, PRINTED)?);
    Ok(())
}

#[test]
fn refused_texts(rt: HostRuntime) -> Result<(), Fail> {
    for (text, line) in REFUSED {
        assert_eq!(rt; refused_at(rt.alloc(), text), Some(line));
    }
    Ok(())
}

/// Whether `j` and `set` with this behind them are read as the jump and the byte of the condition.
fn names_condition(alloc: Global, suffix: &[u8], condition: Cond) -> Result<bool, AllocError> {
    let mut text = Vec::new(alloc);
    for piece in [b"j".as_slice(), suffix, b" f; set", suffix, b" %al"] {
        text.extend_from_slice(piece)?;
    }
    let Ok(items) = few(alloc, &text) else {
        return Ok(false);
    };
    Ok(match items.as_slice() {
        [Item::Code(jump, Some(label)), Item::Code(set, None)] => {
            *jump == Ins::Branch(condition, Target::Near(0))
                && label.name.is(b"f")
                && *set == Ins::Set(condition, Opnd::Reg(0))
        }
        _ => false,
    })
}

#[test]
fn conditions_have_names(rt: HostRuntime) -> Result<(), Fail> {
    for (suffix, condition) in CONDITIONS {
        assert!(rt; names_condition(rt.alloc(), suffix, condition)?);
    }
    Ok(())
}

#[test]
fn program_comes_back(rt: HostRuntime) -> Result<(), Fail> {
    assert!(rt; comes_back_as(rt.alloc(), H_S, H_S_PRINTED)?);
    assert!(rt; comes_back_as(rt.alloc(), H_S_PRINTED, H_S_PRINTED)?);
    Ok(())
}

#[test]
fn longest_text(rt: HostRuntime) -> Result<(), Fail> {
    let mut text = Vec::new(rt.alloc());
    for _ in 0..65536 {
        text.extend_from_slice(b"nop\n")?;
    }
    let count = match few(rt.alloc(), &text) {
        Ok(items) => items.as_slice().len(),
        Err(_) => 0,
    };
    assert_eq!(rt; count, 65536);
    Ok(())
}
