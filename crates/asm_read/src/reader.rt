// Reading statement by statement.
ghost use Rattle.std.specs.Prelude.{◌≡◌, ℕ, [], ◌∷◌, IfOk};
ghost use Rattle.asm_read.specs.Reading as spec;
ghost use Rattle.asm_read.specs.Goes.{Goes, shown_open, state_of};
ghost use Rattle.asm_read.specs.Shown.{shown_part, shown_stmt, shown_at};

use crate::AsmErr;
use crate::stmt_list::Placed;
use crate::stmts::{Part, Stmt};
use asm_item::{DefGroup, Item, Val};
use num_le::Name;
use std::alloc::Global;

/// A group that isn't closed yet: its line, what it says, and the place from which parts may follow.
#[derive(Drop)]
pub struct Open {
    line: u32,
    group: DefGroup,
    next: u8,
}

/// The items so far, and where the reader stands.
#[derive(Drop)]
pub struct Reader {
    items: Vec<Item>,
    group: Option<Open>,
    /// Whether the source file was named.
    filed: bool,
}

/// The place of a part in a group.
fn rank(p: &Part) -> u8
    ensures { result ≡ spec.rank (shown_part p.now) }
{
    match p {
        Part::Val(_) => 0,
        Part::Scl(_) => 1,
        Part::Ty(_) => 2,
        Part::Tag(_) => 3,
        Part::Line(_) => 4,
        Part::Size(_) => 5,
        Part::Dims(_) => 6,
    }
}

fn empty_group(name: Name) -> DefGroup
    ensures { result ≡ spec.empty_group name }
{
    DefGroup {
        name,
        val: Val::Number(0),
        scl: 0,
        ty: 0,
        tag: None,
        line: 0,
        size: 0,
        dims: [0; 4],
    }
}

/// The first four of these numbers, and zeros where there are fewer.
fn four(ns: &[u16]) -> [u16; 4]
    ensures { result ≡ spec.four ns.now }
{
    match ns {
        [] => [0, 0, 0, 0],
        [a] => [*a, 0, 0, 0],
        [a, b] => [*a, *b, 0, 0],
        [a, b, c] => [*a, *b, *c, 0],
        [a, b, c, d, ..] => [*a, *b, *c, *d],
    }
}

fn put_part(g: &mut DefGroup, p: Part)
    ensures { g.new ≡ spec.with_part g.old (shown_part p) }
{
    match p {
        Part::Val(v) => g.val = v,
        Part::Scl(z) => g.scl = z,
        Part::Ty(n) => g.ty = n,
        Part::Tag(k) => g.tag = Some(k),
        Part::Line(n) => g.line = u32::from(n),
        Part::Size(n) => g.size = u32::from(n),
        Part::Dims(ns) => g.dims = four(&ns),
    }
}

fn is_file(i: &Item) -> bool
    ensures { result ≡ spec.is_file i.now }
{
    matches!(i, Item::File(_))
}

impl Reader {
    pub fn new(alloc: Global) -> Reader
        ensures { state_of result ≡ spec.start }
    {
        Reader {
            items: Vec::new(alloc),
            group: None,
            filed: false,
        }
    }

    /// One more item.
    fn push(&mut self, line: u32, i: Item) -> Result<(), AsmErr>
        requires outside { self.old.group ≡ None }
        ensures { Goes result (state_of self.new) (spec.goes line (Some (spec.with_item (state_of self.old) i)) (λ t. Ok t)) }
    {
        if is_file(&i) {
            self.filed = true;
        }
        self.items.push(i)?;
        Ok(())
    }

    /// An item outside groups: the second name of a source file can't stand there.
    fn item(&mut self, line: u32, i: Item) -> Result<(), AsmErr>
        requires outside { self.old.group ≡ None }
        ensures { Goes result (state_of self.new) (spec.goes line (spec.item_step (state_of self.old) i) (λ t. Ok t)) }
    {
        if is_file(&i) && self.filed {
            return Err(AsmErr::NotAsm(line));
        }
        self.push(line, i)
    }

    fn outside(&mut self, line: u32, s: Stmt) -> Result<(), AsmErr>
        requires outside { self.old.group ≡ None }
        ensures { Goes result (state_of self.new) (spec.goes line (spec.step_outside (state_of self.old) line (shown_stmt s)) (λ t. Ok t)) }
    {
        match s {
            Stmt::Item(i) => self.item(line, i),
            Stmt::Begin(name) => {
                self.group = Some(Open {
                    line,
                    group: empty_group(name),
                    next: 0,
                });
                Ok(())
            }
            Stmt::Part(_) | Stmt::End => Err(AsmErr::NotAsm(line)),
        }
    }

    /// A part of an open group: one that came, or that stands before one that came, can't stand there.
    fn part(&mut self, line: u32, opened: Open, p: Part) -> Result<(), AsmErr>
        requires taken { self.old.group ≡ None }
        ensures { Goes result (state_of self.new) (spec.goes line (spec.part_step (state_of self.old) (shown_open opened) (shown_part p)) (λ t. Ok t)) }
    {
        let place = rank(&p);
        if place < opened.next {
            return Err(AsmErr::NotAsm(line));
        }
        let mut group = opened.group;
        put_part(&mut group, p);
        self.group = Some(Open {
            line: opened.line,
            group,
            next: place + 1,
        });
        Ok(())
    }

    fn within(&mut self, line: u32, opened: Open, s: Stmt) -> Result<(), AsmErr>
        requires taken { self.old.group ≡ None }
        ensures { Goes result (state_of self.new) (spec.goes line (spec.step_within (state_of self.old) (shown_open opened) (shown_stmt s)) (λ t. Ok t)) }
    {
        match s {
            Stmt::Part(p) => self.part(line, opened, p),
            Stmt::End => self.push(line, Item::Def(opened.group)),
            Stmt::Item(_) | Stmt::Begin(_) => Err(AsmErr::NotAsm(line)),
        }
    }

    /// A label or statement, or what is none.
    pub fn take(&mut self, at: Placed) -> Result<(), AsmErr>
        ensures { Goes result (state_of self.new) (spec.steps (state_of self.old) (shown_at at ∷ [])) }
    {
        let line = at.line;
        let Some(s) = at.stmt else {
            return Err(AsmErr::NotAsm(line));
        };
        match self.group.take() {
            None => self.outside(line, s),
            Some(opened) => self.within(line, opened, s),
        }
    }

    /// The items, unless a group is open: then its line.
    pub fn finish(self) -> Result<Vec<Item>, AsmErr>
        ensures items { IfOk result (λ items. spec.finish (Ok (state_of self)) ≡ Ok items.items) }
        ensures unclosed { (n : ℕ) → result ≡ Err (AsmErr.NotAsm n) → spec.finish (Ok (state_of self)) ≡ Err n }
    {
        let Reader {
            items,
            group,
            filed: _,
        } = self;
        match group {
            None => Ok(items),
            Some(opened) => Err(AsmErr::NotAsm(opened.line)),
        }
    }
}
