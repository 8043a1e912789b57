// Units: external declarations in order, names that are defined once, tags that are defined once.
ghost use Rattle.std.specs.Prelude.{◌≡◌, ◌++◌, ◌∷◌, [], map, IfErr, IfOk, OnOk, is_some, not, ℕ};
ghost use Rattle.std.specs.List.{flat_map};
ghost use Rattle.c_tree.specs.TreeOf as tree;
ghost use Rattle.c_tree.specs.TreeUnit as tu;
ghost use Rattle.c_tree.specs.TypedOf.{ext_of, unit_of};
ghost use Rattle.c_rule.specs.RuleNames as n;
ghost use Rattle.c_rule.specs.RuleTags as t;
ghost use Rattle.c_rule.specs.RuleFailsUnit.{UnitFails};
ghost use Rattle.c_rule.specs.RuleUnit.{IsTyped};
ghost use Rattle.c_tree.specs.TreeDecl as w;
ghost use Rattle.c_check.specs.Tells.{Tells};
ghost use Rattle.c_check.specs.UnitParts.{judged_parts, names_in};
ghost use Rattle.c_scope.specs.EnvOf.{env_of};
ghost use Rattle.c_rule.specs.JudgingUnit as j;
ghost use Rattle.c_scope.specs.Says.{Says, SaysBehind};

use crate::file_items::{aliases, items};
use crate::functions::function;
use c_local::{head_declarator, line_of};
use c_scope::{Scopes, TypeErr, declared, first_again, is_static_function};
use c_tag::{head_words, tag_def, types_or_int};
use c_tree::{
    Block, Declr, Ext, FileSpecs, Item, ParDecl, TExt, TSpec, TagSpec, TypedUnit, Types, Unit,
};
use std::alloc::{AllocError, Global};

/// Typedef names.
fn typedef(
    c: &mut Scopes,
    line: u32,
    words: &Option<Types>,
    declrs: &[Declr],
) -> Result<TExt, TypeErr>
    ensures judged { SaysBehind ext_of (env_of c.new) (j.judged_ext (env_of c.old) (tu.typedef line (tree.part_of tree.types_of words.now) (map tree.declr_of declrs.now))) result }
{
    let words = types_or_int(c, line, words)?;
    let typed = aliases(c, &words.base, declrs)?;
    Ok(TExt::Typedef(Box::into_inner(words.spec), typed))
}

/// A tag alone.
fn tag_only(c: &mut Scopes, line: u32, tag: &TagSpec) -> Result<TExt, TypeErr>
    ensures judged { SaysBehind ext_of (env_of c.new) (j.judged_ext (env_of c.old) (tu.tag_only line (tree.tag_of tag.now))) result }
{
    match tag {
        TagSpec::Ref(tag) => {
            let ty = c.tag(tag.line, tag.kind, tag.name.as_slice())?;
            Ok(TExt::TagOnly(TSpec::Plain(ty)))
        }
        TagSpec::Def(def) => {
            let words = tag_def(c, def)?;
            Ok(TExt::TagOnly(Box::into_inner(words.spec)))
        }
    }
}

/// Objects and functions.
fn object(c: &mut Scopes, line: u32, specs: &FileSpecs, parts: &[Item]) -> Result<TExt, TypeErr>
    ensures judged { SaysBehind ext_of (env_of c.new) (j.judged_ext (env_of c.old) (tu.object line (tree.file_specs_of specs.now) (map tree.item_of parts.now))) result }
{
    let words = types_or_int(c, line, &specs.types)?;
    let typed = items(c, specs.storage, &words.base, parts)?;
    Ok(TExt::Object(Box::into_inner(words.spec), typed))
}

/// A function with its body.
fn func(
    c: &mut Scopes,
    line: u32,
    specs: &Option<FileSpecs>,
    h: &Declr,
    params: &[ParDecl],
    body: &Block,
) -> Result<TExt, TypeErr>
    ensures judged { SaysBehind ext_of (env_of c.new) (j.judged_ext (env_of c.old) (tu.func line (tree.part_of tree.file_specs_of specs.now) (tree.declr_of h.now) (map tree.par_of params.now) (tree.block_of body.now))) result }
{
    let words = head_words(c, line, specs)?;
    let declr = head_declarator(c, &words.base, h)?;
    let typed = function(c, line, is_static_function(specs), h, &declr, params, body)?;
    Ok(TExt::Func(Box::into_inner(words.spec), Box::into_inner(typed)))
}

/// A part of a unit.
fn ext(c: &mut Scopes, part: &Ext) -> Result<TExt, TypeErr>
    ensures judged { SaysBehind ext_of (env_of c.new) (j.judged_ext (env_of c.old) (tree.ext_of part.now)) result }
{
    match part {
        Ext::Typedef(line, words, declrs) => typedef(c, *line, words, declrs),
        Ext::TagOnly(line, tag) => tag_only(c, *line, tag),
        Ext::Object(line, specs, items) => object(c, *line, specs, items),
        Ext::Func(line, specs, h, params, body) => func(c, *line, specs, h, params, body),
    }
}

/// The parts of a unit, each where those before it stand.
fn exts(c: &mut Scopes, parts: &[Ext]) -> Result<Vec<TExt>, TypeErr>
    ensures judged { SaysBehind (λ x. map ext_of x.items) (env_of c.new) (j.judged_exts (env_of c.old) (map tree.ext_of parts.now)) result }
{
    let mut typed = Vec::new(c.alloc);
    for part in parts {
        let one = ext(c, part)?;
        typed.push(one)?;
    }
    Ok(typed)
}

/// The names that initialisers and bodies define at file level, with the lines of their declarators.
#[derive(Drop)]
struct Defined<'a> {
    names: Vec<&'a [u8]>,
    lines: Vec<u32>,
}

/// Adds the name that a declarator defines.
fn add_declr<'a>(defined: &mut Defined<'a>, declr: &'a Declr) -> Result<(), AllocError>
    ensures added { OnOk result (names_in defined.new ≡ names_in defined.old ++ w.declared (tree.declr_of declr.now) ∷ []) }
{
    defined.names.push(declared(declr).as_slice())?;
    defined.lines.push(line_of(declr))?;
    Ok(())
}

/// Adds the names that initialised declarators define.
fn add_items<'a>(defined: &mut Defined<'a>, items: &'a [Item]) -> Result<(), AllocError>
    ensures added { OnOk result (names_in defined.new ≡ names_in defined.old ++ flat_map n.defined_by (map tree.item_of items.now)) }
{
    for item in items {
        if item.init.is_some() {
            add_declr(defined, &item.declr)?;
        }
    }
    Ok(())
}

/// Adds the names that a part of a unit defines.
fn add_ext<'a>(defined: &mut Defined<'a>, part: &'a Ext) -> Result<(), AllocError>
    ensures added { OnOk result (names_in defined.new ≡ names_in defined.old ++ n.defined_in_ext (tree.ext_of part.now)) }
{
    match part {
        Ext::Object(_, _, items) => add_items(defined, items),
        Ext::Func(_, _, h, _, _) => add_declr(defined, h),
        Ext::Typedef(..) | Ext::TagOnly(..) => Ok(()),
    }
}

/// The names that initialisers and bodies define at file level.
fn defined_in(alloc: Global, parts: &[Ext]) -> Result<Defined<'_>, AllocError>
    ensures { IfOk result (λ x. names_in x ≡ flat_map n.defined_in_ext (map tree.ext_of parts.now)) }
{
    let mut defined = Defined {
        names: Vec::new(alloc),
        lines: Vec::new(alloc),
    };
    for part in parts {
        add_ext(&mut defined, part)?;
    }
    Ok(defined)
}

/// The line of the first declarator that defines a name once more. There is one exactly where a name has two initialisers
/// or bodies.
fn defined_again(alloc: Global, u: &Unit) -> Result<Option<u32>, AllocError>
    ensures told { IfOk result (λ x. is_some x ≡ not (t.names_differ (n.defined_in (tree.unit_of u.now)))) }
{
    let defined = defined_in(alloc, &u.exts)?;
    let Some(at) = first_again(alloc, &defined.names)? else {
        return Ok(None);
    };
    Ok(Some(defined.lines.get(at).copied().unwrap_or(0)))
}

/// The typed unit of a unit, as far as its parts decide.
fn typed_unit(alloc: Global, u: &Unit) -> Result<TypedUnit, TypeErr>
    ensures judged { Says unit_of (judged_parts (tree.unit_of u.now)) result }
{
    let mut c = Box::new(alloc, Scopes::at_first(alloc, u)?)?;
    if let Some(line) = c.tag_again()? {
        return Err(TypeErr::Rule(3, line));
    }
    let exts = exts(&mut c, &u.exts)?;
    let (tags, texts) = Box::into_inner(c).into_parts();
    Ok(TypedUnit { tags, texts, exts })
}

/// The typed unit of a unit, as the typing function gives it.
fn judged_unit(alloc: Global, u: &Unit) -> Result<TypedUnit, TypeErr>
    ensures judged { Says unit_of (j.judged (tree.unit_of u.now)) result }
{
    if let Some(line) = defined_again(alloc, u)? {
        return Err(TypeErr::Rule(1, line));
    }
    typed_unit(alloc, u)
}

/// The typed unit of a unit, or a rule that fails in it with the line near which it does.
///
/// It is typed exactly where none of the 24 rules fails. Memory says that memory was wanting.
pub fn check(alloc: Global, u: &Unit) -> Result<TypedUnit, TypeErr>
    ensures typed { IfOk result (λ x. IsTyped (tree.unit_of u.now) (unit_of x)) }
    ensures none_fails { OnOk result ((n : ℕ) → UnitFails (tree.unit_of u.now) n → ⊥) }
    ensures fails { IfErr result (λ e. Tells (tree.unit_of u.now) e) }
{
    judged_unit(alloc, u)
}
