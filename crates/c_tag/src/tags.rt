#![tactic(auto, using(crate::proofs::TagBodies::struct_is, crate::proofs::TagBodies::source_struct))]

// The bodies of tags, and the types that words name outside of blocks.
ghost use Rattle.std.specs.Prelude.{◌≡◌, ◌++◌, [], map, IfOk, None, OnOk, Some};
ghost use Rattle.c_type.specs.Names.{or_default};
ghost use Rattle.c_type.specs.Of.{type_of, tag_of, member_of as c_member_of, members_of as members_in};
ghost use Rattle.c_tree.specs.TreeDecl as ud;
ghost use Rattle.c_tree.specs.TreeOf as u;
ghost use Rattle.c_tree.specs.TUnit as tu;
ghost use Rattle.c_tree.specs.TypedOf.{declr_of, enumerator_of, spec_of};
ghost use Rattle.c_rule.specs.RuleScope.{close, past_option, known};
ghost use Rattle.c_rule.specs.RuleNames as n;
ghost use Rattle.c_rule.specs.RuleTags as t;
ghost use Rattle.c_operator.specs.Boxed.{boxed};
ghost use Rattle.c_local.specs.Boxed.{boxed_declr};
ghost use Rattle.c_scope.specs.EnvOf.{env_of};
ghost use Rattle.c_rule.specs.JudgingUnit as j;
ghost use Rattle.c_scope.specs.Says.{Says, SaysBehind};
ghost use Rattle.c_tag.specs.Words.{typed_of};
ghost use Rattle.c_tag.specs.TagParts.{body_from, boxed_enumerator, judged_enumerator_here, judged_mem, judged_member_here, mem_part};

use c_local::{declarator, line_of};
use c_scope::{
    Meaning, Scopes, TypeErr, copy, copy_name, is_function, is_sized, names_differ, spec_type,
};
use c_tree::{
    Declr, En, Expr, FileSpecs, Mem, TDeclr, TEnumerator, TMembers, TSpec, TagDef, Types,
};
use c_type::{CType, Kind, Member, Tag, TagId, TagKind};
use c_value::{Number, constant_expr};
use num_le::Name;
use std::alloc::{AllocError, Global};

/// Words with the type that they name.
#[derive(Drop)]
pub struct Typed {
    pub spec: Box<TSpec>,
    pub base: Box<CType>,
}

/// Words that define no tag.
fn plain(alloc: Global, ty: CType) -> Result<Typed, AllocError>
    ensures { IfOk result (λ x. typed_of x ≡ record { spec = tu.plain (type_of ty); base = type_of ty }) }
{
    let base = Box::new(alloc, ty)?;
    let copied = copy(alloc, &base)?;
    let spec = Box::new(alloc, TSpec::Plain(copied))?;
    Ok(Typed { spec, base })
}

/// The type that words name outside of blocks, with the tags that they define.
#[cycle(tags)]
pub fn types(c: &mut Scopes, line: u32, words: &Types) -> Result<Typed, TypeErr>
    ensures judged { SaysBehind typed_of (env_of c.new) (j.judged_types (env_of c.old) (u.types_of words.now)) result }
{
    match words {
        Types::Spec(words) => {
            let ty = spec_type(c, line, words)?;
            Ok(plain(c.alloc, ty)?)
        }
        Types::Def(def) => tag_def(c, def),
    }
}

/// Words that may be left out, and then mean int.
pub fn types_or_int(c: &mut Scopes, line: u32, words: &Option<Types>) -> Result<Typed, TypeErr>
    ensures judged { SaysBehind typed_of (env_of c.new) (j.judged_types_or_int (env_of c.old) (u.part_of u.types_of words.now)) result }
{
    match words {
        Some(words) => types(c, line, words),
        None => Ok(plain(c.alloc, CType::Num(Kind::Int))?),
    }
}

/// A tag with its body, which is closed here. No text spells the body of a union.
#[cycle(tags)]
pub fn tag_def(c: &mut Scopes, def: &TagDef) -> Result<Typed, TypeErr>
    ensures judged { SaysBehind typed_of (env_of c.new) (j.judged_def (env_of c.old) (u.def_of def.now)) result }
{
    match def {
        TagDef::Struct(line, name, parts) => struct_def(c, *line, name, parts),
        TagDef::Union(line, ..) => Err(TypeErr::Rule(3, *line)),
        TagDef::Enum(line, name, list) => enum_def(c, *line, name, list),
    }
}

/// The name of a tag, which is empty where it has none.
fn name_or_none(alloc: Global, name: &Option<Name>) -> Result<Name, AllocError>
    ensures { IfOk result (λ x. x ≡ or_default [] name.now) }
{
    match name {
        Some(name) => copy_name(alloc, name),
        None => Name::of(alloc, b""),
    }
}

/// A tag before its members are placed.
fn unplaced(
    alloc: Global,
    name: &Option<Name>,
    kind: TagKind,
    members: Vec<Member>,
) -> Result<Tag, AllocError>
    ensures { IfOk result (λ x. tag_of x ≡ t.unplaced name.now kind (members_in members.items)) }
{
    let name = name_or_none(alloc, name)?;
    Ok(Tag {
        name,
        kind,
        members,
        size: 0,
        align: 1,
    })
}

/// The number of tags that are closed.
fn known_tags(c: &Scopes) -> Result<u32, AllocError>
    ensures { IfOk result (λ n. n ≡ known (env_of c.now)) }
{
    u32::try_from(c.tags().list.len()).map_err(|_| AllocError)
}

/// Whether the names of members differ.
fn members_differ(alloc: Global, members: &[Member]) -> Result<bool, AllocError>
    ensures { IfOk result (λ b. b ≡ t.names_differ (map (λ m. m.name) (members_in members.now))) }
{
    let mut names: Vec<&[u8]> = Vec::new(alloc);
    for member in members {
        names.push(member.name.as_slice())?;
    }
    names_differ(alloc, &names)
}

/// Words with a tag that is closed behind them.
fn closed(c: &mut Scopes, spec: TSpec, ty: CType, tag: Tag) -> Result<Typed, AllocError>
    ensures value { IfOk result (λ x. typed_of x ≡ record { spec = spec_of spec; base = type_of ty }) }
    ensures closed { OnOk result (env_of c.new ≡ close (tag_of tag) (env_of c.old)) }
{
    let spec = Box::new(c.alloc, spec)?;
    let base = Box::new(c.alloc, ty)?;
    c.close(tag)?;
    Ok(Typed { spec, base })
}

/// A structure with its body.
#[cycle(tags)]
fn struct_def(
    c: &mut Scopes,
    line: u32,
    name: &Option<Name>,
    parts: &[Mem],
) -> Result<Typed, TypeErr>
    ensures judged { SaysBehind typed_of (env_of c.new) (j.judged_def (env_of c.old) (ud.struct line name.now (u.mems_from parts.now))) result }
{
    let alloc = c.alloc;
    let typed = mems(c, parts)?;
    let members = all_members(alloc, &typed)?;
    if !members_differ(alloc, &members)? {
        return Err(TypeErr::Rule(7, line));
    }
    let number = known_tags(c)?;
    let tag = unplaced(alloc, name, TagKind::Struct, members)?;
    Ok(closed(
        c,
        TSpec::Struct(number, typed),
        CType::Struct(TagId(number)),
        tag,
    )?)
}

/// The declarations of members, each where those before it stand.
#[cycle(tags)]
fn mems(c: &mut Scopes, parts: &[Mem]) -> Result<Vec<TMembers>, TypeErr>
    ensures judged { SaysBehind (λ ms. body_from ms.items) (env_of c.new) (j.judged_mems (env_of c.old) (u.mems_from parts.now)) result }
{
    let mut typed = Vec::new(c.alloc);
    for part in parts {
        let one = mem(c, part)?;
        typed.push(one)?;
    }
    Ok(typed)
}

/// A declaration of members.
#[cycle(tags)]
fn mem(c: &mut Scopes, part: &Mem) -> Result<TMembers, TypeErr>
    ensures judged { SaysBehind mem_part (env_of c.new) (judged_mem (env_of c.old) (u.mem_of part.now)) result }
{
    let words = types(c, part.line, &part.types)?;
    let declrs = members(c, &words.base, &part.declrs)?;
    Ok(TMembers {
        spec: Box::into_inner(words.spec),
        declrs,
    })
}

/// The member that a declarator gives, without its offset.
fn new_member(alloc: Global, declr: &TDeclr) -> Result<Member, AllocError>
    ensures { IfOk result (λ x. c_member_of x ≡ t.member_of (declr_of declr.now)) }
{
    let name = copy_name(alloc, &declr.name)?;
    let ty = copy(alloc, &declr.ty)?;
    Ok(Member { name, off: 0, ty })
}

/// Adds the members that declarators give, without their offsets.
fn add_members(
    alloc: Global,
    members: &mut Vec<Member>,
    declrs: &[TDeclr],
) -> Result<(), AllocError>
    ensures added { OnOk result (members_in members.new.items ≡ members_in members.old.items ++ map t.member_of (map declr_of declrs.now)) }
{
    for declr in declrs {
        let member = new_member(alloc, declr)?;
        members.push(member)?;
    }
    Ok(())
}

/// The members that the declarations of a body give, without their offsets.
fn all_members(alloc: Global, parts: &[TMembers]) -> Result<Vec<Member>, AllocError>
    ensures { IfOk result (λ x. members_in x.items ≡ (body_from parts.now).members) }
{
    let mut members = Vec::new(alloc);
    for part in parts {
        add_members(alloc, &mut members, &part.declrs)?;
    }
    Ok(members)
}

/// A member, which is no function and has a known size.
#[tactic(auto, using(crate::proofs::Passed::tags_behind))]
fn member(c: &mut Scopes, base: &CType, declr: &Declr) -> Result<Box<TDeclr>, TypeErr>
    ensures judged { SaysBehind boxed_declr (env_of c.new) (judged_member_here (env_of c.old) (type_of base.now) (u.declr_of declr.now)) result }
{
    let typed = declarator(c, None, base, declr)?;
    if is_function(&typed.ty) {
        return Err(TypeErr::Rule(7, line_of(declr)));
    }
    if !is_sized(c.tags(), &typed.ty) {
        return Err(TypeErr::Rule(3, line_of(declr)));
    }
    Ok(typed)
}

/// The members of a declaration in order.
fn members(c: &mut Scopes, base: &CType, declrs: &[Declr]) -> Result<Vec<TDeclr>, TypeErr>
    ensures judged { SaysBehind (λ ds. map declr_of ds.items) (env_of c.new) (j.judged_members (env_of c.old) (type_of base.now) (map u.declr_of declrs.now)) result }
{
    let mut typed = Vec::new(c.alloc);
    for declr in declrs {
        let one = member(c, base, declr)?;
        typed.push(Box::into_inner(one))?;
    }
    Ok(typed)
}

/// One more than the value before, or 0 for the first.
fn next_value(before: Option<u32>) -> u32
    ensures { result ≡ t.next_value before }
{
    match before {
        Some(value) => value.wrapping_add(1),
        None => 0,
    }
}

/// An enumerator without a constant of its own.
fn next_enumerator(
    alloc: Global,
    before: Option<u32>,
    name: &Name,
) -> Result<Box<TEnumerator>, AllocError>
    ensures { IfOk result (λ x. boxed_enumerator x ≡ record { name = name.now; value = t.next_value before; expr = None }) }
{
    let name = copy_name(alloc, name)?;
    let value = next_value(before);
    let expr = None;
    Ok(Box::new(alloc, TEnumerator { name, value, expr })?)
}

/// An enumerator with a constant.
fn told_enumerator(
    alloc: Global,
    number: Number,
    name: &Name,
) -> Result<Box<TEnumerator>, AllocError>
    ensures { IfOk result (λ x. boxed_enumerator x ≡ record { name = name.now; value = number.bits; expr = Some (boxed number.expr) }) }
{
    let name = copy_name(alloc, name)?;
    let value = number.bits;
    let expr = Some(Box::into_inner(number.expr));
    Ok(Box::new(alloc, TEnumerator { name, value, expr })?)
}

/// An enumerator: its value is that of its constant, or one more than the value before.
fn enumerator(
    c: &mut Scopes,
    before: Option<u32>,
    name: &Name,
    value: &Option<Expr>,
) -> Result<Box<TEnumerator>, TypeErr>
    ensures judged { Says boxed_enumerator (j.judged_enumerator (env_of c.old) before name.now (u.part_of u.expr_of value.now)) result }
    ensures past { OnOk result (env_of c.new ≡ past_option (u.part_of u.expr_of value.now) (env_of c.old)) }
{
    match value {
        Some(e) => {
            let number = constant_expr(c, e)?;
            Ok(told_enumerator(c.alloc, number, name)?)
        }
        None => Ok(next_enumerator(c.alloc, before, name)?),
    }
}

/// An enumerator that is declared in the file, in which it is new.
#[tactic(auto, using(crate::proofs::Passed::file_behind_option))]
fn declared_enumerator(
    c: &mut Scopes,
    before: Option<u32>,
    part: &En,
) -> Result<Box<TEnumerator>, TypeErr>
    ensures judged { SaysBehind boxed_enumerator (env_of c.new) (judged_enumerator_here (env_of c.old) before (u.en_of part.now)) result }
{
    let typed = enumerator(c, before, &part.name, &part.value)?;
    if !c.is_free_in_file(part.name.as_slice()) {
        return Err(TypeErr::Rule(1, part.line));
    }
    let name = copy_name(c.alloc, &part.name)?;
    c.add_in_file(name, Meaning::Constant(typed.value))?;
    Ok(typed)
}

/// The enumerators of a body, each in the scope of those before it.
fn enumerators(c: &mut Scopes, parts: &[En]) -> Result<Vec<TEnumerator>, TypeErr>
    ensures judged { SaysBehind (λ xs. map enumerator_of xs.items) (env_of c.new) (j.judged_enumerators (env_of c.old) None (map u.en_of parts.now)) result }
{
    let mut typed = Vec::new(c.alloc);
    let mut before = None;
    for part in parts {
        let one = declared_enumerator(c, before, part)?;
        before = Some(one.value);
        typed.push(Box::into_inner(one))?;
    }
    Ok(typed)
}

/// The member that an enumerator stands for: its offset is its value.
fn as_member(alloc: Global, one: &TEnumerator) -> Result<Member, AllocError>
    ensures { IfOk result (λ x. c_member_of x ≡ t.as_member (enumerator_of one.now)) }
{
    let name = copy_name(alloc, &one.name)?;
    let off = one.value;
    let ty = CType::Num(Kind::Int);
    Ok(Member { name, off, ty })
}

/// The members that enumerators stand for.
fn as_members(alloc: Global, list: &[TEnumerator]) -> Result<Vec<Member>, AllocError>
    ensures { IfOk result (λ ms. members_in ms.items ≡ map t.as_member (map enumerator_of list.now)) }
{
    let mut members = Vec::new(alloc);
    for one in list {
        let member = as_member(alloc, one)?;
        members.push(member)?;
    }
    Ok(members)
}

/// An enumeration with its body.
fn enum_def(c: &mut Scopes, line: u32, name: &Option<Name>, parts: &[En]) -> Result<Typed, TypeErr>
    ensures judged { SaysBehind typed_of (env_of c.new) (j.judged_def (env_of c.old) (ud.enum line name.now (map u.en_of parts.now))) result }
{
    let alloc = c.alloc;
    let list = enumerators(c, parts)?;
    let members = as_members(alloc, &list)?;
    let number = known_tags(c)?;
    let tag = unplaced(alloc, name, TagKind::Enum, members)?;
    Ok(closed(
        c,
        TSpec::Enum(number, list),
        CType::Enum(TagId(number)),
        tag,
    )?)
}

/// The type that a function's head names, or int.
pub fn head_words(c: &mut Scopes, line: u32, specs: &Option<FileSpecs>) -> Result<Typed, TypeErr>
    ensures judged { SaysBehind typed_of (env_of c.new) (j.judged_types_or_int (env_of c.old) (n.types_of (u.part_of u.file_specs_of specs.now))) result }
{
    match specs {
        Some(specs) => types_or_int(c, line, &specs.types),
        None => types_or_int(c, line, &None),
    }
}
