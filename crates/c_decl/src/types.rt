// What the words before declarators say.
ghost use Rattle.std.specs.Prelude.{◌≡◌, ◌∷◌, [], IfOk, map, not};
ghost use Rattle.std.specs.Option.{option_map};
ghost use Rattle.c_tree.specs.TreeOf.{def_of, file_specs_of, local_specs_of, part_of, tag_of, types_of};
ghost use Rattle.c_grammar.specs.WrittenSpecs as p;
ghost use Rattle.c_decl.specs.ReadDecl as e;
ghost use Rattle.c_decl.specs.ReadSpecs as s;
ghost use Rattle.c_decl.specs.WordsOf.{found_of, type_part_of};

use crate::spelling::spelled;
use crate::words::{TypePart, Words};
use c_tree::{FileSpecs, LocalSpecs, Storage, TagDef, TagSpec, Types};
use std::alloc::{AllocError, Global};

/// The type of tags' bodies and of parts, where they are one type or none.
fn one_type(
    alloc: Global,
    bodies: Vec<TagDef>,
    parts: Vec<TypePart>,
) -> Result<Option<Option<Types>>, AllocError>
    ensures { IfOk result (λ o. option_map (part_of types_of) o ≡ s.one_type (map def_of bodies.items) (map type_part_of parts.items)) }
{
    let mut bodies = bodies;
    if let Some(def) = bodies.pop() {
        if !bodies.is_empty() || !parts.is_empty() {
            return Ok(None);
        }
        return Ok(Some(Some(Types::Def(def))));
    }
    if parts.is_empty() {
        return Ok(Some(None));
    }
    match spelled(alloc, parts)? {
        Some(types) => Ok(Some(Some(Types::Spec(types)))),
        None => Ok(None),
    }
}

fn is_file_storage(storages: &[Storage]) -> bool
    ensures { result ≡ p.is_file_storage storages.now }
{
    match storages {
        [] => true,
        [Storage::Static | Storage::Extern] => true,
        _ => false,
    }
}

fn first_storage(storages: &[Storage]) -> Option<Storage>
    ensures { result ≡ p.first_of storages.now }
{
    match storages {
        [] => None,
        [first, ..] => Some(*first),
    }
}

/// The type that the words are, where it stands alone.
pub fn only_types(alloc: Global, words: Words) -> Result<Option<Types>, AllocError>
    ensures types { IfOk result (λ o. part_of types_of o ≡ s.only_types (found_of words)) }
{
    let Words {
        storages,
        typedefs,
        parts,
        bodies,
    } = words;
    if !storages.is_empty() || typedefs != 0 {
        return Ok(None);
    }
    match one_type(alloc, bodies, parts)? {
        Some(types) => Ok(types),
        None => Ok(None),
    }
}

/// The type under the words of a typedef. Without types it is int.
pub fn typedef_types(alloc: Global, words: Words) -> Result<Option<Option<Types>>, AllocError>
    ensures types { IfOk result (λ o. option_map (part_of types_of) o ≡ e.typedef_types (found_of words)) }
{
    let Words {
        storages,
        typedefs,
        parts,
        bodies,
    } = words;
    if !storages.is_empty() || typedefs != 1 {
        return Ok(None);
    }
    one_type(alloc, bodies, parts)
}

/// Whether there is none of the words that an object or a function may have.
fn is_none(words: &Words) -> bool
    ensures { result ≡ not (e.is_any (found_of words.now).storages (found_of words.now).parts (found_of words.now).bodies) }
{
    words.storages.is_empty() && words.parts.is_empty() && words.bodies.is_empty()
}

/// The words of objects or a function.
pub fn file_specs(alloc: Global, words: Words) -> Result<Option<FileSpecs>, AllocError>
    ensures specs { IfOk result (λ o. part_of file_specs_of o ≡ e.file_specs (found_of words)) }
{
    if is_none(&words) {
        return Ok(None);
    }
    let Words {
        storages,
        typedefs,
        parts,
        bodies,
    } = words;
    if typedefs != 0 || !is_file_storage(&storages) {
        return Ok(None);
    }
    let storage = first_storage(&storages);
    match one_type(alloc, bodies, parts)? {
        Some(types) => Ok(Some(FileSpecs { storage, types })),
        None => Ok(None),
    }
}

/// The words of a function, of which there may be none.
pub fn head_specs(alloc: Global, words: Words) -> Result<Option<Option<FileSpecs>>, AllocError>
    ensures specs { IfOk result (λ o. option_map (part_of file_specs_of) o ≡ e.head_specs (found_of words)) }
{
    if words.typedefs != 0 {
        return Ok(None);
    }
    if is_none(&words) {
        return Ok(Some(None));
    }
    match file_specs(alloc, words)? {
        Some(specs) => Ok(Some(Some(specs))),
        None => Ok(None),
    }
}

/// The words of a declaration in a block.
pub fn local_specs(alloc: Global, words: Words) -> Result<Option<LocalSpecs>, AllocError>
    ensures specs { IfOk result (λ o. part_of local_specs_of o ≡ e.local_specs (found_of words)) }
{
    let Words {
        storages,
        typedefs,
        parts,
        bodies,
    } = words;
    if typedefs != 0 || !bodies.is_empty() || storages.len() > 1 {
        return Ok(None);
    }
    let storage = first_storage(&storages);
    if parts.is_empty() {
        return Ok(storage.map(|_| LocalSpecs {
            storage,
            types: None,
        }));
    }
    match spelled(alloc, parts)? {
        Some(types) => Ok(Some(LocalSpecs {
            storage,
            types: Some(types),
        })),
        None => Ok(None),
    }
}

/// A tag that stands alone.
pub fn only_tag(words: Words) -> Option<TagSpec>
    ensures tag { part_of tag_of result ≡ e.only_tag (found_of words) }
{
    let Words {
        storages,
        typedefs,
        parts,
        bodies,
    } = words;
    if !storages.is_empty() || typedefs != 0 || parts.len() + bodies.len() != 1 {
        return None;
    }
    let mut bodies = bodies;
    if let Some(def) = bodies.pop() {
        return Some(TagSpec::Def(def));
    }
    let mut parts = parts;
    match parts.pop() {
        Some(TypePart::Tag(tag, _)) => Some(TagSpec::Ref(tag)),
        _ => None,
    }
}
