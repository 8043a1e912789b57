// What a declarator declares.
ghost use Rattle.std.specs.Prelude.{◌≡◌};
ghost use Rattle.c_tree.specs.TreeOf.{declr_of};
ghost use Rattle.c_tree.specs.TreeDecl.{declared};
ghost use Rattle.c_decl.specs.ReadDeclr.{has_names as has_names_lem};
ghost use Rattle.c_decl.specs.Named.{is_name as is_name_lem, declares_function as declares_function_lem};

use c_tree::Declr;
use num_le::Name;

/// The name that a declarator declares.
pub fn declared_name(declr: &Declr) -> &Name
    ensures name { result.now ≡ declared (declr_of declr.now) }
{
    match declr {
        Declr::Name(_, name) => name,
        Declr::Pointer(_, inner) => declared_name(inner),
        Declr::Array(_, inner, _) => declared_name(inner),
        Declr::Function(_, inner, _) => declared_name(inner),
    }
}

fn is_name(declr: &Declr) -> bool
    ensures { result ≡ is_name_lem (declr_of declr.now) }
{
    match declr {
        Declr::Name(_, _) => true,
        Declr::Pointer(_, _) | Declr::Array(_, _, _) | Declr::Function(_, _, _) => false,
    }
}

/// Whether the name is that of a function: its next suffix is `( )`, brackets aside.
pub fn declares_function(declr: &Declr) -> bool
    ensures answer { result ≡ declares_function_lem (declr_of declr.now) }
{
    match declr {
        Declr::Name(_, _) => false,
        Declr::Pointer(_, inner) => declares_function(inner),
        Declr::Array(_, inner, _) => declares_function(inner),
        Declr::Function(_, inner, _) => is_name(inner) || declares_function(inner),
    }
}

/// Whether a function's suffix has names of parameters.
pub fn has_names(declr: &Declr) -> bool
    ensures answer { result ≡ has_names_lem (declr_of declr.now) }
{
    match declr {
        Declr::Name(_, _) => false,
        Declr::Pointer(_, inner) => has_names(inner),
        Declr::Array(_, inner, _) => has_names(inner),
        Declr::Function(_, inner, names) => !names.is_empty() || has_names(inner),
    }
}
