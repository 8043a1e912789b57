// The first name that a check refuses.
ghost use Rattle.std.specs.Prelude.{◌≡◌, map};
ghost use Rattle.std.specs.Option.{option_map};
ghost use Rattle.c_join.specs.JoinChecks as s;
ghost use Rattle.c_tree.specs.TypedOf.{unit_of};
ghost use Rattle.c_whole.specs.Groups.{groups_of, first_group};
ghost use Rattle.c_whole.specs.Types.{classes_of};

use crate::args::Whole;
use crate::groups::Group;
use crate::types::Classes;

/// The first external name with two definitions.
pub fn first_twice<'a>(groups: &[Group<'a>]) -> Option<&'a [u8]>
    ensures { option_map (λ n. n.now) result ≡ first_group s.is_twice (groups_of groups.now) }
{
    for group in groups {
        if group.is_twice() {
            return Some(group.subject.name);
        }
    }
    None
}

/// The first name that is used and defined nowhere.
pub fn first_undefined<'a>(groups: &[Group<'a>]) -> Option<&'a [u8]>
    ensures { option_map (λ n. n.now) result ≡ first_group s.is_undefined (groups_of groups.now) }
{
    for group in groups {
        if group.is_undefined() {
            return Some(group.subject.name);
        }
    }
    None
}

/// The first external name with two types.
pub fn first_clash<'a>(groups: &[Group<'a>], classes: Classes<'_>) -> Option<&'a [u8]>
    ensures { option_map (λ n. n.now) result ≡ first_group (s.is_clash (s.same_class (classes_of classes.entry))) (groups_of groups.now) }
{
    for group in groups {
        if group.is_clash(classes) {
            return Some(group.subject.name);
        }
    }
    None
}

/// The first name with a call that doesn't fit its definition.
pub fn first_misfit<'a>(groups: &[Group<'a>], whole: &Whole<'_>) -> Option<&'a [u8]>
    ensures { option_map (λ n. n.now) result ≡ first_group (s.is_misfit (map unit_of whole.now.units.now) (s.same_class (classes_of whole.now.classes))) (groups_of groups.now) }
{
    for group in groups {
        if whole.is_misfit(group) {
            return Some(group.subject.name);
        }
    }
    None
}
