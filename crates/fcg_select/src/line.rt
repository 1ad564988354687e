//! Superclass names: what stands above a class by superclass links, and what these classes use.
ghost use Rattle.std.specs.Prelude.{◌≡◌, ◌<◌, ℕ, List, Option, option_to_list, IfSome, length};
ghost use Rattle.std.specs.List.{list_any};
ghost use Rattle.fcg_analysis.specs.NamesAndFlags.{contains};
ghost use Rattle.fcg_analysis.specs.Declarations.{Placed, is_type, is_object};
ghost use Rattle.fcg_analysis.specs.Types.{type_named};
ghost use Rattle.fcg_analysis.specs.Special.{is_superclass_name};
ghost use Rattle.fcg_analysis.specs.Laws.Statements.{line_above};
ghost use Rattle.fcg_join.specs.Parts.{types_of};
ghost use Rattle.fcg_join.specs.Joined.{HasType, GivesType};
ghost use Rattle.fcg_join.specs.Numbers.{GivesName};
ghost use Rattle.fcg_select.specs.Internal.Target.{uses_superclass};

use fcg_join::{Joined, NameId, TypeId};

const OBJECT: &[u8] = b"java/lang/Object";

fn is_object(joined: &Joined, t: TypeId) -> bool
    requires { t.0 < length (types_of joined.now) }
    ensures { (x : Placed) → HasType joined.now t x → result ≡ is_object x }
{
    OBJECT == joined.type_name(t)
}

// Whether a type has a name in its entry for the superclass.
fn has_superclass_entry(joined: &Joined, t: TypeId, name: Option<NameId>) -> bool
    requires { t.0 < length (types_of joined.now) }
    ensures { (x : Placed) (n : List ℕ) → HasType joined.now t x → GivesName joined.now name n → result ≡ contains n (option_to_list x.view.superclass) }
{
    let Some(entry) = joined.superclass_name(t) else {
        return false;
    };
    match name {
        Some(name) => name == entry,
        None => false,
    }
}

// Whether a type uses a name as its superclass: Object and interfaces use none.
fn uses_superclass(joined: &Joined, t: TypeId, name: Option<NameId>) -> bool
    requires { t.0 < length (types_of joined.now) }
    ensures { (x : Placed) (n : List ℕ) → HasType joined.now t x → GivesName joined.now name n → result ≡ uses_superclass n x }
{
    has_superclass_entry(joined, t, name) && !joined.is_interface(t) && !is_object(joined, t)
}

// Whether a class is a type or stands above it by superclass links.
fn is_met(joined: &Joined, start: Option<TypeId>, class: TypeId) -> bool
    requires start { IfSome start (λ t. t.0 < length (types_of joined.now)) }
    requires class { class.0 < length (types_of joined.now) }
    ensures { (u : Placed) (o : Option Placed) → HasType joined.now class u → GivesType joined.now start o → result ≡ list_any (is_type u) (line_above (types_of joined.now) o) }
{
    let mut at = start;
    while let Some(t) = at {
        if t == class {
            return true;
        }
        at = joined.superclass(t);
    }
    false
}

// Whether a type, or one above it by superclass links, uses a name as its superclass.
fn is_used(joined: &Joined, start: Option<TypeId>, name: Option<NameId>) -> bool
    requires { IfSome start (λ t. t.0 < length (types_of joined.now)) }
    ensures { (n : List ℕ) (o : Option Placed) → GivesName joined.now name n → GivesType joined.now start o → result ≡ list_any (uses_superclass n) (line_above (types_of joined.now) o) }
{
    let mut at = start;
    while let Some(t) = at {
        if uses_superclass(joined, t, name) {
            return true;
        }
        at = joined.superclass(t);
    }
    false
}

// Whether a name is that of a class above a type by superclass links; or no known type has it, and the type or such a
// class uses it as its superclass.
pub(crate) fn is_superclass_name(
    joined: &Joined,
    current: TypeId,
    owner: Option<TypeId>,
    name: Option<NameId>,
) -> bool
    requires current { current.0 < length (types_of joined.now) }
    requires owner { IfSome owner (λ t. t.0 < length (types_of joined.now)) }
    ensures { (x : Placed) (n : List ℕ) → HasType joined.now current x → GivesType joined.now owner (type_named (types_of joined.now) n) → GivesName joined.now name n → result ≡ is_superclass_name (types_of joined.now) x n }
{
    match owner {
        Some(class) => is_met(joined, joined.superclass(current), class),
        None => is_used(joined, Some(current), name),
    }
}
