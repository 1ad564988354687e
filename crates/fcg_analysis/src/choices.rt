//! Worked cases of the rules that can be read in two ways: each set gives one answer by the reading that is taken, and
//! another by the other.
#![tactic(auto, unfolding(crate::specs::Cases::Computed::analysis))]

ghost use Rattle.std.specs.Prelude.{◌≡◌, ℕ, List, [], ◌∷◌, Option, Some, None, map, codes, true, false, length};
ghost use Rattle.fcg_analysis.specs.Types.{known, type_named, has_gap};
ghost use Rattle.fcg_analysis.specs.Nodes.{nodes};
ghost use Rattle.fcg_analysis.specs.Resolution.{KindMismatch, NoSuchMethod, Failed, resolved};
ghost use Rattle.fcg_analysis.specs.Edges.{IsNoCall, IsMethod, IsPhantom, IsFailed, edges, statuses, failed};
ghost use Rattle.fcg_analysis.specs.Reach.{rows};
ghost use Rattle.fcg_analysis.specs.Cases.ShortForm.{names, names_of_types, names_below, chain_names, overrides, number_in, method_ref, interface_ref};
ghost use Rattle.fcg_analysis.specs.Cases.Choices.{circle_before_sound, object_interface, release_twice, named_twice, object_at_the_end, superclass_interface, interface_superclass, absent_superclass, named_as_interface, object_names_interface, object_absent, first_not_specific, interface_and_object, hidden_by_static, hidden_in_interface, array_sites, array_abstract, array_named, static_between, handed_on, no_package, unrelated, interface_not_between, past_private, abstract_before_default, package_private_default, private_without_receiver, private_with_receiver, interface_alone, interface_not_abstract, static_beside_default, virtual_init, object_below_absent, special_past_absent, special_of_object, special_absent_superclass, special_abstract, special_static, special_private, special_of_static, inherited_init, special_interface, special_public_object, special_protected_object, handle_kinds, handle_receivers, failures};

/// A circular winner drops the later views of its name, though it counts as absent itself.
pub fn circle_before_sound_case()
    ensures types { names_of_types (known circle_before_sound) ≡ names ("p/T" ∷ []) }
    ensures statuses { statuses (known circle_before_sound) ≡ IsPhantom ∷ [] }
{}

/// An Object that is an interface drops a later class of its name, and isn't present: each type has a gap and no chain
/// ends with it. A class that names it as an interface has its methods; and each type is at or below its name.
pub fn object_interface_case()
    ensures gaps { map (has_gap (known object_interface)) (known object_interface) ≡ true ∷ true ∷ true ∷ true ∷ [] }
    ensures below { names_below (known object_interface) "java/lang/Object" ≡ names ("java/lang/Object" ∷ "p/A" ∷ "p/B" ∷ "p/T" ∷ []) }
    ensures statuses { statuses (known object_interface) ≡ IsFailed KindMismatch ∷ IsMethod ∷ IsPhantom ∷ [] }
    ensures edges { edges (known object_interface) ≡ (1, 0) ∷ [] }
{}

/// A release that stands twice in a set counts once.
pub fn release_twice_case()
    ensures edges { edges (known release_twice) ≡ (0, 0) ∷ [] }
    ensures nodes { length (nodes (known release_twice)) ≡ 1 }
{}

/// A link of either kind is a link: a name that is both the superclass and an interface makes no gap. Object as an
/// interface beside another superclass does.
pub fn named_twice_case()
    ensures statuses { statuses (known named_twice) ≡ IsFailed NoSuchMethod ∷ IsFailed NoSuchMethod ∷ IsPhantom ∷ [] }
    ensures linked { chain_names (known named_twice) (type_named (known named_twice) (codes "p/A")) ≡ Some (names ("p/A" ∷ "p/N" ∷ "java/lang/Object" ∷ [])) }
    ensures unlinked { chain_names (known named_twice) (type_named (known named_twice) (codes "p/B")) ≡ Some (names ("p/B" ∷ "java/lang/Object" ∷ [])) }
{}

/// Object is added to a chain that ends before it, so its methods are found, whatever their flags, and selected before a
/// default, gap or not.
pub fn object_at_the_end_case()
    ensures statuses { statuses (known object_at_the_end) ≡ IsMethod ∷ IsMethod ∷ [] }
    ensures edges { edges (known object_at_the_end) ≡ (3, 0) ∷ (3, 1) ∷ [] }
{}

/// A class whose superclass names a known interface isn't below it.
pub fn superclass_interface_case()
    ensures gaps { map (has_gap (known superclass_interface)) (known superclass_interface) ≡ false ∷ false ∷ true ∷ false ∷ [] }
    ensures below { names_below (known superclass_interface) "p/A" ≡ names ("p/A" ∷ []) }
    ensures edges { edges (known superclass_interface) ≡ [] }
{}

/// The superclass name of an interface isn't used: it makes no gap.
pub fn interface_superclass_case()
    ensures statuses { statuses (known interface_superclass) ≡ IsFailed NoSuchMethod ∷ [] }
{}

/// Below an absent name stand the classes that name it in either way, whatever the reference's kind is.
pub fn absent_superclass_case()
    ensures edges { edges (known absent_superclass) ≡ (1, 0) ∷ [] }
{}

/// A class isn't below a known class that it names as an interface; below an absent one it is, also for a Methodref.
pub fn named_as_interface_case()
    ensures edges { edges (known named_as_interface) ≡ (2, 0) ∷ (3, 1) ∷ [] }
    ensures statuses { statuses (known named_as_interface) ≡ IsMethod ∷ IsPhantom ∷ [] }
{}

/// The names that Object's view has aren't used: Object isn't below them.
pub fn object_names_interface_case()
    ensures below { names_below (known object_names_interface) "x/Y" ≡ [] }
    ensures edges { edges (known object_names_interface) ≡ [] }
{}

/// Where Object is absent, all types are below its name, also those that don't name it; and each method but the private
/// ones overrides a phantom, from any package.
pub fn object_absent_case()
    ensures edges { edges (known object_absent) ≡ (4, 0) ∷ (4, 1) ∷ (4, 3) ∷ [] }
    ensures statuses { statuses (known object_absent) ≡ IsPhantom ∷ [] }
{}

/// The first superinterface method is the first of all, not of the maximally-specific ones.
pub fn first_not_specific_case()
    ensures first { number_in (resolved (known first_not_specific) (method_ref "q/A" "m" "()V")) ≡ Some 0 }
    ensures edges { edges (known first_not_specific) ≡ [] }
{}

/// By an InterfaceMethodref a public instance method of Object is found before a default, also an abstract one; a static
/// one, or one that isn't public, is passed over.
pub fn interface_and_object_case()
    ensures abstract_one { number_in (resolved (known interface_and_object) (interface_ref "p/J" "m" "()V")) ≡ Some 0 }
    ensures static_one { number_in (resolved (known interface_and_object) (interface_ref "p/J" "s" "()V")) ≡ Some 4 }
    ensures protected_one { number_in (resolved (known interface_and_object) (interface_ref "p/J" "n" "()V")) ≡ Some 5 }
{}

/// A static method hides an instance method above it: the virtual site resolves and has no edge.
pub fn hidden_by_static_case()
    ensures statuses { statuses (known hidden_by_static) ≡ IsMethod ∷ [] }
    ensures edges { edges (known hidden_by_static) ≡ [] }
{}

/// Private and static methods of an interface aren't found by a class that implements it; a static one is by the
/// interface.
pub fn hidden_in_interface_case()
    ensures statuses { statuses (known hidden_in_interface) ≡ IsFailed NoSuchMethod ∷ IsFailed NoSuchMethod ∷ IsMethod ∷ [] }
    ensures edges { edges (known hidden_in_interface) ≡ (2, 1) ∷ [] }
{}

/// A site with an array owner leads to Object's method without any receiver, to an `<init>` and to a private method too,
/// but to no abstract one; `new` and static fields lead nowhere, and an InterfaceMethodref fails.
pub fn array_sites_case()
    ensures edges { edges (known array_sites) ≡ (4, 0) ∷ (5, 1) ∷ (7, 2) ∷ [] }
    ensures statuses { statuses (known array_sites) ≡ IsMethod ∷ IsMethod ∷ IsMethod ∷ IsMethod ∷ IsNoCall ∷ IsNoCall ∷ IsFailed KindMismatch ∷ IsFailed KindMismatch ∷ [] }
{}

/// There is no edge to an abstract method of Object from a site with an array owner either.
pub fn array_abstract_case()
    ensures edges { edges (known array_abstract) ≡ [] }
    ensures statuses { statuses (known array_abstract) ≡ IsMethod ∷ [] }
{}

/// A class that is named as an array receives calls, but no reference resolves to it.
pub fn array_named_case()
    ensures edges { edges (known array_named) ≡ (3, 1) ∷ [] }
    ensures statuses { statuses (known array_named) ≡ IsMethod ∷ IsPhantom ∷ IsFailed KindMismatch ∷ [] }
{}

/// Only an instance method that overrides itself hands a package-private method on.
pub fn static_between_case()
    ensures edges { edges (known static_between) ≡ (3, 0) ∷ [] }
{}

/// What overrides a public or protected method overrides what that overrides, through any class between.
pub fn handed_on_case()
    ensures edges { edges (known handed_on) ≡ (4, 0) ∷ (4, 1) ∷ (4, 2) ∷ (4, 3) ∷ [] }
{}

/// Names without `/`, and with one at their start alone, have one package.
pub fn no_package_case()
    ensures edges { edges (known no_package) ≡ (4, 0) ∷ (4, 1) ∷ (4, 2) ∷ [] }
{}

/// A public method is overridden from any type, whatever its relation is: of an interface also by a class that doesn't
/// implement it. One that is public and private both is overridden, and overrides nothing.
pub fn unrelated_case()
    ensures edges { edges (known unrelated) ≡ (2, 1) ∷ [] }
    ensures overridden { overrides (known unrelated) 1 3 ≡ true }
    ensures overriding { overrides (known unrelated) 3 1 ≡ false }
{}

/// Where the overridden method's type isn't in the chain, no class stands between: so a class of another package doesn't
/// override an interface's package-private method, though the class above it, which is selected, does.
pub fn interface_not_between_case()
    ensures edges { edges (known interface_not_between) ≡ (3, 1) ∷ [] }
{}

/// A selection passes over a method that can't override, and goes on.
pub fn past_private_case()
    ensures edges { edges (known past_private) ≡ (2, 0) ∷ [] }
{}

/// An abstract method is selected, before any default, and there is no edge to it.
pub fn abstract_before_default_case()
    ensures edges { edges (known abstract_before_default) ≡ [] }
{}

/// A package-private default is selected in any package, and no class of another package overrides it.
pub fn package_private_default_case()
    ensures edges { edges (known package_private_default) ≡ (2, 0) ∷ [] }
{}

/// A private method is selected itself, where there is a receiver at all.
pub fn private_receivers_case()
    ensures without { edges (known private_without_receiver) ≡ [] }
    ensures with_one { edges (known private_with_receiver) ≡ (1, 0) ∷ [] }
{}

/// Only classes that aren't abstract are receivers, and no interface is one.
pub fn interface_alone_case()
    ensures edges { edges (known interface_alone) ≡ [] }
{}

/// No interface is a receiver, whether it is marked as abstract or not.
pub fn interface_not_abstract_case()
    ensures edges { edges (known interface_not_abstract) ≡ [] }
    ensures statuses { statuses (known interface_not_abstract) ≡ IsMethod ∷ [] }
{}

/// Where the resolved method is static nothing is selected, a default neither.
pub fn static_beside_default_case()
    ensures edges { edges (known static_beside_default) ≡ [] }
    ensures statuses { statuses (known static_beside_default) ≡ IsMethod ∷ [] }
{}

/// By a virtual call an `<init>` is a name as any other.
pub fn virtual_init_case()
    ensures edges { edges (known virtual_init) ≡ (2, 0) ∷ (2, 1) ∷ [] }
{}

/// The superclass name of Object's view isn't used: it makes no gap, and no special call starts by it.
pub fn object_below_absent_case()
    ensures gaps { map (has_gap (known object_below_absent)) (known object_below_absent) ≡ false ∷ false ∷ [] }
    ensures edges { edges (known object_below_absent) ≡ [] }
    ensures statuses { statuses (known object_below_absent) ≡ IsPhantom ∷ [] }
{}

/// Object is a superclass name where superclass links lead to it, and not where it was only added to the chain.
pub fn special_of_object_case()
    ensures past_absent { edges (known special_past_absent) ≡ (2, 0) ∷ [] }
    ensures linked { edges (known special_of_object) ≡ (2, 1) ∷ [] }
{}

/// An absent superclass of a class above is a superclass name: the search starts at the linked superclass. One of the
/// class itself leaves nowhere to start.
pub fn special_absent_superclass_case()
    ensures edges { edges (known special_absent_superclass) ≡ (1, 0) ∷ [] }
{}

/// The search of a special call ends at an abstract method, and there is no edge; it takes a private one, and passes over
/// a static one. Where the resolved method is static there is no search.
pub fn special_search_case()
    ensures private_one { edges (known special_private) ≡ (2, 1) ∷ [] }
    ensures resolved_static { edges (known special_of_static) ≡ [] }
    ensures abstract_one { edges (known special_abstract) ≡ [] }
    ensures static_one { edges (known special_static) ≡ (2, 0) ∷ [] }
{}

/// An `<init>` has to be declared in the class that is named.
pub fn inherited_init_case()
    ensures edges { edges (known inherited_init) ≡ [] }
    ensures statuses { statuses (known inherited_init) ≡ IsMethod ∷ [] }
{}

/// A special call that names an interface starts there, and not at the superclass; and it finds Object's public methods,
/// and no others of it.
pub fn special_interface_case()
    ensures default_one { edges (known special_interface) ≡ (2, 0) ∷ [] }
    ensures public_one { edges (known special_public_object) ≡ (1, 0) ∷ [] }
    ensures protected_one { edges (known special_protected_object) ≡ [] }
{}

/// Handles of the kinds 5 to 9 are virtual, static, special, special and interface calls.
pub fn handle_kinds_case()
    ensures edges { edges (known handle_kinds) ≡ (6, 1) ∷ (6, 2) ∷ (6, 3) ∷ (6, 4) ∷ (6, 5) ∷ [] }
    ensures statuses { statuses (known handle_kinds) ≡ IsMethod ∷ IsMethod ∷ IsMethod ∷ IsMethod ∷ IsMethod ∷ [] }
{}

/// A handle of kind 5 leads to the methods of the classes below too; one of kind 7 or 8 to the named class's alone.
pub fn handle_receivers_case()
    ensures edges { edges (known handle_receivers) ≡ (6, 0) ∷ (6, 1) ∷ (6, 2) ∷ (6, 4) ∷ [] }
    ensures statuses { statuses (known handle_receivers) ≡ IsMethod ∷ IsMethod ∷ IsMethod ∷ [] }
{}

/// Failed sites are counted, not references, and of both causes.
pub fn failures_case()
    ensures statuses { statuses (known failures) ≡ IsFailed NoSuchMethod ∷ IsFailed NoSuchMethod ∷ IsFailed KindMismatch ∷ [] }
    ensures failed { failed (known failures) ≡ 3 }
{}

/// The target reaches itself in no step, also where no edge leads to it.
pub fn no_edge_case()
    ensures { rows [] 2 1 ≡ record { node = 1; steps = 0; next = None } ∷ [] }
{}
