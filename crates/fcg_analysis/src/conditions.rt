//! Worked cases of single conditions of the rules: each set gives another answer where the condition is left out.
#![tactic(auto, unfolding(crate::specs::Cases::Computed::analysis))]

ghost use Rattle.std.specs.Prelude.{◌≡◌, ℕ, List, [], ◌∷◌, Some, false};
ghost use Rattle.fcg_analysis.specs.Types.{known};
ghost use Rattle.fcg_analysis.specs.Resolution.{KindMismatch, NoSuchMethod, resolved};
ghost use Rattle.fcg_analysis.specs.Edges.{IsMethod, IsPhantom, IsFailed, edges, statuses};
ghost use Rattle.fcg_analysis.specs.Cases.ShortForm.{number_in, overrides, method_ref, interface_ref};
ghost use Rattle.fcg_analysis.specs.Cases.Sets.{private_and_static};
ghost use Rattle.fcg_analysis.specs.Cases.Conditions.{overloads, inner_packages, gap_of_interface_above, named_above, class_beside_receiver, phantom_of_known, own_before_object, interface_below_beside, interface_of_superclass, found_in_interfaces, default_of_interface_below, private_above, private_of_interface, class_before_default, phantom_by_name, object_below_phantom, abstract_below_phantom, special_object_at_the_end, special_superclass_default, absent_init, special_absent_interface, gap_above, static_below_absent, default_below_absent, class_beside_default, special_mismatch, special_absent_method, special_interface_ref, special_own, special_default, special_object_first, interface_init, static_call_of_instance, array_kinds};

/// Methods of one name are told apart by their descriptors.
pub fn overloads_case()
    ensures edges { edges (known overloads) ≡ (3, 1) ∷ (3, 2) ∷ [] }
{}

/// A package goes up to the last `/` of the name.
pub fn inner_packages_case()
    ensures edges { edges (known inner_packages) ≡ (2, 0) ∷ [] }
{}

/// A gap of the superclass is a gap.
pub fn gap_above_case()
    ensures statuses { statuses (known gap_above) ≡ IsPhantom ∷ [] }
{}

/// A gap of an interface above is a gap.
pub fn gap_of_interface_above_case()
    ensures statuses { statuses (known gap_of_interface_above) ≡ IsPhantom ∷ [] }
{}

/// A class is below an absent name that any type above it names.
pub fn named_above_case()
    ensures edges { edges (known named_above) ≡ (2, 0) ∷ (3, 1) ∷ [] }
{}

/// Receivers are below the class that the site names, not below the one that declares the method.
pub fn class_beside_receiver_case()
    ensures edges { edges (known class_beside_receiver) ≡ (2, 0) ∷ [] }
{}

/// A phantom of a known class is dispatched to the classes below that.
pub fn phantom_of_known_case()
    ensures edges { edges (known phantom_of_known) ≡ (1, 0) ∷ [] }
    ensures statuses { statuses (known phantom_of_known) ≡ IsPhantom ∷ [] }
{}

/// What the class has itself comes before Object's.
pub fn own_before_object_case()
    ensures edges { edges (known own_before_object) ≡ (2, 1) ∷ [] }
{}

/// A method of an interface that isn't above the class makes none less specific.
pub fn interface_below_beside_case()
    ensures edges { edges (known interface_below_beside) ≡ (2, 0) ∷ [] }
{}

/// The interfaces of the superclass are above the class.
pub fn interface_of_superclass_case()
    ensures edges { edges (known interface_of_superclass) ≡ (1, 0) ∷ [] }
{}

/// What neither a class nor an interface has itself is the one default of the interfaces above, also where an abstract
/// method comes first, and else the first of their methods.
pub fn found_in_interfaces_case()
    ensures class_default { number_in (resolved (known found_in_interfaces) (method_ref "p/A" "m" "()V")) ≡ Some 2 }
    ensures class_first { number_in (resolved (known found_in_interfaces) (method_ref "p/A" "n" "()V")) ≡ Some 1 }
    ensures interface_default { number_in (resolved (known found_in_interfaces) (interface_ref "p/L" "m" "()V")) ≡ Some 2 }
    ensures interface_first { number_in (resolved (known found_in_interfaces) (interface_ref "p/L" "n" "()V")) ≡ Some 1 }
{}

/// The default that is selected is the receiver's, not the one that is resolved.
pub fn default_of_interface_below_case()
    ensures edges { edges (known default_of_interface_below) ≡ (2, 1) ∷ [] }
{}

/// No method overrides a private or a static one.
pub fn not_overridden_case()
    ensures private_one { overrides (known private_above) 1 0 ≡ false }
    ensures static_one { overrides (known private_and_static) 0 2 ≡ false }
{}

/// A private method of an interface is found in that interface, and selected itself.
pub fn private_of_interface_case()
    ensures edges { edges (known private_of_interface) ≡ (1, 0) ∷ [] }
{}

/// A class's own method comes before the default for a phantom too.
pub fn class_before_default_case()
    ensures edges { edges (known class_before_default) ≡ (2, 1) ∷ [] }
{}

/// A static method overrides no phantom.
pub fn static_below_absent_case()
    ensures edges { edges (known static_below_absent) ≡ [] }
    ensures statuses { statuses (known static_below_absent) ≡ IsPhantom ∷ [] }
{}

/// Only methods of its name and descriptor override a phantom.
pub fn phantom_by_name_case()
    ensures edges { edges (known phantom_by_name) ≡ (2, 1) ∷ [] }
{}

/// For a phantom too the chain ends with Object.
pub fn object_below_phantom_case()
    ensures edges { edges (known object_below_phantom) ≡ (1, 0) ∷ [] }
    ensures statuses { statuses (known object_below_phantom) ≡ IsPhantom ∷ [] }
{}

/// An abstract method that overrides a phantom is selected, before any default, and there is no edge to it.
pub fn abstract_below_phantom_case()
    ensures edges { edges (known abstract_below_phantom) ≡ [] }
    ensures statuses { statuses (known abstract_below_phantom) ≡ IsPhantom ∷ [] }
{}

/// Where no class overrides a phantom the one default is selected.
pub fn default_below_absent_case()
    ensures edges { edges (known default_below_absent) ≡ (1, 0) ∷ [] }
    ensures statuses { statuses (known default_below_absent) ≡ IsPhantom ∷ [] }
{}

/// A class's method is no superinterface method: it doesn't stand beside the one default.
pub fn class_beside_default_case()
    ensures edges { edges (known class_beside_default) ≡ (2, 0) ∷ [] }
{}

/// A special call whose reference fails makes no search, whatever the cause is.
pub fn special_failures_case()
    ensures mismatch { edges (known special_mismatch) ≡ [] }
    ensures mismatch_status { statuses (known special_mismatch) ≡ IsFailed KindMismatch ∷ [] }
    ensures absent { edges (known special_absent_method) ≡ [] }
    ensures absent_status { statuses (known special_absent_method) ≡ IsFailed NoSuchMethod ∷ [] }
{}

/// By an InterfaceMethodref the search never starts at the superclass, also where it names an absent superclass.
pub fn special_interface_ref_case()
    ensures edges { edges (known special_interface_ref) ≡ [] }
{}

/// A class's own name is no superclass name: its own private method is called.
pub fn special_own_case()
    ensures edges { edges (known special_own) ≡ (2, 1) ∷ [] }
{}

/// A special call by an interface finds what that has from above, and Object's public method before it.
pub fn special_default_case()
    ensures default_one { edges (known special_default) ≡ (1, 0) ∷ [] }
    ensures object_first { edges (known special_object_first) ≡ (1, 2) ∷ [] }
{}

/// In a special call too the chain ends with Object.
pub fn special_object_at_the_end_case()
    ensures edges { edges (known special_object_at_the_end) ≡ (1, 0) ∷ [] }
{}

/// A special call finds the default that the superclass has.
pub fn special_superclass_default_case()
    ensures edges { edges (known special_superclass_default) ≡ (1, 0) ∷ [] }
{}

/// For a phantom `<init>` nothing is searched.
pub fn absent_init_case()
    ensures edges { edges (known absent_init) ≡ [] }
    ensures statuses { statuses (known absent_init) ≡ IsPhantom ∷ [] }
{}

/// An absent name that the superclass names as an interface is no superclass name.
pub fn special_absent_interface_case()
    ensures edges { edges (known special_absent_interface) ≡ [] }
    ensures statuses { statuses (known special_absent_interface) ≡ IsPhantom ∷ [] }
{}

/// An `<init>` of an interface is no target.
pub fn interface_init_case()
    ensures edges { edges (known interface_init) ≡ [] }
    ensures statuses { statuses (known interface_init) ≡ IsMethod ∷ [] }
{}

/// A static call of an instance method leads nowhere, and is no failure.
pub fn static_call_of_instance_case()
    ensures edges { edges (known static_call_of_instance) ≡ [] }
    ensures statuses { statuses (known static_call_of_instance) ≡ IsMethod ∷ [] }
{}

/// A site with an array owner leads to a static method of Object only where it is static, and to an instance method only
/// where it isn't.
pub fn array_kinds_case()
    ensures edges { edges (known array_kinds) ≡ [] }
    ensures statuses { statuses (known array_kinds) ≡ IsMethod ∷ IsMethod ∷ IsMethod ∷ [] }
{}
