//! Laws of resolution, of overriding and selection, and of special calls.
ghost use Rattle.std.specs.Prelude.{◌≡◌, ◌↔◌, true, false, List, [], ◌∷◌, Contains, drop, Bool, not, ◌&&◌, ◌||◌, Some, None, is_some, find, if◌then◌else◌};
ghost use Rattle.std.specs.List.{IsDistinct, list_any};
ghost use Rattle.fcg_views.specs.declared.view.Ref.{Ref};
ghost use Rattle.fcg_analysis.specs.NamesAndFlags.{or_else, found_in};
ghost use Rattle.fcg_analysis.specs.Declarations.{Placed, Signature, signature_in, has_signature, has_array_owner, is_named, is_type, is_class, is_interface, is_public, is_private, is_protected, is_package_private, is_instance, signature_of};
ghost use Rattle.fcg_analysis.specs.Types.{type_named, object, superclass, chain, has_gap};
ghost use Rattle.fcg_analysis.specs.Nodes.{Node, nodes, declared, one_default, first_super_method};
ghost use Rattle.fcg_analysis.specs.Resolution.{Found, Phantom, Failed, KindMismatch, NoSuchMethod, resolved, public_of_object};
ghost use Rattle.fcg_analysis.specs.Selection.{same_package, overrides_directly, is_candidate, can_override, can_override_phantom, searched, selected};
ghost use Rattle.fcg_analysis.specs.Special.{is_superclass_name, search_start, found_from, is_init, goes_on, special};
ghost use Rattle.fcg_analysis.specs.Laws.Statements.{IsAcyclic, line_above, chain_above};
ghost use Rattle.fcg_analysis.specs.Laws.Methods.{IsSingle};
ghost use Rattle.fcg_analysis.specs.Laws.Searches.{IsMismatch, HasOwner, IsFirst};
ghost use Rattle.fcg_analysis.specs.Laws.HandedOn.{where_passes, passes_at, is_open, handed_on, overrides_alike};

/// A resolved method is a node of the reference's name and descriptor.
pub fn resolved_methods_are_nodes()
    ensures { (types : List Placed) (r : Ref) (m : Node) → resolved types r ≡ Found m → Contains (nodes types) m × (has_signature (signature_in r) m.method ≡ true) }
{}

/// The causes of each outcome of a reference whose owner is no array: the kind of a known owner, an absent owner, a gap, and no
/// gap. A method is missed only where Object is present.
pub fn outcomes_have_causes()
    ensures mismatch { (types : List Placed) (r : Ref) → has_array_owner r ≡ false → (resolved types r ≡ Failed KindMismatch) ↔ IsMismatch types r }
    ensures unknown { (types : List Placed) (r : Ref) → has_array_owner r ≡ false → type_named types r.owner ≡ None → resolved types r ≡ Phantom }
    ensures phantom { (types : List Placed) (r : Ref) (t : Placed) → has_array_owner r ≡ false → type_named types r.owner ≡ Some t → resolved types r ≡ Phantom → has_gap types t ≡ true }
    ensures absent { (types : List Placed) (r : Ref) (t : Placed) → has_array_owner r ≡ false → type_named types r.owner ≡ Some t → resolved types r ≡ Failed NoSuchMethod → has_gap types t ≡ false }
    ensures of_object { (types : List Placed) (r : Ref) → resolved types r ≡ Failed NoSuchMethod → is_some (object types) ≡ true }
{}

/// What the owner declares is found there; what a class doesn't declare is looked for in the rest of its chain.
pub fn resolution_goes_on()
    ensures own { (types : List Placed) → IsAcyclic types → (r : Ref) (t : Placed) (m : Node) → has_array_owner r ≡ false → type_named types r.owner ≡ Some t → is_interface t ≡ r.owner_is_interface_ref → declared types (signature_in r) t ≡ Some m → resolved types r ≡ Found m }
    ensures on { (types : List Placed) → IsAcyclic types → (t : Placed) (s : Signature) → Contains types t → found_in (declared types s) (chain types t) ≡ or_else (declared types s t) (found_in (declared types s) (chain_above types t (superclass types t))) }
{}

/// Of a class comes what its chain declares, else its one default, else its first superinterface method (JVMS 5.4.3.3); else it is
/// a phantom where there is a gap, and a failure where there is none.
pub fn resolution_of_classes()
    ensures in_chain { (types : List Placed) (r : Ref) (t : Placed) (m : Node) → HasOwner types r t → is_class t ≡ true → found_in (declared types (signature_in r)) (chain types t) ≡ Some m → resolved types r ≡ Found m }
    ensures by_default { (types : List Placed) (r : Ref) (t : Placed) (m : Node) → HasOwner types r t → is_class t ≡ true → found_in (declared types (signature_in r)) (chain types t) ≡ None → one_default types t (signature_in r) ≡ Some m → resolved types r ≡ Found m }
    ensures of_first { (types : List Placed) (r : Ref) (t : Placed) (m : Node) → HasOwner types r t → is_class t ≡ true → found_in (declared types (signature_in r)) (chain types t) ≡ None → one_default types t (signature_in r) ≡ None → first_super_method types t (signature_in r) ≡ Some m → resolved types r ≡ Found m }
    ensures none { (types : List Placed) (r : Ref) (t : Placed) → HasOwner types r t → is_class t ≡ true → found_in (declared types (signature_in r)) (chain types t) ≡ None → first_super_method types t (signature_in r) ≡ None → resolved types r ≡ (if has_gap types t then Phantom else Failed NoSuchMethod) }
{}

/// Of an interface comes what it declares, else the public instance method of Object, else its one default, else its first
/// superinterface method (JVMS 5.4.3.4); else it is a phantom where there is a gap, and a failure where there is none.
pub fn resolution_of_interfaces()
    ensures own { (types : List Placed) (r : Ref) (t : Placed) (m : Node) → HasOwner types r t → is_interface t ≡ true → declared types (signature_in r) t ≡ Some m → resolved types r ≡ Found m }
    ensures of_object { (types : List Placed) (r : Ref) (t : Placed) (m : Node) → HasOwner types r t → is_interface t ≡ true → declared types (signature_in r) t ≡ None → public_of_object types (signature_in r) ≡ Some m → resolved types r ≡ Found m }
    ensures by_default { (types : List Placed) (r : Ref) (t : Placed) (m : Node) → HasOwner types r t → is_interface t ≡ true → declared types (signature_in r) t ≡ None → public_of_object types (signature_in r) ≡ None → one_default types t (signature_in r) ≡ Some m → resolved types r ≡ Found m }
    ensures of_first { (types : List Placed) (r : Ref) (t : Placed) (m : Node) → HasOwner types r t → is_interface t ≡ true → declared types (signature_in r) t ≡ None → public_of_object types (signature_in r) ≡ None → one_default types t (signature_in r) ≡ None → first_super_method types t (signature_in r) ≡ Some m → resolved types r ≡ Found m }
    ensures none { (types : List Placed) (r : Ref) (t : Placed) → HasOwner types r t → is_interface t ≡ true → declared types (signature_in r) t ≡ None → public_of_object types (signature_in r) ≡ None → first_super_method types t (signature_in r) ≡ None → resolved types r ≡ (if has_gap types t then Phantom else Failed NoSuchMethod) }
{}

/// A Methodref to an array resolves to what Object declares itself: it is a phantom where Object is absent, and a failure where
/// Object has no such method. An InterfaceMethodref to an array fails.
pub fn resolution_of_arrays()
    ensures mismatch { (types : List Placed) (r : Ref) → has_array_owner r ≡ true → r.owner_is_interface_ref ≡ true → resolved types r ≡ Failed KindMismatch }
    ensures unknown { (types : List Placed) (r : Ref) → has_array_owner r ≡ true → r.owner_is_interface_ref ≡ false → object types ≡ None → resolved types r ≡ Phantom }
    ensures own { (types : List Placed) (r : Ref) (o : Placed) (m : Node) → has_array_owner r ≡ true → r.owner_is_interface_ref ≡ false → object types ≡ Some o → declared types (signature_in r) o ≡ Some m → resolved types r ≡ Found m }
    ensures absent { (types : List Placed) (r : Ref) (o : Placed) → has_array_owner r ≡ true → r.owner_is_interface_ref ≡ false → object types ≡ Some o → declared types (signature_in r) o ≡ None → resolved types r ≡ Failed NoSuchMethod }
{}

/// Each instance method but a private one can override itself; a private one overrides nothing; a public or protected one is
/// overridden by each candidate; and a package-private one, of a class that isn't above by the chain, by the candidates of its
/// package.
pub fn overriding_of_itself()
    ensures itself { (types : List Placed) (m : Node) → can_override types m m ≡ (is_instance m.method && not (is_private m.method)) }
    ensures of_private { (types : List Placed) (c a : Node) → is_private c.method ≡ true → can_override types c a ≡ false }
    ensures of_open { (types : List Placed) (c a : Node) → (is_public a.method || is_protected a.method) ≡ true → can_override types c a ≡ is_candidate c a }
    ensures outside { (types : List Placed) (c a : Node) → list_any (is_type a.owner) (drop 1 (chain types c.owner)) ≡ false → is_package_private a.method ≡ true → can_override types c a ≡ (is_candidate c a && same_package c a) }
{}

/// A search gives a method of the first type that declares one which passes, and nothing where none does.
pub fn searches_are_first()
    ensures found { (types : List Placed) (test : Node → Bool) (line : List Placed) (c : Node) → searched types test line ≡ Some c → IsFirst types test line c }
    ensures none { (types : List Placed) (test : Node → Bool) (line : List Placed) (n : Node) → searched types test line ≡ None → Contains (nodes types) n → test n ≡ true → list_any (λ t. is_type t n.owner) line ≡ false }
{}

/// Seen from the declaring method: a search of the chain of d for what can override a gives b where the class of b stands in the
/// chain, b can override a, and no nearer class declares a method that can.
pub fn selected_from_declarers()
    ensures { (types : List Placed) → IsDistinct is_type types → IsSingle types → (d : Placed) (a b : Node) → (searched types (λ n. can_override types n a) (chain types d) ≡ Some b) ↔ IsFirst types (λ n. can_override types n a) (chain types d) b }
{}

/// A search goes on with the rest of the chain, and the default counts only where the whole chain has nothing. What is selected
/// is an instance method of the name and descriptor.
pub fn selections_go_on()
    ensures on { (types : List Placed) → IsAcyclic types → (d : Placed) (test : Node → Bool) → Contains types d → searched types test (chain types d) ≡ or_else (searched types test (d ∷ [])) (searched types test (chain_above types d (superclass types d))) }
    ensures first_one { (types : List Placed) (d : Placed) (a c : Node) (s : Signature) → is_private a.method ≡ false → searched types (λ n. can_override types n a) (chain types d) ≡ Some c → selected types d (Found a) s ≡ Some c }
    ensures default_one { (types : List Placed) (d : Placed) (a : Node) (s : Signature) → is_private a.method ≡ false → searched types (λ n. can_override types n a) (chain types d) ≡ None → selected types d (Found a) s ≡ one_default types d s }
    ensures phantom_first { (types : List Placed) (d : Placed) (c : Node) (s : Signature) → searched types (can_override_phantom s) (chain types d) ≡ Some c → selected types d Phantom s ≡ Some c }
    ensures phantom_default { (types : List Placed) (d : Placed) (s : Signature) → searched types (can_override_phantom s) (chain types d) ≡ None → selected types d Phantom s ≡ one_default types d s }
    ensures of_nodes { (types : List Placed) (d : Placed) (a c : Node) (s : Signature) → Contains (nodes types) a → is_instance a.method ≡ true → has_signature s a.method ≡ true → selected types d (Found a) s ≡ Some c → Contains (nodes types) c × (is_instance c.method ≡ true) × (has_signature s c.method ≡ true) }
{}

/// The method of a special call is an instance method of the reference's name and descriptor.
pub fn special_methods_are_nodes()
    ensures { (types : List Placed) (x : Placed) (r : Ref) (m : Node) → special types x r ≡ Some m → Contains (nodes types) m × (is_instance m.method ≡ true) × (has_signature (signature_in r) m.method ≡ true) }
{}

/// An `<init>` is the resolved one, of the class that is named.
pub fn special_inits_are_named()
    ensures { (types : List Placed) (x : Placed) (r : Ref) (m : Node) → is_init r ≡ true → special types x r ≡ Some m → (resolved types r ≡ Found m) × (is_named r.owner m.owner ≡ true) × (is_class m.owner ≡ true) }
{}

/// The name of a known type is a superclass name for the classes below it by superclass links alone.
pub fn superclass_names_are_of_the_line()
    ensures { (types : List Placed) → IsAcyclic types → (x u : Placed) → Contains types x → Contains types u → is_superclass_name types x u.view.name ≡ list_any (is_type u) (line_above types (superclass types x)) }
{}

/// By a superclass name the search starts at the linked superclass, whichever superclass is named, and there is none where that
/// is absent. By any other name the calling class makes no difference, and the resolved method of a class of the chain is taken.
pub fn special_calls_start()
    ensures at_superclass { (types : List Placed) (x p : Placed) (r : Ref) → is_init r ≡ false → goes_on (resolved types r) ≡ true → r.owner_is_interface_ref ≡ false → is_superclass_name types x r.owner ≡ true → superclass types x ≡ Some p → special types x r ≡ found_from types (signature_in r) p }
    ensures none { (types : List Placed) (x : Placed) (r : Ref) → is_init r ≡ false → r.owner_is_interface_ref ≡ false → is_superclass_name types x r.owner ≡ true → superclass types x ≡ None → special types x r ≡ None }
    ensures by_interface_ref { (types : List Placed) (x : Placed) (r : Ref) → is_init r ≡ false → r.owner_is_interface_ref ≡ true → type_named types r.owner ≡ None → special types x r ≡ None }
    ensures other { (types : List Placed) (x y : Placed) (r : Ref) → is_superclass_name types x r.owner ≡ false → is_superclass_name types y r.owner ≡ false → special types x r ≡ special types y r }
    ensures at_name { (types : List Placed) (x t : Placed) (r : Ref) (m : Node) → has_array_owner r ≡ false → is_init r ≡ false → is_superclass_name types x r.owner ≡ false → type_named types r.owner ≡ Some t → is_class t ≡ true → resolved types r ≡ Found m → is_instance m.method ≡ true → list_any (λ u. is_type u m.owner) (chain types t) ≡ true → special types x r ≡ Some m }
{}

/// A special call that starts at a class takes the first instance method of its chain, else its one default.
pub fn special_calls_by_classes()
    ensures { (types : List Placed) (x t : Placed) (r : Ref) → is_init r ≡ false → goes_on (resolved types r) ≡ true → search_start types x r ≡ Some t → is_class t ≡ true → special types x r ≡ or_else (searched types (λ m. has_signature (signature_in r) m.method && is_instance m.method) (chain types t)) (one_default types t (signature_in r)) }
{}

/// A special call by an interface takes its own instance method, else Object's public one, else its one default.
pub fn special_calls_by_interfaces()
    ensures { (types : List Placed) (x t : Placed) (r : Ref) → has_array_owner r ≡ false → is_init r ≡ false → r.owner_is_interface_ref ≡ true → type_named types r.owner ≡ Some t → goes_on (resolved types r) ≡ true → special types x r ≡ or_else (searched types (λ m. has_signature (signature_in r) m.method && is_instance m.method) (t ∷ [])) (or_else (public_of_object types (signature_in r)) (one_default types t (signature_in r))) }
{}

// ---- By one look at each class

/// Where no type has two methods of one name and descriptor, a search in one type for a method of a name and descriptor looks at
/// the one that the type declares.
pub fn searches_look_at_declared()
    ensures only { (types : List Placed) → IsDistinct is_type types → IsSingle types → (t : Placed) (s : Signature) (m : Node) → Contains (nodes types) m → is_type t m.owner ≡ true → has_signature s m.method ≡ true → declared types s t ≡ Some m }
    ensures first_one { (types : List Placed) → IsDistinct is_type types → IsSingle types → (t : Placed) (s : Signature) (test : Node → Bool) → ((m : Node) → test m ≡ true → has_signature s m.method ≡ true) → find (λ m. is_type t m.owner && test m) (nodes types) ≡ where_passes test (declared types s t) }
    ensures any_one { (types : List Placed) → IsDistinct is_type types → IsSingle types → (t : Placed) (s : Signature) (test : Node → Bool) → ((m : Node) → test m ≡ true → has_signature s m.method ≡ true) → list_any (λ m. is_type t m.owner && test m) (nodes types) ≡ passes_at test (declared types s t) }
{}

/// Whether a method overrides another is seen by the two, and by what hands the other on between them.
pub fn overriding_by_one_walk()
    ensures of_candidates { (types : List Placed) → IsAcyclic types → IsDistinct is_type types → IsSingle types → (c a : Node) → is_candidate c a ≡ true → Contains types c.owner → can_override types c a ≡ (overrides_directly c a || is_package_private a.method && handed_on types a (drop 1 (chain types c.owner))) }
    ensures of_others { (types : List Placed) (c a : Node) → is_candidate c a ≡ false → can_override types c a ≡ false }
{}

/// A public or protected method, or a phantom, is overridden for a class by the first method of the chain that isn't private. A
/// package-private one by the first that besides is of its package, or any where the method is handed on in the chain.
pub fn selection_by_declared()
    ensures of_open { (types : List Placed) → IsAcyclic types → IsDistinct is_type types → IsSingle types → (a : Node) → is_instance a.method ≡ true → (is_public a.method || is_protected a.method) ≡ true → (d : Placed) → Contains types d → searched types (λ c. can_override types c a) (chain types d) ≡ found_in (λ t. where_passes is_open (declared types (signature_of a.method) t)) (chain types d) }
    ensures of_phantom { (types : List Placed) → IsAcyclic types → IsDistinct is_type types → IsSingle types → (s : Signature) (d : Placed) → Contains types d → searched types (can_override_phantom s) (chain types d) ≡ found_in (λ t. where_passes is_open (declared types s t)) (chain types d) }
    ensures of_package_private { (types : List Placed) → IsAcyclic types → IsDistinct is_type types → IsSingle types → (a : Node) → Contains (nodes types) a → is_package_private a.method ≡ true → is_instance a.method ≡ true → (d : Placed) → Contains types d → searched types (λ c. can_override types c a) (chain types d) ≡ found_in (λ t. where_passes (overrides_alike (handed_on types a (chain types d)) a) (declared types (signature_of a.method) t)) (chain types d) }
{}
