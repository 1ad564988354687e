//! Views of class files from a short text, for tests.
//!
//! The text's words, between single spaces, go in pairs of a keyword and what it is about. `class C` and `interface C`
//! begin a type, below `java/lang/Object`; `extends C` names another superclass of it, `without superclass` says that
//! it has none, and `implements C` adds an interface. `pub MD`, `abs MD`, `static MD`, `private MD` and `package MD`
//! (that of no flags) add a method to it. The sites of the method stand between the words `[` and `]`, one after the
//! other from the place 0: `static C.MD`, `special C.MD`, `virtual C.MD`, `interface C.MD`, `new C`, and `handle5 C.MD`
//! to `handle9 C.MD`, of which those that follow one another are of one `invokedynamic`. C is a type's name, M a
//! method's name and D its descriptor.

use fcg_views::{
    Fields, HandleKind, Method, Methods, Name, Names, NoMemory, Ref, Site, SiteKind, Sites, View,
};
use std::alloc::{AllocError, AllocFailed, Global};
use std::mem::replace;

/// Why a text gives no views.
#[derive(Clone, Copy, Debug, PartialEq, Eq)]
pub enum ShortFormError {
    NoMemory,
    /// It isn't in short form.
    Malformed,
}

impl From<NoMemory> for ShortFormError {
    fn from(_: NoMemory) -> ShortFormError {
        ShortFormError::NoMemory
    }
}

impl From<AllocError> for ShortFormError {
    fn from(_: AllocError) -> ShortFormError {
        ShortFormError::NoMemory
    }
}

impl<T: Drop> From<AllocFailed<T>> for ShortFormError {
    fn from(_: AllocFailed<T>) -> ShortFormError {
        ShortFormError::NoMemory
    }
}

// What was read of a text: the types so far, and whether the brackets of the last one's last method are open.
#[derive(Drop)]
struct Reading {
    views: Vec<View>,
    is_in_code: bool,
}

// A type with no members below `java/lang/Object`.
fn new_view(alloc: Global, name: &str, flags: u16) -> Result<View, NoMemory> {
    let name = Name::from_slice(alloc, name.as_bytes())?;
    let superclass = Some(Name::from_slice(alloc, b"java/lang/Object")?);
    Ok(View {
        name,
        flags,
        superclass,
        interfaces: Names::from(Vec::new(alloc)),
        fields: Fields::from(Vec::new(alloc)),
        methods: Methods::from(Vec::new(alloc)),
    })
}

// The name and the descriptor of a method, from `MD`.
fn split_method(alloc: Global, word: &str) -> Result<(Name, Name), ShortFormError> {
    let bytes = word.as_bytes();
    let Some(at) = bytes.iter().position(|byte| *byte == b'(') else {
        return Err(ShortFormError::Malformed);
    };
    let (name, desc) = bytes.split_at(at);
    let name = Name::from_slice(alloc, name)?;
    let desc = Name::from_slice(alloc, desc)?;
    Ok((name, desc))
}

// A method without sites, from `MD`. The word has no owner.
fn new_method(alloc: Global, word: &str, flags: u16) -> Result<Method, ShortFormError> {
    if word.contains('.') {
        return Err(ShortFormError::Malformed);
    }
    let (name, desc) = split_method(alloc, word)?;
    Ok(Method {
        name,
        desc,
        flags,
        sites: Sites::from(Vec::new(alloc)),
    })
}

// What a site names, from `C.MD`.
fn new_target(alloc: Global, kind: SiteKind, word: &str) -> Result<Ref, ShortFormError> {
    let Some((owner, member)) = word.split_once('.') else {
        return Err(ShortFormError::Malformed);
    };
    let owner = Name::from_slice(alloc, owner.as_bytes())?;
    let (name, desc) = split_method(alloc, member)?;
    Ok(Ref {
        owner,
        owner_is_interface_ref: needs_interface(kind),
        name,
        desc,
    })
}

// What a site of `new` names, from `C`.
fn new_type_target(alloc: Global, word: &str) -> Result<Ref, ShortFormError> {
    let owner = Name::from_slice(alloc, word.as_bytes())?;
    let name = Name::from_slice(alloc, b"")?;
    let desc = Name::from_slice(alloc, b"")?;
    Ok(Ref {
        owner,
        owner_is_interface_ref: false,
        name,
        desc,
    })
}

// Whether a site of a kind names an InterfaceMethodref; the others name a Methodref here.
fn needs_interface(kind: SiteKind) -> bool {
    matches!(kind, SiteKind::Interface | SiteKind::Handle(HandleKind::K9))
}

fn is_handle(kind: SiteKind) -> bool {
    matches!(kind, SiteKind::Handle(_))
}

// How many bytes the instruction of a site has.
fn size_of(kind: SiteKind) -> u16 {
    match kind {
        SiteKind::Interface | SiteKind::Handle(_) => 5,
        _ => 3,
    }
}

// The place of a site of a kind after others.
fn place_after(sites: &[Site], kind: SiteKind) -> Option<u16> {
    match sites.last() {
        Some(last) if is_handle(last.kind) && is_handle(kind) => Some(last.pc),
        Some(last) => last.pc.checked_add(size_of(last.kind)),
        None => Some(0),
    }
}

fn kind_of(word: &str) -> Option<SiteKind> {
    match word {
        "static" => Some(SiteKind::Static),
        "special" => Some(SiteKind::Special),
        "virtual" => Some(SiteKind::Virtual),
        "interface" => Some(SiteKind::Interface),
        "new" => Some(SiteKind::New),
        "handle5" => Some(SiteKind::Handle(HandleKind::K5)),
        "handle6" => Some(SiteKind::Handle(HandleKind::K6)),
        "handle7" => Some(SiteKind::Handle(HandleKind::K7)),
        "handle8" => Some(SiteKind::Handle(HandleKind::K8)),
        "handle9" => Some(SiteKind::Handle(HandleKind::K9)),
        _ => None,
    }
}

// The flags of a method, by the word before it (JVMS 4.6, table 4.6-A).
fn method_flags_of(word: &str) -> Option<u16> {
    match word {
        "pub" => Some(0x0001),
        "abs" => Some(0x0401),
        "static" => Some(0x0009),
        "private" => Some(0x0002),
        "package" => Some(0x0000),
        _ => None,
    }
}

// The flags of a type, by the word before it (JVMS 4.1, table 4.1-B).
fn type_flags_of(word: &str) -> Option<u16> {
    match word {
        "class" => Some(0x0021),
        "interface" => Some(0x0601),
        _ => None,
    }
}

// Adds a method to a view.
fn push_method(alloc: Global, view: &mut View, method: Method) -> Result<(), ShortFormError> {
    let mut methods = replace(&mut view.methods, Methods::from(Vec::new(alloc))).into_vec();
    methods.push(method)?;
    view.methods = Methods::from(methods);
    Ok(())
}

// Adds an interface to a view.
fn push_interface(alloc: Global, view: &mut View, name: Name) -> Result<(), ShortFormError> {
    let mut interfaces = replace(&mut view.interfaces, Names::from(Vec::new(alloc))).into_vec();
    interfaces.push(name)?;
    view.interfaces = Names::from(interfaces);
    Ok(())
}

// What a site of a kind names.
fn target_of(alloc: Global, kind: SiteKind, named: &str) -> Result<Ref, ShortFormError> {
    match kind {
        SiteKind::New => new_type_target(alloc, named),
        _ => new_target(alloc, kind, named),
    }
}

// The site after others, from its two words.
fn site_after(
    alloc: Global,
    sites: &[Site],
    word: &str,
    named: &str,
) -> Result<Site, ShortFormError> {
    let kind = kind_of(word).ok_or(ShortFormError::Malformed)?;
    let pc = place_after(sites, kind).ok_or(ShortFormError::Malformed)?;
    let target = target_of(alloc, kind, named)?;
    Ok(Site { pc, kind, target })
}

// Adds a site to a method, from the site's two words.
fn push_site(
    alloc: Global,
    method: &mut Method,
    word: &str,
    named: &str,
) -> Result<(), ShortFormError> {
    let site = site_after(alloc, method.sites.as_slice(), word, named)?;
    let mut sites = replace(&mut method.sites, Sites::from(Vec::new(alloc))).into_vec();
    sites.push(site)?;
    method.sites = Sites::from(sites);
    Ok(())
}

// Adds a site to the last method of a view.
fn push_last_site(
    alloc: Global,
    view: &mut View,
    word: &str,
    named: &str,
) -> Result<(), ShortFormError> {
    let mut methods = replace(&mut view.methods, Methods::from(Vec::new(alloc))).into_vec();
    match methods.last_mut() {
        Some(method) => push_site(alloc, method, word, named)?,
        None => return Err(ShortFormError::Malformed),
    }
    view.methods = Methods::from(methods);
    Ok(())
}

// Adds a superclass or an interface to a view, or takes its superclass away.
fn set_types(
    alloc: Global,
    view: &mut View,
    word: &str,
    named: &str,
) -> Result<(), ShortFormError> {
    match word {
        "extends" => view.superclass = Some(Name::from_slice(alloc, named.as_bytes())?),
        "without" if named == "superclass" => view.superclass = None,
        "implements" => {
            push_interface(alloc, view, Name::from_slice(alloc, named.as_bytes())?)?;
        }
        _ => return Err(ShortFormError::Malformed),
    }
    Ok(())
}

// Adds to a view what two words outside of brackets say.
fn add_words(
    alloc: Global,
    view: &mut View,
    word: &str,
    named: &str,
) -> Result<(), ShortFormError> {
    match method_flags_of(word) {
        Some(flags) => push_method(alloc, view, new_method(alloc, named, flags)?),
        None => set_types(alloc, view, word, named),
    }
}

impl Reading {
    // Takes two words.
    fn take(&mut self, alloc: Global, word: &str, named: &str) -> Result<(), ShortFormError> {
        if let Some(flags) = type_flags_of(word)
            && !self.is_in_code
        {
            self.views.push(new_view(alloc, named, flags)?)?;
            return Ok(());
        }
        let is_in_code = self.is_in_code;
        match self.views.last_mut() {
            Some(view) if is_in_code => push_last_site(alloc, view, word, named),
            Some(view) => add_words(alloc, view, word, named),
            None => Err(ShortFormError::Malformed),
        }
    }

    // Takes a bracket, where one of its kind may stand.
    fn take_bracket(&mut self, opens: bool) -> Result<(), ShortFormError> {
        if self.is_in_code == opens {
            return Err(ShortFormError::Malformed);
        }
        self.is_in_code = opens;
        Ok(())
    }
}

/// The views of the types that a text in short form has, in its order.
pub fn views_of(alloc: Global, text: &str) -> Result<Vec<View>, ShortFormError> {
    let mut reading = Reading {
        views: Vec::new(alloc),
        is_in_code: false,
    };
    let mut words = text.split(' ');
    while let Some(word) = words.next() {
        match word {
            "[" => reading.take_bracket(true)?,
            "]" => reading.take_bracket(false)?,
            _ => {
                let named = words.next().ok_or(ShortFormError::Malformed)?;
                reading.take(alloc, word, named)?;
            }
        }
    }
    if reading.is_in_code {
        return Err(ShortFormError::Malformed);
    }
    Ok(reading.views)
}
