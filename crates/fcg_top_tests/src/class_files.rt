use fcg_make::{NotWritable, WriteError, write_class};
use fcg_views::{
    Bytes, HandleKind, Items, Method, Name, NoMemory, Ref, Site, SiteKind, View, is_valid,
};
use std::alloc::Global;
use std::test::Fail;

/// An owner, whether it is an interface, and a name and a descriptor.
pub type Member<'a> = (&'a str, bool, &'a str, &'a str);

fn target_of(alloc: Global, member: Member<'_>) -> Result<Ref, NoMemory> {
    let (owner, owner_is_interface_ref, name, desc) = member;
    let owner = Name::from_slice(alloc, owner.as_bytes())?;
    let name = Name::from_slice(alloc, name.as_bytes())?;
    let desc = Name::from_slice(alloc, desc.as_bytes())?;
    Ok(Ref {
        owner,
        owner_is_interface_ref,
        name,
        desc,
    })
}

/// A site more.
pub fn push_site(
    sites: &mut Vec<Site>,
    alloc: Global,
    pc: u16,
    kind: SiteKind,
    member: Member<'_>,
) -> Result<(), NoMemory> {
    let target = target_of(alloc, member)?;
    sites.push(Site { pc, kind, target })?;
    Ok(())
}

fn one_site(
    alloc: Global,
    pc: u16,
    kind: SiteKind,
    member: Member<'_>,
) -> Result<Vec<Site>, NoMemory> {
    let mut sites = Vec::new(alloc);
    push_site(&mut sites, alloc, pc, kind, member)?;
    Ok(sites)
}

/// A method more.
pub fn push_method(
    methods: &mut Vec<Method>,
    alloc: Global,
    name: &str,
    desc: &str,
    flags: u16,
    sites: Vec<Site>,
) -> Result<(), NoMemory> {
    let name = Name::from_slice(alloc, name.as_bytes())?;
    let desc = Name::from_slice(alloc, desc.as_bytes())?;
    let sites = Items::from(sites);
    methods.push(Method {
        name,
        desc,
        flags,
        sites,
    })?;
    Ok(())
}

/// A view of a type below `java/lang/Object`.
pub fn view_of(
    alloc: Global,
    name: &str,
    flags: u16,
    methods: Vec<Method>,
) -> Result<View, NoMemory> {
    let name = Name::from_slice(alloc, name.as_bytes())?;
    let superclass = Some(Name::from_slice(alloc, b"java/lang/Object")?);
    Ok(View {
        name,
        flags,
        superclass,
        interfaces: Items::from(Vec::new(alloc)),
        fields: Items::from(Vec::new(alloc)),
        methods: Items::from(methods),
    })
}

// A view of a type `C` or another with one method.
fn view_with(
    alloc: Global,
    class: &str,
    flags: u16,
    method: (&str, &str, u16),
    sites: Vec<Site>,
) -> Result<View, NoMemory> {
    let mut methods = Vec::new(alloc);
    let (name, desc, method_flags) = method;
    push_method(&mut methods, alloc, name, desc, method_flags, sites)?;
    view_of(alloc, class, flags, methods)
}

/// The class file of a view, where the view is valid.
pub fn written(alloc: Global, view: &View) -> Option<Result<Bytes, WriteError>> {
    if is_valid(view) {
        Some(write_class(alloc, view))
    } else {
        None
    }
}

// Whether a view is valid, and its class file has these bytes.
fn is_written(alloc: Global, view: &View, want: &[u8]) -> bool {
    match written(alloc, view) {
        Some(Ok(bytes)) => bytes.as_slice() == want,
        _ => false,
    }
}

/// Whether a view is valid, and isn't written for this.
pub fn is_refused(alloc: Global, view: &View, want: NotWritable) -> bool {
    match written(alloc, view) {
        Some(Err(refusal)) => refusal == WriteError::NotWritable(want),
        _ => false,
    }
}

// The smallest class file.
#[test]
fn writes_an_interface(rt: HostRuntime) -> Result<(), Fail> {
    let view = view_of(rt.alloc(), "I", 0x601, Vec::new(rt.alloc()))?;
    let want =
        b"\xca\xfe\xba\xbe\0\0\0\x41\0\x05\x01\0\x01I\x07\0\x01\x01\0\x10java/lang/Object\x07\0\x03\x06\x01\0\x02\0\x04\0\0\0\0\0\0\0\0";
    assert!(rt; is_written(rt.alloc(), &view, want));
    Ok(())
}

// A method that calls itself.
#[test]
fn writes_a_call(rt: HostRuntime) -> Result<(), Fail> {
    let sites = one_site(rt.alloc(), 0, SiteKind::Virtual, ("C", false, "m", "()V"))?;
    let view = view_with(rt.alloc(), "C", 0x21, ("m", "()V", 1), sites)?;
    let want =
        b"\xca\xfe\xba\xbe\0\0\0\x41\0\x0a\x01\0\x01C\x07\0\x01\x01\0\x10java/lang/Object\x07\0\x03\x01\0\x01m\x01\0\x03()V\x01\0\x04Code\x0c\0\x05\0\x06\x0a\0\x02\0\x08\0\x21\0\x02\0\x04\0\0\0\0\0\x01\0\x01\0\x05\0\x06\0\x01\0\x07\0\0\0\x10\xff\xff\xff\xff\0\0\0\x04\xb6\0\x09\xb1\0\0\0\0\0\0";
    assert!(rt; is_written(rt.alloc(), &view, want));
    Ok(())
}

// A static field, an interface method and a new object.
#[test]
fn writes_a_site_of_each_form(rt: HostRuntime) -> Result<(), Fail> {
    let mut sites = one_site(rt.alloc(), 0, SiteKind::StaticField, ("E", false, "f", "I"))?;
    let call = ("F", true, "g", "()V");
    push_site(&mut sites, rt.alloc(), 3, SiteKind::Interface, call)?;
    push_site(
        &mut sites,
        rt.alloc(),
        8,
        SiteKind::New,
        ("G", false, "", ""),
    )?;
    let view = view_with(rt.alloc(), "D", 0x21, ("m", "()V", 1), sites)?;
    let want =
        b"\xca\xfe\xba\xbe\0\0\0\x41\0\x15\x01\0\x01D\x07\0\x01\x01\0\x10java/lang/Object\x07\0\x03\x01\0\x01m\x01\0\x03()V\x01\0\x04Code\x01\0\x01E\x07\0\x08\x01\0\x01f\x01\0\x01I\x0c\0\x0a\0\x0b\x09\0\x09\0\x0c\x01\0\x01F\x07\0\x0e\x01\0\x01g\x0c\0\x10\0\x06\x0b\0\x0f\0\x11\x01\0\x01G\x07\0\x13\0\x21\0\x02\0\x04\0\0\0\0\0\x01\0\x01\0\x05\0\x06\0\x01\0\x07\0\0\0\x18\xff\xff\xff\xff\0\0\0\x0c\xb2\0\x0d\xb9\0\x12\x01\0\xbb\0\x14\xb1\0\0\0\0\0\0";
    assert!(rt; is_written(rt.alloc(), &view, want));
    Ok(())
}

// A method with a method handle of itself, after a nop.
#[test]
fn writes_a_handle(rt: HostRuntime) -> Result<(), Fail> {
    let kind = SiteKind::Handle(HandleKind::K6);
    let sites = one_site(rt.alloc(), 1, kind, ("L", false, "r", "()V"))?;
    let view = view_with(rt.alloc(), "L", 0x21, ("r", "()V", 9), sites)?;
    let want =
        b"\xca\xfe\xba\xbe\0\0\0\x41\0\x0f\x01\0\x01L\x07\0\x01\x01\0\x10java/lang/Object\x07\0\x03\x01\0\x01r\x01\0\x03()V\x01\0\x04Code\x01\0\x01x\x0c\0\x08\0\x06\x12\0\0\0\x09\x01\0\x10BootstrapMethods\x0c\0\x05\0\x06\x0a\0\x02\0\x0c\x0f\x06\0\x0d\0\x21\0\x02\0\x04\0\0\0\0\0\x01\0\x09\0\x05\0\x06\0\x01\0\x07\0\0\0\x13\xff\xff\xff\xff\0\0\0\x07\0\xba\0\x0a\0\0\xb1\0\0\0\0\0\x01\0\x0b\0\0\0\x06\0\x01\0\x0e\0\0";
    assert!(rt; is_written(rt.alloc(), &view, want));
    Ok(())
}

// The flags of a type, the name and the descriptor of its method, and the place of its site. Each breaks the rule, and all
// rules after it that it can.
const REFUSED: &[(u16, &str, &str, u16, NotWritable)] = &[
    (0x8000, "", "V", 65_533, NotWritable::Name),
    (0x8000, "m", "V", 65_533, NotWritable::Descriptor),
    (0x8000, "m", "()V", 65_533, NotWritable::Kind),
    (0x21, "m", "()V", 65_533, NotWritable::Places),
];

#[test]
fn refuses(rt: HostRuntime) -> Result<(), Fail> {
    for (flags, name, desc, pc, want) in REFUSED {
        let sites = one_site(rt.alloc(), *pc, SiteKind::Static, ("C", false, "m", "()V"))?;
        let view = view_with(rt.alloc(), "C", *flags, (name, desc, 9), sites)?;
        assert!(rt; is_refused(rt.alloc(), &view, *want));
    }
    Ok(())
}

// So many names.
fn numbers(alloc: Global, count: u32) -> Result<Vec<Name>, NoMemory> {
    let mut names = Vec::new(alloc);
    let mut name = String::new(alloc);
    for number in 0..count {
        name.clear();
        write!(name, "{number}")?;
        names.push(Name::from_slice(alloc, name.as_bytes())?)?;
    }
    Ok(names)
}

// A view of a type below so many interfaces, each of another name.
fn view_below(alloc: Global, count: u32) -> Result<View, NoMemory> {
    let mut view = view_of(alloc, "C", 0x21, Vec::new(alloc))?;
    view.interfaces = Items::from(numbers(alloc, count)?);
    Ok(view)
}

// The type, its superclass and each interface have two entries, and a pool has at most 65,534.
#[test]
fn fills_the_pool(rt: HostRuntime) -> Result<(), Fail> {
    let full = view_below(rt.alloc(), 32_765)?;
    assert!(rt; matches!(written(rt.alloc(), &full), Some(Ok(_))));
    let above = view_below(rt.alloc(), 32_766)?;
    assert!(rt; is_refused(rt.alloc(), &above, NotWritable::PoolFull));
    Ok(())
}
