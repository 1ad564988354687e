//! What no clause says of views and lists: that calls succeed where there is memory. The helper of counted steps has the
//! contract that a caller knows.
ghost use Rattle.std.specs.Prelude.{◌≡◌, ◌+◌, ◌<◌};

use fcg_views::{Items, Method, Name, NameList, Steps, View, Views, is_valid};
use std::alloc::Global;
use std::marker::Brand;
use std::mem::size_of;
use std::sync::ledger::{Blank, Ledger};
use std::test::Fail;

fn keeps(items: Items<u8>, want: &[u8]) -> bool {
    items.as_slice() == want && items.into_vec().len() == want.len()
}

#[test]
fn keeps_items(rt: HostRuntime) -> Result<(), Fail> {
    let items = Items::from(vec![in rt.alloc(); 3u8, 1, 2]?);
    assert!(rt; keeps(items, &[3, 1, 2]));
    Ok(())
}

fn method_of(alloc: Global, name: &str, desc: &str) -> Result<Method, Fail> {
    let name = Name::from_slice(alloc, name.as_bytes())?;
    let desc = Name::from_slice(alloc, desc.as_bytes())?;
    Ok(Method {
        name,
        desc,
        flags: 0,
        sites: Items::from(Vec::new(alloc)),
    })
}

fn methods_of(alloc: Global, methods: &[(&str, &str)]) -> Result<Vec<Method>, Fail> {
    let mut all = Vec::new(alloc);
    for (name, desc) in methods {
        all.push(method_of(alloc, name, desc)?)?;
    }
    Ok(all)
}

// A view of a type `A` whose methods have these names and descriptors.
fn view_of(alloc: Global, methods: &[(&str, &str)]) -> Result<View, Fail> {
    let methods = methods_of(alloc, methods)?;
    let name = Name::from_slice(alloc, b"A")?;
    let superclass = Name::from_slice(alloc, b"java/lang/Object")?;
    Ok(View {
        name,
        flags: 0x21,
        superclass: Some(superclass),
        interfaces: Items::from(Vec::new(alloc)),
        fields: Items::from(Vec::new(alloc)),
        methods: Items::from(methods),
    })
}

// Two views: the methods of the first are apart, and two of the second are alike.
fn views(alloc: Global) -> Result<Views, Fail> {
    let apart = view_of(alloc, &[("f", "()V"), ("f", "(I)V"), ("g", "()V")])?;
    let alike = view_of(alloc, &[("f", "()V"), ("g", "()V"), ("f", "()V")])?;
    Ok(Views::from(vec![in alloc; apart, alike]?))
}

fn only_first_is_valid(views: &[View]) -> bool {
    match views {
        [first, second] => is_valid(first) && !is_valid(second),
        _ => false,
    }
}

#[test]
fn tells_valid_views(rt: HostRuntime) -> Result<(), Fail> {
    let views = views(rt.alloc())?;
    assert!(rt; only_first_is_valid(views.as_slice()) && views.fits());
    Ok(())
}

// The names `Object`, `lang` and again `Object`, which have two texts.
fn name_list(alloc: Global) -> Result<NameList, Fail> {
    let block = Name::from_slice(alloc, b"java/lang/Object")?;
    let mut names = NameList::new(alloc, block);
    names.reserve(2, 3)?;
    let object = names.add_text(10, 6)?;
    let lang = names.add_text(5, 4)?;
    names.push(object)?;
    names.push(lang)?;
    names.push(object)?;
    names.shrink_to_fit();
    Ok(names)
}

#[test]
fn keeps_names_by_numbers(rt: HostRuntime) -> Result<(), Fail> {
    let names = name_list(rt.alloc())?;
    assert!(rt; names.numbers() == [0, 1, 0].as_slice() && names.text_count() == 2);
    if names.text_count() == 2 {
        assert!(rt; names.text(1)?.as_slice() == b"lang".as_slice());
    }
    Ok(())
}

#[test]
fn plain_views_keep_no_names(rt: HostRuntime) -> Result<(), Fail> {
    let plain = views(rt.alloc())?;
    let none = Views::new(rt.alloc());
    assert!(rt; plain.names().is_none() && none.names().is_some() && none.as_slice().is_empty());
    Ok(())
}

fn count_three<L: Ledger>(steps: &mut Steps<L>)
    ensures { steps.new ≡ steps.old + 3 }
{
    steps.tick();
    steps.tick();
    steps.tick();
}

// Opens a count, counts three steps, and gives the bytes that the count takes.
fn bytes_of_count<L: Ledger>(blank: Blank) -> usize
    requires one { (blank.parts ≡ L.parts) × (0 < blank.parts) }
    requires name { blank.name ≡ L.name }
{
    let mut steps = Steps::<L>::open(blank);
    count_three(&mut steps);
    size_of::<Steps<L>>()
}

// A caller that counts nothing.
fn bytes_of_any_count() -> usize {
    bytes_of_count::<Brand>(Blank::new(1))
}

#[test]
fn counts_steps(rt: HostRuntime) {
    assert!(rt; bytes_of_any_count() == 0);
}
