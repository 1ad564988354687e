//! Class files that are written from views in short form, packed as a bundle and read again.

use crate::class_files::is_refused;
use crate::packs::pack_over;
use crate::runs::run_over;
use fcg_cases::{ShortFormError, views_of};
use fcg_make::{NotWritable, write_class};
use fcg_top::Status;
use fcg_views::{View, is_valid};
use std::alloc::Global;
use std::test::Fail;

// The path of the class file of a type in the folder that is packed.
fn path_of(alloc: Global, view: &View) -> Result<String, Fail> {
    let mut path = b"d/".to_vec(alloc)?;
    path.extend_from_slice(view.name.as_slice())?;
    path.extend_from_slice(b".class")?;
    Ok(String::from_utf8(path)?)
}

// The class file of a view.
fn body_of(alloc: Global, view: &View) -> Result<Vec<u8>, Fail> {
    if !is_valid(view) {
        return Err(Fail::new("the view isn't valid"));
    }
    Ok(write_class(alloc, view)?.into_vec())
}

// The class files of the types of a text in short form.
fn files_of(alloc: Global, text: &str) -> Result<Vec<(String, Vec<u8>)>, Fail> {
    let views = views_of(alloc, text)?;
    let mut files = Vec::new(alloc);
    for view in &views {
        files.push((path_of(alloc, view)?, body_of(alloc, view)?))?;
    }
    Ok(files)
}

// Whether what is packed of a text lists as it says, and has these sites.
fn reads_as(alloc: Global, text: &str, list: &str, sites: &str) -> Result<bool, Fail> {
    let packed = pack_over(alloc, files_of(alloc, text)?, 9, 9)?;
    let bundle = packed.output.bytes();
    let listed = run_over(alloc, "list", bundle, &[])?.is(Status::Ok, list.as_bytes(), b"");
    let sited = run_over(alloc, "sites", bundle, &[])?.is(Status::Ok, sites.as_bytes(), b"");
    Ok(packed.status == Status::Ok && listed && sited)
}

// A name, a text in short form, and what `list` and `sites` print of it. The types are listed in the order of their paths.
const WRITTEN: &[(&str, &str, &str, &str)] = &[
    (
        "self-call",
        "class p/A static m()V [ static p/A.m()V ]",
        "type p/A\nmethod m()V\ntypes 1 methods 1\n",
        "site p/A.m()V 0 static p/A.m()V\nsites 1\n",
    ),
    (
        "first-body",
        "class p/A without superclass static m()V [ static p/A.m()V ]",
        "type p/A\nmethod m()V\ntypes 1 methods 1\n",
        "site p/A.m()V 0 static p/A.m()V\nsites 1\n",
    ),
    (
        "lambda",
        "class p/L static main()V [ handle6 java/lang/invoke/LambdaMetafactory.metafactory()V handle6 p/L.lambda$main$0()V ] static lambda$main$0()V",
        "type p/L\nmethod main()V\nmethod lambda$main$0()V\ntypes 1 methods 2\n",
        "site p/L.main()V 0 handle6 java/lang/invoke/LambdaMetafactory.metafactory()V\nsite p/L.main()V 0 handle6 p/L.lambda$main$0()V\nsites 2\n",
    ),
    (
        "doubled-class, first",
        "class p/X static f()V",
        "type p/X\nmethod f()V\ntypes 1 methods 1\n",
        "sites 0\n",
    ),
    (
        "doubled-class, second",
        "class p/X static f()V [ static p/Y.g()V ] class p/Y static g()V [ static p/X.f()V ]",
        "type p/X\nmethod f()V\ntype p/Y\nmethod g()V\ntypes 2 methods 2\n",
        "site p/X.f()V 0 static p/Y.g()V\nsite p/Y.g()V 0 static p/X.f()V\nsites 2\n",
    ),
    (
        "package-private",
        "class p/A package m()V class p/B extends p/A pub m()V class q/C extends p/B pub m()V class q/D extends p/A pub m()V class p/T static t()V [ virtual p/A.m()V ]",
        "type p/A\nmethod m()V\ntype p/B\nmethod m()V\ntype p/T\nmethod t()V\ntype q/C\nmethod m()V\ntype q/D\nmethod m()V\ntypes 5 methods 5\n",
        "site p/T.t()V 0 virtual p/A.m()V\nsites 1\n",
    ),
    (
        "defaults",
        "interface p/I pub m()V interface p/J pub m()V class p/K implements p/I implements p/J class p/T static t()V [ virtual p/K.m()V ]",
        "type p/I\nmethod m()V\ntype p/J\nmethod m()V\ntype p/K\ntype p/T\nmethod t()V\ntypes 4 methods 3\n",
        "site p/T.t()V 0 virtual p/K.m()V\nsites 1\n",
    ),
    (
        "defaults, one abstract",
        "interface p/I pub m()V interface p/J abs m()V class p/K implements p/I implements p/J class p/T static t()V [ virtual p/K.m()V ]",
        "type p/I\nmethod m()V\ntype p/J\nmethod m()V\ntype p/K\ntype p/T\nmethod t()V\ntypes 4 methods 3\n",
        "site p/T.t()V 0 virtual p/K.m()V\nsites 1\n",
    ),
    (
        "defaults, one below",
        "interface p/I pub m()V interface p/J pub m()V interface p/L implements p/I implements p/J pub m()V class p/K implements p/L class p/T static t()V [ virtual p/K.m()V ]",
        "type p/I\nmethod m()V\ntype p/J\nmethod m()V\ntype p/K\ntype p/L\nmethod m()V\ntype p/T\nmethod t()V\ntypes 5 methods 4\n",
        "site p/T.t()V 0 virtual p/K.m()V\nsites 1\n",
    ),
    (
        "private-and-static",
        "class p/A pub m()V class p/B extends p/A private m()V class p/C extends p/A static m()V class p/T static t()V [ virtual p/A.m()V ]",
        "type p/A\nmethod m()V\ntype p/B\nmethod m()V\ntype p/C\nmethod m()V\ntype p/T\nmethod t()V\ntypes 4 methods 4\n",
        "site p/T.t()V 0 virtual p/A.m()V\nsites 1\n",
    ),
    (
        "special-super, first",
        "class p/G pub m()V class p/P extends p/G",
        "type p/G\nmethod m()V\ntype p/P\ntypes 2 methods 1\n",
        "sites 0\n",
    ),
    (
        "special-super, second",
        "class p/G pub m()V class p/H pub m()V class p/P extends p/H",
        "type p/G\nmethod m()V\ntype p/H\nmethod m()V\ntype p/P\ntypes 3 methods 2\n",
        "sites 0\n",
    ),
    (
        "special-super, caller",
        "class p/C extends p/P pub m()V [ special p/P.m()V ]",
        "type p/C\nmethod m()V\ntypes 1 methods 1\n",
        "site p/C.m()V 0 special p/P.m()V\nsites 1\n",
    ),
    (
        "logging-set, app",
        "class shop/Main static main([Ljava/lang/String;)V [ static log/Factory.get()Llog/Logger; interface log/Logger.info(Ljava/lang/String;)V ]",
        "type shop/Main\nmethod main([Ljava/lang/String;)V\ntypes 1 methods 1\n",
        "site shop/Main.main([Ljava/lang/String;)V 0 static log/Factory.get()Llog/Logger;\nsite shop/Main.main([Ljava/lang/String;)V 3 interface log/Logger.info(Ljava/lang/String;)V\nsites 2\n",
    ),
    (
        "logging-set, api",
        "interface log/Logger abs info(Ljava/lang/String;)V class log/Factory static get()Llog/Logger; [ static log/Binder.get()Llog/Logger; ]",
        "type log/Factory\nmethod get()Llog/Logger;\ntype log/Logger\nmethod info(Ljava/lang/String;)V\ntypes 2 methods 2\n",
        "site log/Factory.get()Llog/Logger; 0 static log/Binder.get()Llog/Logger;\nsites 1\n",
    ),
    (
        "logging-set, impl",
        "class log/Binder static get()Llog/Logger; [ new impl/Simple special impl/Simple.<init>()V ] class impl/Simple implements log/Logger pub <init>()V [ special java/lang/Object.<init>()V ] pub info(Ljava/lang/String;)V [ static impl/Out.write(Ljava/lang/String;)V ] class impl/Out static write(Ljava/lang/String;)V",
        "type impl/Out\nmethod write(Ljava/lang/String;)V\ntype impl/Simple\nmethod %3Cinit%3E()V\nmethod info(Ljava/lang/String;)V\ntype log/Binder\nmethod get()Llog/Logger;\ntypes 3 methods 4\n",
        "site impl/Simple.%3Cinit%3E()V 0 special java/lang/Object.%3Cinit%3E()V\nsite impl/Simple.info(Ljava/lang/String;)V 0 static impl/Out.write(Ljava/lang/String;)V\nsite log/Binder.get()Llog/Logger; 0 new impl/Simple\nsite log/Binder.get()Llog/Logger; 3 special impl/Simple.%3Cinit%3E()V\nsites 4\n",
    ),
];

#[test]
fn reads_what_was_written(rt: HostRuntime) -> Result<(), Fail> {
    for (name, text, list, sites) in WRITTEN {
        assert!(rt; reads_as(rt.alloc(), text, list, sites)?, "{name}");
    }
    Ok(())
}

// The name of a method is empty.
#[test]
fn refuses_an_empty_name(rt: HostRuntime) -> Result<(), Fail> {
    let views = views_of(rt.alloc(), "class p/A static ()V")?;
    let [view] = views.as_slice() else {
        return Err(Fail::new("it is one view"));
    };
    assert!(rt; is_refused(rt.alloc(), view, NotWritable::Name));
    Ok(())
}

// Texts that aren't in short form.
const OTHERS: &[&str] = &[
    "",
    "class",
    "class p/A ",
    "class p/A public m()V",
    "class p/A with superclass",
    "class p/A without interfaces",
    "static m()V",
    "class p/A static m",
    "class p/A static m()V static p/A.m()V",
    "class p/A [ static p/A.m()V ]",
    "class p/A static m()V [ pub p/A.m()V ]",
    "class p/A static m()V [ static m()V ]",
    "class p/A static m()V [ class p/B ]",
    "class p/A static m()V [ static p/A.m()V",
    "class p/A static m()V [ [ static p/A.m()V ]",
    "class p/A static m()V [ static p/A.m()V ] ]",
];

#[test]
fn refuses_other_texts(rt: HostRuntime) -> Result<(), Fail> {
    for text in OTHERS {
        let refused = views_of(rt.alloc(), text).err() == Some(ShortFormError::Malformed);
        assert!(rt; refused, "{text}");
    }
    Ok(())
}
