use crate::sets::{Ask, LOGGING, holds};
use fcg_stitch::{NodeName, Stitched};
use fcg_views::MethodUri;
use std::alloc::Global;
use std::test::Fail;

// Whether a node is named so.
fn is_named(name: &NodeName<'_>, uri: &MethodUri) -> bool {
    name.coordinate == &uri.coordinate
        && name.class == uri.class.as_slice()
        && name.name == uri.name.as_slice()
        && name.desc == uri.desc.as_slice()
}

// Whether the node of a number is named by a URI, and is found by it.
fn is_node(stitched: &Stitched, node: u32, uri: &MethodUri) -> bool {
    node < stitched.node_count()
        && is_named(&stitched.node(node), uri)
        && stitched.find_node(uri) == Some(node)
}

// A text as a URI.
fn uri_of(alloc: Global, text: &str) -> Result<MethodUri, Fail> {
    Ok(
        MethodUri::parse(alloc, text.as_bytes())
            .ok()
            .ok_or("it is a URI")?,
    )
}

// The URIs of the nodes, and URIs of none.
struct Named(&'static [&'static str], &'static [&'static str]);

impl Ask for Named {
    fn holds(&self, alloc: Global, stitched: &Stitched) -> Result<bool, Fail> {
        for node in 0..stitched.node_count() {
            let text = self.0.get(node as usize).ok_or("a node has no name")?;
            let uri = uri_of(alloc, text)?;
            if !is_node(stitched, node, &uri) {
                return Ok(false);
            }
        }
        for text in self.1 {
            let uri = uri_of(alloc, text)?;
            if stitched.find_node(&uri).is_some() {
                return Ok(false);
            }
        }
        Ok(stitched.node_count() as usize == self.0.len())
    }
}

// Releases, with the names of their nodes.
const SETS: &[(&[(&str, &str)], Named)] = &[
    (
        LOGGING,
        Named(
            &[
                "fasten://mvn!shop:app$1/shop/Main.main([Ljava/lang/String;)V",
                "fasten://mvn!log:api$1/log/Logger.info(Ljava/lang/String;)V",
                "fasten://mvn!log:api$1/log/Factory.get()Llog/Logger;",
                "fasten://mvn!log:impl$1/log/Binder.get()Llog/Logger;",
                "fasten://mvn!log:impl$1/impl/Simple.%3Cinit%3E()V",
                "fasten://mvn!log:impl$1/impl/Simple.info(Ljava/lang/String;)V",
                "fasten://mvn!log:impl$1/impl/Out.write(Ljava/lang/String;)V",
            ],
            &[
                "fasten://mvn!log:impl$2/impl/Out.write(Ljava/lang/String;)V",
                "fasten://mvn!log:api$1/impl/Out.write(Ljava/lang/String;)V",
                "fasten://mvn!log:impl$1/impl/Out.write()V",
                "fasten://mvn!log:impl$1/impl/Out.info(Ljava/lang/String;)V",
                "fasten://mvn!log:impl$1/log/Logger.info(Ljava/lang/String;)V",
                "fasten://mvn!log:impl$1/impl/None.write(Ljava/lang/String;)V",
            ],
        ),
    ),
    // the first release decides whose a class is
    (
        &[
            (
                "g:b:1",
                "class p/X static f()V [ static p/Y.g()V ] class p/Y static g()V [ static p/X.f()V ]",
            ),
            ("g:a:1", "class p/X static f()V"),
        ],
        Named(
            &["fasten://mvn!g:b$1/p/X.f()V", "fasten://mvn!g:b$1/p/Y.g()V"],
            &["fasten://mvn!g:a$1/p/X.f()V"],
        ),
    ),
];

#[test]
fn names_nodes(rt: HostRuntime) -> Result<(), Fail> {
    for (releases, named) in SETS {
        let all = holds(rt.alloc(), releases, named)?;
        assert!(rt; all, "{releases:?}");
    }
    Ok(())
}
