//! The words of a class file that is written, beside those of the view.
ghost use Rattle.std.specs.Prelude.{◌≡◌, codes, IsOk};
ghost use Rattle.fcg_make.specs.Needs.{dynamic_name, dynamic_desc};

use fcg_views::{Name, NoMemory};
use std::alloc::Global;
use std::marker::Model;

/// The names of the attributes, and the name and the descriptor of each `invokedynamic`.
#[derive(Drop)]
pub struct Words {
    code: Name,
    rows: Name,
    name: Name,
    desc: Name,
}

impl Model for Words {
    ghost use Rattle.fcg_make.specs.Internal.Words.{AreWords};

    ghost Value = { Unit {0} };

    ghost view = { λ _. tt };

    ghost invariant = { λ w. AreWords w.code w.rows w.name w.desc };
}

impl Words {
    /// The words. Takes memory for each.
    pub fn new(alloc: Global) -> Result<Words, NoMemory> {
        let code = Name::from_slice(alloc, b"Code")?;
        let rows = Name::from_slice(alloc, b"BootstrapMethods")?;
        let name = Name::from_slice(alloc, b"x")?;
        let desc = Name::from_slice(alloc, b"()V")?;
        Ok(Words {
            code,
            rows,
            name,
            desc,
        })
    }

    /// The name of the attribute with the code of a method (JVMS 4.7.3).
    pub fn code(&self) -> &Name
        ensures { result.now ≡ codes "Code" }
    {
        &self.code
    }

    /// The name of the attribute with the bootstrap methods of a class (JVMS 4.7.23).
    pub fn rows(&self) -> &Name
        ensures { result.now ≡ codes "BootstrapMethods" }
    {
        &self.rows
    }

    /// The name of each `invokedynamic`.
    pub fn name(&self) -> &Name
        ensures { result.now ≡ dynamic_name }
    {
        &self.name
    }

    /// The descriptor of each `invokedynamic`.
    pub fn desc(&self) -> &Name
        ensures { result.now ≡ dynamic_desc }
    {
        &self.desc
    }
}
