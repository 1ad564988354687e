//! Lists of views.
ghost use Rattle.std.specs.Prelude.{◌≡◌, ◌++◌, ◌∷◌, [], List, OnOk, OnErr, IfSome};
ghost use Rattle.std.specs.List.{AllZip};
ghost use Rattle.fcg_views.specs.NamesIn.{HasNames};

use crate::name_list::NameList;
use crate::view::View;
use std::alloc::{AllocError, Global};
use std::marker::Model;

/// A view with its names by the numbers of their texts.
#[derive(Drop)]
pub struct NumberedView {
    view: View,
    names: NameList,
}

impl Model for NumberedView {
    ghost use Rattle.fcg_views.specs.declared.view.View as declared;
    ghost use Rattle.fcg_views.specs.NamesIn.{HasNames};

    ghost Value = { declared.View };

    ghost view = { λ v. v.view };

    ghost invariant = { λ v. HasNames v.view v.names };
}

impl NumberedView {
    /// The view with these names, which are those that stand in it.
    pub fn new(view: View, names: NameList) -> NumberedView
        requires { HasNames view names }
        ensures { result ≡ view }
    {
        NumberedView { view, names }
    }

    /// The view.
    pub fn view(&self) -> &View
        ensures { result.now ≡ self.now }
    {
        &self.view
    }

    /// The view without the numbers.
    pub fn into_view(self) -> View
        ensures { result ≡ self }
    {
        self.view
    }
}

/// Views, in the order of the bundle, that contracts see as their list. Beside them it may keep the names of each by the
/// numbers of their texts.
#[derive(Drop)]
pub struct Views {
    views: Vec<View>,
    names: Option<Vec<NameList>>,
}

impl Model for Views {
    ghost use Rattle.std.specs.Prelude.{List, IfSome};
    ghost use Rattle.std.specs.List.{AllZip};
    ghost use Rattle.fcg_views.specs.declared.view.View as declared;
    ghost use Rattle.fcg_views.specs.NamesIn.{HasNames};

    ghost Value = { List declared.View };

    ghost view = { λ v. v.views.items };

    ghost invariant = { λ v. IfSome v.names (λ lists. AllZip HasNames v.views.items lists.items) };
}

// Adds the names of a view, where names are kept.
fn push_names(lists: &mut Option<Vec<NameList>>, names: NameList) -> Result<(), AllocError>
    ensures ok { (views : List View) (view : View) → IfSome lists.old (λ old. AllZip HasNames views old.items) → HasNames view names → OnOk result (IfSome lists.new (λ new. AllZip HasNames (views ++ view ∷ []) new.items)) }
    ensures err { (views : List View) → IfSome lists.old (λ old. AllZip HasNames views old.items) → OnErr result (IfSome lists.new (λ new. AllZip HasNames views new.items)) }
{
    if let Some(lists) = lists {
        lists.push(names)?;
    }
    Ok(())
}

impl Views {
    /// No view yet, and the names of those that are added.
    pub fn new(alloc: Global) -> Views
        ensures { result ≡ [] }
    {
        Views {
            views: Vec::new(alloc),
            names: Some(Vec::new(alloc)),
        }
    }

    /// Adds a view.
    pub fn push(&mut self, numbered: NumberedView) -> Result<(), AllocError>
        ensures { OnOk result (self.new ≡ self.old ++ numbered ∷ []) }
    {
        let NumberedView { view, names } = numbered;
        self.views.reserve(1)?;
        push_names(&mut self.names, names)?;
        self.views.push(view).unwrap();
        Ok(())
    }

    /// The views, as a slice.
    pub fn as_slice(&self) -> &[View]
        ensures { result.now ≡ self.now }
    {
        self.views.as_slice()
    }

    /// The names of each view, where they are kept.
    pub fn names(&self) -> Option<&[NameList]>
        ensures { IfSome result (λ lists. AllZip HasNames self.now lists.now) }
    {
        match &self.names {
            Some(names) => Some(names.as_slice()),
            None => None,
        }
    }

    /// The `Vec` of the views.
    pub fn into_vec(self) -> Vec<View>
        ensures { result.items ≡ self }
    {
        self.views
    }
}

impl From<Vec<View>> for Views {
    ghost from_gives = { λ items views. views ≡ items.items };

    fn from(items: Vec<View>) -> Views {
        Views {
            views: items,
            names: None,
        }
    }
}
