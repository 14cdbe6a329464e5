//! Members of a list that have a name: parameters, fields, cases and flags.

ghost use Rattle.std.specs.Prelude.{◌≡◌};
ghost use Rattle.wit_model.specs.Text.{Text, text_of};

use crate::{Case, EnumCase, Field, Flag, Param};

/// What has a name.
pub trait Named {
    ghost name_of: { Self → Text };

    /// The name, as it stands there.
    fn name(&self) -> &str
        ensures { result.now ≡ name_of self.now };
}

impl Named for Param {
    ghost name_of = { λ x. text_of x.name };

    fn name(&self) -> &str {
        self.name.as_str()
    }
}

impl Named for Field {
    ghost name_of = { λ x. text_of x.name };

    fn name(&self) -> &str {
        self.name.as_str()
    }
}

impl Named for Case {
    ghost name_of = { λ x. text_of x.name };

    fn name(&self) -> &str {
        self.name.as_str()
    }
}

impl Named for EnumCase {
    ghost name_of = { λ x. text_of x.name };

    fn name(&self) -> &str {
        self.name.as_str()
    }
}

impl Named for Flag {
    ghost name_of = { λ x. text_of x.name };

    fn name(&self) -> &str {
        self.name.as_str()
    }
}
