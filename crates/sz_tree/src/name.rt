//! Names.
ghost use Rattle.std.specs.Prelude.{◌≡◌};

use std::marker::Model;
use sz_types::{Place, Text};

/// A name where it stands in a program: its place and its letters, digits and `_`.
#[derive(Debug)]
pub struct Name {
    place: Place,
    text: Text,
}

impl Drop for Name {
    fn drop(self) {
        let Name { place: _, text: _ } = self;
    }
}

impl Model for Name {
    ghost use Rattle.sz_tree.specs.Names.{Ident};

    ghost Value = { Ident };

    ghost view = { λ n. record { place = n.place; text = n.text } };
}

impl Name {
    /// The name with this text at this place.
    pub fn new(place: Place, text: Text) -> Name
        ensures value { result ≡ record { place = place; text = text } }
    {
        Name { place, text }
    }

    /// The place of its first byte.
    pub fn place(&self) -> Place
        ensures value { result ≡ self.now.place }
    {
        self.place
    }

    /// Its text.
    pub fn text(&self) -> &Text
        ensures value { result.now ≡ self.now.text }
    {
        &self.text
    }
}
