//! Which message or enum a word for a type means.
ghost use Rattle.std.specs.Prelude.{◌≡◌, IfOk, length, codes, option_copied, option_map};
ghost use Rattle.std.specs.Option.{option_and_then};
ghost use Rattle.std.specs.String.{string_bytes};
ghost use Rattle.sz_protofile.specs.Names.{put_after};
ghost use Rattle.sz_protofile_names.specs.Hashes.{AreHashed};
ghost use Rattle.sz_protofile.specs.Lookup.{found, found_around, found_outwards, from_the_dot, in_package, looked_up};

use crate::hashes::Hashes;
use crate::known::Known;
use crate::names::Names;
use crate::scopes::Open;
use crate::words::{behind, put_after};
use std::alloc::Global;
use sz_types::NoMemory;

// The name, if it is among these.
fn found(names: &Names, name: String) -> Option<String>
    ensures value { option_map string_bytes result ≡ found names.now (string_bytes name) }
{
    if names.has(name.as_str()) {
        Some(name)
    } else {
        None
    }
}

// What is left of a word, if anything is and it is among these names.
fn found_part(alloc: Global, names: &Names, part: Option<&str>) -> Result<Option<String>, NoMemory>
    ensures value { IfOk result (λ name. option_map string_bytes name ≡ option_and_then (found names.now) (option_copied part.entry)) }
{
    match part {
        Some(name) => Ok(found(names, String::from_str(alloc, name)?)),
        None => Ok(None),
    }
}

// What a word means in this message. Only where there may be such a name is it written out.
fn found_inside(
    alloc: Global,
    names: &Names,
    hashes: &Hashes,
    message: &Open,
    word: &str,
) -> Result<Option<String>, NoMemory>
    requires hashed { AreHashed names.now hashes.now.keys }
    ensures value { IfOk result (λ name. option_map string_bytes name ≡ found names.now (put_after (codes ".") message.now.full word.now)) }
{
    let hash = message.hash_inside(word);
    if hashes.contains(&hash) {
        Ok(found(names, put_after(alloc, ".", message.full(), word)?))
    } else {
        Ok(None)
    }
}

// What a word means in one of the messages that are open, the innermost first.
fn found_around(
    alloc: Global,
    names: &Names,
    hashes: &Hashes,
    around: &[Open],
    word: &str,
) -> Result<Option<String>, NoMemory>
    requires hashed { AreHashed names.now hashes.now.keys }
    ensures value { IfOk result (λ name. option_map string_bytes name ≡ found_around names.now around.now word.now (length around.now)) }
{
    let mut left = around.len();
    while left > 0 {
        left -= 1;
        if let Some(name) = found_inside(alloc, names, hashes, &around[left], word)? {
            return Ok(Some(name));
        }
    }
    Ok(None)
}

impl Known {
    // What is left of a word behind the package and a dot.
    fn in_package<'t>(&self, word: &'t str) -> Option<&'t str>
        ensures value { option_copied result ≡ in_package self.now.package_name word.now }
    {
        match &self.package_name {
            Some(name) => behind(".", behind(name.as_str(), word)?),
            None => None,
        }
    }

    // The full name that what follows a dot means.
    fn from_the_dot<'t>(&self, word: &'t str) -> Option<&'t str>
        ensures value { option_copied result ≡ from_the_dot self.now.package_name word.now }
    {
        match &self.package_name {
            Some(_) => self.in_package(word),
            None => Some(word),
        }
    }

    // What a word means that follows no dot.
    fn found_outwards(
        &self,
        alloc: Global,
        around: &[Open],
        word: &str,
    ) -> Result<Option<String>, NoMemory>
        ensures value { IfOk result (λ name. option_map string_bytes name ≡ found_outwards self.now around.now word.now) }
    {
        if let Some(name) = found_around(alloc, &self.names, &self.hashes, around, word)? {
            return Ok(Some(name));
        }
        if let Some(name) = found(&self.names, String::from_str(alloc, word)?) {
            return Ok(Some(name));
        }
        found_part(alloc, &self.names, self.in_package(word))
    }

    /// The full name of the message or enum that a word means, if there is one.
    pub fn looked_up(
        &self,
        alloc: Global,
        around: &[Open],
        word: &str,
    ) -> Result<Option<String>, NoMemory>
        ensures value { IfOk result (λ name. option_map string_bytes name ≡ looked_up self.now around.now word.now) }
    {
        match behind(".", word) {
            Some(rest) => found_part(alloc, &self.names, self.from_the_dot(rest)),
            None => self.found_outwards(alloc, around, word),
        }
    }
}
