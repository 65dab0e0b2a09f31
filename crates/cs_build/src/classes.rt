//! The classes of a text, by name and by place.

ghost use Rattle.std.specs.Prelude.{◌≡◌, ◌++◌, ◌+◌, ◌≤◌, ◌<◌, ◌^◌, List, ℕ, Option, find, flat_map, length, map};
ghost use Rattle.std.specs.Prelude.{option_map, position, IfOk, IfSome, OnOk};
ghost use Rattle.std.specs.Option.{option_or, option_map_or};
ghost use Rattle.std.specs.Str.{bytes_eq};
ghost use Rattle.cs_model.specs.BuilderFault.{class_lines_in};
ghost use Rattle.cs_model.specs.Builder.{index_at as index_of, natural as natural_in};
ghost use Rattle.cs_build.specs.Standing.{AreClasses, listed_place, listed_classes};
ghost use Rattle.cs_build.specs.Meaning.{form_by, class_by};
ghost use Rattle.cs_build.specs.Numbered.{name_number, noted, placed};
ghost use Rattle.cs_model.specs.BuilderText.{ClassLine as ClassOf};

use crate::form::{ClassLine, Form};
use crate::making::{index_at, natural};
use indexmap::IndexMap;
use std::alloc::{AllocError, Global};

/// The classes of a text, those that each text has included.
#[derive(Drop)]
pub(crate) struct Classes<'a> {
    /// Their lines, in the order of their objects.
    pub(crate) lines: Vec<ClassLine<'a>>,
    /// Their places among these lines, by name.
    places: IndexMap<&'a [u8], u32>,
}

/// Gives a name a number, where it has none.
pub(crate) fn note<'a>(
    numbers: &mut IndexMap<&'a [u8], u32>,
    name: &'a [u8],
    number: u32,
) -> Result<(), AllocError>
    ensures { OnOk result ((q : List ℕ) →
        name_number numbers.new q ≡ option_or (name_number numbers.old q) (noted name.now number q)) }
{
    if !numbers.contains_key(name) {
        numbers.insert(name, number)?;
    }
    Ok(())
}

/// The classes that the lines of a text say.
pub(crate) fn classes_of<'a>(alloc: Global, forms: &[Form<'a>]) -> Result<Classes<'a>, AllocError>
    requires { length forms.now < 2 ^ 30 }
    ensures lines { IfOk result (λ c. map class_by c.lines.items ≡ flat_map class_lines_in (map form_by forms.now)) }
    ensures few { IfOk result (λ c. length c.lines.items ≤ length forms.now) }
    ensures places { IfOk result (λ c. (name : List ℕ) → name_number c.places name
        ≡ position (λ line. bytes_eq line.name name) (flat_map class_lines_in (map form_by forms.now))) }
{
    let mut lines = Vec::new(alloc);
    let mut places = IndexMap::new(alloc);
    for form in forms {
        note_class(&mut lines, &mut places, form)?;
    }
    Ok(Classes { lines, places })
}

/// Takes up a line's class, if it says one.
fn note_class<'a>(
    lines: &mut Vec<ClassLine<'a>>,
    places: &mut IndexMap<&'a [u8], u32>,
    form: &Form<'a>,
) -> Result<(), AllocError>
    requires { length lines.old.items < 2 ^ 30 }
    ensures lines { OnOk result (map class_by lines.new.items
        ≡ map class_by lines.old.items ++ class_lines_in (form_by form.now)) }
    ensures places { OnOk result ((q : List ℕ) (rest : List ClassOf) →
        placed (name_number places.new q) (length lines.new.items) q rest
        ≡ placed (name_number places.old q) (length lines.old.items) q (class_lines_in (form_by form.now) ++ rest)) }
    ensures few { OnOk result (length lines.new.items ≤ length lines.old.items + 1) }
{
    if let Form::Class(line) = form {
        note(places, line.name, lines.len() as u32)?;
        lines.push(*line)?;
    }
    Ok(())
}

/// The format that a line gives the instances of its class.
fn format_in(line: &ClassLine<'_>) -> u32
    ensures { result ≡ natural_in line.now.format }
{
    natural(line.format)
}

impl<'a> Classes<'a> {
    /// The place of a class.
    pub(crate) fn place(&self, name: &[u8]) -> Option<u32>
        requires { AreClasses self.now }
        ensures { result ≡ listed_place self.now name.now }
    {
        self.places.get(name).copied()
    }

    /// The index of a class in the class table, or 0 where there is none.
    pub(crate) fn index(&self, name: &[u8]) -> u32
        requires { AreClasses self.now }
        ensures { result ≡ option_map_or index_of (listed_place self.now name.now) 0 }
    {
        match self.place(name) {
            Some(place) => index_at(place),
            None => 0,
        }
    }

    /// The format of the instances of a class, or 0 where there is none.
    pub(crate) fn format(&self, name: &[u8]) -> u32
        requires { AreClasses self.now }
        ensures { result ≡ option_map_or (λ line. natural_in line.format)
            (find (λ line. bytes_eq line.name name.now) (listed_classes self.now)) 0 }
    {
        match self.place(name) {
            Some(place) => format_in(&self.lines[place as usize]),
            None => 0,
        }
    }
}
