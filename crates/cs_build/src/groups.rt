//! The methods of each class.

ghost use Rattle.std.specs.Prelude.{◌≡◌, ◌∷◌, ◌++◌, ◌^◌, ◌<◌, [], None, cond, List, ℕ, length, map, IfOk, OnOk};
ghost use Rattle.std.specs.Str.{bytes_eq};
ghost use Rattle.cs_model.specs.BuilderText.{Form as FormOf};
ghost use Rattle.cs_model.specs.Builder.{dictionary_objects, methods_of};
ghost use Rattle.cs_build.specs.Grouped.{AreGroups, all_dictionaries, dictionary_pair, group_at, symbol_objects};
ghost use Rattle.cs_build.specs.Laid.{laid, laid_by};
ghost use Rattle.cs_build.specs.Meaning.{class_by, form_by, method_line_by};
ghost use Rattle.cs_build.specs.Numbered.{name_number};
ghost use Rattle.cs_build.specs.Standing.{NumbersStand, forms_in};

use crate::form::{ClassLine, Form, MethodLine};
use crate::making::raw_object;
use crate::numbering::Numbering;
use crate::object::Object;
use crate::objects::{dictionary_object, values_object};
use indexmap::IndexMap;
use std::alloc::{AllocError, Global};

/// The methods of each class, in the order of the text.
pub(crate) type Groups<'a> = IndexMap<&'a [u8], Vec<MethodLine<'a>>>;

/// Takes the methods of a class out, of which there may be none.
fn take_group<'a>(alloc: Global, groups: &mut Groups<'a>, class: &[u8]) -> Vec<MethodLine<'a>>
    ensures group { map method_line_by result.items ≡ group_at groups.old class.now }
    ensures rest { (q : List ℕ) → name_number groups.new q
        ≡ cond (bytes_eq class.now q) None (name_number groups.old q) }
{
    match groups.swap_remove(class) {
        Some(group) => group,
        None => Vec::new(alloc),
    }
}

/// Puts a method behind the others of its class.
fn put_in_group<'a>(
    alloc: Global,
    groups: &mut Groups<'a>,
    line: &MethodLine<'a>,
) -> Result<(), AllocError>
    ensures { OnOk result ((q : List ℕ) → group_at groups.new q
        ≡ group_at groups.old q ++ cond (bytes_eq line.now.class.now q) (method_line_by line.now ∷ []) []) }
{
    let mut group = take_group(alloc, groups, line.class);
    group.push(*line)?;
    groups.insert(line.class, group)?;
    Ok(())
}

/// Takes up a line's method, if it begins one.
fn note_method<'a>(
    alloc: Global,
    groups: &mut Groups<'a>,
    form: &Form<'a>,
) -> Result<(), AllocError>
    ensures { OnOk result ((q : List ℕ) → group_at groups.new q
        ≡ group_at groups.old q ++ methods_of (form_by form.now ∷ []) q) }
{
    match form {
        Form::Method(line) => put_in_group(alloc, groups, line),
        _ => Ok(()),
    }
}

/// The methods of each class, in the order of the text.
pub(crate) fn groups_of<'a>(alloc: Global, forms: &[Form<'a>]) -> Result<Groups<'a>, AllocError>
    ensures { IfOk result (λ groups. AreGroups groups (map form_by forms.now)) }
{
    let mut groups = IndexMap::new(alloc);
    for form in forms {
        note_method(alloc, &mut groups, form)?;
    }
    Ok(groups)
}

/// Appends the method dictionary of the class at a place, and the array of its methods.
fn put_dictionary(
    objects: &mut Vec<Object>,
    alloc: Global,
    numbering: &Numbering<'_, '_>,
    place: u32,
    methods: &[MethodLine<'_>],
) -> Result<(), AllocError>
    requires stands { NumbersStand numbering.now }
    requires place { place < 2 ^ 28 }
    requires few { length methods.now < 2 ^ 28 }
    ensures { OnOk result (map laid_by objects.new.items ≡ map laid_by objects.old.items
        ++ map laid (dictionary_pair (forms_in numbering.now) place (map method_line_by methods.now))) }
{
    let dictionary = dictionary_object(alloc, numbering, place, methods)?;
    objects.push(dictionary)?;
    let values = values_object(alloc, numbering, methods)?;
    objects.push(values)?;
    Ok(())
}

/// Appends the method dictionary of the class of a line at a place, and the array of its methods.
fn put_class_dictionary(
    objects: &mut Vec<Object>,
    alloc: Global,
    numbering: &Numbering<'_, '_>,
    groups: &Groups<'_>,
    place: u32,
    line: &ClassLine<'_>,
) -> Result<(), AllocError>
    requires stands { NumbersStand numbering.now }
    requires groups { AreGroups groups.now (forms_in numbering.now) }
    requires place { place < 2 ^ 28 }
    ensures { OnOk result (map laid_by objects.new.items ≡ map laid_by objects.old.items
        ++ map laid (dictionary_objects (forms_in numbering.now) place (class_by line.now))) }
{
    match groups.get(line.name) {
        Some(methods) => put_dictionary(objects, alloc, numbering, place, methods),
        None => put_dictionary(objects, alloc, numbering, place, &[]),
    }
}

/// Appends the method dictionaries of all classes, each with the array of its methods behind it.
pub(crate) fn put_dictionaries(
    objects: &mut Vec<Object>,
    alloc: Global,
    numbering: &Numbering<'_, '_>,
    groups: &Groups<'_>,
) -> Result<(), AllocError>
    requires stands { NumbersStand numbering.now }
    requires groups { AreGroups groups.now (forms_in numbering.now) }
    ensures { OnOk result (map laid_by objects.new.items ≡ map laid_by objects.old.items
        ++ map laid (all_dictionaries (forms_in numbering.now))) }
{
    let lines = &numbering.classes.lines;
    for place in 0..lines.len() {
        put_class_dictionary(
            objects,
            alloc,
            numbering,
            groups,
            place as u32,
            &lines[place],
        )?;
    }
    Ok(())
}

/// Appends the symbols.
pub(crate) fn put_symbols(
    objects: &mut Vec<Object>,
    alloc: Global,
    numbering: &Numbering<'_, '_>,
) -> Result<(), AllocError>
    requires { NumbersStand numbering.now }
    ensures { OnOk result (map laid_by objects.new.items ≡ map laid_by objects.old.items
        ++ map laid (symbol_objects (forms_in numbering.now))) }
{
    for name in numbering.symbols.as_slice() {
        let symbol = raw_object(alloc, 41, name)?;
        objects.push(symbol)?;
    }
    Ok(())
}
