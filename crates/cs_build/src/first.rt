//! The objects in front of the classes: nil, false, true, the special objects, the special selectors, and the scheduler
//! with its lists.

ghost use Rattle.std.specs.Prelude.{◌≡◌, ◌∷◌, ◌++◌, [], ℕ, List, pos, map, filter_map, flat_map, fold, option_map};
ghost use Rattle.std.specs.Prelude.{slice_set, IfOk, OnOk};
ghost use Rattle.cs_model.specs.Ref.{Small};
ghost use Rattle.cs_model.specs.Text.{first_that};
ghost use Rattle.cs_model.specs.Builder.{active_name as active_name_of, active_ref, last_ready, list_object};
ghost use Rattle.cs_model.specs.Builder.{special_given, symbol_ref, with_special};
ghost use Rattle.cs_build.specs.Laid.{laid, laid_by, reference_by};
ghost use Rattle.cs_build.specs.Meaning.{form_by};
ghost use Rattle.cs_build.specs.Firsts.{all_lists, first_made, heads_made, known_specials, lists_made};
ghost use Rattle.cs_build.specs.Firsts.{selector_array_of};
ghost use Rattle.cs_build.specs.Firsts.{special_array_of, symbol_specials};
ghost use Rattle.cs_build.specs.Queued.{IsQueue};
ghost use Rattle.cs_build.specs.Readied.{AreReadied};
ghost use Rattle.cs_build.specs.Standing.{NumbersStand, forms_in};

use crate::form::Form;
use crate::making::{NIL, natural, object_or_nil, pointers};
use crate::numbering::Numbering;
use crate::object::{Object, Reference};
use crate::objects::process_or_nil;
use crate::ready::{Queue, Ready};
use crate::symbols::{selectors, special_names};
use std::alloc::{AllocError, Global};

/// The name of the active process that a line says, if it says one.
fn active_in<'a>(form: &Form<'a>) -> Option<&'a [u8]>
    ensures { option_map (λ n. n.now) result ≡ active_name_of (form_by form.now) }
{
    match form {
        Form::Active(name) => Some(*name),
        _ => None,
    }
}

/// The name of the active process, if there is one.
fn active_name<'a>(forms: &[Form<'a>]) -> Option<&'a [u8]>
    ensures { option_map (λ n. n.now) result ≡ first_that (filter_map active_name_of (map form_by forms.now)) }
{
    for form in forms {
        if let Some(name) = active_in(form) {
            return Some(name);
        }
    }
    None
}

/// The active process.
fn active(numbering: &Numbering<'_, '_>) -> Reference
    requires { NumbersStand numbering.now }
    ensures { reference_by result ≡ active_ref (forms_in numbering.now) }
{
    process_or_nil(numbering, active_name(numbering.forms))
}

/// Sets a slot, if it is there.
fn set_slot(slots: &mut [Reference], place: usize, value: Reference)
    ensures { map reference_by slots.new ≡ slice_set (map reference_by slots.old) place (reference_by value) }
{
    if place < slots.len() {
        slots[place] = value;
    }
}

/// Sets the special objects that are objects and classes of the image whatever the text says: the scheduler, the
/// special selectors, and the classes.
fn set_known(slots: &mut [Reference], numbering: &Numbering<'_, '_>)
    requires { NumbersStand numbering.now }
    ensures { map reference_by slots.new
        ≡ fold with_special (map reference_by slots.old) (known_specials (forms_in numbering.now)) }
{
    set_slot(slots, 3, Reference::Object(5));
    set_slot(slots, 23, Reference::Object(4));
    set_slot(slots, 7, object_or_nil(numbering.named(b"Array")));
    set_slot(slots, 12, object_or_nil(numbering.named(b"Point")));
    set_slot(slots, 15, object_or_nil(numbering.named(b"Message")));
    set_slot(slots, 18, object_or_nil(numbering.named(b"Semaphore")));
}

/// Sets the special objects that are symbols.
fn set_symbols(slots: &mut [Reference], numbering: &Numbering<'_, '_>)
    requires { NumbersStand numbering.now }
    ensures { map reference_by slots.new
        ≡ fold with_special (map reference_by slots.old) (symbol_specials (forms_in numbering.now)) }
{
    for special in &special_names() {
        set_slot(slots, special.0, numbering.symbol(special.1.as_bytes()));
    }
}

/// Sets the special object that a line says, if it says one.
fn set_given(slots: &mut [Reference], numbering: &Numbering<'_, '_>, form: &Form<'_>)
    requires { NumbersStand numbering.now }
    ensures { map reference_by slots.new
        ≡ fold with_special (map reference_by slots.old) (special_given (forms_in numbering.now) (form_by form.now)) }
{
    match form {
        Form::Special { place, value } => {
            set_slot(slots, natural(*place) as usize, numbering.reference(value));
        }
        _ => {}
    }
}

/// Sets the special objects that the text says. The last line counts most.
fn set_all_given(slots: &mut [Reference], numbering: &Numbering<'_, '_>)
    requires { NumbersStand numbering.now }
    ensures { map reference_by slots.new ≡ fold with_special (map reference_by slots.old)
        (flat_map (special_given (forms_in numbering.now)) (map form_by numbering.now.forms.now)) }
{
    for form in numbering.forms {
        set_given(slots, numbering, form);
    }
}

/// The array of special objects.
fn special_array(alloc: Global, numbering: &Numbering<'_, '_>) -> Result<Object, AllocError>
    requires { NumbersStand numbering.now }
    ensures { IfOk result (λ o. laid_by o ≡ laid (special_array_of (forms_in numbering.now))) }
{
    let mut slots = [NIL; 51];
    set_known(&mut slots, numbering);
    set_symbols(&mut slots, numbering);
    set_all_given(&mut slots, numbering);
    let object = pointers(alloc, 39, 2, &slots)?;
    Ok(object)
}

/// Appends a special selector and the number of its arguments.
fn put_selector(
    slots: &mut Vec<Reference>,
    numbering: &Numbering<'_, '_>,
    selector: &(&'static str, i32),
) -> Result<(), AllocError>
    requires { NumbersStand numbering.now }
    ensures { OnOk result (map reference_by slots.new.items ≡ map reference_by slots.old.items
        ++ (symbol_ref (forms_in numbering.now) selector.now.0.now ∷ Small selector.now.1 ∷ [])) }
{
    let symbol = numbering.symbol(selector.0.as_bytes());
    slots.extend_from_slice(&[symbol, Reference::Small(selector.1)])
}

/// The array of the special selectors, each with its number of arguments.
fn selector_array(alloc: Global, numbering: &Numbering<'_, '_>) -> Result<Object, AllocError>
    requires { NumbersStand numbering.now }
    ensures { IfOk result (λ o. laid_by o ≡ laid (selector_array_of (forms_in numbering.now))) }
{
    let mut slots = Vec::new(alloc);
    for selector in &selectors() {
        put_selector(&mut slots, numbering, selector)?;
    }
    let object = pointers(alloc, 39, 2, &slots)?;
    Ok(object)
}

/// The array of the scheduler's lists.
fn lists(alloc: Global) -> Result<Object, AllocError>
    ensures { IfOk result (λ o. laid_by o ≡ laid lists_made) }
{
    let slots = [
        Reference::Object(8),
        Reference::Object(9),
        Reference::Object(10),
        Reference::Object(11),
        Reference::Object(12),
        Reference::Object(13),
        Reference::Object(14),
        Reference::Object(15),
    ];
    pointers(alloc, 39, 2, &slots)
}

/// A list of processes.
fn list(
    alloc: Global,
    numbering: &Numbering<'_, '_>,
    queue: &Queue<'_>,
) -> Result<Object, AllocError>
    requires { NumbersStand numbering.now }
    ensures { IfOk result (λ o. (priority : ℕ) → IsQueue queue.now (last_ready (forms_in numbering.now) priority)
        → laid_by o ≡ laid (list_object (forms_in numbering.now) priority)) }
{
    let slots = [
        process_or_nil(numbering, queue.first),
        process_or_nil(numbering, queue.last),
    ];
    let object = pointers(alloc, 47, 1, &slots)?;
    Ok(object)
}

/// Appends the lists of all priorities.
fn put_lists(
    objects: &mut Vec<Object>,
    alloc: Global,
    numbering: &Numbering<'_, '_>,
    ready: &Ready<'_>,
) -> Result<(), AllocError>
    requires stands { NumbersStand numbering.now }
    requires ready { AreReadied (forms_in numbering.now) ready.now }
    ensures { OnOk result (map laid_by objects.new.items ≡ map laid_by objects.old.items
        ++ map laid (all_lists (forms_in numbering.now))) }
{
    let queues = &ready.queues;
    for k in 0..queues.len() {
        let object = list(alloc, numbering, &queues[k])?;
        objects.push(object)?;
    }
    Ok(())
}

/// The objects in front of the lists.
fn heads(alloc: Global, numbering: &Numbering<'_, '_>) -> Result<Vec<Object>, AllocError>
    requires { NumbersStand numbering.now }
    ensures { IfOk result (λ objects. map laid_by objects.items ≡ map laid (heads_made (forms_in numbering.now))) }
{
    let nil = pointers(alloc, 34, 0, &[])?;
    let no = pointers(alloc, 35, 0, &[])?;
    let yes = pointers(alloc, 38, 0, &[])?;
    let specials = special_array(alloc, numbering)?;
    let selectors = selector_array(alloc, numbering)?;
    let association = pointers(alloc, 49, 1, &[NIL, Reference::Object(6)])?;
    let scheduler = pointers(alloc, 48, 1, &[Reference::Object(7), active(numbering)])?;
    let lists = lists(alloc)?;
    let heads = [
        nil,
        no,
        yes,
        specials,
        selectors,
        association,
        scheduler,
        lists,
    ];
    let objects = Vec::from_array(alloc, heads)?;
    Ok(objects)
}

/// The objects in front of the classes.
pub(crate) fn first_objects(
    alloc: Global,
    numbering: &Numbering<'_, '_>,
    ready: &Ready<'_>,
) -> Result<Vec<Object>, AllocError>
    requires stands { NumbersStand numbering.now }
    requires ready { AreReadied (forms_in numbering.now) ready.now }
    ensures { IfOk result (λ objects. map laid_by objects.items ≡ map laid (first_made (forms_in numbering.now))) }
{
    let mut objects = heads(alloc, numbering)?;
    put_lists(&mut objects, alloc, numbering, ready)?;
    Ok(objects)
}
