//! All objects of a text, and its class table.

ghost use Rattle.std.specs.Prelude.{◌≡◌, ◌++◌, ◌+◌, ◌*◌, ◌/◌, map, flat_map, length, IfOk, OnOk};
ghost use Rattle.cs_model.specs.Builder.{objects_in};
ghost use Rattle.cs_build.specs.Laid.{laid, laid_by};
ghost use Rattle.cs_build.specs.Meaning.{form_by};
ghost use Rattle.cs_build.specs.Readied.{AreReadied};
ghost use Rattle.cs_build.specs.Standing.{NumbersStand, forms_in};
ghost use Rattle.cs_build.specs.Wholes.{objects_made, table_made};

use crate::first::first_objects;
use crate::groups::{groups_of, put_dictionaries, put_symbols};
use crate::numbering::Numbering;
use crate::object::Object;
use crate::objects::put_form;
use crate::ready::{Ready, ready_of};
use std::alloc::{AllocError, Global};

/// Appends what the lines make.
fn put_forms(
    objects: &mut Vec<Object>,
    alloc: Global,
    numbering: &Numbering<'_, '_>,
    ready: &Ready<'_>,
) -> Result<(), AllocError>
    requires stands { NumbersStand numbering.now }
    requires ready { AreReadied (forms_in numbering.now) ready.now }
    ensures { OnOk result (map laid_by objects.new.items ≡ map laid_by objects.old.items
        ++ map laid (flat_map (objects_in (forms_in numbering.now)) (map form_by numbering.now.forms.now))) }
{
    for form in numbering.forms {
        put_form(objects, alloc, numbering, ready, form)?;
    }
    Ok(())
}

/// The objects of a text, in the order of the image.
pub(crate) fn objects_of(
    alloc: Global,
    numbering: &Numbering<'_, '_>,
) -> Result<Vec<Object>, AllocError>
    requires { NumbersStand numbering.now }
    ensures { IfOk result (λ objects. map laid_by objects.items ≡ map laid (objects_made (forms_in numbering.now))) }
{
    let ready = ready_of(alloc, numbering.forms)?;
    let groups = groups_of(alloc, numbering.forms)?;
    let mut objects = first_objects(alloc, numbering, &ready)?;
    put_forms(&mut objects, alloc, numbering, &ready)?;
    put_dictionaries(&mut objects, alloc, numbering, &groups)?;
    put_symbols(&mut objects, alloc, numbering)?;
    Ok(objects)
}
