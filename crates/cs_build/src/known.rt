//! The classes that stand above every text.

ghost use Rattle.std.specs.Prelude.{◌≡◌, map, pos, IfOk};
ghost use Rattle.cs_model.specs.BuilderText.{Class};
ghost use Rattle.cs_model.specs.BuilderFault.{known_classes, kind_of_object};
ghost use Rattle.cs_model.specs.Builder.{all_forms};
ghost use Rattle.cs_build.specs.Meaning.{form_by};

use crate::form::{ClassLine, Form};
use std::alloc::{AllocError, Global};

/// A class whose superclass is Object.
fn kind_of<'a>(name: &'static str, format: i32, fields: i32) -> Form<'a>
    ensures { form_by result ≡ Class (record (kind_of_object name.now 0 0) { format = format; fields = fields }) }
{
    Form::Class(ClassLine {
        name: name.as_bytes(),
        superclass: Some(b"Object"),
        format,
        fields,
    })
}

/// The lines of these classes, in the order of their objects.
fn known_forms<'a>(alloc: Global) -> Result<Vec<Form<'a>>, AllocError>
    ensures { IfOk result (λ forms. map form_by forms.items ≡ map (λ c. Class c) known_classes) }
{
    let object = Form::Class(ClassLine {
        name: b"Object",
        superclass: None,
        format: 0,
        fields: 0,
    });
    let symbol = Form::Class(ClassLine {
        name: b"Symbol",
        superclass: Some(b"ByteString"),
        format: 16,
        fields: 0,
    });
    let forms = Vec::from_array(
        alloc,
        [
            object,
            kind_of("Class", 1, 4),
            kind_of("UndefinedObject", 0, 0),
            kind_of("False", 0, 0),
            kind_of("Context", 3, 6),
            kind_of("BlockClosure", 3, 3),
            kind_of("True", 0, 0),
            kind_of("SmallInteger", 7, 0),
            kind_of("Character", 7, 0),
            kind_of("Array", 2, 0),
            kind_of("ByteString", 16, 0),
            symbol,
            kind_of("ByteArray", 16, 0),
            kind_of("CompiledMethod", 24, 0),
            kind_of("Message", 1, 3),
            kind_of("Process", 1, 4),
            kind_of("Semaphore", 1, 3),
            kind_of("LinkedList", 1, 2),
            kind_of("ProcessorScheduler", 1, 2),
            kind_of("Association", 1, 2),
            kind_of("MethodDictionary", 3, 2),
            kind_of("Point", 1, 2),
        ],
    )?;
    Ok(forms)
}

/// The lines of a text with those of these classes in front.
pub(crate) fn with_known<'a>(
    alloc: Global,
    mut forms: Vec<Form<'a>>,
) -> Result<Vec<Form<'a>>, AllocError>
    ensures { IfOk result (λ all. map form_by all.items ≡ all_forms (map form_by forms.entry.items)) }
{
    let mut all = known_forms(alloc)?;
    all.append(&mut forms)?;
    Ok(all)
}
