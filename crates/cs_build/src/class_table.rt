//! The class table of a text.

ghost use Rattle.std.specs.Prelude.{◌≡◌, fold, map, slice_set, unwrap_or, IfOk};
ghost use Rattle.cs_build.specs.Meaning.{class_by};
ghost use Rattle.cs_build.specs.Standing.{NumbersStand, forms_in};
ghost use Rattle.cs_build.specs.Wholes.{class_entered, table_made};

use crate::form::ClassLine;
use crate::image::PAGE_ENTRIES;
use crate::numbering::Numbering;
use std::alloc::{AllocError, Global};

/// How many more indices there are than classes: the classes that each text has leave 30 of those below 52 unused.
const UNUSED_INDICES: usize = 30;

/// The second index of SmallInteger.
const SECOND_INTEGER_INDEX: usize = 3;

/// Sets the entry at an index, if it is there, to the number of a class, or 0 where there is none.
fn set_entry(table: &mut Vec<u32>, index: usize, number: Option<u32>)
    ensures { table.new.items ≡ slice_set table.old.items index (unwrap_or number 0) }
{
    if index < table.len() {
        table[index] = number.unwrap_or(0);
    }
}

/// Enters a class.
fn enter_class(table: &mut Vec<u32>, numbering: &Numbering<'_, '_>, line: &ClassLine<'_>)
    requires { NumbersStand numbering.now }
    ensures { table.new.items ≡ class_entered (forms_in numbering.now) table.old.items (class_by line.now) }
{
    let index = numbering.class_index(line.name) as usize;
    set_entry(table, index, numbering.named(line.name));
}

/// Enters classes.
fn enter_classes(table: &mut Vec<u32>, numbering: &Numbering<'_, '_>, lines: &[ClassLine<'_>])
    requires { NumbersStand numbering.now }
    ensures { table.new.items
        ≡ fold (class_entered (forms_in numbering.now)) table.old.items (map class_by lines.now) }
{
    for line in lines {
        enter_class(table, numbering, line);
    }
}

/// The numbers of the classes of a text by their indices, and 0 where an index has none. It has whole pages.
pub(crate) fn class_table(
    alloc: Global,
    numbering: &Numbering<'_, '_>,
) -> Result<Vec<u32>, AllocError>
    requires { NumbersStand numbering.now }
    ensures { IfOk result (λ table. table.items ≡ table_made (forms_in numbering.now)) }
{
    let lines = &numbering.classes.lines;
    let pages = (lines.len() + UNUSED_INDICES).div_ceil(PAGE_ENTRIES);
    let mut table = vec![in alloc; 0u32; PAGE_ENTRIES * pages]?;
    enter_classes(&mut table, numbering, lines);
    set_entry(
        &mut table,
        SECOND_INTEGER_INDEX,
        numbering.named(b"SmallInteger"),
    );
    Ok(table)
}
