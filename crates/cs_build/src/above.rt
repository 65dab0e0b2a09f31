//! Lines with their tables.

ghost use Rattle.std.specs.Prelude.{◌≡◌, ◌≤◌, is_some, length, option_map};
ghost use Rattle.std.specs.List.{list_any};
ghost use Rattle.cs_model.specs.BuilderFault.{class_named, is_class_name, is_label, is_process_name, is_taken};
ghost use Rattle.cs_model.specs.BuilderFault.{label_place, method_named};
ghost use Rattle.cs_build.specs.Lines.{forms_by};
ghost use Rattle.cs_build.specs.Meaning.{class_by};
ghost use Rattle.cs_build.specs.Tabled.{IsAbove, above_by, body_by};

use crate::form::ClassLine;
use crate::lines::Line;
use crate::tables::{Named, Tables};

/// The lines above a line, with their tables.
#[derive(Clone, Copy)]
pub(crate) struct Above<'t, 'a> {
    /// Their tables.
    pub(crate) tables: &'t Tables<'a>,
    /// The lines.
    pub(crate) lines: &'t [Line<'a>],
}

impl<'t, 'a> Above<'t, 'a> {
    /// Whether a class, an object or a process has a name.
    pub(crate) fn is_taken(&self, name: &'a [u8]) -> bool
        requires { IsAbove self.now }
        ensures { result ≡ is_taken (above_by self.now) name.now }
    {
        self.tables.names.get(name).is_some()
    }

    /// The class of a name.
    pub(crate) fn class_named(&self, name: &'a [u8]) -> Option<ClassLine<'a>>
        requires { IsAbove self.now }
        ensures { option_map class_by result ≡ class_named (above_by self.now) name.now }
    {
        match self.tables.names.get(name) {
            Some(Named::Class(line)) => Some(*line),
            _ => None,
        }
    }

    /// Whether a class has a name.
    pub(crate) fn is_class(&self, name: &'a [u8]) -> bool
        requires { IsAbove self.now }
        ensures { result ≡ is_class_name (above_by self.now) name.now }
    {
        self.class_named(name).is_some()
    }

    /// Whether a process has a name.
    pub(crate) fn is_process(&self, name: &'a [u8]) -> bool
        requires { IsAbove self.now }
        ensures { result ≡ is_process_name (above_by self.now) name.now }
    {
        match self.tables.names.get(name) {
            Some(Named::Process) => true,
            _ => false,
        }
    }

    /// How many arguments the method of a class and a selector takes.
    pub(crate) fn arguments_of(&self, class: &'a [u8], selector: &'a [u8]) -> Option<i32>
        requires { IsAbove self.now }
        ensures { result ≡ option_map (λ m. m.arguments) (method_named (above_by self.now) class.now selector.now) }
    {
        self.tables.methods.get(&(class, selector)).copied()
    }

    /// Whether there is a method of a class and a selector.
    pub(crate) fn is_method(&self, class: &'a [u8], selector: &'a [u8]) -> bool
        requires { IsAbove self.now }
        ensures { result ≡ is_some (method_named (above_by self.now) class.now selector.now) }
    {
        self.arguments_of(class, selector).is_some()
    }

    /// Where a label of the open body stands, in bytes of code.
    pub(crate) fn place_of(&self, label: &'a [u8]) -> Option<u32>
        requires { IsAbove self.now }
        ensures { result ≡ label_place (body_by self.now) label.now }
    {
        self.tables.body.labels.get(label).copied()
    }

    /// Whether the open body has a label.
    pub(crate) fn is_label(&self, label: &'a [u8]) -> bool
        requires { IsAbove self.now }
        ensures { result ≡ list_any (is_label label.now) (body_by self.now) }
    {
        self.place_of(label).is_some()
    }

    /// The lines behind the last line that begins a method, or all lines where none does.
    pub(crate) fn body(&self) -> &'t [Line<'a>]
        requires { IsAbove self.now }
        ensures forms { forms_by result.now ≡ body_by self.now }
        ensures few { length result.now ≤ 262144 }
    {
        &self.lines[self.tables.body.start..]
    }
}
