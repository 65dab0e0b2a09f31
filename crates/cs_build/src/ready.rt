//! The processes of a text that are ready, in a list for each priority.

ghost use Rattle.std.specs.Prelude.{◌≡◌, ◌∷◌, ◌++◌, [], ℕ, List, length, map, option_map, IfOk, OnOk, ◌||◌};
ghost use Rattle.std.specs.List.{list_any};
ghost use Rattle.std.specs.Str.{bytes_eq};
ghost use Rattle.cs_model.specs.BuilderText as text;
ghost use Rattle.cs_model.specs.Builder.{has_priority, last_ready, natural as natural_in, ready_in};
ghost use Rattle.cs_build.specs.Meaning.{form_by};
ghost use Rattle.cs_build.specs.Numbered.{plain_names, mentioned};
ghost use Rattle.cs_build.specs.Readied.{AreReadied};
ghost use Rattle.cs_build.specs.Queued.{IsQueue, link_at, linked_behind, has_in, is_process_at, ready_at, ready_lists};

use crate::form::{Form, ProcessLine};
use crate::making::natural;
use crate::symbols::mention_symbol;
use indexmap::{IndexMap, IndexSet};
use std::alloc::{AllocError, Global};

/// A list of processes that are ready.
#[derive(Drop)]
pub(crate) struct Queue<'a> {
    /// The name of its first process.
    pub(crate) first: Option<&'a [u8]>,
    /// The name of its last process.
    pub(crate) last: Option<&'a [u8]>,
    /// What stands behind each process that it has had.
    links: IndexMap<&'a [u8], Option<&'a [u8]>>,
}

/// Links a process behind the last one, if there is one, and nothing behind itself.
fn link<'a>(
    links: &mut IndexMap<&'a [u8], Option<&'a [u8]>>,
    last: Option<&'a [u8]>,
    name: &'a [u8],
) -> Result<(), AllocError>
    ensures { OnOk result ((q : List ℕ) →
        link_at links.new q ≡ linked_behind (option_map (λ n. n.now) last.entry) name.now q (link_at links.old q)) }
{
    links.insert(name, None)?;
    if let Some(last) = last {
        links.insert(last, Some(name))?;
    }
    Ok(())
}

impl<'a> Queue<'a> {
    /// An empty list.
    fn new(alloc: Global) -> Queue<'a>
        ensures { IsQueue result [] }
    {
        Queue {
            first: None,
            last: None,
            links: IndexMap::new(alloc),
        }
    }

    /// Puts a process at the end.
    fn add(&mut self, name: &'a [u8]) -> Result<(), AllocError>
        ensures { OnOk result ((names : List (List ℕ)) → IsQueue self.old names → IsQueue self.new (name.now ∷ names)) }
    {
        link(&mut self.links, self.last, name)?;
        self.first = Some(self.first.unwrap_or(name));
        self.last = Some(name);
        Ok(())
    }

    /// What stands behind a process.
    pub(crate) fn behind(&self, name: &[u8]) -> Option<&'a [u8]>
        ensures { option_map (λ n. n.now) result ≡ link_at self.now.links name.now }
    {
        match self.links.get(name) {
            Some(next) => *next,
            None => None,
        }
    }
}

/// The processes of a text, by priority and name.
fn priorities_of<'a>(
    alloc: Global,
    forms: &[Form<'a>],
) -> Result<IndexSet<(u32, &'a [u8])>, AllocError>
    ensures { IfOk result (λ set. (priority : ℕ) (name : List ℕ) →
        has_in set priority name ≡ has_priority (map form_by forms.now) priority name) }
{
    let mut priorities = IndexSet::new(alloc);
    for form in forms {
        note_priority(&mut priorities, form)?;
    }
    Ok(priorities)
}

/// The priority of a process.
pub(crate) fn priority_in(line: &ProcessLine<'_>) -> u32
    ensures { result ≡ natural_in line.now.priority }
{
    natural(line.priority)
}

/// Takes up the priority of a line's process, if it has one.
fn note_priority<'a>(
    priorities: &mut IndexSet<(u32, &'a [u8])>,
    form: &Form<'a>,
) -> Result<(), AllocError>
    ensures { OnOk result ((priority : ℕ) (name : List ℕ) → has_in priorities.new priority name
        ≡ (is_process_at priority name (form_by form.now) || has_in priorities.old priority name)) }
{
    if let Form::Process(line) = form {
        priorities.insert((priority_in(line), line.name))?;
    }
    Ok(())
}

/// The processes that the lines of a text make ready, each once.
fn ready_names<'a>(alloc: Global, forms: &[Form<'a>]) -> Result<IndexSet<&'a [u8]>, AllocError>
    ensures { IfOk result (λ names. plain_names names.keys ≡ mentioned [] (ready_in (map form_by forms.now))) }
{
    let mut names = IndexSet::new(alloc);
    for form in forms {
        note_ready(&mut names, form)?;
    }
    Ok(names)
}

/// Takes up the process that a line makes ready, if it does.
#[tactic(auto, unfolding(crate::specs::Numbered::mentioned))]
fn note_ready<'a>(names: &mut IndexSet<&'a [u8]>, form: &Form<'a>) -> Result<(), AllocError>
    ensures { OnOk result (plain_names names.new.keys
        ≡ mentioned (plain_names names.old.keys) (ready_in (form_by form.now ∷ []))) }
{
    match form {
        Form::Ready(name) => mention_symbol(names, *name),
        _ => Ok(()),
    }
}

/// The list of a priority.
fn queue_of<'a>(
    alloc: Global,
    priorities: &IndexSet<(u32, &[u8])>,
    priority: u32,
    forms: &[Form<'a>],
) -> Result<Queue<'a>, AllocError>
    ensures { IfOk result (λ queue.
        IsQueue queue (ready_lists (has_in priorities.now priority) (map form_by forms.now))) }
{
    let mut queue = Queue::new(alloc);
    for form in forms {
        add_ready(&mut queue, priorities, priority, form)?;
    }
    Ok(queue)
}

/// Puts the process that a line makes ready at the end of the list of a priority, if it has that.
fn add_ready<'a>(
    queue: &mut Queue<'a>,
    priorities: &IndexSet<(u32, &[u8])>,
    priority: u32,
    form: &Form<'a>,
) -> Result<(), AllocError>
    ensures { OnOk result ((names : List (List ℕ)) → IsQueue queue.old names
        → IsQueue queue.new (ready_at (has_in priorities.now priority) (form_by form.now) ++ names)) }
{
    if let Form::Ready(name) = form {
        if priorities.contains(&(priority, *name)) {
            queue.add(*name)?;
        }
    }
    Ok(())
}

/// The processes of a text that are ready.
#[derive(Drop)]
pub(crate) struct Ready<'a> {
    /// The lists of the priorities from 1 on.
    pub(crate) queues: Vec<Queue<'a>>,
    /// All processes in them.
    pub(crate) names: IndexSet<&'a [u8]>,
}

/// The processes that the lines of a text make ready.
pub(crate) fn ready_of<'a>(alloc: Global, forms: &[Form<'a>]) -> Result<Ready<'a>, AllocError>
    ensures { IfOk result (AreReadied (map form_by forms.now)) }
{
    let priorities = priorities_of(alloc, forms)?;
    let mut queues = Vec::new(alloc);
    for priority in 1..9_u32 {
        let queue = queue_of(alloc, &priorities, priority, forms)?;
        queues.push(queue)?;
    }
    let names = ready_names(alloc, forms)?;
    Ok(Ready { queues, names })
}

impl<'a> Ready<'a> {
    /// Whether a process is in a list.
    pub(crate) fn has(&self, name: &[u8]) -> bool
        ensures { (forms : List text.Form) → AreReadied forms self.now
            → result ≡ list_any (bytes_eq name.now) (ready_in forms) }
    {
        self.names.contains(name)
    }
}
