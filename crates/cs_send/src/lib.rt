//! Sends, over any world.
//!
//! The class of the receiver, or the superclass of a class that is given, begins the lookup of a method; its number of
//! arguments must be that of the send; and its primitive is tried before it is entered (Blue Book, part four).
#![tactic(auto)]

ghost use Rattle.std.specs.Prelude.{◌≡◌, ◌<◌, ◌≤◌, IfErr, IfOk, IfSome, OnOk, option_map, true};
ghost use Rattle.cs_model.specs.Lookup.{lookup};
ghost use Rattle.cs_model.specs.Read.{depth_of};
ghost use Rattle.cs_model.specs.Send.{begins_at, enter_out};
ghost use Rattle.cs_acts.specs.Names.{IsNamed, NamesOption, name_of};
ghost use Rattle.cs_acts.specs.Reading.{IsMethodNamed};
ghost use Rattle.cs_acts.specs.Ready.{IsReady, IsSound};
ghost use Rattle.cs_acts.specs.Targets.{CanEnter};
ghost use Rattle.cs_lookup.specs.Found.{sought_of};
ghost use Rattle.cs_send.specs.Resolved.{FindsMethodNamed, LooksUpMethod, resolve_method, resolve_of, resolved_by};
ghost use Rattle.cs_send.specs.Sent.{Enters, Finds, RefusesSend, Sends, Still, lookup_counted, looks_up, message_of};

use cs_acts::answer::receiver;
use cs_acts::method::{argument_count, primitive};
use cs_acts::read::{class_of, slot};
use cs_acts::{Full, World};
use cs_lookup::find;
use cs_model::Stop;
use cs_word::Oop;
use std::alloc::{AllocError, Global};
use std::marker::Model;

/// What a send leads to.
#[derive(Clone, Copy, Debug, PartialEq, Eq)]
pub enum SendEnd {
    /// A method was entered: a new context is active.
    Entered,
    /// The primitive of this number is to be tried. Where it fails, the method is entered behind it.
    Primitive { method: Oop, number: u32 },
    /// The step stops.
    Stop(Stop),
    /// The world has no room for the context.
    Full(Full),
}

/// Sends messages, and counts the methods that are looked up.
#[derive(Drop)]
pub struct Sender {
    full_finds: u64,
}

impl Model for Sender {
    ghost use Rattle.cs_send.specs.Sent.{Finds};

    ghost Value = { Finds };

    ghost view = { λ s. record { full = s.full_finds } };
}

/// What a send finds.
#[derive(Clone, Copy, Debug, PartialEq, Eq)]
enum Found {
    /// A method whose primitive of this number is to be tried first.
    Primitive { method: Oop, number: u32 },
    /// A method that is to be entered, since it has no primitive.
    Plain { method: Oop },
    /// No method: the receiver doesn't understand the message.
    Missing,
    /// The step stops.
    Stop(Stop),
}

impl Sender {
    /// Makes a sender that has looked up nothing. An error comes only where memory is refused.
    pub fn new(_alloc: Global) -> Result<Sender, AllocError>
        ensures { IfOk result (λ s. s ≡ record { full = 0 }) }
    {
        Ok(Sender { full_finds: 0 })
    }

    /// How many methods were looked up; the count stands still at its greatest number.
    pub fn full_finds(&self) -> u64
        ensures { result ≡ self.now.full }
    {
        self.full_finds
    }

    /// Sends a selector to the receiver below `args` arguments: a method that has no primitive is entered, and one that
    /// has is offered to be tried first.
    ///
    /// The lookup begins at the receiver's class, or at the superclass of `above`, if that is given: a class in whose
    /// method the message is sent to super. The causes to stop, in this order: StackUnder where the stack hasn't a
    /// receiver below so many arguments; NotBuilt where nothing is found, or there is no class to begin at; ClassLoop
    /// where the lookup goes through more classes than it may; and BadArgs where the method takes another number of
    /// arguments, whether it has a primitive or not. `Full` comes only where a method was to be entered, and ends the
    /// run.
    pub fn send<W: World>(
        &mut self,
        w: &mut W,
        selector: Oop,
        args: u32,
        above: Option<Oop>,
    ) -> SendEnd
        requires ready { IsReady (W.stored w.old) (W.view w.old) }
        requires births { (W.view w.old).rest.next ≤ 4611686018427387896 }
        requires selector { IsNamed (W.stored w.old) selector }
        requires above { IfSome above (λ o. IsNamed (W.stored w.old) o) }
        ensures sent { Sends (W.stored w.old) (W.stored w.new) (W.layout w.old) (W.layout w.new) (W.view w.old)
            (W.view w.new) (message_of (W.stored w.old) selector args above) result }
        ensures limit { (W.stored w.new).memory.limit ≡ (W.stored w.old).memory.limit }
        ensures still { Still result (w.new ≡ w.old) }
        ensures count { self.new ≡ lookup_counted
            (looks_up (W.view w.old) args (option_map (λ o. name_of (W.stored w.old) o) above)) self.old }
    {
        match self.resolve(w, selector, args, above) {
            Found::Primitive { method, number } => SendEnd::Primitive { method, number },
            Found::Plain { method } => match enter(w, method, args, false) {
                Ok(()) => SendEnd::Entered,
                Err(why) => SendEnd::Full(why),
            },
            Found::Missing => SendEnd::Stop(Stop::NotBuilt),
            Found::Stop(reason) => SendEnd::Stop(reason),
        }
    }

    /// Finds what a send leads to, and leaves the world as it is.
    fn resolve<W: World>(&mut self, w: &W, selector: Oop, args: u32, above: Option<Oop>) -> Found
        requires ready { IsReady (W.stored w.now) (W.view w.now) }
        requires selector { IsNamed (W.stored w.now) selector }
        requires above { IfSome above (λ o. IsNamed (W.stored w.now) o) }
        ensures found { resolved_by (W.stored w.now) result ≡ resolve_of (W.view w.now)
            (name_of (W.stored w.now) selector) args (option_map (λ o. name_of (W.stored w.now) o) above) }
        ensures method { FindsMethodNamed (W.stored w.now) (W.view w.now) result }
        ensures count { self.new ≡ lookup_counted
            (looks_up (W.view w.now) args (option_map (λ o. name_of (W.stored w.now) o) above)) self.old }
    {
        if w.depth() <= args {
            return Found::Stop(Stop::StackUnder);
        }
        let Some(class) = begins_at(w, args, above) else {
            return Found::Missing;
        };
        match self.look_up(w, class, selector) {
            cs_lookup::Found::Method(method) => resolve_method(w, method, args),
            cs_lookup::Found::Missing => Found::Missing,
            cs_lookup::Found::Loop => Found::Stop(Stop::ClassLoop),
        }
    }

    /// The lookup of a selector from a class on.
    fn look_up<W: World>(&mut self, w: &W, class: Oop, selector: Oop) -> cs_lookup::Found
        requires sound { IsSound (W.stored w.now) (W.view w.now) }
        requires class { IsNamed (W.stored w.now) class }
        requires selector { IsNamed (W.stored w.now) selector }
        ensures lookup { sought_of (W.stored w.now).memory.objects result ≡ lookup (W.view w.now)
            (name_of (W.stored w.now) class) (name_of (W.stored w.now) selector) }
        ensures method { LooksUpMethod (W.stored w.now) (W.view w.now) result }
        ensures count { self.new ≡ lookup_counted true self.old }
    {
        self.full_finds = self.full_finds.saturating_add(1);
        find(w.heap(), class, selector)
    }
}

/// Enters a method, or with `skip` enters it behind its primitive, which failed.
///
/// A refusal ends the run, so nothing is said of the world behind it.
pub fn enter<W: World>(w: &mut W, method: Oop, args: u32, skip: bool) -> Result<(), Full>
    requires ready { IsReady (W.stored w.old) (W.view w.old) }
    requires named { IsNamed (W.stored w.old) method }
    requires fits { CanEnter (W.view w.old) (name_of (W.stored w.old) method) args skip }
    ensures enters { OnOk result (Enters (W.stored w.old) (W.stored w.new) (W.layout w.old) (W.layout w.new)
        (W.view w.old) (W.view w.new) (enter_out (W.view w.old) (name_of (W.stored w.old) method) args skip)) }
    ensures full { IfErr result (RefusesSend (W.stored w.new) (W.layout w.old) (W.view w.old)
        (enter_out (W.view w.old) (name_of (W.stored w.old) method) args skip)) }
    ensures limit { (W.stored w.new).memory.limit ≡ (W.stored w.old).memory.limit }
{
    w.enter(method, args, skip)
}

/// Where a lookup begins; None exactly where the receiver has no class, or `above` is none.
fn begins_at<W: World>(w: &W, args: u32, above: Option<Oop>) -> Option<Oop>
    requires ready { IsReady (W.stored w.now) (W.view w.now) }
    requires there { args < depth_of (W.view w.now) }
    requires above { IfSome above (λ o. IsNamed (W.stored w.now) o) }
    ensures { NamesOption (W.stored w.now) result
        (begins_at (W.view w.now) args (option_map (λ o. name_of (W.stored w.now) o) above)) }
{
    match above {
        None => class_of(w, receiver(w, args)),
        Some(above) => slot(w, above, 3, 0),
    }
}

/// What a method that was found leads to.
fn resolve_method<W: World>(w: &W, method: Oop, args: u32) -> Found
    requires sound { IsSound (W.stored w.now) (W.view w.now) }
    requires method { IsMethodNamed (W.stored w.now) (W.view w.now) method }
    ensures found { resolved_by (W.stored w.now) result ≡ resolve_method (W.view w.now)
        (name_of (W.stored w.now) method) args }
    ensures method { FindsMethodNamed (W.stored w.now) (W.view w.now) result }
{
    if argument_count(w, method) != args {
        return Found::Stop(Stop::BadArgs);
    }
    match primitive(w, method) {
        Some(number) => Found::Primitive { method, number },
        None => Found::Plain { method },
    }
}
