//! Sends, which are left to who asked for the instruction.
ghost use Rattle.std.specs.Prelude.{◌≡◌};
ghost use Rattle.cs_model.specs.Exec.{argument_count_in, send_literal_out, send_selector_out, send_super_out};
ghost use Rattle.cs_model.specs.Exec.{special_send_out};
ghost use Rattle.cs_acts.specs.Names.{IsNamed, Store, name_of};
ghost use Rattle.cs_acts.specs.Ready.{IsReady};
ghost use Rattle.cs_code.specs.Gives.{Gives};

use crate::CodeEnd;
use crate::variables::variable_value;
use cs_acts::World;
use cs_acts::read::{literal, literal_count, slot, special as special_object};
use cs_model::Stop;
use cs_word::{Kind, Oop};

/// The special object that holds the special selectors.
const SPECIAL_SELECTORS: u32 = 23;

/// Sends the selector that a literal is.
#[tactic(auto, unfolding(cs_model::specs::Exec::send_literal_out))]
pub fn send<W: World>(w: &W, lit: u8, args: u8) -> CodeEnd
    requires { IsReady (W.stored w.now) (W.view w.now) }
    ensures { Gives (W.stored w.now) (W.stored w.now) (W.layout w.now) (W.view w.now) result
        (send_literal_out (W.view w.now) lit args) }
{
    match literal(w, u32::from(lit)) {
        Some(selector) => CodeEnd::Send {
            selector,
            args: u32::from(args),
            above: None,
        },
        None => CodeEnd::Stop(Stop::BadLiteral),
    }
}

/// Sends the selector that a literal is, looked up from the superclass of the method's class, which the last literal
/// names.
#[tactic(auto, unfolding(cs_model::specs::Exec::send_super_out))]
pub fn send_super<W: World>(w: &W, lit: u8, args: u8) -> CodeEnd
    requires { IsReady (W.stored w.now) (W.view w.now) }
    ensures { Gives (W.stored w.now) (W.stored w.now) (W.layout w.now) (W.view w.now) result
        (send_super_out (W.view w.now) lit args) }
{
    let Some(selector) = literal(w, u32::from(lit)) else {
        return CodeEnd::Stop(Stop::BadLiteral);
    };
    let Some(class) = variable_value(w, literal_count(w).saturating_sub(1)) else {
        return CodeEnd::Stop(Stop::BadLiteral);
    };
    CodeEnd::Send {
        selector,
        args: u32::from(args),
        above: Some(class),
    }
}

/// Sends the selector that is a special object.
#[tactic(auto, unfolding(cs_model::specs::Exec::special_send_out))]
pub fn send_special<W: World>(w: &W, special: u32, args: u32) -> CodeEnd
    requires { IsReady (W.stored w.now) (W.view w.now) }
    ensures { Gives (W.stored w.now) (W.stored w.now) (W.layout w.now) (W.view w.now) result
        (special_send_out (W.view w.now) special args) }
{
    match special_object(w, special) {
        Some(selector) => CodeEnd::Send {
            selector,
            args,
            above: None,
        },
        None => CodeEnd::Stop(Stop::BadSpecial),
    }
}

/// Sends special selector `i`: slots 2 `i` and 2 `i` + 1 of special object 23 are the selector and its argument count.
#[tactic(auto, unfolding(cs_model::specs::Exec::send_selector_out, cs_model::specs::Exec::selector_pair))]
pub fn send_selector<W: World>(w: &W, i: u16) -> CodeEnd
    requires { IsReady (W.stored w.now) (W.view w.now) }
    ensures { Gives (W.stored w.now) (W.stored w.now) (W.layout w.now) (W.view w.now) result
        (send_selector_out (W.view w.now) i) }
{
    let i = u32::from(i);
    let Some(table) = special_object(w, SPECIAL_SELECTORS) else {
        return CodeEnd::Stop(Stop::BadSpecial);
    };
    let Some(selector) = slot(w, table, 2 * i + 2, 2 * i) else {
        return CodeEnd::Stop(Stop::BadSpecial);
    };
    let Some(count) = slot(w, table, 2 * i + 2, 2 * i + 1) else {
        return CodeEnd::Stop(Stop::BadSpecial);
    };
    match argument_count(count) {
        Some(args) => CodeEnd::Send {
            selector,
            args,
            above: None,
        },
        None => CodeEnd::Stop(Stop::BadSpecial),
    }
}

/// The argument count that a word is: a SmallInteger from 0 to 15.
#[tactic(auto, unfolding(cs_classes::specs::Meaning::ref_of, cs_classes::specs::Sound::is_reference))]
fn argument_count(word: Oop) -> Option<u32>
    ensures { (s : Store) → IsNamed s word → result ≡ argument_count_in (name_of s word) }
{
    match word.kind() {
        Kind::Small(count) if (0..16).contains(&count) => Some(count as u32),
        _ => None,
    }
}
