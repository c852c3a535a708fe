// Scan events from version 66 on, whose body has a size that the caller gives (`read_v66` of scan_event.rs).
#![tactic(auto)]

ghost use Rattle.std.specs.Prelude.{◌≡◌, ◌&&◌, not, cond, eqb};
ghost use Rattle.refusal.specs.Number.{outcome_of};
ghost use Rattle.event_reactions.specs.declared.Source.TheVariants.{Every, Sought};
ghost use Rattle.event_record.specs.Places.{find_by};
ghost use Rattle.event_from_66.specs.Layout.{sought, lists_from_66, from_66};

use event_coefficients::{coefficient_count, word_offset};
use event_preamble::is_primary;
use event_reactions::Source;
use event_record::{Lists, Places};
use event_window::find_window;
use reader::{bytes, remaining};
use refusal::{Part, Refusal};

// Where the reactions of an event stand. A primary event has none.
fn reactions_of(bytes: &[u8], tribrid: bool) -> Source
    ensures { result ≡ cond (sought bytes.now) (Sought tribrid) (Every 0 0 0) }
{
    if is_primary(bytes) {
        Source::Every {
            from: 0,
            stride: 0,
            count: 0,
        }
    } else {
        Source::Sought { tribrid }
    }
}

// Where the lists of a body stand, and its window.
fn lists_of(bytes: &[u8], body: &[u8], tribrid: bool) -> Lists
    ensures { result ≡ lists_from_66 bytes.now body.now tribrid }
{
    let window = find_window(body, tribrid);
    let word = word_offset(window.offset, body.len() as u64, is_primary(bytes));
    Lists {
        reactions: reactions_of(bytes, tribrid),
        coefficients_at: word + 4,
        coefficients: coefficient_count(body, word),
        window,
    }
}

// The size of an event's body.
fn body_size(primary: bool, body_primary: u32, body_dependent: u32) -> u32
    ensures { result ≡ cond primary body_primary body_dependent }
{
    if primary {
        body_primary
    } else {
        body_dependent
    }
}

fn is_tribrid(primary: bool, body_primary: u32, body_dependent: u32) -> bool
    ensures { result ≡ (not (eqb body_primary body_dependent) && not primary) }
{
    body_primary != body_dependent && !primary
}

// The event at a place of the run. Nothing is written.
pub fn find_from_66(
    run: &[u8],
    at: u64,
    body_primary: u32,
    body_dependent: u32,
) -> Result<Places, Refusal>
    ensures { outcome_of result ≡ find_by (from_66 body_primary body_dependent) at run.now }
{
    if remaining(run, at) < 136 {
        return Err(Refusal::Short(Part::Event));
    }
    let preamble = bytes(run, at, 136);
    let primary = is_primary(preamble);
    let body = at + 136;
    let size = body_size(primary, body_primary, body_dependent) as u64;
    if remaining(run, body) < size {
        return Err(Refusal::Short(Part::Event));
    }
    let tribrid = is_tribrid(primary, body_primary, body_dependent);
    Ok(Places {
        preamble: at,
        preamble_len: 136,
        lists: lists_of(preamble, bytes(run, body, size), tribrid),
        next: body + size,
    })
}
