// Writes a scan event that was found to lent slices, whatever its layout.
#![tactic(auto)]

ghost use Rattle.std.specs.Prelude.{◌≡◌, true, [], ◌∷◌, length};
ghost use Rattle.refusal.specs.Number.{outcome_of};
ghost use Rattle.lists.specs.Left.{fits, lengths, over_all, LeftLists};
ghost use Rattle.event_reactions.specs.Reactions.{in_source};
ghost use Rattle.event_record.specs.Event.{event_lists, event_if_fits};
ghost use Rattle.event_record.specs.Places.{event_in, event_at};

use event_preamble::decode;
use event_reactions::{count_reactions, write_reactions};
use event_record::{EventAndNext, Lists, Places, ScanEvent, activation};
use lists::fits;
use reader::{bytes, copy, copy_bytes, saturating_add};
use refusal::Refusal;

// The lists of an event, over the fronts of slices that hold them.
fn write_lists(
    bytes: &[u8],
    body: &[u8],
    j: Lists,
    preamble: &mut [u8],
    precursors: &mut [u64],
    energies: &mut [u64],
    coefficients: &mut [u64],
)
    requires { fits (length bytes.now ∷ length (in_source body.now j.reactions) ∷ length (in_source body.now j.reactions) ∷ j.coefficients ∷ [])
        (lengths (preamble.old ∷ precursors.old ∷ energies.old ∷ coefficients.old ∷ [])) ≡ true }
    ensures { (preamble.new ∷ precursors.new ∷ energies.new ∷ coefficients.new ∷ [])
        ≡ over_all (event_lists (event_in bytes.now body.now j)) (preamble.old ∷ precursors.old ∷ energies.old ∷ coefficients.old ∷ []) }
{
    let _ = copy_bytes(bytes, 0, bytes.len() as u64, preamble);
    let _ = write_reactions(body, j.reactions, precursors, energies);
    let _ = copy::<u64>(body, j.coefficients_at, 8, j.coefficients, coefficients);
}

// The event of a preamble and a body, where the slices hold it.
fn write_if_fits(
    bytes: &[u8],
    body: &[u8],
    j: Lists,
    next: u64,
    preamble: &mut [u8],
    precursors: &mut [u64],
    energies: &mut [u64],
    coefficients: &mut [u64],
) -> Result<EventAndNext, Refusal>
    ensures { LeftLists (λ c. event_if_fits c (event_in bytes.now body.now j) next)
        (preamble.old ∷ precursors.old ∷ energies.old ∷ coefficients.old ∷ [])
        (outcome_of result) (preamble.new ∷ precursors.new ∷ energies.new ∷ coefficients.new ∷ []) }
{
    let len = bytes.len() as u64;
    let count = count_reactions(body, j.reactions);
    if fits(
        [len, count, count, j.coefficients],
        [
            preamble.len(),
            precursors.len(),
            energies.len(),
            coefficients.len(),
        ],
    ) {
        write_lists(bytes, body, j, preamble, precursors, energies, coefficients);
        let event = ScanEvent {
            preamble_len: len,
            reactions: count,
            coefficients: j.coefficients,
            window: j.window.window,
            low_mz: j.window.low,
            high_mz: j.window.high,
            preamble: decode(bytes),
            activation: activation(bytes, &precursors[..count as usize]),
        };
        return Ok(EventAndNext { event, next });
    }
    Err(Refusal::NoRoom)
}

// The event at these places of the run, where the slices hold it. Bytes after the run's end are none of the preamble or the
// body, and a number that reaches after the body's end has zeros there.
pub fn write_event(
    run: &[u8],
    p: Places,
    preamble: &mut [u8],
    precursors: &mut [u64],
    energies: &mut [u64],
    coefficients: &mut [u64],
) -> Result<EventAndNext, Refusal>
    ensures { LeftLists (λ c. event_if_fits c (event_at run.now p) p.next)
        (preamble.old ∷ precursors.old ∷ energies.old ∷ coefficients.old ∷ [])
        (outcome_of result) (preamble.new ∷ precursors.new ∷ energies.new ∷ coefficients.new ∷ []) }
{
    let body = saturating_add(p.preamble, p.preamble_len);
    write_if_fits(
        bytes(run, p.preamble, p.preamble_len),
        bytes(run, body, p.next.saturating_sub(body)),
        p.lists,
        p.next,
        preamble,
        precursors,
        energies,
        coefficients,
    )
}
