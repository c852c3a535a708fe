// Every channel of a method's bytes that belongs to an event of the run (`flatv66_event_channels` of reader.rs). The event
// numbers are a slice. A record may start at any place, so every place is tested.
#![tactic(auto)]

ghost use Rattle.std.specs.Prelude.{◌≡◌, [], ◌∷◌, map, ◌+◌, ◌-◌, ◌≤◌, ◌<◌, length};
ghost use Rattle.refusal.specs.Number.{outcome_of};
ghost use Rattle.lists.specs.Written.{over};
ghost use Rattle.lists.specs.Left.{LeftLists};
ghost use Rattle.parser.specs.Parser.{word_at};
ghost use Rattle.srm_channels.specs.Channels.{is_event, from_up_to, channel_test, channel_at, channels_in, channel_list};

use lists::fits;
use reader::{remaining, u32_at, u64_at};
use refusal::Refusal;
use srm_transition::{f64_at, narrow_window};

// An event's number, and the bits of two f64 numbers.
#[derive(Clone, Copy)]
pub struct Channel {
    pub event: u16,
    pub q1: u64,
    pub collision_energy: u64,
}

// A number that stands twice among the events is found once.
fn is_event(id: u32, events: &[u16]) -> bool
    ensures { result ≡ is_event id events.now }
{
    events.iter().any(|&event| event as u32 == id)
}

fn from_up_to(x: f64, low: f64, high: f64) -> bool
    ensures { result ≡ from_up_to low high x }
{
    low <= x && x < high
}

// The events are looked through only where the window is plausible.
fn is_channel(data: &[u8], events: &[u16], i: u64) -> bool
    requires { (24 ≤ i) × (i + 48 ≤ length «data».now) }
    ensures { result ≡ channel_test events.now «data».now i }
{
    let hi = f64_at(data, i);
    if !narrow_window(f64_at(data, i - 8), hi) {
        return false;
    }
    if !from_up_to(hi, 5.0, 2000.0) {
        return false;
    }
    if !is_event(u32_at(data, i - 24), events) {
        return false;
    }
    if !from_up_to(f64_at(data, i - 16), 10.0, 3000.0) {
        return false;
    }
    from_up_to(f64_at(data, i + 8), 0.0, 500.0)
}

fn channel_at(data: &[u8], i: u64) -> Channel
    requires le_i { (24 ≤ i) × (i + 48 ≤ length «data».now) }
    requires i_bound { word_at «data».now (i - 24) 4 < 65536 }
    ensures { result ≡ channel_at «data».now i }
{
    Channel {
        event: u32_at(data, i - 24) as u16,
        q1: u64_at(data, i - 16),
        collision_energy: u64_at(data, i + 8),
    }
}

fn count_channels(data: &[u8], events: &[u16]) -> usize
    ensures { result ≡ length (channels_in events.now «data».now) }
{
    let mut count = 0;
    for i in 24..remaining(data, 48) {
        if is_channel(data, events, i) {
            count += 1;
        }
    }
    count
}

// Writes the channels over the fronts of three slices that have room for all of them.
fn write_channels(
    data: &[u8],
    events: &[u16],
    channel_events: &mut [u16],
    q1: &mut [u64],
    collision_energy: &mut [u64],
)
    requires data_in_bounds { length (channels_in events.now «data».now) ≤ length channel_events.old }
    requires data_in_bounds_2 { length (channels_in events.now «data».now) ≤ length q1.old }
    requires data_in_bounds_3 { length (channels_in events.now «data».now) ≤ length collision_energy.old }
    ensures channel_events_after { channel_events.new ≡ over (map (λ c. c.event) (channels_in events.now «data».now)) channel_events.old }
    ensures q1_after { q1.new ≡ over (map (λ c. c.q1) (channels_in events.now «data».now)) q1.old }
    ensures collision_energy_after { collision_energy.new ≡ over (map (λ c. c.collision_energy) (channels_in events.now «data».now)) collision_energy.old }
{
    let mut written = 0;
    for i in 24..remaining(data, 48) {
        if is_channel(data, events, i) {
            let channel = channel_at(data, i);
            channel_events[written] = channel.event;
            q1[written] = channel.q1;
            collision_energy[written] = channel.collision_energy;
            written += 1;
        }
    }
}

// The channels in the order of their places, over the fronts of the lent slices. The bytes are walked twice, since a slice
// may be too short and only the last place tells how many channels there are: nothing is written before that is known.
pub fn flatv66_event_channels(
    data: &[u8],
    events: &[u16],
    channel_events: &mut [u16],
    q1: &mut [u64],
    collision_energy: &mut [u64],
) -> Result<u64, Refusal>
    ensures { LeftLists (channel_list events.now «data».now) (channel_events.old ∷ q1.old ∷ collision_energy.old ∷ [])
        (outcome_of result) (channel_events.new ∷ q1.new ∷ collision_energy.new ∷ []) }
{
    let count = count_channels(data, events);
    let n = count as u64;
    if fits(
        [n, n, n],
        [channel_events.len(), q1.len(), collision_energy.len()],
    ) {
        write_channels(data, events, channel_events, q1, collision_energy);
        return Ok(n);
    }
    Err(Refusal::NoRoom)
}
